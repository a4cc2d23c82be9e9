/// A primitive type, by its name.
#[derive(Debug, Clone, Copy, PartialEq, Eq)]
pub enum Primitive {
    /// `()`
    Unit,
    /// `PhantomData`
    PhantomData,
    /// `PhantomPinned`
    PhantomPinned,
    /// `c_void`
    CVoid,
    /// `bool`
    Bool,
    /// `Ordering`
    Ordering,
    /// `u8`
    U8,
    /// `u16`
    U16,
    /// `u32`
    U32,
    /// `u64`
    U64,
    /// `u128`
    U128,
    /// `usize`
    Usize,
    /// `i8`
    I8,
    /// `i16`
    I16,
    /// `i32`
    I32,
    /// `i64`
    I64,
    /// `i128`
    I128,
    /// `isize`
    Isize,
    /// `AtomicBool`
    AtomicBool,
    /// `AtomicU8`
    AtomicU8,
    /// `AtomicU16`
    AtomicU16,
    /// `AtomicU32`
    AtomicU32,
    /// `AtomicU64`
    AtomicU64,
    /// `AtomicUsize`
    AtomicUsize,
    /// `AtomicI8`
    AtomicI8,
    /// `AtomicI16`
    AtomicI16,
    /// `AtomicI32`
    AtomicI32,
    /// `AtomicI64`
    AtomicI64,
    /// `AtomicIsize`
    AtomicIsize,
    /// `NonZeroU8`
    NonZeroU8,
    /// `NonZeroU16`
    NonZeroU16,
    /// `NonZeroU32`
    NonZeroU32,
    /// `NonZeroU64`
    NonZeroU64,
    /// `NonZeroU128`
    NonZeroU128,
    /// `NonZeroUsize`
    NonZeroUsize,
    /// `NonZeroI8`
    NonZeroI8,
    /// `NonZeroI16`
    NonZeroI16,
    /// `NonZeroI32`
    NonZeroI32,
    /// `NonZeroI64`
    NonZeroI64,
    /// `NonZeroI128`
    NonZeroI128,
    /// `NonZeroIsize`
    NonZeroIsize,
    /// `NonMaxU8`
    NonMaxU8,
    /// `NonMaxU16`
    NonMaxU16,
    /// `NonMaxU32`
    NonMaxU32,
    /// `NonMaxU64`
    NonMaxU64,
    /// `NonMaxU128`
    NonMaxU128,
    /// `NonMaxUsize`
    NonMaxUsize,
    /// An integer that is never one number, which must be one of its kind.
    NonX {
        /// The kind of integer.
        kind: IntKind,
        /// The distance from 0 of the number that it never is.
        magnitude: u128,
        /// Whether that number lies below 0.
        negative: bool,
    },
    /// `OwnedFd`
    OwnedFd,
    /// `BorrowedFd`
    BorrowedFd,
    /// `fn`
    FnPtr,
}

/// A kind of integers.
#[derive(Debug, Clone, Copy, PartialEq, Eq)]
pub enum IntKind {
    /// `u8`
    U8,
    /// `u16`
    U16,
    /// `u32`
    U32,
    /// `u64`
    U64,
    /// `u128`
    U128,
    /// `usize`
    Usize,
    /// `i8`
    I8,
    /// `i16`
    I16,
    /// `i32`
    I32,
    /// `i64`
    I64,
    /// `i128`
    I128,
    /// `isize`
    Isize,
}

/// What a primitive is, whatever its name.
#[derive(Debug, Clone, Copy, PartialEq, Eq)]
pub enum Form {
    /// One value, in no bytes.
    Unit,
    /// A truth value.
    Truth,
    /// The outcome of a comparison.
    Order,
    /// An integer of its kind.
    Integer(IntKind),
    /// An integer that threads may share.
    Atomic(IntKind),
    /// An integer but 0.
    NonZero(IntKind),
    /// An integer but the greatest.
    NonMax(IntKind),
    /// An integer but one number.
    NonX {
        /// The kind of integer.
        kind: IntKind,
        /// The distance from 0 of the number that it never is.
        magnitude: u128,
        /// Whether that number lies below 0.
        negative: bool,
    },
    /// A file descriptor.
    Descriptor,
    /// The address of a function.
    Function,
}

impl Primitive {
    ghost use Rattle.std.specs.Prelude.{◌≡◌};
    ghost use Rattle.abi_layout.specs.Forms.{form_of};

    /// What the primitive is.
    pub fn form(self) -> Form
        ensures { result ≡ form_of self }
    {
        match self {
            Primitive::Unit => Form::Unit,
            Primitive::PhantomData => Form::Unit,
            Primitive::PhantomPinned => Form::Unit,
            Primitive::CVoid => Form::Unit,
            Primitive::Bool => Form::Truth,
            Primitive::Ordering => Form::Order,
            Primitive::U8 => Form::Integer(IntKind::U8),
            Primitive::U16 => Form::Integer(IntKind::U16),
            Primitive::U32 => Form::Integer(IntKind::U32),
            Primitive::U64 => Form::Integer(IntKind::U64),
            Primitive::U128 => Form::Integer(IntKind::U128),
            Primitive::Usize => Form::Integer(IntKind::Usize),
            Primitive::I8 => Form::Integer(IntKind::I8),
            Primitive::I16 => Form::Integer(IntKind::I16),
            Primitive::I32 => Form::Integer(IntKind::I32),
            Primitive::I64 => Form::Integer(IntKind::I64),
            Primitive::I128 => Form::Integer(IntKind::I128),
            Primitive::Isize => Form::Integer(IntKind::Isize),
            Primitive::AtomicBool => Form::Truth,
            Primitive::AtomicU8 => Form::Atomic(IntKind::U8),
            Primitive::AtomicU16 => Form::Atomic(IntKind::U16),
            Primitive::AtomicU32 => Form::Atomic(IntKind::U32),
            Primitive::AtomicU64 => Form::Atomic(IntKind::U64),
            Primitive::AtomicUsize => Form::Atomic(IntKind::Usize),
            Primitive::AtomicI8 => Form::Atomic(IntKind::I8),
            Primitive::AtomicI16 => Form::Atomic(IntKind::I16),
            Primitive::AtomicI32 => Form::Atomic(IntKind::I32),
            Primitive::AtomicI64 => Form::Atomic(IntKind::I64),
            Primitive::AtomicIsize => Form::Atomic(IntKind::Isize),
            Primitive::NonZeroU8 => Form::NonZero(IntKind::U8),
            Primitive::NonZeroU16 => Form::NonZero(IntKind::U16),
            Primitive::NonZeroU32 => Form::NonZero(IntKind::U32),
            Primitive::NonZeroU64 => Form::NonZero(IntKind::U64),
            Primitive::NonZeroU128 => Form::NonZero(IntKind::U128),
            Primitive::NonZeroUsize => Form::NonZero(IntKind::Usize),
            Primitive::NonZeroI8 => Form::NonZero(IntKind::I8),
            Primitive::NonZeroI16 => Form::NonZero(IntKind::I16),
            Primitive::NonZeroI32 => Form::NonZero(IntKind::I32),
            Primitive::NonZeroI64 => Form::NonZero(IntKind::I64),
            Primitive::NonZeroI128 => Form::NonZero(IntKind::I128),
            Primitive::NonZeroIsize => Form::NonZero(IntKind::Isize),
            Primitive::NonMaxU8 => Form::NonMax(IntKind::U8),
            Primitive::NonMaxU16 => Form::NonMax(IntKind::U16),
            Primitive::NonMaxU32 => Form::NonMax(IntKind::U32),
            Primitive::NonMaxU64 => Form::NonMax(IntKind::U64),
            Primitive::NonMaxU128 => Form::NonMax(IntKind::U128),
            Primitive::NonMaxUsize => Form::NonMax(IntKind::Usize),
            Primitive::NonX {
                kind,
                magnitude,
                negative,
            } => Form::NonX {
                kind,
                magnitude,
                negative,
            },
            Primitive::OwnedFd => Form::Descriptor,
            Primitive::BorrowedFd => Form::Descriptor,
            Primitive::FnPtr => Form::Function,
        }
    }
}
