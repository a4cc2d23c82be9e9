use crate::prim::Primitive;
use abi_bits::{Pairs, SaturatingAddValue};
use abi_num::{Items, Text};

/// The fields of a described struct, in order.
pub type FieldDescs = Items<Field>;

/// The forbidden items of a leaf, in order.
pub type Forbids = Items<Forbid>;

/// A field of a described struct.
#[cycle(desc)]
#[derive(Drop)]
pub struct Field {
    /// The field's name.
    pub name: Text,
    /// The field's type.
    pub ty: Desc,
}

/// Values that some bytes of a leaf never have. Offsets count from the leaf's first byte.
#[derive(Drop)]
pub enum Forbid {
    /// One value of some bytes: each byte's offset, and its value.
    Pattern(Pairs),
    /// Each value from `min` to `max` of the byte at `offset`.
    Range {
        /// The byte's offset.
        offset: u64,
        /// The least forbidden value.
        min: u8,
        /// The greatest forbidden value.
        max: u8,
    },
}

/// A type that is described by its layout alone.
#[derive(Drop)]
pub struct LeafDesc {
    /// The type's name.
    pub name: Text,
    /// The module that declares it.
    pub module: Text,
    /// Size in bytes.
    pub size: u64,
    /// Alignment in bytes.
    pub align: u64,
    /// Its free bits: each byte's offset, and the mask of its bits.
    pub free: Pairs,
    /// What its bytes never are.
    pub forbidden: Forbids,
    /// The count of its niches.
    pub niches: SaturatingAddValue,
    /// Whether it holds a pointer.
    pub indirections: bool,
}

/// What a wrapper is.
#[derive(Debug, Clone, Copy, PartialEq, Eq)]
pub enum WrapKind {
    /// `ManuallyDrop`
    ManuallyDrop,
    /// `MaybeUninit`
    MaybeUninit,
    /// `UnsafeCell`
    UnsafeCell,
    /// `Pin`
    Pin,
    /// `NotPod`
    NotPod,
    /// `Result` of a type and `Infallible`
    OrInfallible,
}

/// What a pointer is.
#[derive(Debug, Clone, Copy, PartialEq, Eq)]
pub enum PointerKind {
    /// `*const`
    ConstPtr,
    /// `*mut`
    MutPtr,
    /// `AtomicPtr`
    AtomicPtr,
    /// `NonNull`
    NonNull,
    /// `&`
    Ref,
    /// `&mut`
    RefMut,
}

/// A description of a type. Its parts are numbered from 0 in post-order: fields in order, `ok`
/// before `err`, a value before its condition, a pointee before its pointer, then the whole.
#[cycle(desc)]
#[derive(Drop)]
pub enum Desc {
    /// A primitive.
    Prim(Primitive),
    /// A struct.
    Struct {
        /// The type's name.
        name: Text,
        /// The module that declares it.
        module: Text,
        /// The version of its declaration.
        version: u32,
        /// Its fields in order.
        fields: FieldDescs,
        /// The alignment that is requested, in bytes.
        align: Option<u64>,
    },
    /// Several of one type, one after the other.
    Array {
        /// The type of each.
        item: Box<Desc>,
        /// How many.
        len: u64,
    },
    /// Two types in the same bytes, and nothing that tells which.
    Union {
        /// The first.
        ok: Box<Desc>,
        /// The second.
        err: Box<Desc>,
    },
    /// A packed sum of two.
    Result {
        /// What `Ok` holds.
        ok: Box<Desc>,
        /// What `Err` holds.
        err: Box<Desc>,
    },
    /// A packed sum of one type and nothing.
    Option {
        /// What `Some` holds.
        some: Box<Desc>,
    },
    /// A sum of one type and nothing, as the compiler lays it out: the type has one niche, a
    /// pattern, which means `None`.
    CoreOption {
        /// What `Some` holds.
        some: Box<Desc>,
    },
    /// A sum of two as the compiler lays it out: one has one niche, a pattern, which means the
    /// other; and the other has no bytes.
    CoreResult {
        /// What `Ok` holds.
        ok: Box<Desc>,
        /// What `Err` holds.
        err: Box<Desc>,
    },
    /// A wrapper of a type.
    Wrap {
        /// What the wrapper is.
        kind: WrapKind,
        /// What it wraps.
        inner: Box<Desc>,
    },
    /// A type, stable where another is.
    StableIf {
        /// The type.
        value: Box<Desc>,
        /// The other.
        cond: Box<Desc>,
    },
    /// A pointer.
    Pointer {
        /// What the pointer is.
        kind: PointerKind,
        /// What it points to.
        pointee: Box<Desc>,
    },
    /// Bytes of which nothing is known but their number.
    NoNiches {
        /// Size in bytes.
        size: u64,
        /// Alignment in bytes.
        align: u64,
        /// The count of niches.
        niches: SaturatingAddValue,
        /// Whether they hold a pointer.
        indirections: bool,
    },
    /// A type that is described by its layout alone.
    Leaf(LeafDesc),
}
