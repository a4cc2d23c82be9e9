ghost use Rattle.std.specs.Prelude.{◌≡◌, ◌<◌, ◌≤◌, ◌+◌, IsTrue, IfOk, IfErr, None, Some, false, [], ◌∷◌};
ghost use Rattle.abi_num.specs.Target.{is_row};
ghost use Rattle.abi_bits.specs.Forbidden.{alone, range, tree, tree_of};
ghost use Rattle.abi_det.specs.Frame.{IsLawful};
ghost use Rattle.abi_layout.specs.Faults.{IsFault, prim_fault};
ghost use Rattle.abi_layout.specs.PartView.{shape};
ghost use Rattle.abi_layout.specs.Shape.{scalar, atom};
ghost use Rattle.abi_layout.specs.Prims.{pointer_width, kind_width, is_signed, kind_align, integer, plain_integer, restricted, is_form, row_of, scalar_of, is_never_null, pointer_row, zero_bytes, scalar_items, row_frame, prim_frame, uint_frame};

use crate::builders::bare;
use crate::desc::PointerKind;
use crate::desc_error::DescError;
use crate::laid_part::LaidPart;
use crate::numbering::MAX_PARTS;
use crate::part::Part;
use crate::prim::{Form, IntKind, Primitive as Prim};
use crate::scalar::{Integer, Scalar, Stored, Width};
use abi_bits::{BitMask, ForbiddenValues, MAX_SIZE, Pattern, SaturatingAddValue};
use abi_det::{Layout, RawLayout};
use abi_num::{Alignment, Items, OutOfMemory, Target};
use std::alloc::Global;

/// A row of the table of primitives: how one stands in its bytes, and what its layout says beside.
#[derive(Debug, Clone, Copy, PartialEq, Eq)]
pub struct Row {
    /// How its values stand in its bytes.
    pub scalar: Scalar,
    /// Alignment in bytes.
    pub align: u64,
    /// The count of its niches.
    pub niches: SaturatingAddValue,
    /// Whether it holds a pointer.
    pub indirections: bool,
}

impl IntKind {
    /// The size of the integers of this kind on a target.
    pub fn width(self, target: &Target) -> Width
        ensures { result ≡ kind_width target.now self }
    {
        match self {
            IntKind::U8 | IntKind::I8 => Width::One,
            IntKind::U16 | IntKind::I16 => Width::Two,
            IntKind::U32 | IntKind::I32 => Width::Four,
            IntKind::U64 | IntKind::I64 => Width::Eight,
            IntKind::U128 | IntKind::I128 => Width::Sixteen,
            IntKind::Usize | IntKind::Isize => pointer_width(target),
        }
    }

    /// Whether some of them lie below 0.
    pub fn is_signed(self) -> bool
        ensures { result ≡ is_signed self }
    {
        match self {
            IntKind::U8 | IntKind::U16 | IntKind::U32 => false,
            IntKind::U64 | IntKind::U128 | IntKind::Usize => false,
            IntKind::I8 | IntKind::I16 | IntKind::I32 => true,
            IntKind::I64 | IntKind::I128 | IntKind::Isize => true,
        }
    }

    /// The alignment in bytes of a plain integer of this kind on a target.
    fn align(self, target: &Target) -> u64
        ensures { result ≡ kind_align target.now self }
    {
        match self {
            IntKind::U64 | IntKind::I64 => target.u64_align,
            IntKind::U128 | IntKind::I128 => target.u128_align,
            IntKind::Usize | IntKind::Isize => target.pointer,
            IntKind::U8 | IntKind::I8 => 1,
            IntKind::U16 | IntKind::I16 => 2,
            IntKind::U32 | IntKind::I32 => 4,
        }
    }
}

/// The size of a pointer on a target.
fn pointer_width(target: &Target) -> Width
    ensures { result ≡ pointer_width target.now }
{
    match target.pointer {
        2 => Width::Two,
        4 => Width::Four,
        _ => Width::Eight,
    }
}

/// The row of a primitive on a target, by what it is.
pub fn row_of(target: &Target, form: Form) -> Row
    ensures { result ≡ row_of target.now form }
{
    match form {
        Form::Unit => small(Scalar::Unit, SaturatingAddValue::B0),
        Form::Truth => small(Scalar::Bool, SaturatingAddValue::Saturator),
        Form::Order => small(Scalar::Order, SaturatingAddValue::Saturator),
        Form::Integer(kind) => plain_integer(target, kind),
        Form::Atomic(kind) => Row {
            align: kind.width(target).bytes(),
            ..plain_integer(target, kind)
        },
        Form::NonZero(kind) => restricted(target, kind, Stored::Itself),
        Form::NonMax(kind) => restricted(target, kind, Stored::Complement),
        Form::NonX {
            kind,
            magnitude,
            negative,
        } => {
            restricted(
                target,
                kind,
                Stored::Distance {
                    magnitude,
                    negative,
                },
            )
        }
        Form::Descriptor => Row {
            niches: SaturatingAddValue::Saturator,
            indirections: true,
            ..plain_integer(target, IntKind::I32)
        },
        Form::Function => Row {
            indirections: true,
            ..restricted(target, IntKind::Usize, Stored::Itself)
        },
    }
}

/// The row of a pointer on a target.
pub fn pointer_row(target: &Target, kind: PointerKind) -> Row
    ensures { result ≡ pointer_row target.now kind }
{
    if is_never_null(kind) {
        return row_of(target, Form::Function);
    }
    Row {
        indirections: true,
        ..plain_integer(target, IntKind::Usize)
    }
}

/// Whether a pointer is never null.
fn is_never_null(kind: PointerKind) -> bool
    ensures { result ≡ is_never_null kind }
{
    match kind {
        PointerKind::ConstPtr | PointerKind::MutPtr | PointerKind::AtomicPtr => false,
        PointerKind::NonNull | PointerKind::Ref | PointerKind::RefMut => true,
    }
}

/// The row of what has no bytes, or one byte of few values.
fn small(scalar: Scalar, niches: SaturatingAddValue) -> Row
    ensures { result
        ≡ record { scalar = scalar; align = 1; niches = niches; indirections = false } }
{
    Row {
        scalar,
        align: 1,
        niches,
        indirections: false,
    }
}

/// An integer of the target: whether its bytes may all be 0, and what stands in them.
fn integer(target: &Target, kind: IntKind, zero: bool, stored: Stored) -> Scalar
    ensures { result ≡ integer target.now kind zero stored }
{
    Scalar::Int(Integer {
        width: kind.width(target),
        signed: kind.is_signed(),
        zero,
        little: target.little,
        stored,
    })
}

/// The row of an integer of any number.
fn plain_integer(target: &Target, kind: IntKind) -> Row
    ensures { result ≡ plain_integer target.now kind }
{
    Row {
        scalar: integer(target, kind, true, Stored::Itself),
        align: kind.align(target),
        niches: SaturatingAddValue::B0,
        indirections: false,
    }
}

/// The row of an integer whose bytes are never all 0.
fn restricted(target: &Target, kind: IntKind, stored: Stored) -> Row
    ensures { result ≡ restricted target.now kind stored }
{
    Row {
        scalar: integer(target, kind, false, stored),
        align: kind.align(target),
        niches: SaturatingAddValue::B1,
        indirections: false,
    }
}

/// Lays out a primitive as part number `part`, on a supported target. Refused where its form is
/// broken: where what it never is is none of its kind.
pub(crate) fn lay_out_prim(
    alloc: Global,
    target: &Target,
    part: u32,
    prim: Prim,
) -> Result<LaidPart, DescError>
    requires row { IsTrue (is_row target.now) }
    requires room { part < MAX_PARTS }
    ensures faultless { IfOk result (λ _. prim_fault target.now part prim ≡ None) }
    ensures part { IfOk result (λ f. shape f.part ≡ atom (scalar (scalar_of target.now prim))) }
    ensures layout { IfOk result (λ f. f.layout ≡ prim_frame target.now prim) }
    ensures next { IfOk result (λ f. f.next ≡ part + 1) }
    ensures err { IfErr result (IsFault (prim_fault target.now part prim)) }
{
    let form = prim.form();
    if !is_form(target, form) {
        return Err(DescError::IllFormed { part });
    }
    let row = row_of(target, form);
    let layout = row_layout(alloc, row)?;
    Ok(LaidPart {
        part: Part::Scalar(row.scalar),
        layout,
        next: part + 1,
    })
}

/// The part `()`, which has no number of its own; `next` is the number after what comes before it.
pub(crate) fn unit_part(alloc: Global, target: &Target, next: u32) -> Result<LaidPart, OutOfMemory>
    requires row { IsTrue (is_row target.now) }
    ensures part { IfOk result (λ f. shape f.part ≡ atom (scalar Scalar.Unit)) }
    ensures layout { IfOk result (λ f. f.layout ≡ prim_frame target.now Prim.Unit) }
    ensures next { IfOk result (λ f. f.next ≡ next) }
{
    let layout = prim_layout(alloc, target, &Prim::Unit)?;
    Ok(LaidPart {
        part: Part::Scalar(Scalar::Unit),
        layout,
        next,
    })
}

/// Whether a primitive keeps the rule of its form: an integer that is never one number has a
/// number of its kind there.
fn is_form(target: &Target, form: Form) -> bool
    ensures { result ≡ is_form target.now form }
{
    match form {
        Form::NonX {
            kind,
            magnitude,
            negative,
        } => kind
            .width(target)
            .holds(kind.is_signed(), magnitude, negative),
        _ => true,
    }
}

/// The layout of a primitive on a target, which is a supported one.
pub fn prim_layout(alloc: Global, target: &Target, prim: &Prim) -> Result<Layout, OutOfMemory>
    requires { IsTrue (is_row target.now) }
    ensures { IfOk result (λ l. l ≡ prim_frame target.now prim.now) }
{
    let layout = row_layout(alloc, row_of(target, prim.form()))?;
    Ok(layout)
}

/// The layout of unsigned integers of that alignment: those up to 16 bytes are the target's own;
/// larger ones have as many bytes. The target is a supported one.
pub fn as_uint(alloc: Global, target: &Target, align: Alignment) -> Result<Layout, OutOfMemory>
    requires { IsTrue (is_row target.now) }
    ensures { IfOk result (λ l. l ≡ uint_frame target.now align) }
{
    match align.get() {
        1 => prim_layout(alloc, target, &Prim::U8),
        2 => prim_layout(alloc, target, &Prim::U16),
        4 => prim_layout(alloc, target, &Prim::U32),
        8 => prim_layout(alloc, target, &Prim::U64),
        16 => prim_layout(alloc, target, &Prim::U128),
        size => Ok(bare(alloc, size, size, SaturatingAddValue::Saturator, false)),
    }
}

/// The layout of what has this row, on a supported target.
pub(crate) fn row_layout(alloc: Global, row: Row) -> Result<Layout, OutOfMemory>
    requires { IsLawful (row_frame row) }
    ensures { IfOk result (λ l. l ≡ row_frame row) }
{
    let forbidden = forbidden_of(alloc, row.scalar)?;
    Ok(Layout::from_lawful(RawLayout {
        size: row.scalar.size(),
        align: row.align,
        forbidden,
        unused: BitMask::new(alloc),
        niches: row.niches,
        indirections: row.indirections,
    }))
}

/// What the bytes never are.
fn forbidden_of(alloc: Global, scalar: Scalar) -> Result<ForbiddenValues, OutOfMemory>
    ensures { IfOk result (λ forbidden. tree forbidden ≡ tree_of (scalar_items scalar)) }
{
    match scalar {
        Scalar::Unit => Ok(ForbiddenValues::End),
        Scalar::Bool => Ok(from_two(255)),
        Scalar::Order => Ok(from_two(254)),
        Scalar::Int(integer) => {
            if integer.zero {
                return Ok(ForbiddenValues::End);
            }
            let zero = zero_pattern(alloc, integer.width.bytes())?;
            Ok(ForbiddenValues::Array(zero))
        }
    }
}

/// The values of the first byte from 2 to `max`.
fn from_two(max: u8) -> ForbiddenValues
    ensures { tree result ≡ alone (range 0 2 max) }
{
    ForbiddenValues::ForbiddenRange {
        min: 2,
        max,
        offset: 0,
    }
}

/// The pattern of `width` bytes of 0, at least one and at most `MAX_SIZE`.
#[tactic(auto, using(crate::proofs::Zeros::one_zero_more, crate::proofs::Zeros::zeros_are_pattern))]
fn zero_pattern(alloc: Global, width: u64) -> Result<Pattern, OutOfMemory>
    requires some { 0 < width }
    requires within { width ≤ MAX_SIZE }
    ensures { IfOk result (λ pattern. pattern ≡ zero_bytes width) }
{
    let mut pairs = Items::new(alloc);
    for at in 0..width {
        pairs.push((at, 0))?;
    }
    match Pattern::new(alloc, pairs.as_slice())? {
        Some(pattern) => Ok(pattern),
        None => unreachable!(),
    }
}
