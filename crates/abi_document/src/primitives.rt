//! Primitives, from trees of JSON.

ghost use Rattle.std.specs.Prelude.{◌≡◌};
ghost use Rattle.serde_json.specs.View.{view};
ghost use Rattle.abi_document.specs.Primitives.{prim_named, kind_named, non_x_of};

use crate::forms::pair_of;
use crate::integers::integer_in;
use abi_layout::{IntKind, Prim};
use serde_json::Value as Json;

/// A primitive by its name; `None` exactly where no primitive has it. `NonX` has no name of its own.
#[tactic(auto, unfolding(crate::specs::Primitives::prim_named))]
pub fn prim_named(name: &str) -> Option<Prim>
    ensures { result ≡ prim_named name.now }
{
    match name {
        "()" => Some(Prim::Unit),
        "PhantomData" => Some(Prim::PhantomData),
        "PhantomPinned" => Some(Prim::PhantomPinned),
        "c_void" => Some(Prim::CVoid),
        "bool" => Some(Prim::Bool),
        "Ordering" => Some(Prim::Ordering),
        "u8" => Some(Prim::U8),
        "u16" => Some(Prim::U16),
        "u32" => Some(Prim::U32),
        "u64" => Some(Prim::U64),
        "u128" => Some(Prim::U128),
        "usize" => Some(Prim::Usize),
        "i8" => Some(Prim::I8),
        "i16" => Some(Prim::I16),
        "i32" => Some(Prim::I32),
        "i64" => Some(Prim::I64),
        "i128" => Some(Prim::I128),
        "isize" => Some(Prim::Isize),
        "AtomicBool" => Some(Prim::AtomicBool),
        "AtomicU8" => Some(Prim::AtomicU8),
        "AtomicU16" => Some(Prim::AtomicU16),
        "AtomicU32" => Some(Prim::AtomicU32),
        "AtomicU64" => Some(Prim::AtomicU64),
        "AtomicUsize" => Some(Prim::AtomicUsize),
        "AtomicI8" => Some(Prim::AtomicI8),
        "AtomicI16" => Some(Prim::AtomicI16),
        "AtomicI32" => Some(Prim::AtomicI32),
        "AtomicI64" => Some(Prim::AtomicI64),
        "AtomicIsize" => Some(Prim::AtomicIsize),
        "NonZeroU8" => Some(Prim::NonZeroU8),
        "NonZeroU16" => Some(Prim::NonZeroU16),
        "NonZeroU32" => Some(Prim::NonZeroU32),
        "NonZeroU64" => Some(Prim::NonZeroU64),
        "NonZeroU128" => Some(Prim::NonZeroU128),
        "NonZeroUsize" => Some(Prim::NonZeroUsize),
        "NonZeroI8" => Some(Prim::NonZeroI8),
        "NonZeroI16" => Some(Prim::NonZeroI16),
        "NonZeroI32" => Some(Prim::NonZeroI32),
        "NonZeroI64" => Some(Prim::NonZeroI64),
        "NonZeroI128" => Some(Prim::NonZeroI128),
        "NonZeroIsize" => Some(Prim::NonZeroIsize),
        "NonMaxU8" => Some(Prim::NonMaxU8),
        "NonMaxU16" => Some(Prim::NonMaxU16),
        "NonMaxU32" => Some(Prim::NonMaxU32),
        "NonMaxU64" => Some(Prim::NonMaxU64),
        "NonMaxU128" => Some(Prim::NonMaxU128),
        "NonMaxUsize" => Some(Prim::NonMaxUsize),
        "OwnedFd" => Some(Prim::OwnedFd),
        "BorrowedFd" => Some(Prim::BorrowedFd),
        "fn" => Some(Prim::FnPtr),
        _ => None,
    }
}

/// A kind of integers by its name; `None` exactly where no kind has it.
#[tactic(auto, unfolding(crate::specs::Primitives::kind_named))]
fn kind_named(name: &str) -> Option<IntKind>
    ensures { result ≡ kind_named name.now }
{
    match name {
        "u8" => Some(IntKind::U8),
        "u16" => Some(IntKind::U16),
        "u32" => Some(IntKind::U32),
        "u64" => Some(IntKind::U64),
        "u128" => Some(IntKind::U128),
        "usize" => Some(IntKind::Usize),
        "i8" => Some(IntKind::I8),
        "i16" => Some(IntKind::I16),
        "i32" => Some(IntKind::I32),
        "i64" => Some(IntKind::I64),
        "i128" => Some(IntKind::I128),
        "isize" => Some(IntKind::Isize),
        _ => None,
    }
}

/// An integer but one number, from an array of its kind and that number; `None` exactly where the tree is no
/// such array. The number may be none of its kind.
pub fn non_x_of(json: &Json) -> Option<Prim>
    ensures { result ≡ non_x_of (view json.now) }
{
    let (kind, number) = pair_of(json)?;
    let kind = kind_named(kind.as_str()?)?;
    let (magnitude, negative) = integer_in(number)?;
    Some(Prim::NonX {
        kind,
        magnitude,
        negative,
    })
}
