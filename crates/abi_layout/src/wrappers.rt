ghost use Rattle.std.specs.Prelude.{◌≡◌, ◌+◌, ◌<◌, None, IsTrue, IfOk};
ghost use Rattle.abi_num.specs.Target.{is_row};
ghost use Rattle.abi_layout.specs.Faults.{size_fault};
ghost use Rattle.abi_layout.specs.Frames.{wrapped};
ghost use Rattle.abi_layout.specs.PartView.{shape};
ghost use Rattle.abi_layout.specs.Prims.{pointer_row, row_frame};
ghost use Rattle.abi_layout.specs.Shape.{scalar, atom};

use crate::desc::{PointerKind, WrapKind};
use crate::laid_part::LaidPart;
use crate::numbering::MAX_PARTS;
use crate::part::Part;
use crate::primitives::{pointer_row, row_layout};
use abi_bits::SaturatingAddValue;
use abi_det::Layout;
use abi_num::{OutOfMemory, Target};
use std::alloc::Global;

/// Lays out a wrapper of a part, whose number is the one after the part's.
pub(crate) fn lay_out_wrapper(kind: WrapKind, inner: LaidPart) -> LaidPart
    requires room { inner.next < MAX_PARTS }
    ensures faultless { size_fault inner.next (wrapped kind inner.layout) ≡ None }
    ensures part { shape result.part ≡ shape inner.part }
    ensures layout { result.layout ≡ wrapped kind inner.layout }
    ensures next { result.next ≡ inner.next + 1 }
{
    LaidPart {
        part: inner.part,
        layout: wrapped(kind, inner.layout),
        next: inner.next + 1,
    }
}

/// What a wrapper makes of a layout: some have no niche to count, and one is never plain data.
fn wrapped(kind: WrapKind, layout: Layout) -> Layout
    ensures { result ≡ wrapped kind layout }
{
    let mut raw = layout.into_raw();
    match kind {
        WrapKind::ManuallyDrop | WrapKind::Pin | WrapKind::OrInfallible => {}
        WrapKind::MaybeUninit | WrapKind::UnsafeCell => raw.niches = SaturatingAddValue::B0,
        WrapKind::NotPod => raw.indirections = true,
    }
    Layout::from_lawful(raw)
}

/// Lays out a value that has a condition, whose last part has the number before `part`.
pub(crate) fn lay_out_conditional(value: LaidPart, part: u32) -> LaidPart
    requires room { part < MAX_PARTS }
    ensures faultless { size_fault part value.layout ≡ None }
    ensures part { shape result.part ≡ shape value.part }
    ensures layout { result.layout ≡ value.layout }
    ensures next { result.next ≡ part + 1 }
{
    LaidPart {
        part: value.part,
        layout: value.layout,
        next: part + 1,
    }
}

/// Lays out a pointer as part number `part`, on a supported target.
#[tactic(auto, using(crate::proofs::Rows::row_small))]
pub(crate) fn lay_out_pointer(
    alloc: Global,
    target: &Target,
    part: u32,
    kind: PointerKind,
) -> Result<LaidPart, OutOfMemory>
    requires row { IsTrue (is_row target.now) }
    requires room { part < MAX_PARTS }
    ensures faultless { IfOk result (λ _. size_fault part
        (row_frame (pointer_row target.now kind)) ≡ None) }
    ensures part { IfOk result (λ f. shape f.part
        ≡ atom (scalar (pointer_row target.now kind).scalar)) }
    ensures layout { IfOk result (λ f. f.layout ≡ row_frame (pointer_row target.now kind)) }
    ensures next { IfOk result (λ f. f.next ≡ part + 1) }
{
    let row = pointer_row(target, kind);
    let layout = row_layout(alloc, row)?;
    Ok(LaidPart {
        part: Part::Scalar(row.scalar),
        layout,
        next: part + 1,
    })
}
