ghost use Rattle.std.specs.Prelude.{◌≡◌, ◌+◌, ◌<◌, None, IfOk, IfErr};
ghost use Rattle.abi_layout.specs.Builders.{repeated};
ghost use Rattle.abi_layout.specs.Faults.{IsFault, array_fault};
ghost use Rattle.abi_layout.specs.PartView.{shape};
ghost use Rattle.abi_layout.specs.Plans.{IsNamed};
ghost use Rattle.abi_layout.specs.Shape.{fields, repeated as repeated_shape};

use crate::builders::array_of;
use crate::desc_error::DescError;
use crate::laid_part::LaidPart;
use crate::numbering::MAX_PARTS;
use crate::part::{Compound, Part};
use abi_bits::MAX_SIZE;
use abi_num::OutOfMemory;
use std::alloc::Global;

/// The greatest number of items of an array.
pub const MAX_LEN: u64 = 128;

/// Lays out the array of `len` of the item, whose number is the one after the item's. Refused with
/// the fault of the array itself.
pub(crate) fn lay_out_array(alloc: Global, item: LaidPart, len: u64) -> Result<LaidPart, DescError>
    requires named { IsNamed (shape item.part) }
    requires room { item.next < MAX_PARTS }
    ensures faultless { IfOk result (λ _. array_fault item.next item.layout len ≡ None) }
    ensures part { IfOk result (λ f. shape f.part
        ≡ fields Compound.Array (repeated item.layout len).size
        (repeated_shape len (shape item.part))) }
    ensures named { IfOk result (λ f. IsNamed (shape f.part)) }
    ensures layout { IfOk result (λ f. f.layout ≡ repeated item.layout len) }
    ensures next { IfOk result (λ f. f.next ≡ item.next + 1) }
    ensures err { IfErr result (IsFault (array_fault item.next item.layout len)) }
{
    let part = item.next;
    if len > MAX_LEN {
        return Err(DescError::ArrayLength { part });
    }
    if item.layout.size() * len > MAX_SIZE {
        return Err(DescError::TooLarge { part });
    }
    let layout = array_of(alloc, &item.layout, len)?;
    let array = array_part(alloc, item.part, len, layout.size())?;
    Ok(LaidPart {
        part: array,
        layout,
        next: part + 1,
    })
}

/// The part of `len` of the item, of `size` bytes in all.
#[tactic(auto, using(crate::proofs::PartViews::shape_array))]
fn array_part(alloc: Global, item: Part, len: u64, size: u64) -> Result<Part, OutOfMemory>
    ensures { IfOk result (λ part. shape part
        ≡ fields Compound.Array size (repeated_shape len (shape item))) }
{
    let item = Box::new(alloc, item)?;
    Ok(Part::Array { item, len, size })
}
