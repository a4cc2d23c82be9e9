//! Parts whose bytes are taken as they stand: unions, `NoNiches` and leaves.
ghost use Rattle.std.specs.Prelude.{◌≡◌, ◌+◌, ◌<◌, None, [], IfOk, IfErr};
ghost use Rattle.abi_layout.specs.Builders.{overlaid, bare};
ghost use Rattle.abi_layout.specs.Faults.{IsFault, size_fault, bytes_fault, leaf_fault};
ghost use Rattle.abi_layout.specs.Leaves.{leaf_frame};
ghost use Rattle.abi_layout.specs.PartView.{shape};
ghost use Rattle.abi_layout.specs.Shape.{raw, atom};
ghost use Rattle.abi_layout.specs.Trees.{leaf_items};

use crate::builders::{bare, union_of};
use crate::desc::LeafDesc;
use crate::desc_error::DescError;
use crate::laid_part::LaidPart;
use crate::leaves::{forbidden_of, free_of, is_leaf, is_sized, leaf_layout};
use crate::numbering::MAX_PARTS;
use crate::part::Part;
use abi_bits::{BitMask, ForbiddenValues, MAX_SIZE, SaturatingAddValue};
use std::alloc::Global;

/// Bytes of which none is free or forbidden.
#[tactic(auto, using(crate::proofs::PartViews::shape_raw))]
fn bare_part(alloc: Global, size: u64) -> Part
    ensures { shape result ≡ atom (raw size [] []) }
{
    Part::Raw {
        size,
        free: BitMask::new(alloc),
        forbidden: ForbiddenValues::End,
    }
}

/// Lays out the union of two, whose number is the one after the second's.
pub(crate) fn lay_out_union(alloc: Global, ok: LaidPart, err: LaidPart) -> LaidPart
    requires room { err.next < MAX_PARTS }
    ensures faultless { size_fault err.next (overlaid ok.layout err.layout) ≡ None }
    ensures part { shape result.part ≡ atom (raw (overlaid ok.layout err.layout).size [] []) }
    ensures layout { result.layout ≡ overlaid ok.layout err.layout }
    ensures next { result.next ≡ err.next + 1 }
{
    let layout = union_of(alloc, &ok.layout, &err.layout);
    LaidPart {
        part: bare_part(alloc, layout.size()),
        layout,
        next: err.next + 1,
    }
}

/// Lays out bytes of which nothing is known but their number, as part number `part`. Refused with
/// the fault of the part.
#[tactic(auto, using(crate::proofs::Frames::bare_lawful))]
pub(crate) fn lay_out_bytes(
    alloc: Global,
    part: u32,
    size: u64,
    align: u64,
    niches: SaturatingAddValue,
    indirections: bool,
) -> Result<LaidPart, DescError>
    requires room { part < MAX_PARTS }
    ensures faultless { IfOk result (λ _. bytes_fault part size align niches indirections ≡ None) }
    ensures part { IfOk result (λ f. shape f.part ≡ atom (raw size [] [])) }
    ensures layout { IfOk result (λ f. f.layout ≡ bare size align niches indirections) }
    ensures next { IfOk result (λ f. f.next ≡ part + 1) }
    ensures err { IfErr result (IsFault (bytes_fault part size align niches indirections)) }
{
    if !is_sized(size, align) {
        return Err(DescError::IllFormed { part });
    }
    if size > MAX_SIZE {
        return Err(DescError::TooLarge { part });
    }
    Ok(LaidPart {
        part: bare_part(alloc, size),
        layout: bare(alloc, size, align, niches, indirections),
        next: part + 1,
    })
}

/// Lays out a leaf as part number `part`. Refused with the fault of the part.
pub(crate) fn lay_out_leaf(alloc: Global, part: u32, leaf: &LeafDesc) -> Result<LaidPart, DescError>
    requires room { part < MAX_PARTS }
    ensures faultless { IfOk result (λ _. leaf_fault part leaf.now ≡ None) }
    ensures part { IfOk result (λ f. shape f.part
        ≡ atom (raw leaf.now.size leaf.now.free (leaf_items leaf.now))) }
    ensures layout { IfOk result (λ f. f.layout ≡ leaf_frame leaf.now) }
    ensures next { IfOk result (λ f. f.next ≡ part + 1) }
    ensures err { IfErr result (IsFault (leaf_fault part leaf.now)) }
{
    if !is_leaf(leaf) {
        return Err(DescError::IllFormed { part });
    }
    if leaf.size > MAX_SIZE {
        return Err(DescError::TooLarge { part });
    }
    let free = free_of(alloc, leaf)?;
    let forbidden = forbidden_of(alloc, leaf)?;
    let layout = leaf_layout(alloc, leaf)?;
    Ok(LaidPart {
        part: Part::Raw {
            size: leaf.size,
            free,
            forbidden,
        },
        layout,
        next: part + 1,
    })
}
