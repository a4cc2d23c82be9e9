ghost use Rattle.std.specs.Prelude.{◌≡◌, ◌≤◌, ◌<◌, ◌+◌, ◌^◌, None, true, IfOk, IfErr, OnOk, insert, vec_len};
ghost use Rattle.abi_det.specs.Written.{written_placement, written_sum};
ghost use Rattle.abi_layout.specs.Faults.{IsFault, sum_fault};
ghost use Rattle.abi_layout.specs.PartView.{shape};
ghost use Rattle.abi_layout.specs.Plans.{sum_layout_at, sum_layout_of, is_second, IsNamed};
ghost use Rattle.abi_layout.specs.Shape.{sum};
ghost use Rattle.abi_layout.specs.Sums.{numbered_placement};
ghost use Rattle.abi_layout.specs.Trees.{sides};

use crate::desc_error::DescError;
use crate::laid_part::LaidPart;
use crate::numbering::MAX_PARTS;
use crate::part::{Part, Sort, SumLayout};
use crate::placed::Placed;
use crate::sums::packed_sum;
use abi_det::{Placement, Rules};
use abi_num::OutOfMemory;
use std::alloc::Global;

/// Lays out the packed sum of two parts, whose number is the one after the second's, and puts it
/// among `sums` at the index `at`. Refused with the fault of the sum itself.
#[tactic(auto, using(crate::proofs::Walking::sum_layout_made, crate::proofs::Steps::no_memory))]
pub(crate) fn lay_out_sum(
    alloc: Global,
    rules: Rules,
    names: Sort,
    ok: LaidPart,
    err: LaidPart,
    at: usize,
    sums: &mut Vec<Placed>,
) -> Result<LaidPart, DescError>
    requires ok { IsNamed (shape ok.part) }
    requires err { IsNamed (shape err.part) }
    requires second { is_second names (shape err.part) ≡ true }
    requires room { err.next < MAX_PARTS }
    requires index { at ≤ vec_len sums.old }
    ensures faultless { IfOk result (λ _. sum_fault rules err.next ok.layout err.layout ≡ None) }
    ensures part { IfOk result (λ f. shape f.part
        ≡ sum names (sides (shape ok.part) (shape err.part))
        (sum_layout_of rules ok.layout err.layout)) }
    ensures named { IfOk result (λ f. IsNamed (shape f.part)) }
    ensures layout { IfOk result (λ f. f.layout ≡ written_sum rules ok.layout err.layout) }
    ensures next { IfOk result (λ f. f.next ≡ err.next + 1) }
    ensures sums { OnOk result (sums.new.items
        ≡ insert sums.old.items at
        (numbered_placement err.next (written_placement rules ok.layout err.layout))) }
    ensures err { IfErr result (IsFault (sum_fault rules err.next ok.layout err.layout)) }
{
    let number = err.next;
    let (placement, layout) = packed_sum(alloc, rules, number, &ok.layout, &err.layout)?;
    let (sum_layout, placed) = taken_apart(alloc, number, layout.size(), placement)?;
    insert(sums, at, placed)?;
    let part = sum_part(alloc, names, ok.part, err.part, sum_layout)?;
    Ok(LaidPart {
        part,
        layout,
        next: number + 1,
    })
}

/// What the placement of the sum with that number tells the plan of its part, and what it tells the
/// list of sums. The sum has `size` bytes.
fn taken_apart(
    alloc: Global,
    number: u32,
    size: u64,
    placement: Placement,
) -> Result<(SumLayout, Placed), OutOfMemory>
    requires ok { placement.front + placement.ok_shift < 2 ^ 64 }
    requires err { placement.front + placement.err_shift < 2 ^ 64 }
    ensures sum_layout { IfOk result (λ f. f.0 ≡ sum_layout_at size placement) }
    ensures placed { IfOk result (λ f. f.1 ≡ numbered_placement number placement) }
{
    let determinant = placement.determinant.copy(alloc)?;
    let sum_layout = SumLayout {
        ok: placement.front + placement.ok_shift,
        err: placement.front + placement.err_shift,
        size,
        determinant,
    };
    let placed = Placed {
        part: number,
        place: placement.place,
        front: placement.front,
        ok_shift: placement.ok_shift,
        err_shift: placement.err_shift,
        kind: placement.kind,
        determinant: placement.determinant,
        refusals: placement.refusals,
    };
    Ok((sum_layout, placed))
}

/// Puts a sum among others, at that index.
fn insert(sums: &mut Vec<Placed>, at: usize, placed: Placed) -> Result<(), OutOfMemory>
    requires { at ≤ vec_len sums.old }
    ensures { OnOk result (sums.new.items ≡ insert sums.old.items at placed) }
{
    match sums.insert(at, placed) {
        Ok(()) => Ok(()),
        Err(_) => Err(OutOfMemory),
    }
}

/// The part of a sum of two.
pub(crate) fn sum_part(
    alloc: Global,
    names: Sort,
    ok: Part,
    err: Part,
    sum_layout: SumLayout,
) -> Result<Part, OutOfMemory>
    ensures { IfOk result (λ p. shape p ≡ sum names (sides (shape ok) (shape err)) sum_layout) }
{
    let ok = Box::new(alloc, ok)?;
    let err = Box::new(alloc, err)?;
    Ok(Part::Sum {
        names,
        ok,
        err,
        sum_layout,
    })
}
