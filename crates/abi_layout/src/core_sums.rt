ghost use Rattle.std.specs.Prelude.{◌≡◌, ◌+◌, ◌<◌, ◌∷◌, ◌&&◌, [], None, true, false, IfOk, IfErr, MatchOption};
ghost use Rattle.abi_bits.specs.Forbidden.{items, pattern};
ghost use Rattle.abi_det.specs.Frame.{forbids};
ghost use Rattle.abi_layout.specs.CoreSums.{is_empty, is_void, is_one, sole_pattern, is_sole_pattern, payload_first, payload, absence, is_core_sum, core_frame};
ghost use Rattle.abi_layout.specs.Faults.{IsFault, core_fault};
ghost use Rattle.abi_layout.specs.PartView.{shape};
ghost use Rattle.abi_layout.specs.Plans.{core_layout, is_second, IsNamed};
ghost use Rattle.abi_layout.specs.Shape.{sum};
ghost use Rattle.abi_layout.specs.Trees.{sides};

use crate::builders::bare;
use crate::desc_error::DescError;
use crate::laid_part::LaidPart;
use crate::numbering::MAX_PARTS;
use crate::packed_sums::sum_part;
use crate::part::{Part, Sort, SumLayout};
use abi_bits::{ForbiddenValues, Pattern, SaturatingAddValue};
use abi_det::{Determinant, Layout, Test};
use std::alloc::Global;

/// Lays out the sum of two parts as the compiler does; its number is the one after the second's.
/// Refused with the fault of the sum itself.
pub(crate) fn lay_out_core(
    alloc: Global,
    names: Sort,
    ok: LaidPart,
    err: LaidPart,
) -> Result<LaidPart, DescError>
    requires ok { IsNamed (shape ok.part) }
    requires err { IsNamed (shape err.part) }
    requires second { is_second names (shape err.part) ≡ true }
    requires room { err.next < MAX_PARTS }
    ensures faultless { IfOk result (λ _. core_fault err.next ok.layout err.layout ≡ None) }
    ensures part { IfOk result (λ f. shape f.part
        ≡ sum names (sides (shape ok.part) (shape err.part)) (core_layout ok.layout err.layout)) }
    ensures named { IfOk result (λ f. IsNamed (shape f.part)) }
    ensures layout { IfOk result (λ f. f.layout ≡ core_frame ok.layout err.layout) }
    ensures next { IfOk result (λ f. f.next ≡ err.next + 1) }
    ensures err { IfErr result (IsFault (core_fault err.next ok.layout err.layout)) }
{
    let number = err.next;
    let Some(absence) = absence(&ok.layout, &err.layout) else {
        return Err(DescError::NotStable { part: number });
    };
    let pattern = absence.copy(alloc)?;
    let first = is_empty(&err.layout);
    let layout = core_layout(alloc, first, &ok.layout, &err.layout);
    let sum_layout = SumLayout {
        ok: 0,
        err: 0,
        size: layout.size(),
        determinant: Determinant {
            not: !first,
            test: Test::ValueIsErr(pattern),
        },
    };
    let part = sum_part(alloc, names, ok.part, err.part, sum_layout)?;
    Ok(LaidPart {
        part,
        layout,
        next: number + 1,
    })
}

/// The layout of the sum, whose payload is the first variant or the second.
fn core_layout(alloc: Global, first: bool, ok: &Layout, err: &Layout) -> Layout
    requires { first ≡ payload_first ok.now err.now }
    ensures { result ≡ core_frame ok.now err.now }
{
    let payload = if first { ok } else { err };
    let indirections = ok.indirections() | err.indirections();
    bare(
        alloc,
        payload.size(),
        payload.align(),
        SaturatingAddValue::B0,
        indirections,
    )
}

/// What the payload of the sum never is; `None` where the sum is none that the compiler lays out so.
fn absence<'a>(ok: &'a Layout, err: &'a Layout) -> Option<&'a Pattern>
    ensures { MatchOption result
        (is_core_sum ok.now err.now ≡ false)
        (λ found. (is_core_sum ok.now err.now ≡ true) × (found.now ≡ absence ok.now err.now)) }
{
    if is_empty(err) {
        sole_niche(ok)
    } else if is_empty(ok) {
        sole_niche(err)
    } else {
        None
    }
}

/// The pattern that is the only thing forbidden and the only niche; `None` where there is none.
fn sole_niche(layout: &Layout) -> Option<&Pattern>
    ensures { MatchOption result
        ((is_one layout.now.niches && is_sole_pattern (forbids layout.now)) ≡ false)
        (λ found. ((is_one layout.now.niches && is_sole_pattern (forbids layout.now)) ≡ true)
        × (found.now ≡ sole_pattern (forbids layout.now))) }
{
    match layout.niches() {
        SaturatingAddValue::B1 => sole_pattern(layout.forbidden()),
        SaturatingAddValue::B0 | SaturatingAddValue::Saturator => None,
    }
}

/// Whether there are no bytes, and no alignment to keep.
fn is_empty(layout: &Layout) -> bool
    ensures { result ≡ is_empty layout.now }
{
    layout.size() == 0 && layout.align() == 1
}

/// Whether nothing is forbidden.
fn is_void(values: &ForbiddenValues) -> bool
    ensures { result ≡ is_void (items values.now) }
{
    match values {
        ForbiddenValues::End => true,
        ForbiddenValues::Or(left, right) => is_void(left) && is_void(right),
        ForbiddenValues::Array(_) | ForbiddenValues::ForbiddenRange { .. } => false,
    }
}

/// The one pattern that is forbidden; `None` where anything else is, or nothing.
fn sole_pattern(values: &ForbiddenValues) -> Option<&Pattern>
    ensures { MatchOption result
        (is_sole_pattern (items values.now) ≡ false)
        (λ found. items values.now ≡ pattern found.now ∷ []) }
{
    match values {
        ForbiddenValues::Array(pattern) => Some(pattern),
        ForbiddenValues::Or(left, right) => {
            if is_void(right) {
                sole_pattern(left)
            } else if is_void(left) {
                sole_pattern(right)
            } else {
                None
            }
        }
        ForbiddenValues::End | ForbiddenValues::ForbiddenRange { .. } => None,
    }
}
