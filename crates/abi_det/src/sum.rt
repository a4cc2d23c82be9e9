ghost use Rattle.std.specs.Prelude.{◌≡◌, ◌+◌, ◌≤◌, ◌<◌, IfOk, if◌then◌else◌};
ghost use Rattle.abi_det.specs.Roles.{union_size};
ghost use Rattle.abi_det.specs.Offers.{One};
ghost use Rattle.abi_det.specs.SoundPlacement.{IsWellFormed, IsSoundPlacement};
ghost use Rattle.abi_det.specs.Counted.{found_of, niche_in, IsNicheOf};
ghost use Rattle.abi_det.specs.Written.{written_placement, sum_frame, IsPlacement, IsWrittenWith, niched, tagged};
ghost use Rattle.abi_det.specs.Frame.{IsLawful};
ghost use Rattle.abi_det.specs.FrameOf.{frame};

use crate::counted::{Found, find};
use crate::exports::beside_tag;
use crate::layout::Layout;
use crate::placements::Placement;
use crate::raw_layout::RawLayout;
use crate::roles::{Roles, sum_align, union_size};
use crate::rules::Rules;
use crate::variant::Variant;
use abi_bits::{ForbiddenValues, MAX_SIZE, SaturatingAddValue};
use abi_num::{MAX_ALIGN, OutOfMemory};
use std::alloc::Global;

/// Where the variants of a sum of the two stand and what tells them apart: the first place of the smaller
/// variant that offers a niche, there the first kind, there the first pattern or the least bit; a tag where
/// no place offers one. An empty smaller variant takes the head of the larger's patterns.
pub fn placement(alloc: Global, ok: &Layout, err: &Layout) -> Result<Placement, OutOfMemory>
    ensures written { IfOk result (λ p. p ≡ written_placement One ok.now err.now) }
    ensures placed { IfOk result (λ p. IsPlacement ok.now err.now p) }
    ensures front { IfOk result (λ p. p.front ≤ MAX_ALIGN) }
    ensures sound { IfOk result (λ p. IsSoundPlacement ok.now err.now p) }
{
    let placement = placement_by(alloc, Rules::One, ok, err)?;
    Ok(placement)
}

/// The placement under these rules: `placement` answers that under the first.
pub fn placement_by(
    alloc: Global,
    rules: Rules,
    ok: &Layout,
    err: &Layout,
) -> Result<Placement, OutOfMemory>
    ensures written { IfOk result (λ p. p ≡ written_placement rules ok.now err.now) }
    ensures placed { IfOk result (λ p. IsPlacement ok.now err.now p) }
    ensures front { IfOk result (λ p. p.front ≤ MAX_ALIGN) }
    ensures sound { IfOk result (λ p. IsSoundPlacement ok.now err.now p) }
{
    let found = found_by(alloc, rules, ok, err)?;
    if found.determinant.is_niche_trick() {
        let placement = niched(alloc, ok, err, found)?;
        Ok(placement)
    } else {
        let placement = tagged(alloc, ok, err, found)?;
        Ok(placement)
    }
}

/// What is found of the two. Their free bits lie open, so no byte outside them is looked at.
fn found_by(alloc: Global, rules: Rules, ok: &Layout, err: &Layout) -> Result<Found, OutOfMemory>
    ensures same { IfOk result (λ f. f ≡ found_of (written_placement rules ok.now err.now)) }
    ensures well_formed { IfOk result (λ _. IsWellFormed ok.now × IsWellFormed err.now) }
{
    let ok_offered = ok.patterns(alloc)?;
    let err_offered = err.patterns(alloc)?;
    let ok = Variant::of(ok, ok_offered.as_slice());
    let err = Variant::of(err, err_offered.as_slice());
    let found = find(alloc, rules, ok, err)?;
    Ok(found)
}

/// The layout of the sum of the two with its placement, which is that under some rules. The size that
/// `sum_size` tells must be at most `MAX_SIZE`.
pub fn sum_layout(
    alloc: Global,
    ok: &Layout,
    err: &Layout,
    p: &Placement,
) -> Result<Layout, OutOfMemory>
    requires placed { IsPlacement ok.now err.now p.now }
    requires small { union_size ok.now err.now + p.now.front ≤ MAX_SIZE }
    ensures same { IfOk result (λ l. l ≡ sum_frame ok.now err.now p.now) }
    ensures written { IfOk result (λ l. IsWrittenWith ok.now err.now p.now l) }
    ensures lawful { IfOk result (λ l. IsLawful l) }
{
    let raw = raw_sum(alloc, ok, err, p)?;
    match Layout::new(raw) {
        Some(layout) => Ok(layout),
        None => unreachable!(),
    }
}

/// The parts of the sum's layout.
fn raw_sum(
    alloc: Global,
    ok: &Layout,
    err: &Layout,
    p: &Placement,
) -> Result<RawLayout, OutOfMemory>
    requires placed { IsPlacement ok.now err.now p.now }
    requires small { union_size ok.now err.now + p.now.front ≤ MAX_SIZE }
    ensures same { IfOk result (λ raw. frame raw ≡ sum_frame ok.now err.now p.now) }
    ensures lawful { IfOk result (λ raw. IsLawful (frame raw)) }
{
    let unused = p.exported.copy(alloc)?;
    Ok(RawLayout {
        size: union_size(ok, err) + p.front,
        align: sum_align(ok, err),
        forbidden: ForbiddenValues::End,
        unused,
        niches: SaturatingAddValue::B0,
        indirections: ok.indirections() | err.indirections(),
    })
}

/// The placement with the niche that was found.
fn niched(alloc: Global, ok: &Layout, err: &Layout, found: Found) -> Result<Placement, OutOfMemory>
    requires { IsNicheOf ok.now err.now found }
    ensures same { IfOk result (λ p. p ≡ niched ok.now err.now found.place (niche_in found)) }
    ensures front { IfOk result (λ p. p.front ≤ MAX_ALIGN) }
{
    let roles = Roles::bare(ok, err);
    let shift = roles.shift(found.place);
    let exported = roles.exported(alloc, shift, &found.determinant.test)?;
    let Found {
        place,
        kind,
        determinant,
        refusals,
    } = found;
    Ok(Placement {
        ok_shift: shift_unless(roles.ok_is_larger, shift),
        err_shift: shift_unless(!roles.ok_is_larger, shift),
        place,
        front: 0,
        kind,
        determinant,
        exported,
        refusals,
    })
}

/// The placement with a tag.
fn tagged(alloc: Global, ok: &Layout, err: &Layout, found: Found) -> Result<Placement, OutOfMemory>
    requires { found ≡ found_of (tagged ok.now err.now) }
    ensures same { IfOk result (λ p. p ≡ tagged ok.now err.now) }
    ensures front { IfOk result (λ p. p.front ≤ MAX_ALIGN) }
{
    let front = sum_align(ok, err);
    let exported = beside_tag(alloc, front)?;
    let Found {
        place,
        kind,
        determinant,
        refusals,
    } = found;
    Ok(Placement {
        ok_shift: 0,
        err_shift: 0,
        place,
        front,
        kind,
        determinant,
        exported,
        refusals,
    })
}

/// Where a variant starts: the larger at 0, and the smaller at `shift`.
fn shift_unless(is_larger: bool, shift: u64) -> u64
    ensures { result ≡ (if is_larger then 0 else shift) }
{
    if is_larger { 0 } else { shift }
}

/// The size in bytes of the sum of the two with that placement, whose `front` is at most 65,536 as it is in
/// every placement.
pub fn sum_size(ok: &Layout, err: &Layout, p: &Placement) -> u64
    requires { p.now.front ≤ MAX_ALIGN }
    ensures { result ≡ union_size ok.now err.now + p.now.front }
{
    union_size(ok, err) + p.front
}
