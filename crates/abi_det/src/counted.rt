ghost use Rattle.std.specs.Prelude.{◌≡◌, ◌+◌, ◌≤◌, IfOk};
ghost use Rattle.abi_det.specs.Frame.{IsLawful};
ghost use Rattle.abi_det.specs.Offers.{One};
ghost use Rattle.abi_det.specs.Written.{means_ok, written_placement};
ghost use Rattle.abi_det.specs.Counted.{frame_of, found_of, most_steps, IsFoundBy};

use crate::determinant::{Determinant, Test};
use crate::offers::Offer;
use crate::placements::{Kind, Refusals};
use crate::roles::Roles;
use crate::rules::Rules;
use crate::side::Side;
use crate::variant::Variant;
use abi_bits::Steps;
use abi_num::{Items, OutOfMemory};
use std::alloc::Global;
use std::sync::ledger::Ledger;

/// What a search finds of the placement of two variants.
#[derive(Debug, Drop)]
pub struct Found {
    /// The number of the place at which the smaller variant stands, from 0 to 7.
    pub place: u64,
    /// What kind of niche tells the variant.
    pub kind: Kind,
    /// The test that tells the variant.
    pub determinant: Determinant,
    /// Why no place offers a niche, one entry for each place; none where one does.
    pub refusals: Refusals,
}

/// Where the variants of a sum of the two sides stand, and what tells them apart: what `placement` answers of
/// layouts with these sides. It takes at most eight times as many steps as both sides' patterns have bytes and
/// the union has twice. Steps that were taken stay counted where memory is refused.
pub fn search<L: Ledger>(
    alloc: Global,
    ok: &Side,
    err: &Side,
    steps: &mut Steps<L>,
) -> Result<Found, OutOfMemory>
    requires ok { IsLawful (frame_of ok.now) }
    requires err { IsLawful (frame_of err.now) }
    ensures written { IfOk result (IsFoundBy One ok.now err.now) }
    ensures counted { steps.new ≤ steps.old + most_steps ok.now err.now }
{
    let found = search_by(alloc, Rules::One, ok, err, steps)?;
    Ok(found)
}

/// The same under these rules: `search` answers under the first.
#[tactic(auto, using(crate::proofs::Seen::steps_fit))]
pub fn search_by<L: Ledger>(
    alloc: Global,
    rules: Rules,
    ok: &Side,
    err: &Side,
    steps: &mut Steps<L>,
) -> Result<Found, OutOfMemory>
    requires ok { IsLawful (frame_of ok.now) }
    requires err { IsLawful (frame_of err.now) }
    ensures written { IfOk result (IsFoundBy rules ok.now err.now) }
    ensures counted { steps.new ≤ steps.old + most_steps ok.now err.now }
{
    let ok_free = ok.read(alloc, steps)?;
    let err_free = err.read(alloc, steps)?;
    let found = find(
        alloc,
        rules,
        ok.with_free(&ok_free),
        err.with_free(&err_free),
    )?;
    Ok(found)
}

/// What is found of two variants whose free bits lie open.
pub(crate) fn find<'a>(
    alloc: Global,
    rules: Rules,
    ok: Variant<'a>,
    err: Variant<'a>,
) -> Result<Found, OutOfMemory>
    ensures { IfOk result (λ f. f ≡ found_of (written_placement rules ok.entry err.entry)) }
{
    let roles = Roles::new(ok, err);
    match roles.first_offer(alloc, rules)? {
        Some((place, offer)) => {
            let Offer { kind, test } = offer;
            Ok(Found {
                place,
                kind,
                determinant: Determinant {
                    not: means_ok(kind, roles.ok_is_larger),
                    test,
                },
                refusals: Items::new(alloc),
            })
        }
        None => {
            let refusals = roles.refusals(alloc)?;
            Ok(Found {
                place: 0,
                kind: Kind::Tag,
                determinant: Determinant {
                    not: means_ok(Kind::Tag, roles.ok_is_larger),
                    test: Test::BitDeterminant,
                },
                refusals,
            })
        }
    }
}

/// Whether a niche of that kind, or a tag of 1, means `Ok`.
fn means_ok(kind: Kind, ok_is_larger: bool) -> bool
    ensures { result ≡ means_ok kind ok_is_larger }
{
    match kind {
        Kind::SmallerPattern => ok_is_larger,
        Kind::LargerPattern => !ok_is_larger,
        Kind::SharedBit => !ok_is_larger,
        Kind::Tag => !ok_is_larger,
    }
}
