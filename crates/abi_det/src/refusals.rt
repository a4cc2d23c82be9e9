ghost use Rattle.std.specs.Prelude.{◌≡◌, IsTrue, IfOk, is_none};
ghost use Rattle.abi_bits.specs.Forbidden.{tree, head};
ghost use Rattle.abi_det.specs.Roles.{is_place};
ghost use Rattle.abi_det.specs.Offers.{One, shared_bit};
ghost use Rattle.abi_det.specs.Written.{refusal_at, refusals_below, refusal_holds, names_each};

use crate::layout::Layout;
use crate::placements::{Refusal, Refusals};
use crate::roles::{PLACES, Roles, larger, smaller};
use abi_bits::ForbiddenValues;
use abi_num::{Items, OutOfMemory};
use std::alloc::Global;

impl Roles<'_> {
    ghost use Rattle.abi_det.specs.Search.{of_roles};

    /// One refusal for each place that exists, in rising order.
    #[tactic(auto, using(crate::proofs::Refused::none_at_start, crate::proofs::Refused::one_more, crate::proofs::Refused::no_place))]
    pub(crate) fn refusals(&self, alloc: Global) -> Result<Refusals, OutOfMemory>
        ensures { IfOk result (λ refusals. refusals ≡ of_roles refusals_below self.now 8) }
    {
        let mut refusals = Items::new(alloc);
        for place in 0..PLACES {
            if self.has_place(place) {
                refusals.push(self.refusal_at(alloc, place)?)?;
            }
        }
        Ok(refusals)
    }

    /// Why a place offers no pattern: the first blocking byte of each.
    fn refusal_at(&self, alloc: Global, place: u64) -> Result<Refusal, OutOfMemory>
        requires { IsTrue (is_place self.now.small self.now.size place) }
        ensures { IfOk result (λ refusal. refusal ≡ of_roles refusal_at self.now place) }
    {
        if self.small.size() == 0 {
            Ok(Refusal {
                place,
                smaller: Items::new(alloc),
                larger: Items::new(alloc),
            })
        } else {
            let shift = self.shift(place);
            let large = self.placed_large();
            let smaller = large.blocking(alloc, self.small.patterns(), shift)?;
            let small = self.placed_small(shift);
            let larger = small.blocking(alloc, self.large.patterns(), 0)?;
            Ok(Refusal {
                place,
                smaller,
                larger,
            })
        }
    }
}

/// Whether the refusal holds for the sum of the two: its place exists, it names for each pattern that either
/// variant offers a byte that the other does not leave wholly free, in order and nothing else, and no bit is
/// free in both. Of an empty smaller variant it names nothing, and the larger has neither a leading pattern
/// nor a free bit.
pub fn check_refusal(ok: &Layout, err: &Layout, r: &Refusal) -> bool
    ensures { result ≡ refusal_holds One ok.now err.now r.now }
{
    let roles = Roles::bare(ok, err);
    if roles.has_place(r.place) {
        if roles.blocks_patterns(larger(ok, err).forbidden(), smaller(ok, err).forbidden(), r) {
            roles.has_no_spare(roles.shift(r.place))
        } else {
            false
        }
    } else {
        false
    }
}

impl Roles<'_> {
    ghost use Rattle.abi_det.specs.Search.{of_roles};

    /// Whether the refusal names what keeps each pattern of the variants, which forbid these values, from being
    /// a niche.
    #[tactic(auto, using(crate::proofs::Blocking::none_named, crate::proofs::Moving::all_moved_by_none))]
    fn blocks_patterns(&self, large: &ForbiddenValues, small: &ForbiddenValues, r: &Refusal) -> bool
        requires { IsTrue (is_place self.now.small self.now.size r.now.place) }
        ensures { result ≡ of_roles (names_each (tree large.now) (tree small.now)) self.now r.now }
    {
        if self.small.size() == 0 {
            r.smaller.as_slice().is_empty() && r.larger.as_slice().is_empty() && has_no_head(large)
        } else {
            let shift = self.shift(r.place);
            self.placed_large()
                .are_blocking(small, shift, r.smaller.as_slice())
                && self
                    .placed_small(shift)
                    .are_blocking(large, 0, r.larger.as_slice())
        }
    }

    /// Whether no bit is free in both variants.
    fn has_no_spare(&self, shift: u64) -> bool
        ensures { result ≡ is_none (of_roles shared_bit self.now shift) }
    {
        let mut own = self.own_bits();
        self.next_spare(shift, &mut own, 0).is_none()
    }
}

/// Whether the very leftmost leaf offers no pattern.
pub(crate) fn has_no_head(values: &ForbiddenValues) -> bool
    ensures { result ≡ is_none (head values.now) }
{
    match values {
        ForbiddenValues::End => true,
        ForbiddenValues::Array(_) => false,
        ForbiddenValues::ForbiddenRange { .. } => false,
        ForbiddenValues::Or(left, _) => has_no_head(left),
    }
}
