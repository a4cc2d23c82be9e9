ghost use Rattle.std.specs.Prelude.{◌≡◌, ◌≤◌, ◌<◌, IsTrue, IfOk, option_map};
ghost use Rattle.abi_bits.specs.Mask.{lowest};
ghost use Rattle.abi_det.specs.Roles.{is_place};
ghost use Rattle.abi_det.specs.Offers.{by_bit, shared_bit, offer_to_empty, larger_or_bit, offer_beside, offer_at, first_offer};

use crate::determinant::Test;
use crate::placed_variant::PlacedVariant;
use crate::placements::Kind;
use crate::roles::{PLACES, Roles};
use crate::rules::Rules;
use abi_bits::MAX_SIZE;
use abi_num::OutOfMemory;
use std::alloc::Global;

/// A niche that a place offers, and the test that finds it.
#[derive(Drop)]
pub(crate) struct Offer {
    pub(crate) kind: Kind,
    pub(crate) test: Test,
}

impl<'a> Roles<'a> {
    ghost use Rattle.abi_det.specs.Search.{niche_of, of_roles};

    /// The larger variant at its place.
    pub(crate) fn placed_large(&self) -> PlacedVariant<'_, 'a>
        ensures variant { result.variant.now ≡ self.now.large }
        ensures shift { result.shift ≡ 0 }
        ensures size { result.size ≡ self.now.size }
    {
        PlacedVariant {
            variant: &self.large,
            shift: 0,
            size: self.size,
        }
    }

    /// The smaller variant at a place that starts at `shift`.
    pub(crate) fn placed_small(&self, shift: u64) -> PlacedVariant<'_, 'a>
        ensures variant { result.variant.now ≡ self.now.small }
        ensures shift { result.shift ≡ shift }
        ensures size { result.size ≡ self.now.size }
    {
        PlacedVariant {
            variant: &self.small,
            shift,
            size: self.size,
        }
    }

    /// The least bit that both variants leave free.
    #[tactic(auto, using(crate::proofs::Entries::bit_found, crate::proofs::Entries::no_bit_found))]
    fn shared_bit(&self, shift: u64) -> Option<Offer>
        ensures { option_map niche_of result ≡ by_bit (of_roles shared_bit self.now shift) }
    {
        let mut own = self.own_bits();
        match self.next_spare(shift, &mut own, 0) {
            Some((offset, byte)) => Some(Offer {
                kind: Kind::SharedBit,
                test: Test::BitIsErr {
                    offset,
                    mask: lowest(byte),
                },
            }),
            None => None,
        }
    }
}

impl Roles<'_> {
    ghost use Rattle.abi_det.specs.Search.{IsOffer, IsFirst, of_roles};

    /// What place 0 of an empty smaller variant offers.
    fn offer_to_empty(&self, alloc: Global, rules: Rules) -> Result<Option<Offer>, OutOfMemory>
        ensures { IfOk result (IsOffer (of_roles (offer_to_empty rules) self.now)) }
    {
        match self.large.leading_pattern(alloc, rules)? {
            Some(pattern) => Ok(Some(Offer {
                kind: Kind::LargerPattern,
                test: Test::ValueIsErr(pattern),
            })),
            None => Ok(self.shared_bit(0)),
        }
    }

    /// What a place that starts at `shift` offers besides the smaller variant's patterns.
    #[tactic(auto, using(crate::proofs::Moving::all_moved_by_none))]
    fn larger_or_bit(&self, alloc: Global, shift: u64) -> Result<Option<Offer>, OutOfMemory>
        ensures { IfOk result (IsOffer (of_roles larger_or_bit self.now shift)) }
    {
        let small = self.placed_small(shift);
        match small.first_free(alloc, self.large.patterns(), 0)? {
            Some(pattern) => Ok(Some(Offer {
                kind: Kind::LargerPattern,
                test: Test::ValueIsErr(pattern),
            })),
            None => Ok(self.shared_bit(shift)),
        }
    }

    /// What a place that starts at `shift` offers, where the smaller variant is not empty.
    fn offer_beside(&self, alloc: Global, shift: u64) -> Result<Option<Offer>, OutOfMemory>
        requires { shift ≤ MAX_SIZE }
        ensures { IfOk result (IsOffer (of_roles offer_beside self.now shift)) }
    {
        let large = self.placed_large();
        match large.first_free(alloc, self.small.patterns(), shift)? {
            Some(pattern) => Ok(Some(Offer {
                kind: Kind::SmallerPattern,
                test: Test::ValueIsErr(pattern),
            })),
            None => {
                let offer = self.larger_or_bit(alloc, shift)?;
                Ok(offer)
            }
        }
    }

    /// What a place offers.
    #[tactic(auto, unfolding(crate::specs::Offers::offer_at))]
    fn offer_at(
        &self,
        alloc: Global,
        rules: Rules,
        place: u64,
    ) -> Result<Option<Offer>, OutOfMemory>
        requires { IsTrue (is_place self.now.small self.now.size place) }
        ensures { IfOk result (IsOffer (of_roles (offer_at rules) self.now place)) }
    {
        if self.small.size() == 0 {
            let offer = self.offer_to_empty(alloc, rules)?;
            Ok(offer)
        } else {
            let offer = self.offer_beside(alloc, self.shift(place))?;
            Ok(offer)
        }
    }

    /// The first place that offers a niche, and the niche.
    #[tactic(auto, using(crate::proofs::Places::none_at_start, crate::proofs::Places::first_found, crate::proofs::Places::none_where_no_place, crate::proofs::Places::none_where_no_offer))]
    pub(crate) fn first_offer(
        &self,
        alloc: Global,
        rules: Rules,
    ) -> Result<Option<(u64, Offer)>, OutOfMemory>
        ensures { IfOk result (IsFirst (of_roles (first_offer rules) self.now 8)) }
    {
        for place in 0..PLACES {
            if self.has_place(place) {
                if let Some(offer) = self.offer_at(alloc, rules, place)? {
                    return Ok(Some((place, offer)));
                }
            }
        }
        Ok(None)
    }
}

/// The value of the lowest bit of a byte that is not 0.
fn lowest(byte: u8) -> u8
    requires { 0 < byte }
    ensures { result ≡ lowest byte }
{
    1 << byte.trailing_zeros()
}
