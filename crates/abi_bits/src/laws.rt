//! Laws of sets of bits: the contract of each function is the law.
ghost use Rattle.abi_bits.specs.Laws.{SameBytes, FromBytes, EntriesAt, EntriesAreMask, EntriesLieBelow, SameBits, LeastTold, LeastOnce};
ghost use Rattle.abi_bits.specs.Count.{added};
ghost use Rattle.std.specs.Prelude.{◌≡◌};

use crate::saturating_add_value::SaturatingAddValue;

/// Sets with the same bytes have the same entries.
#[tactic(auto, using(crate::proofs::Entries::same_bytes))]
pub fn same_bytes()
    ensures { SameBytes }
{}

/// Sets with the same bits have the same entries.
#[tactic(auto, using(crate::proofs::Sets::same_bits))]
pub fn same_bits()
    ensures { SameBits }
{}

/// The least bit that the entries tell is the least of the set.
#[tactic(auto, using(crate::proofs::Least::least_told))]
pub fn least_told()
    ensures { LeastTold }
{}

/// A set has one least bit.
#[tactic(auto, using(crate::proofs::Least::least_once))]
pub fn least_once()
    ensures { LeastOnce }
{}

/// A set is what its bytes tell.
#[tactic(auto, using(crate::proofs::Entries::from_bytes))]
pub fn from_bytes()
    ensures { FromBytes }
{}

/// What a function tells of each byte is what the set's bytes are.
#[tactic(auto, using(crate::proofs::Entries::entries_at))]
pub fn entries_at()
    ensures { EntriesAt }
{}

/// What a function tells of each byte is a set.
#[tactic(auto, using(crate::proofs::Entries::entries_are_mask))]
pub fn entries_are_mask()
    ensures { EntriesAreMask }
{}

/// The set of the bytes below an offset lies below it.
#[tactic(auto, using(crate::proofs::Entries::entries_lie_below))]
pub fn entries_lie_below()
    ensures { EntriesLieBelow }
{}

/// Adding niche counts does not depend on how they are grouped.
#[tactic(auto, using(crate::proofs::Counts::associative))]
pub fn addition_is_associative(a: SaturatingAddValue, b: SaturatingAddValue, c: SaturatingAddValue)
    ensures { added (added a b) c ≡ added a (added b c) }
{}

/// Adding niche counts does not depend on their order.
pub fn addition_is_commutative(a: SaturatingAddValue, b: SaturatingAddValue)
    ensures { added a b ≡ added b a }
{}

/// No niche more leaves a niche count as it is.
pub fn addition_has_unit(a: SaturatingAddValue)
    ensures right { added a SaturatingAddValue.B0 ≡ a }
    ensures left { added SaturatingAddValue.B0 a ≡ a }
{}
