//! Laws over the definitions that the contracts of this crate cite. No function here does anything: its
//! contract is the law.

ghost use Rattle.abi_det.specs.Writes.{KeptLaw, ImposedLaw};
ghost use Rattle.abi_det.specs.Laws.{
  UnionLaw,
  RoundLaw,
  SizeLaw,
  PlaceLaw,
  PlacementLaw,
  SoundPlacementLaw,
  LawfulSumLaw,
  WellFormedSumLaw,
  RefusedLaw,
  RefusalsLaw,
  BlockingLaw,
  HeadLaw,
};
ghost use Rattle.abi_det.specs.PlaceLaws.{PositionsLaw, TagMeaningLaw, TagPlaceLaw, NicheMeaningLaw};

/// The union of the variants of a sum is no larger than a layout may be.
#[tactic(auto, using(crate::proofs::Sizes::union_small))]
pub fn union_fits()
    ensures { UnionLaw }
{}

/// The union of the variants of a sum is the least multiple of the sum's alignment that both fit into.
#[tactic(auto, using(crate::proofs::Sizes::union_least))]
pub fn union_is_rounded_up()
    ensures { RoundLaw }
{}

/// A sum is as large as its union, and one alignment larger exactly where no existing place offers a niche.
#[tactic(auto, using(crate::proofs::Chosen::sum_size))]
pub fn sum_is_larger_by_its_tag_alone()
    ensures { SizeLaw }
{}

/// There are at most eight places.
#[tactic(auto, using(crate::proofs::Chosen::place_below))]
pub fn places_are_eight()
    ensures { PlaceLaw }
{}

/// Each position at which the smaller variant fits into the union, of the first eight that its alignment allows,
/// is a place that the search knows, and it knows no other.
pub fn every_place_that_fits_exists()
    ensures { PositionsLaw }
{}

/// The written placement takes the least existing place that offers a niche, there the first kind, and of that
/// kind the first pattern or the least bit; where no existing place offers one, a tag.
#[tactic(auto, using(crate::proofs::Chosen::placement_first))]
pub fn placement_takes_the_first_niche()
    ensures { PlacementLaw }
{}

/// With a tag, a 1 in the lowest bit of the first byte means the smaller variant, which is `Err` where the sizes
/// are equal, and a 0 the larger.
#[tactic(auto, using(crate::proofs::PlaceLaws::tag_meaning))]
pub fn a_tag_of_one_means_the_smaller_variant()
    ensures { TagMeaningLaw }
{}

/// A tag takes the first bit of new bytes in front of both variants, and leaves free the others of these bits.
#[tactic(auto, using(crate::proofs::PlaceLaws::tag_place))]
pub fn a_tag_takes_the_first_bit_in_front()
    ensures { TagPlaceLaw }
{}

/// The value of a niche means the one variant, and every other value the other: a pattern that the smaller variant
/// never has means the larger; one that the larger never has, or a shared bit that is 1, the smaller.
#[tactic(auto, using(crate::proofs::PlaceLaws::niche_meaning))]
pub fn a_niche_means_one_variant()
    ensures { NicheMeaningLaw }
{}

/// Every placement is sound: each variant stands inside the sum, the test takes only bits
/// that it leaves free or a pattern that it never has, and no exported bit is one of its own or of the test's.
#[tactic(auto, using(crate::proofs::SoundPlacements::placements_sound))]
pub fn placement_is_sound()
    ensures { SoundPlacementLaw }
{}

/// The frame of a sum is lawful.
#[tactic(auto, using(crate::proofs::Sums::lawful_sum))]
pub fn sum_is_lawful()
    ensures { LawfulSumLaw }
{}

/// The frame of a sum keeps what the frame of every layout keeps.
pub fn sum_is_well_formed()
    ensures { WellFormedSumLaw }
{}

/// All existing places have a refusal that holds exactly where the written placement is a tag.
#[tactic(auto, using(crate::proofs::Refusing::refused))]
pub fn places_refuse_where_there_is_a_tag()
    ensures { RefusedLaw }
{}

/// The refusals of a tag hold, and are one for each existing place by rising place; other placements have none.
#[tactic(auto, using(crate::proofs::Refusing::complete))]
pub fn refusals_are_complete()
    ensures { RefusalsLaw }
{}

/// A written refusal names, of each pattern, the first byte that is not wholly free.
#[tactic(auto, using(crate::proofs::Refusing::first_is_first))]
pub fn refusals_name_the_first_byte()
    ensures { BlockingLaw }
{}

/// The head of forbidden values is what their first item offers.
#[tactic(auto, using(crate::proofs::Heads::head_leads))]
pub fn head_is_the_first_offer()
    ensures { HeadLaw }
{}

/// The two writes of a determinant change the test's own bits alone.
#[tactic(auto, using(crate::proofs::Imposing::kept))]
pub fn writes_keep_other_bits()
    ensures { KeptLaw }
{}

/// After a write the test has the truth that was wanted, unless a pattern was to be absent.
#[tactic(auto, using(crate::proofs::Imposing::imposed))]
pub fn writes_tell_the_variant()
    ensures { ImposedLaw }
{}
