//! What holds of packed bytes, of every description without a fault: each function's clause is a law.

ghost use Rattle.abi_pack.specs.Laws.{
  CanonicalLaw,
  UniqueLaw,
  FitLaw,
  HeldLaw,
  FlipLaw,
  FreeLaw,
  ChangeLaw,
  ItemLaw,
  PackedLaw,
  BackLaw,
  ReadLaw,
  ImageLaw,
};
ghost use Rattle.abi_pack.specs.EditLaws.{OneEditLaw, CanonicalEditLaw, EditedBytesLaw};

/// Every value that fits has exactly one canonical byte string.
#[tactic(auto, using(crate::proofs::Lawful::canonical_law))]
pub fn canonical_bytes()
    ensures { CanonicalLaw }
{}

/// Bytes show at most one value.
#[tactic(auto, using(crate::proofs::Lawful::unique_law))]
pub fn one_value()
    ensures { UniqueLaw }
{}

/// A value that bytes show fits.
#[tactic(auto, using(crate::proofs::Lawful::fit_law))]
pub fn shown_value_fits()
    ensures { FitLaw }
{}

/// Bytes show a value exactly where they agree with its canonical bytes at every bit that it holds.
#[tactic(auto, using(crate::proofs::Lawful::held_law))]
pub fn held_bits_decide()
    ensures { HeldLaw }
{}

/// In bytes that show a value, a bit is held exactly where its lone flip leaves bytes that do not show the value.
#[tactic(auto, using(crate::proofs::Lawful::flip_law))]
pub fn held_bit_flips()
    ensures { FlipLaw }
{}

/// No value holds a free bit of the layout.
#[tactic(auto, using(crate::proofs::Lawful::free_law))]
pub fn free_bits_are_not_held()
    ensures { FreeLaw }
{}

/// Bytes that show a value show it after any change of the layout's free bits.
#[tactic(auto, using(crate::proofs::Lawful::change_law))]
pub fn free_bits_may_change()
    ensures { ChangeLaw }
{}

/// Bytes that show a value match no forbidden item of the layout.
#[tactic(auto, using(crate::proofs::Lawful::item_law))]
pub fn no_item_matches()
    ensures { ItemLaw }
{}

/// Two values have equal canonical bytes exactly where they are equal.
#[tactic(auto, using(crate::proofs::Lawful::packed_law))]
pub fn equal_bytes_equal_values()
    ensures { PackedLaw }
{}

/// Canonical bytes show the value that was packed and no other.
#[tactic(auto, using(crate::proofs::Lawful::back_law))]
pub fn packed_value_is_read_back()
    ensures { BackLaw }
{}

/// What reading computes is the value that bytes show, and nothing exactly where they show none.
#[tactic(auto, using(crate::proofs::Lawful::read_law))]
pub fn what_is_read_is_shown()
    ensures { ReadLaw }
{}

/// The image of a job without a fault has the canonical bytes of the value that its edits leave.
#[tactic(auto, using(crate::proofs::Promised::image_law))]
pub fn image_is_canonical()
    ensures { ImageLaw }
{}

/// No second byte string is the edit of bytes that show a value.
#[tactic(auto, using(crate::proofs::EditLaws::one_edit_law))]
pub fn one_edit()
    ensures { OneEditLaw }
{}

/// Canonical bytes become the canonical bytes of the edited value.
#[tactic(auto, using(crate::proofs::EditLaws::canonical_edit_law))]
pub fn edited_bytes_stay_canonical()
    ensures { CanonicalEditLaw }
{}

/// What edits compute is the edit of bytes that show a value, one after the other.
#[tactic(auto, using(crate::proofs::EditedLists::edited_bytes_law))]
pub fn what_edits_compute_is_edited()
    ensures { EditedBytesLaw }
{}
