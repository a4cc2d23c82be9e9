//! Laws over the definitions of layouts: each is the contract of a function that does nothing.
ghost use Rattle.abi_layout.specs.ReportsOf.{IdentifierLaw, PlainLaw};
ghost use Rattle.abi_layout.specs.Laws.{CauseLaw, FoldLaw, LawfulLaw, WellFormedLaw};

/// Fields folded from the left and closed, at a requested alignment or their own, make the struct
/// by positions: size, alignment, free bits, forbidden values, head, count and indirections.
#[tactic(auto, using(crate::proofs::Folding::fold_is_struct))]
pub fn fields_folded_are_struct()
    ensures { FoldLaw }
{}

/// A description without a fault, and so each part of it, has a lawful frame on a supported target.
pub fn faultless_is_lawful()
    ensures { LawfulLaw }
{}

/// Its free bits and patterns stand in order, and what its leftmost forbidden value offers is the
/// first pattern that it offers.
pub fn faultless_is_well_formed()
    ensures { WellFormedLaw }
{}

/// The fault of a description is never want of memory.
#[tactic(auto, using(crate::proofs::Causes::desc_cause))]
pub fn faults_have_causes()
    ensures { CauseLaw }
{}

/// On one target, plain descriptions with equal reports have layouts that are equal in every
/// component.
#[tactic(auto, using(crate::proofs::PlainReports::plain_law))]
pub fn equal_plain_reports_tell_equal_layouts()
    ensures { PlainLaw }
{}

/// On one target, equal reports have equal identifiers.
#[tactic(auto, using(crate::proofs::PlainReports::identifier_law))]
pub fn equal_reports_have_equal_identifiers()
    ensures { IdentifierLaw }
{}
