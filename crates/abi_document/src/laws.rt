//! Laws over the definitions of documents: each is the contract of a function that does nothing.
ghost use Rattle.abi_document.specs.Laws.{DescriptionLaw, ValueLaw, MadeLaw};

/// Whatever the count of levels, a tree that nests fewer is the same description, or none.
#[tactic(auto, using(crate::proofs::Nesting::description_law))]
pub fn levels_do_not_matter_to_descriptions()
    ensures { DescriptionLaw }
{}

/// Whatever the count of levels, a tree that nests fewer is the same value, or none.
#[tactic(auto, using(crate::proofs::Nesting::value_law))]
pub fn levels_do_not_matter_to_values()
    ensures { ValueLaw }
{}

/// A made job has no fault: neither its description nor its value.
#[tactic(auto, using(crate::proofs::MadeJobs::made_law))]
pub fn made_jobs_have_no_fault()
    ensures { MadeLaw }
{}
