//! Documents of the program: from trees of JSON to jobs. Each form of document is one function.
#![tactic(auto)]

mod command;
#[cfg(test)]
mod description_tests;
mod descriptions;
mod documents;
#[cfg(test)]
mod edit_tests;
mod edits;
mod forms;
mod integers;
mod job;
pub mod laws;
mod leaves;
mod made;
#[cfg(test)]
mod made_tests;
mod primitives;
mod targets;
#[cfg(test)]
mod tests;
#[cfg(test)]
mod told;
#[cfg(test)]
mod value_tests;
mod values;

pub use command::Command;
pub use documents::job_of;
pub use job::{Job, Work};
pub use made::{made_count, made_job};
