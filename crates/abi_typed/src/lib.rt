//! Types with a fixed description, whose values are values of it on every target.
#![tactic(auto)]

mod plain_types;
mod pod;
mod restricted;
mod stable;
#[cfg(test)]
mod tests;
mod whole;

pub use pod::{AssertStable, IPod, assert_stable};
pub use restricted::Excluding;
pub use stable::IStable;
pub use whole::Whole;
