//! Tests of `abi_layout`, which reach it as any crate above it does: by its public items.
#![tactic(auto)]

#[cfg(test)]
mod made;
#[cfg(test)]
mod prim_tests;
#[cfg(test)]
mod report_tests;
#[cfg(test)]
mod tests;
