//! Tests of `abi_det`: placements and determinants of packed sums of two.
#![tactic(auto)]

#[cfg(test)]
mod tests;
