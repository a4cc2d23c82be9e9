//! Tests of `abi_bits`: sets of free bits, patterns, forbidden values and niche counts.
#![tactic(auto)]

#[cfg(test)]
mod tests;
