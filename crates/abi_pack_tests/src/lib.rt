//! Tests of `abi_pack`: packing, reading and what bytes show.
#![tactic(auto)]

#[cfg(test)]
mod tests;
