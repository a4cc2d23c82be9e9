//! Integers with a forbidden number of one's choice, stored as their distance from it.
#![tactic(auto)]

mod signed;
mod unsigned;

pub use signed::{
    ExceptI8, ExceptI16, ExceptI32, ExceptI64, ExceptI128, ExceptIsize, NonXI8, NonXI16, NonXI32,
    NonXI64, NonXI128, NonXIsize,
};
pub use unsigned::{
    ExceptU8, ExceptU16, ExceptU32, ExceptU64, ExceptU128, ExceptUsize, NonXU8, NonXU16, NonXU32,
    NonXU64, NonXU128, NonXUsize,
};

#[cfg(test)]
mod tests;
