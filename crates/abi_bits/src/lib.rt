//! Sets of free bits, byte patterns, forbidden values, niche counts, and counts of steps.
#![tactic(auto)]

mod bit_mask;
mod byte_mask;
mod forbidden_values;
pub mod laws;
mod pairs;
mod pattern;
mod saturating_add_value;
mod single_forbidden_value;
mod span;
mod steps;
mod walk;

use abi_num::Items;
pub use bit_mask::BitMask;
pub use byte_mask::ByteMask;
pub use forbidden_values::ForbiddenValues;
pub use pairs::are_rising;
pub use pattern::Pattern;
pub use saturating_add_value::SaturatingAddValue;
pub use single_forbidden_value::SingleForbiddenValue;
pub use steps::Steps;
pub use walk::Walk;

/// The greatest size of anything laid out, in bytes; every offset lies below it.
pub const MAX_SIZE: u64 = 1048576;

/// Offsets in bytes, each with the mask or the value of that byte.
pub type Pairs = Items<(u64, u8)>;

/// Offsets in bytes.
pub type Offsets = Items<u64>;

/// Patterns in order.
pub type Patterns = Items<Pattern>;
