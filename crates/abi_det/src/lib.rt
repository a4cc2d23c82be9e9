//! Lawful layouts, and where the variant of a packed sum of two stands.
#![tactic(auto)]

mod counted;
mod determinant;
mod exports;
pub mod laws;
mod layout;
mod offers;
mod placed_variant;
mod placements;
mod raw_layout;
mod refusals;
mod roles;
mod rules;
mod side;
mod spare;
mod sum;
mod variant;

pub use counted::{Found, search, search_by};
pub use determinant::{Determinant, Test};
pub use layout::Layout;
pub use placements::{Kind, Placement, Refusal, Refusals};
pub use raw_layout::RawLayout;
pub use refusals::check_refusal;
pub use rules::Rules;
pub use side::Side;
pub use sum::{placement, placement_by, sum_layout, sum_size};
