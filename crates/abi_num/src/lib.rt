//! Targets, alignments, lists and texts: what every crate above counts and keeps.
#![tactic(auto)]

mod alignment;
pub mod bits;
mod items;
mod out_of_memory;
mod target;
mod text;
pub mod unsigned;

pub use alignment::{Alignment, MAX_ALIGN};
pub use items::Items;
pub use out_of_memory::OutOfMemory;
pub use target::Target;
pub use text::Text;
