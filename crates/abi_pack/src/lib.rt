//! Values packed into bytes: what bytes show, and how a value is written and read back.
#![tactic(auto)]

mod abi_error;
mod change;
mod counting;
mod edit_fault;
mod fits;
mod image;
mod inner;
mod integer;
mod jobs;
pub mod laws;
mod layers;
mod plan;
mod raw;
mod read;
mod restore;
mod scalars;
mod shown;
mod sides;
mod step;
mod value;
mod write;

pub use abi_error::AbiError;
pub use abi_layout::{Placed, PlacedList};
pub use counting::MAX_VALUES;
pub use image::Image;
pub use jobs::{edit_each, run};
pub use plan::{EditError, Plan, ReadError};
pub use step::{Edit, Edits, Step, Steps};
pub use value::{Bytes, Value, Values};
