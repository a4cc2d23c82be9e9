//! Integers with one forbidden number, stored in a form that is never 0.
#![tactic(auto)]

mod illegal_value;
mod nonmax;
mod restricted;
mod stored;
mod word;

pub use illegal_value::IllegalValue;
pub use nonmax::{
    BelowGreatest, NonMaxU8, NonMaxU16, NonMaxU32, NonMaxU64, NonMaxU128, NonMaxUsize,
};
pub use restricted::{Restricted, Restriction};
pub use stored::{Stored, StoredU8, StoredU16, StoredU32, StoredU64, StoredU128, StoredUsize};
pub use word::Word;
