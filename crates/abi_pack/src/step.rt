use crate::value::Value;
use abi_num::Items;

/// A step from a part of a description into one of its own parts.
#[derive(Debug, Clone, Copy, PartialEq, Eq)]
pub enum Step {
    /// Into the field of that number, counted from 0.
    Field(u32),
    /// Into the item of that number, counted from 0.
    Item(u32),
    /// Into the variant `Ok` of a result.
    Ok,
    /// Into the variant `Err` of a result.
    Err,
    /// Into the variant `Some` of an option.
    Some,
}

/// Steps from the whole to a part.
pub type Steps = Items<Step>;

/// The part at a path gets another value.
#[derive(Drop)]
pub struct Edit {
    /// From the whole to the part.
    pub path: Steps,
    /// What stands there from then on.
    pub value: Value,
}

/// Edits in order.
pub type Edits = Items<Edit>;
