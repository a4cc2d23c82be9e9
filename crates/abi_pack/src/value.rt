use abi_num::Items;
use std::cmp::Ordering;

/// A value of any description.
#[derive(Drop)]
pub enum Value {
    /// The one value of a type without bytes.
    Unit,
    /// A whole number.
    Int {
        /// Its distance from 0.
        magnitude: u128,
        /// Whether it lies below 0; no description has a 0 that does.
        negative: bool,
    },
    /// A truth value.
    Bool(bool),
    /// The outcome of a comparison.
    Order(Ordering),
    /// Bytes as they stand.
    Bytes(Bytes),
    /// One value for each field or item, in order.
    List(Values),
    /// The variant `Ok` of a result.
    Ok(Box<Value>),
    /// The variant `Err` of a result.
    Err(Box<Value>),
    /// The variant `Some` of an option.
    Some(Box<Value>),
    /// The variant `None` of an option.
    None,
}

/// Bytes in order.
pub type Bytes = Items<u8>;

/// Values in order.
pub type Values = Items<Value>;
