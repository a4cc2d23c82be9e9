use abi_det::{Determinant, Kind, Refusals};
use abi_num::Items;

/// Where the variants of one packed sum stand. Offsets count from the sum's first byte.
#[derive(Debug, Drop)]
pub struct Placed {
    /// The sum's part number.
    pub part: u32,
    /// The number of the place at which the smaller variant stands, from 0 to 7.
    pub place: u64,
    /// Bytes before the variants, which hold a tag.
    pub front: u64,
    /// Where `Ok` or `Some` starts, in bytes from `front`.
    pub ok_shift: u64,
    /// Where `Err` or `None` starts, in bytes from `front`.
    pub err_shift: u64,
    /// What kind of niche tells the variant.
    pub kind: Kind,
    /// The test that tells the variant.
    pub determinant: Determinant,
    /// Why no place offers a niche, one entry for each place; none where one does.
    pub refusals: Refusals,
}

/// The packed sums of a description in pre-order.
pub type PlacedList = Items<Placed>;
