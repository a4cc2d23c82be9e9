use crate::determinant::Determinant;
use abi_bits::{BitMask, Offsets};
use abi_num::Items;

/// Where a sum's variants stand, and what tells them apart.
#[derive(Debug, Drop)]
pub struct Placement {
    /// Where `Ok` starts, in bytes from `front`.
    pub ok_shift: u64,
    /// Where `Err` starts, in bytes from `front`.
    pub err_shift: u64,
    /// The number of the place at which the smaller variant stands, from 0 to 7.
    pub place: u64,
    /// Bytes before the variants, which hold a tag: 0, or the sum's alignment.
    pub front: u64,
    /// What kind of niche tells the variant.
    pub kind: Kind,
    /// The test that tells the variant.
    pub determinant: Determinant,
    /// The bits that the sum leaves free.
    pub exported: BitMask,
    /// Why no place offers a niche, one entry for each place; none where one does.
    pub refusals: Refusals,
}

/// What tells the variant of a sum.
#[derive(Debug, Clone, Copy, PartialEq, Eq)]
pub enum Kind {
    /// A pattern that the smaller variant never has, in bytes that the larger leaves free.
    SmallerPattern,
    /// A pattern that the larger variant never has, in bytes that the smaller leaves free.
    LargerPattern,
    /// A bit that both variants leave free.
    SharedBit,
    /// A byte before both variants.
    Tag,
}

/// Why a place offers no niche: a byte of each offered pattern that the other variant needs.
#[derive(Debug, Drop)]
pub struct Refusal {
    /// The number of the place.
    pub place: u64,
    /// For each pattern that the smaller variant offers, the offset in the union of such a byte.
    pub smaller: Offsets,
    /// For each pattern that the larger variant offers, the offset in the union of such a byte.
    pub larger: Offsets,
}

/// Refusals by rising place.
pub type Refusals = Items<Refusal>;
