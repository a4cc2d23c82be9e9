use crate::scalar::Scalar;
use abi_bits::{BitMask, ForbiddenValues};
use abi_det::Determinant;
use abi_num::Items;

/// What the bytes of a part of a description mean.
#[cycle(part)]
#[derive(Drop)]
pub enum Part {
    /// A value without parts.
    Scalar(Scalar),
    /// Bytes as they stand, but for free bits.
    Raw {
        /// How many.
        size: u64,
        /// The free bits.
        free: BitMask,
        /// What the bytes never are.
        forbidden: ForbiddenValues,
    },
    /// Fields one after another, each behind its gap.
    Struct {
        /// In order.
        fields: PartFields,
        /// Size of all, in bytes.
        size: u64,
    },
    /// Several of one kind, one after another.
    Array {
        /// What the bytes of one mean.
        item: Box<Part>,
        /// How many there are.
        len: u64,
        /// Size of all of them, in bytes.
        size: u64,
    },
    /// One of two.
    Sum {
        /// What its variants are called.
        names: Sort,
        /// The variant `Ok` or `Some`.
        ok: Box<Part>,
        /// The variant `Err` or `None`.
        err: Box<Part>,
        /// Where the variants stand, and what tells them apart.
        sum_layout: SumLayout,
    },
}

/// A field of a struct.
#[cycle(part)]
#[derive(Drop)]
pub struct PartField {
    /// Bytes between the field before, or the struct's start, and this one.
    pub gap: u64,
    /// What its bytes mean.
    pub part: Part,
}

/// Fields in order.
pub type PartFields = Items<PartField>;

/// What parts one after another are.
#[derive(Debug, Clone, Copy, PartialEq, Eq)]
pub enum Compound {
    /// The fields of a struct.
    Struct,
    /// The items of an array.
    Array,
}

/// What the variants of a sum are called.
#[derive(Debug, Clone, Copy, PartialEq, Eq)]
pub enum Sort {
    /// `Ok` and `Err`.
    OfResult,
    /// `Some` and `None`.
    OfOption,
}

/// Where a sum's variants stand, and what tells them apart. Offsets count from the sum's first
/// byte.
#[derive(Drop)]
pub struct SumLayout {
    /// Where `Ok` or `Some` starts, in bytes.
    pub ok: u64,
    /// Where `Err` or `None` starts, in bytes.
    pub err: u64,
    /// Size of the sum, in bytes.
    pub size: u64,
    /// The test that tells the variant.
    pub determinant: Determinant,
}
