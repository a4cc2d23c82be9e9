ghost use Rattle.std.specs.Prelude.{◌≡◌, ◌↔◌, ◌++◌, false, IsTrue, IfOk, OnOk, length, slice_index, map};
ghost use Rattle.std.specs.List.{list_all, list_any};
ghost use Rattle.abi_bits.specs.Pairs.{is_pattern, are_bytes, are_below};
ghost use Rattle.abi_bits.specs.Single.{answer, selected};
ghost use Rattle.abi_bits.specs.Forbidden.{Forbidden, or, tree, items, head, single, offered, is_match, is_ranged, are_items_below, AreSound, is_solid_byte, is_solid_item, moved_item, moved_tree, joined, first_lying};

use crate::bit_mask::BitMask;
use crate::pairs::are_below;
use crate::pattern::Pattern;
use crate::single_forbidden_value::SingleForbiddenValue;
use crate::{MAX_SIZE, Patterns};
use abi_num::{Items, OutOfMemory};
use std::alloc::Global;

/// Byte values that no value of a type has, as a tree: a niche may be taken from its leaves.
#[derive(Debug, Drop)]
pub enum ForbiddenValues {
    /// Nothing is forbidden.
    End,
    /// One value of some bytes.
    Array(Pattern),
    /// Each value from `min` to `max` of the byte at `offset`.
    ForbiddenRange {
        /// The least forbidden value.
        min: u8,
        /// The greatest forbidden value.
        max: u8,
        /// The byte's offset.
        offset: u64,
    },
    /// What either side forbids.
    Or(Box<ForbiddenValues>, Box<ForbiddenValues>),
}

impl ForbiddenValues {
    /// Whether the bytes have a value that is forbidden.
    pub fn is_invalid(&self, bytes: &[u8]) -> bool
        requires { IsTrue (are_items_below (length bytes.now) (items self.now)) }
        ensures { result ≡ list_any (is_match (slice_index bytes.now)) (items self.now) }
    {
        match self {
            ForbiddenValues::End => false,
            ForbiddenValues::Array(pattern) => pattern.is_matched(bytes),
            ForbiddenValues::ForbiddenRange { min, max, offset } => {
                let byte = bytes[*offset as usize];
                *min <= byte && byte <= *max
            }
            ForbiddenValues::Or(left, right) => left.is_invalid(bytes) || right.is_invalid(bytes),
        }
    }

    /// The pattern that the very leftmost leaf offers; `End` where it forbids nothing.
    pub fn select_one(&self, alloc: Global) -> Result<SingleForbiddenValue, OutOfMemory>
        requires { AreSound (items self.now) }
        ensures same { IfOk result (λ found. found ≡ answer (head self.now) false) }
        ensures pattern { IfOk result (λ found. single found ≡ head self.now) }
    {
        match self {
            ForbiddenValues::End => Ok(SingleForbiddenValue::End),
            ForbiddenValues::Array(pattern) => {
                let pattern = pattern.copy(alloc)?;
                Ok(SingleForbiddenValue::Array(pattern))
            }
            ForbiddenValues::ForbiddenRange { min, offset, .. } => {
                let pattern = Pattern::of_byte(alloc, *offset, *min)?;
                Ok(SingleForbiddenValue::Array(pattern))
            }
            ForbiddenValues::Or(left, _) => {
                let found = left.select_one(alloc)?;
                Ok(found)
            }
        }
    }

    /// The patterns that the leaves offer, from left to right: a range offers its least value.
    pub fn patterns(&self, alloc: Global) -> Result<Patterns, OutOfMemory>
        requires { AreSound (items self.now) }
        ensures same { IfOk result (λ patterns. patterns ≡ offered (items self.now)) }
        ensures patterns { IfOk result (λ patterns. IsTrue (list_all is_pattern patterns)) }
        ensures bytes { IfOk result (λ patterns. IsTrue (list_all are_bytes patterns)) }
    {
        let mut patterns = Items::new(alloc);
        self.push_patterns(alloc, &mut patterns)?;
        Ok(patterns)
    }

    fn push_patterns(&self, alloc: Global, patterns: &mut Patterns) -> Result<(), OutOfMemory>
        requires { AreSound (items self.now) }
        ensures same { OnOk result (patterns.new ≡ patterns.old ++ offered (items self.now)) }
        ensures patterns { OnOk result (IsTrue (list_all is_pattern (offered (items self.now)))) }
        ensures bytes { OnOk result (IsTrue (list_all are_bytes (offered (items self.now)))) }
    {
        match self {
            ForbiddenValues::End => Ok(()),
            ForbiddenValues::Array(pattern) => {
                are_bytes(pattern.pairs());
                let pattern = pattern.copy(alloc)?;
                patterns.push(pattern)?;
                Ok(())
            }
            ForbiddenValues::ForbiddenRange { min, offset, .. } => {
                patterns.push(Pattern::of_byte(alloc, *offset, *min)?)?;
                Ok(())
            }
            ForbiddenValues::Or(left, right) => {
                left.push_patterns(alloc, patterns)?;
                right.push_patterns(alloc, patterns)?;
                Ok(())
            }
        }
    }

    /// The first pattern that a leaf offers in bytes that are wholly in `mask`. Where none is, `Saturator` if
    /// the very rightmost leaf is a pattern, else `End`.
    pub fn select_from(
        &self,
        alloc: Global,
        mask: &BitMask,
    ) -> Result<SingleForbiddenValue, OutOfMemory>
        requires { AreSound (items self.now) }
        ensures same { IfOk result (λ found. found ≡ selected mask.now (tree self.now)) }
        ensures pattern { IfOk result (λ o. single o ≡ first_lying mask.now (tree self.now)) }
    {
        match self {
            ForbiddenValues::End => Ok(SingleForbiddenValue::End),
            ForbiddenValues::Array(pattern) => {
                if !mask.includes(pattern.pairs()) {
                    return Ok(SingleForbiddenValue::Saturator);
                }
                let pattern = pattern.copy(alloc)?;
                Ok(SingleForbiddenValue::Array(pattern))
            }
            ForbiddenValues::ForbiddenRange { min, offset, .. } => {
                if !mask.has_free_byte_at(*offset) {
                    return Ok(SingleForbiddenValue::End);
                }
                let pattern = Pattern::of_byte(alloc, *offset, *min)?;
                Ok(SingleForbiddenValue::Array(pattern))
            }
            ForbiddenValues::Or(left, right) => {
                if let SingleForbiddenValue::Array(pattern) = left.select_from(alloc, mask)? {
                    return Ok(SingleForbiddenValue::Array(pattern));
                }
                let found = right.select_from(alloc, mask)?;
                Ok(found)
            }
        }
    }

    /// The same values, `by` bytes further on.
    pub fn shift(&self, alloc: Global, by: u64) -> Result<ForbiddenValues, OutOfMemory>
        requires { IsTrue (are_items_below MAX_SIZE (map (moved_item by) (items self.now))) }
        ensures { IfOk result (λ moved. tree moved ≡ moved_tree by (tree self.now)) }
    {
        match self {
            ForbiddenValues::End => Ok(ForbiddenValues::End),
            ForbiddenValues::Array(pattern) => {
                let pattern = pattern.moved(alloc, by)?;
                Ok(ForbiddenValues::Array(pattern))
            }
            ForbiddenValues::ForbiddenRange { min, max, offset } => Ok(
                ForbiddenValues::ForbiddenRange {
                    min: *min,
                    max: *max,
                    offset: *offset + by,
                },
            ),
            ForbiddenValues::Or(left, right) => {
                let left = left.shift(alloc, by)?;
                let right = right.shift(alloc, by)?;
                let both = Self::either(alloc, left, right)?;
                Ok(both)
            }
        }
    }

    /// What either forbids, `left` before `right`. Both are dropped where memory is refused.
    pub fn either(
        alloc: Global,
        left: ForbiddenValues,
        right: ForbiddenValues,
    ) -> Result<ForbiddenValues, OutOfMemory>
        ensures { IfOk result (λ both. tree both ≡ or (tree left) (tree right)) }
    {
        let left = Box::new(alloc, left)?;
        let right = Box::new(alloc, right)?;
        Ok(ForbiddenValues::Or(left, right))
    }

    /// Equal values.
    pub fn copy(&self, alloc: Global) -> Result<ForbiddenValues, OutOfMemory>
        ensures { IfOk result (λ copy. tree copy ≡ tree self.now) }
    {
        match self {
            ForbiddenValues::End => Ok(ForbiddenValues::End),
            ForbiddenValues::Array(pattern) => {
                let pattern = pattern.copy(alloc)?;
                Ok(ForbiddenValues::Array(pattern))
            }
            ForbiddenValues::ForbiddenRange { min, max, offset } => Ok(
                ForbiddenValues::ForbiddenRange {
                    min: *min,
                    max: *max,
                    offset: *offset,
                },
            ),
            ForbiddenValues::Or(left, right) => {
                let left = left.copy(alloc)?;
                let right = right.copy(alloc)?;
                let both = Self::either(alloc, left, right)?;
                Ok(both)
            }
        }
    }

    /// What either forbids: `other` where this forbids nothing; this before `other` where it is a range, else
    /// `other` before this. Both are dropped where memory is refused.
    pub fn or(self, alloc: Global, other: ForbiddenValues) -> Result<ForbiddenValues, OutOfMemory>
        ensures { IfOk result (λ both. tree both ≡ joined (tree self) (tree other)) }
    {
        match self {
            ForbiddenValues::End => Ok(other),
            ForbiddenValues::ForbiddenRange { min, max, offset } => {
                let both = Self::either(
                    alloc,
                    ForbiddenValues::ForbiddenRange { min, max, offset },
                    other,
                )?;
                Ok(both)
            }
            ForbiddenValues::Array(pattern) => {
                let both = Self::either(alloc, other, ForbiddenValues::Array(pattern))?;
                Ok(both)
            }
            ForbiddenValues::Or(left, right) => {
                let both = Self::either(alloc, other, ForbiddenValues::Or(left, right))?;
                Ok(both)
            }
        }
    }

    /// Whether every byte that is named lies below `size`, in bytes.
    pub fn is_below(&self, size: u64) -> bool
        ensures { result ≡ are_items_below size (items self.now) }
    {
        match self {
            ForbiddenValues::End => true,
            ForbiddenValues::Array(pattern) => are_below(pattern.pairs(), size),
            ForbiddenValues::ForbiddenRange { offset, .. } => *offset < size,
            ForbiddenValues::Or(left, right) => left.is_below(size) & right.is_below(size),
        }
    }

    /// Whether each range rises.
    pub fn is_ranged(&self) -> bool
        ensures { result ≡ list_all is_ranged (items self.now) }
    {
        match self {
            ForbiddenValues::End => true,
            ForbiddenValues::Array(_) => true,
            ForbiddenValues::ForbiddenRange { min, max, .. } => *min < *max,
            ForbiddenValues::Or(left, right) => left.is_ranged() & right.is_ranged(),
        }
    }

    /// Whether every byte that is named lies below `MAX_SIZE` and each range rises.
    pub fn is_sound(&self) -> bool
        ensures { IsTrue result ↔ AreSound (items self.now) }
    {
        self.is_below(MAX_SIZE) & self.is_ranged()
    }

    /// Whether every byte that is named lies below `size`, in bytes, and has no bit of `free`, and each
    /// range rises.
    pub fn is_solid(&self, size: u64, free: &BitMask) -> bool
        ensures { result ≡ list_all (is_solid_item size free.now) (items self.now) }
    {
        match self {
            ForbiddenValues::End => true,
            ForbiddenValues::Array(pattern) => are_solid(pattern.pairs(), size, free),
            ForbiddenValues::ForbiddenRange { min, max, offset } => {
                is_solid_byte(*offset, size, free) & (*min < *max)
            }
            ForbiddenValues::Or(left, right) => left.is_solid(size, free)
                & right.is_solid(size, free),
        }
    }
}

/// Changes nothing. A proof knows of a value that it is a byte only where it is looked at.
fn are_bytes(pairs: &[(u64, u8)])
    ensures { IsTrue (are_bytes pairs.now) }
{
    for (_, byte) in pairs {
        let _byte = *byte;
    }
}

fn are_solid(pairs: &[(u64, u8)], size: u64, free: &BitMask) -> bool
    ensures { result ≡ list_all (λ p. is_solid_byte size free.now p.0) pairs.now }
{
    for (offset, _) in pairs {
        if !is_solid_byte(*offset, size, free) {
            return false;
        }
    }
    true
}

fn is_solid_byte(offset: u64, size: u64, free: &BitMask) -> bool
    ensures { result ≡ is_solid_byte size free.now offset }
{
    offset < size && free.byte_at(offset) == 0
}
