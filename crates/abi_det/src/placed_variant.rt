ghost use Rattle.std.specs.Prelude.{◌≡◌, ◌≤◌, ◌<◌, IsTrue, IfOk, option_map, ◌+◌, [], ◌∷◌, ◌==◌};
ghost use Rattle.std.specs.List.{list_any};
ghost use Rattle.abi_bits.specs.Pairs.{are_below, max_size, moved_pairs};
ghost use Rattle.abi_det.specs.Roles.{lies_free};
ghost use Rattle.abi_bits.specs.Forbidden.{items, offered};
ghost use Rattle.abi_det.specs.Offers.{first_lying};
ghost use Rattle.abi_det.specs.Written.{first_blocking, is_blocking, blocking_bytes, all_blocking};

use crate::variant::Variant;
use abi_bits::{ForbiddenValues, MAX_SIZE, Offsets, Pattern};
use abi_num::{Items, OutOfMemory};
use std::alloc::Global;

/// A variant at its place in a union of `size` bytes.
#[derive(Drop)]
pub(crate) struct PlacedVariant<'v, 'a> {
    pub(crate) variant: &'v Variant<'a>,
    /// Where the variant starts, in bytes.
    pub(crate) shift: u64,
    pub(crate) size: u64,
    ghost within: { size ≤ max_size },
}

impl PlacedVariant<'_, '_> {
    ghost use Rattle.abi_det.specs.Search.{free_of};

    /// The bits of a byte of the union that the variant leaves free.
    pub(crate) fn byte_at(&self, at: u64) -> u8
        ensures { result ≡ free_of self.now at }
    {
        if at < self.size {
            if at < self.shift {
                255
            } else if at - self.shift < self.variant.size() {
                self.variant.unused().byte_at(at - self.shift)
            } else {
                255
            }
        } else {
            0
        }
    }

    /// Whether the pattern, moved by that many bytes, lies in bytes that the variant leaves wholly free.
    pub(crate) fn lies_free(&self, pairs: &[(u64, u8)], by: u64) -> bool
        requires below { IsTrue (are_below MAX_SIZE pairs.now) }
        requires near { by ≤ MAX_SIZE }
        ensures { result ≡ lies_free (free_of self.now) (moved_pairs by pairs.now) }
    {
        for (offset, _) in pairs {
            if self.byte_at(*offset + by) != 255 {
                return false;
            }
        }
        true
    }

    /// The first of the patterns, moved by that many bytes, that lies in bytes which the variant leaves
    /// wholly free.
    #[tactic(auto, using(crate::proofs::Moving::pattern_below))]
    pub(crate) fn first_free(
        &self,
        alloc: Global,
        patterns: &[Pattern],
        by: u64,
    ) -> Result<Option<Pattern>, OutOfMemory>
        requires { by ≤ MAX_SIZE }
        ensures { IfOk result (λ found. found ≡ first_lying (free_of self.now) by patterns.now) }
    {
        for pattern in patterns {
            if self.lies_free(pattern.pairs(), by) {
                let pattern = pattern.moved(alloc, by)?;
                return Ok(Some(pattern));
            }
        }
        Ok(None)
    }

    /// The first byte of the pattern, moved by that many bytes, that the variant does not leave wholly free;
    /// 0 where there is none.
    fn first_blocking(&self, pairs: &[(u64, u8)], by: u64) -> u64
        requires below { IsTrue (are_below MAX_SIZE pairs.now) }
        requires near { by ≤ MAX_SIZE }
        ensures { result ≡ first_blocking (free_of self.now) (moved_pairs by pairs.now) }
    {
        for (offset, _) in pairs {
            if self.byte_at(*offset + by) != 255 {
                return *offset + by;
            }
        }
        0
    }

    /// For each of the patterns, moved by that many bytes, the first byte that the variant does not leave
    /// wholly free.
    #[tactic(auto, using(crate::proofs::Moving::pattern_below))]
    pub(crate) fn blocking(
        &self,
        alloc: Global,
        patterns: &[Pattern],
        by: u64,
    ) -> Result<Offsets, OutOfMemory>
        requires { by ≤ MAX_SIZE }
        ensures { IfOk result (λ all. all ≡ blocking_bytes (free_of self.now) by patterns.now) }
    {
        let mut offsets = Items::new(alloc);
        for pattern in patterns {
            offsets.push(self.first_blocking(pattern.pairs(), by))?;
        }
        Ok(offsets)
    }
}

impl PlacedVariant<'_, '_> {
    ghost use Rattle.abi_det.specs.Search.{free_of, after_all};

    /// Whether the byte of the union at offset `at` is one of the pattern's, moved by that many bytes, and the
    /// variant does not leave it wholly free.
    fn is_blocking(&self, pairs: &[(u64, u8)], by: u64, at: u64) -> bool
        ensures { result ≡ is_blocking (free_of self.now) (moved_pairs by pairs.now) at }
    {
        if names(pairs, by, at) {
            self.byte_at(at) != 255
        } else {
            false
        }
    }

    /// What is left of the offsets after a blocking byte for the pattern, moved by that many bytes.
    fn rest_after<'o>(&self, pairs: &[(u64, u8)], by: u64, offsets: &'o [u64]) -> Option<&'o [u64]>
        ensures { option_map (λ r. r.now) result
            ≡ after_all (free_of self.now) by (pairs.now ∷ []) offsets.now }
    {
        match offsets.split_first() {
            Some((at, rest)) => {
                if self.is_blocking(pairs, by, *at) {
                    Some(rest)
                } else {
                    None
                }
            }
            None => None,
        }
    }

    /// What is left of the offsets after a blocking byte for each pattern that the values offer, moved by
    /// that many bytes; `None` where one is missing or does not block.
    fn rest_after_all<'o>(
        &self,
        values: &ForbiddenValues,
        by: u64,
        offsets: &'o [u64],
    ) -> Option<&'o [u64]>
        ensures { option_map (λ r. r.now) result
            ≡ after_all (free_of self.now) by (offered (items values.now)) offsets.now }
    {
        match values {
            ForbiddenValues::End => Some(offsets),
            ForbiddenValues::Array(pattern) => self.rest_after(pattern.pairs(), by, offsets),
            ForbiddenValues::ForbiddenRange { min, offset, .. } => {
                self.rest_after(&[(*offset, *min)], by, offsets)
            }
            ForbiddenValues::Or(left, right) => match self.rest_after_all(left, by, offsets) {
                Some(rest) => self.rest_after_all(right, by, rest),
                None => None,
            },
        }
    }

    /// Whether the offsets name a blocking byte for each pattern that the values offer, moved by that many
    /// bytes, in order, and nothing else.
    #[tactic(auto, using(crate::proofs::Blocking::all_blocking, crate::proofs::Blocking::not_blocking))]
    pub(crate) fn are_blocking(&self, values: &ForbiddenValues, by: u64, offsets: &[u64]) -> bool
        ensures { result
            ≡ all_blocking (free_of self.now) by (offered (items values.now)) offsets.now }
    {
        match self.rest_after_all(values, by, offsets) {
            Some(rest) => rest.is_empty(),
            None => false,
        }
    }
}

/// Whether the byte at offset `at` is one of the pattern's, moved by that many bytes.
fn names(pairs: &[(u64, u8)], by: u64, at: u64) -> bool
    ensures { result ≡ list_any (λ p. p.0 == at) (moved_pairs by pairs.now) }
{
    for (offset, _) in pairs {
        if is_moved_to(*offset, by, at) {
            return true;
        }
    }
    false
}

/// Whether `offset` and `by` make `at`.
fn is_moved_to(offset: u64, by: u64, at: u64) -> bool
    ensures { result ≡ (offset + by == at) }
{
    if by <= at { offset == at - by } else { false }
}
