ghost use Rattle.std.specs.Prelude.{◌≡◌, ◌↔◌, ◌<◌, [], ◌∷◌, IsTrue, IsSome, IfSome, IfOk, length, slice_index};
ghost use Rattle.abi_bits.specs.Pairs.{is_pattern, IsPattern, is_matched, are_below, moved_pairs, first_offset};

use crate::pairs::{are_rising, moved, with_front};
use crate::{MAX_SIZE, Pairs};
use abi_num::{Items, OutOfMemory};
use std::alloc::Global;
use std::marker::Model;

/// A value of some bytes: a non-empty list of offsets in bytes, rising and below `MAX_SIZE`, each with
/// the byte that stands there. Bytes match it where every named byte has its value.
#[derive(Debug, Drop)]
pub struct Pattern {
    pairs: Pairs,
}

impl Model for Pattern {
    ghost use Rattle.std.specs.Prelude.{List, ℕ};
    ghost use Rattle.abi_bits.specs.Pairs.{IsPattern};

    ghost Value = { List (ℕ × ℕ) };

    ghost view = { λ p. p.pairs };

    ghost invariant = { λ p. IsPattern p.pairs };
}

impl Pattern {
    /// The pattern of these pairs; `None` exactly where they are no such list.
    pub fn new(alloc: Global, pairs: &[(u64, u8)]) -> Result<Option<Pattern>, OutOfMemory>
        ensures valid { IfOk result (λ found. IsSome found ↔ IsPattern pairs.now) }
        ensures same { IfOk result (λ found. IfSome found (λ pattern. pattern ≡ pairs.now)) }
    {
        if is_pattern(pairs) {
            let pairs = Items::from_slice(alloc, pairs)?;
            Ok(Some(Pattern { pairs }))
        } else {
            Ok(None)
        }
    }

    /// The offsets in bytes, rising, each with its byte.
    pub fn pairs(&self) -> &[(u64, u8)]
        ensures same { result.now ≡ self.now }
        ensures valid { IsPattern self.now }
    {
        self.pairs.as_slice()
    }

    /// The pattern of one byte.
    pub(crate) fn of_byte(alloc: Global, offset: u64, byte: u8) -> Result<Pattern, OutOfMemory>
        requires { offset < MAX_SIZE }
        ensures { IfOk result (λ pattern. pattern ≡ (offset, byte) ∷ []) }
    {
        let pairs = Items::from_slice(alloc, &[(offset, byte)])?;
        Ok(Pattern { pairs })
    }

    /// The pattern with the value `byte` of the byte at `offset` in front, which lies before all of its bytes.
    pub(crate) fn with_front(
        &self,
        alloc: Global,
        offset: u64,
        byte: u8,
    ) -> Result<Pattern, OutOfMemory>
        requires { offset < first_offset self.now }
        ensures { IfOk result (λ pattern. pattern ≡ (offset, byte) ∷ self.now) }
    {
        let pairs = with_front(alloc, (offset, byte), self.pairs.as_slice())?;
        Ok(Pattern { pairs })
    }

    /// The pattern `by` bytes further on.
    #[tactic(auto, using(crate::proofs::Sets::moved_is_pattern))]
    pub fn moved(&self, alloc: Global, by: u64) -> Result<Pattern, OutOfMemory>
        requires { IsTrue (are_below MAX_SIZE (moved_pairs by self.now)) }
        ensures { IfOk result (λ pattern. pattern ≡ moved_pairs by self.now) }
    {
        let pairs = moved(alloc, self.pairs.as_slice(), by)?;
        Ok(Pattern { pairs })
    }

    /// Whether every named byte has its value.
    pub fn is_matched(&self, bytes: &[u8]) -> bool
        requires { IsTrue (are_below (length bytes.now) self.now) }
        ensures { result ≡ is_matched self.now (slice_index bytes.now) }
    {
        is_matched(self.pairs.as_slice(), bytes)
    }

    /// An equal pattern.
    pub fn copy(&self, alloc: Global) -> Result<Pattern, OutOfMemory>
        ensures { IfOk result (λ pattern. pattern ≡ self.now) }
    {
        let pairs = Items::from_slice(alloc, self.pairs.as_slice())?;
        Ok(Pattern { pairs })
    }
}

fn is_pattern(pairs: &[(u64, u8)]) -> bool
    ensures { result ≡ is_pattern pairs.now }
{
    !pairs.is_empty() && are_rising(pairs)
}

fn is_matched(pairs: &[(u64, u8)], bytes: &[u8]) -> bool
    requires { IsTrue (are_below (length bytes.now) pairs.now) }
    ensures { result ≡ is_matched pairs.now (slice_index bytes.now) }
{
    for (offset, byte) in pairs {
        if bytes[*offset as usize] != *byte {
            return false;
        }
    }
    true
}
