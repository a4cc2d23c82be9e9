ghost use Rattle.std.specs.Prelude.{◌≡◌, ◌↔◌, ◌≤◌, ◌<◌, ◌+◌, ◌-◌, ◌*◌, ◌/◌, ◌%◌, ◌^◌, ◌⊎◌, ℕ, ◌++◌, ◌==◌, ◌∷◌, [], nat_le, nat_lt, bit_and, bit_or, bit_xor, IsTrue, IsSome, IfSome, IfOk, OnOk, OnErr, length, slice_index, vec_len, if◌then◌else◌};
ghost use Rattle.std.specs.Int.{bit_at};
ghost use Rattle.std.specs.List.{find};
ghost use Rattle.std.specs.Option.{option_map};
ghost use Rattle.abi_bits.specs.Pairs.{are_below, are_rising, is_empty, moved_pairs};
ghost use Rattle.abi_bits.specs.Span.{IsSpan, byte_in};
ghost use Rattle.abi_bits.specs.Mask.{is_mask, IsMask, mask_at, Has, have_bits, IsNext, HasBytes, HasBits, HasEither, byte_or, byte_or_moved, byte_within, byte_after_least, HasMoved, byte_moved, AreFirstBytes, entry, full_between, lies_free, lowest, least_bit, bit_byte, IsLeast};

use crate::MAX_SIZE;
use crate::pairs::are_rising;
use crate::span::{byte_of, first, or_bytes, start_with, widen};
use crate::walk::Walk;
use abi_num::{Items, OutOfMemory};
use std::alloc::Global;
use std::marker::Model;

/// A set of bits: one array of bytes, from the least byte that has a bit of it to the greatest. Contracts
/// see its entries: the bytes that have a bit of it, by rising offset, each with the mask of its bits.
#[derive(Debug, Drop)]
pub struct BitMask {
    start: u64,
    bytes: Vec<u8>,
}

impl Model for BitMask {
    ghost use Rattle.std.specs.Prelude.{List, ℕ};
    ghost use Rattle.abi_bits.specs.Span.{entries_in, IsSpan};

    ghost Value = { List (ℕ × ℕ) };

    ghost view = { λ m. entries_in m.start m.bytes.items };

    ghost invariant = { λ m. IsSpan m.start m.bytes.items };
}

impl BitMask {
    /// The empty set. Takes no memory.
    #[tactic(auto, using(crate::proofs::Spans::span_none, crate::proofs::Spans::none_span))]
    pub fn new(alloc: Global) -> BitMask
        ensures { result ≡ [] }
    {
        BitMask {
            start: 0,
            bytes: Vec::new(alloc),
        }
    }

    /// The set with these entries: an offset in bytes, and the mask of the byte's bits. `None` exactly where
    /// the offsets do not rise or reach `MAX_SIZE`, or a mask is 0.
    pub fn from_entries(
        alloc: Global,
        entries: &[(u64, u8)],
    ) -> Result<Option<BitMask>, OutOfMemory>
        ensures valid { IfOk result (λ found. IsSome found ↔ IsMask entries.now) }
        ensures same { IfOk result (λ found. IfSome found (λ mask. mask ≡ entries.now)) }
    {
        if !is_mask(entries) {
            return Ok(None);
        }
        let mut mask = BitMask::new(alloc);
        for (offset, bits) in entries {
            mask.push_byte(*offset, *bits)?;
        }
        Ok(Some(mask))
    }

    /// An equal set.
    pub fn copy(&self, alloc: Global) -> Result<BitMask, OutOfMemory>
        ensures same { IfOk result (λ mask. mask ≡ self.now) }
        ensures valid { IsMask self.now }
    {
        let bytes = Vec::from_slice(alloc, self.bytes.as_slice())?;
        Ok(BitMask {
            start: self.start,
            bytes,
        })
    }

    /// Whether no bit is in the set.
    #[tactic(auto, using(crate::proofs::Spans::span_is_empty))]
    pub fn is_empty(&self) -> bool
        ensures same { result ≡ is_empty self.now }
        ensures valid { IsMask self.now }
    {
        self.bytes.is_empty()
    }

    /// Whether each bit lies in the first `size` bytes.
    pub fn is_below(&self, size: u64) -> bool
        ensures same { result ≡ are_below size self.now }
        ensures valid { IsMask self.now }
    {
        let bytes = self.bytes.as_slice();
        bytes.is_empty() || self.start + bytes.len() as u64 <= size
    }

    /// The first byte at the offset `from` or past it that has a bit: its offset, and the mask of its bits.
    pub fn next_entry(&self, from: u64) -> Option<(u64, u8)>
        ensures same { result ≡ find (λ e. nat_le from e.0) self.now }
        ensures next { IsNext self.now from result }
        ensures valid { IsMask self.now }
    {
        self.walk().next_entry(from)
    }

    /// A walk over the bytes of the set by rising offsets. Takes no memory.
    pub fn walk(&self) -> Walk<'_>
        ensures same { result ≡ self.now }
        ensures valid { IsMask self.now }
    {
        Walk::new(self.start, self.bytes.as_slice())
    }

    /// The bits at the byte at offset `at`; 0 where none stands.
    #[tactic(auto, using(crate::proofs::Spans::span_at))]
    pub fn byte_at(&self, at: u64) -> u8
        ensures same { result ≡ mask_at self.now at }
        ensures bits { (k : ℕ) → k < 8 → (bit_at result k ≡ 1) ↔ Has self.now (8 * at + k) }
        ensures valid { IsMask self.now }
    {
        byte_of(self.start, self.bytes.as_slice(), at)
    }

    /// The bits at each of the first `size` bytes, one byte each.
    pub fn bytes(&self, alloc: Global, size: u64) -> Result<Items<u8>, OutOfMemory>
        ensures length { IfOk result (λ bytes. length bytes ≡ size) }
        ensures same { IfOk result (AreFirstBytes self.now) }
    {
        let mut bytes = Items::new(alloc);
        for at in 0..size {
            bytes.push(self.byte_at(at))?;
        }
        Ok(bytes)
    }

    /// Adds the bits `mask` at the byte at offset `at`, which lies past every byte of the set.
    pub fn push_byte(&mut self, at: u64, mask: u8) -> Result<(), OutOfMemory>
        requires above { IsTrue (are_below at self.old) }
        requires within { at < MAX_SIZE }
        ensures valid { IsMask self.new }
        ensures ok { OnOk result (self.new ≡ self.old ++ entry at mask) }
        ensures err { OnErr result (self.new ≡ self.old) }
    {
        let _ = &self.start;
        if mask == 0 {
            return Ok(());
        }
        self.or_row(at, &[mask])?;
        Ok(())
    }

    /// All bits of the `count` bytes from the offset `from` on.
    pub fn padding(alloc: Global, from: u64, count: u64) -> Result<BitMask, OutOfMemory>
        requires { from + count ≤ MAX_SIZE }
        ensures valid { IfOk result (λ mask. IsMask mask) }
        ensures bytes { IfOk result (HasBytes (full_between from (from + count))) }
        ensures bits { IfOk result (HasBits (λ n. (8 * from ≤ n) × (n < 8 * (from + count)))) }
    {
        let bytes = vec![in alloc; 255; count as usize]?;
        Ok(BitMask { start: from, bytes })
    }

    /// The bits of either set.
    pub fn bit_or(&self, alloc: Global, other: &BitMask) -> Result<BitMask, OutOfMemory>
        ensures valid { IfOk result (λ mask. IsMask mask) }
        ensures bytes { IfOk result (HasBytes (byte_or (mask_at other.now) self.now)) }
        ensures bits { IfOk result (HasBits (HasEither self.now (Has other.now))) }
    {
        let _ = &other.start;
        let mut mask = self.copy(alloc)?;
        mask.or_shifted(other, 0)?;
        Ok(mask)
    }

    /// The bits of both sets.
    pub fn bit_and(&self, alloc: Global, other: &BitMask) -> Result<BitMask, OutOfMemory>
        ensures valid { IfOk result (λ mask. IsMask mask) }
        ensures bytes { IfOk result (HasBytes (byte_within other.now self.now)) }
        ensures bits { IfOk result (HasBits (λ n. Has self.now n × Has other.now n)) }
    {
        let mut mask = BitMask::new(alloc);
        for at in self.start..self.start + self.bytes.len() as u64 {
            mask.push_byte(at, self.byte_at(at) & other.byte_at(at))?;
        }
        Ok(mask)
    }

    /// The same bits, `by` bytes further on.
    pub fn shift(&self, alloc: Global, by: u64) -> Result<BitMask, OutOfMemory>
        requires { IsTrue (are_below MAX_SIZE (moved_pairs by self.now)) }
        ensures same { IfOk result (λ mask. mask ≡ moved_pairs by self.now) }
        ensures valid { IfOk result (λ mask. IsMask mask) }
        ensures bytes { IfOk result (HasBytes (byte_moved by self.now)) }
        ensures bits { IfOk result (HasBits (HasMoved by self.now)) }
    {
        let _ = &self.start;
        let mut mask = BitMask::new(alloc);
        mask.or_shifted(self, by)?;
        Ok(mask)
    }

    /// The bits of both sets, those of `other` `by` bytes further on, where they lie past every byte of this
    /// set. Takes as long as `other` has bytes.
    pub fn with_moved(self, other: &BitMask, by: u64) -> Result<BitMask, OutOfMemory>
        requires above { IsTrue (are_below by self) }
        requires within { IsTrue (are_below MAX_SIZE (moved_pairs by other.now)) }
        ensures same { IfOk result (λ mask. mask ≡ self ++ moved_pairs by other.now) }
        ensures valid { IfOk result (λ mask. IsMask mask) }
        ensures bytes { IfOk result (HasBytes (byte_or_moved by other.now self)) }
    {
        let _ = &self.start;
        let _ = &other.start;
        let mut mask = self;
        mask.or_shifted(other, by)?;
        Ok(mask)
    }

    /// Adds the bits of `other`, `by` bytes further on. The array grows at most to the least and the greatest
    /// byte of the joined set. Refused for want of memory, it leaves the set as it was.
    pub fn or_shifted(&mut self, other: &BitMask, by: u64) -> Result<(), OutOfMemory>
        requires { IsTrue (are_below MAX_SIZE (moved_pairs by other.now)) }
        ensures valid { IsMask self.new }
        ensures bytes { OnOk result (HasBytes (byte_or_moved by other.now self.old) self.new) }
        ensures bits { OnOk result (HasBits (HasEither self.old (HasMoved by other.now)) self.new) }
        ensures err { OnErr result (self.new ≡ self.old) }
    {
        let _ = &self.start;
        let row = other.bytes.as_slice();
        if row.is_empty() {
            return Ok(());
        }
        self.or_row(other.start + by, row)?;
        Ok(())
    }

    /// Adds the bits of a row of bytes that begins at the offset `from` and of which the first and the last
    /// have a bit.
    fn or_row(&mut self, from: u64, row: &[u8]) -> Result<(), OutOfMemory>
        requires some { 0 < length row.now }
        requires span { IsSpan from row.now }
        ensures valid { IsMask self.new }
        ensures bytes { OnOk result (HasBytes (byte_or (byte_in from row.now) self.old) self.new) }
        ensures err { OnErr result (self.new ≡ self.old) }
    {
        let own = self.bytes.as_slice();
        let at = start_with(self.start, own, from);
        let start = at.min(from);
        let end = (at + own.len() as u64).max(from + row.len() as u64);
        let front = (at - start) as usize;
        widen(&mut self.bytes, front, (end - start) as usize)?;
        or_bytes(&mut self.bytes, row, (from - start) as usize);
        self.start = start;
        Ok(())
    }

    /// Whether every bit of the byte at offset `at` is in the set.
    pub fn has_free_byte_at(&self, at: u64) -> bool
        ensures same { result ≡ (mask_at self.now at == 255) }
        ensures bits { IsTrue result ↔ ((k : ℕ) → k < 8 → Has self.now (8 * at + k)) }
    {
        self.byte_at(at) == 255
    }

    /// Whether every bit of every named byte is in the set; true where none is named.
    pub fn includes(&self, subset: &[(u64, u8)]) -> bool
        ensures { result ≡ lies_free self.now subset.now }
    {
        for (offset, _) in subset {
            if !self.has_free_byte_at(*offset) {
                return false;
            }
        }
        true
    }

    /// The set without its least bit; the empty set stays empty.
    pub fn extract_bit(&self, alloc: Global) -> Result<BitMask, OutOfMemory>
        ensures valid { IfOk result (λ mask. IsMask mask) }
        ensures bytes { IfOk result (HasBytes (byte_after_least self.now)) }
        ensures bits { IfOk result (HasBits (λ n. Has self.now n × (IsLeast self.now n → ⊥))) }
    {
        let least = self.least_bit();
        let mut rest = BitMask::new(alloc);
        for at in self.start..self.start + self.bytes.len() as u64 {
            rest.push_byte(at, self.byte_at(at) ^ bit_byte(least, at))?;
        }
        Ok(rest)
    }

    /// The offset of the byte of the least bit; `None` exactly for the empty set.
    #[tactic(auto, using(crate::proofs::Least::offset_of_least, crate::proofs::Least::none_of_least))]
    pub fn extracted_bit_byte_offset(&self) -> Option<u64>
        ensures same { result ≡ option_map (λ b. b.0) (least_bit self.now) }
        ensures least { (n : ℕ) → IsLeast self.now n → result ≡ Some (n / 8) }
        ensures none { (result ≡ None) ↔ (self.now ≡ []) }
        ensures valid { IsMask self.now }
    {
        let (offset, _) = self.least_bit()?;
        Some(offset)
    }

    /// The value of the least bit in its byte; `None` exactly for the empty set.
    #[tactic(auto, using(crate::proofs::Least::mask_of_least, crate::proofs::Least::none_of_least))]
    pub fn extracted_bit_mask(&self) -> Option<u8>
        ensures same { result ≡ option_map (λ b. b.1) (least_bit self.now) }
        ensures least { (n : ℕ) → IsLeast self.now n → result ≡ Some (2 ^ (n % 8)) }
        ensures none { (result ≡ None) ↔ (self.now ≡ []) }
        ensures valid { IsMask self.now }
    {
        let (_, mask) = self.least_bit()?;
        Some(mask)
    }

    /// The least bit: the offset of its byte, and its value there.
    #[tactic(auto, using(crate::proofs::Spans::span_least))]
    fn least_bit(&self) -> Option<(u64, u8)>
        ensures same { result ≡ least_bit self.now }
        ensures valid { IsMask self.now }
    {
        match first(self.start, self.bytes.as_slice()) {
            Some((offset, mask)) => Some((offset, lowest_bit(mask))),
            None => None,
        }
    }
}

/// The value of the lowest bit of a mask.
fn lowest_bit(mask: u8) -> u8
    requires { 0 < mask }
    ensures { result ≡ lowest mask }
{
    1 << mask.trailing_zeros()
}

/// What a bit is at the byte at offset `at`.
fn bit_byte(bit: Option<(u64, u8)>, at: u64) -> u8
    ensures { result ≡ bit_byte bit at }
{
    match bit {
        Some((offset, mask)) if offset == at => mask,
        _ => 0,
    }
}

fn is_mask(entries: &[(u64, u8)]) -> bool
    ensures { result ≡ is_mask entries.now }
{
    are_rising(entries) && have_bits(entries)
}

fn have_bits(entries: &[(u64, u8)]) -> bool
    ensures { result ≡ have_bits entries.now }
{
    for (_, mask) in entries {
        if *mask == 0 {
            return false;
        }
    }
    true
}
