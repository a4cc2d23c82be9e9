//! Walks over sets of bits by rising offsets.
ghost use Rattle.std.specs.Prelude.{◌≡◌, ◌≤◌, ◌<◌, ◌+◌, ℕ, nat_le, length, slice_index};
ghost use Rattle.std.specs.List.{find, filter};
ghost use Rattle.abi_bits.specs.Mask.{mask_at, IsMask, IsNext, SameFrom};
ghost use Rattle.abi_bits.specs.Span.{byte_in, entries_in, first_in, AgreeFrom};

use crate::MAX_SIZE;
use crate::span::first;
use std::marker::Model;

/// A walk over the bytes of a set of bits by rising offsets. It passes each byte once. Contracts see the part
/// of the set that it has not passed.
#[derive(Debug, Drop)]
pub struct Walk<'a> {
    start: u64,
    rest: &'a [u8],
}

impl<'a> Model for Walk<'a> {
    ghost use Rattle.std.specs.Prelude.{List, ℕ, ◌+◌, ◌≤◌, length};
    ghost use Rattle.abi_bits.specs.Mask.{IsMask};
    ghost use Rattle.abi_bits.specs.Pairs.{max_size};
    ghost use Rattle.abi_bits.specs.Span.{entries_in};

    ghost Value = { List (ℕ × ℕ) };

    ghost view = { λ w. entries_in w.start w.rest.now };

    ghost invariant = { λ w. (w.start + length w.rest.now ≤ max_size)
        × IsMask (entries_in w.start w.rest.now) };
}

impl<'a> Walk<'a> {
    /// The walk over the set with these bytes, the first of which stands at `start`.
    pub(crate) fn new(start: u64, bytes: &'a [u8]) -> Walk<'a>
        requires within { start + length bytes.now ≤ MAX_SIZE }
        requires mask { IsMask (entries_in start bytes.now) }
        ensures { result ≡ entries_in start bytes.now }
    {
        Walk { start, rest: bytes }
    }

    /// The first byte at the offset `from` or past it that has a bit and was not passed: its offset, and the
    /// mask of its bits. Passes the bytes before `from`.
    pub fn next_entry(&mut self, from: u64) -> Option<(u64, u8)>
        ensures same { result ≡ find (λ e. nat_le from e.0) self.old }
        ensures next { IsNext self.old from result }
        ensures passed { self.new ≡ filter (λ e. nat_le from e.0) self.old }
        ensures left { SameFrom from self.old self.new }
        ensures valid { IsMask self.old }
    {
        let (start, rest) = rest_from(self.start, self.rest, from);
        self.start = start;
        self.rest = rest;
        first(start, rest)
    }

    /// The bits at the byte at offset `at`; 0 where none stands or where it was passed. Passes the bytes
    /// before it.
    #[tactic(auto, using(crate::proofs::Masks::byte_at_next))]
    pub fn byte_at(&mut self, at: u64) -> u8
        ensures same { result ≡ mask_at self.old at }
        ensures passed { self.new ≡ filter (λ e. nat_le at e.0) self.old }
        ensures left { SameFrom at self.old self.new }
        ensures valid { IsMask self.old }
    {
        match self.next_entry(at) {
            Some((offset, mask)) if offset == at => mask,
            _ => 0,
        }
    }
}

/// What stands at the offset `from` or past it, from the first byte there that has a bit on: its offset, and
/// the bytes from it on.
fn rest_from(start: u64, bytes: &[u8], from: u64) -> (u64, &[u8])
    requires { start + length bytes.now ≤ MAX_SIZE }
    ensures left { AgreeFrom from (byte_in result.0 result.1.now) (byte_in start bytes.now) }
    ensures gone { (at : ℕ) → at < from → byte_in result.0 result.1.now at ≡ 0 }
    ensures within { result.0 + length result.1.now ≤ MAX_SIZE }
    ensures some { 0 < length result.1.now → 0 < slice_index result.1.now 0 }
{
    let skipped = from.saturating_sub(start).min(bytes.len() as u64) as usize;
    for index in skipped..bytes.len() {
        if bytes[index] != 0 {
            return (start + index as u64, &bytes[index..]);
        }
    }
    (start, &[])
}
