ghost use Rattle.std.specs.Prelude.{◌≡◌, ◌<◌, ◌↔◌, IsTrue, IfOk, not, length, slice_index};
ghost use Rattle.abi_bits.specs.Pairs.{are_below};
ghost use Rattle.abi_det.specs.State.{put_pairs, put_bits};

use abi_bits::Pattern;
use abi_num::OutOfMemory;
use std::alloc::Global;

/// What tells the variant of a sum: a test of its bytes, and what the test's truth means.
#[derive(Debug, Drop)]
pub struct Determinant {
    /// The variant is `Ok` exactly where the test's truth equals this. So where it is true, a niche that is
    /// present means `Ok`, although the names of the tests speak of `Err`.
    pub not: bool,
    /// The test of the sum's bytes.
    pub test: Test,
}

/// A test of bytes; offsets count from the sum's first byte.
#[derive(Debug, Drop)]
pub enum Test {
    /// Holds where bit 0 of byte 0 is set: a tag.
    BitDeterminant,
    /// Holds where the pattern matches.
    ValueIsErr(Pattern),
    /// Holds where the one bit of `mask` is set in the byte at `offset`.
    BitIsErr {
        /// The byte's offset.
        offset: u64,
        /// A mask of one bit.
        mask: u8,
    },
}

impl Determinant {
    ghost use Rattle.abi_det.specs.State.{IsCovered, is_state_ok, is_niche, imposed};

    /// Whether the bytes of a sum are in the variant `Ok`. They must cover the bytes that the test names,
    /// and the mask of a `BitIsErr` must have one bit.
    pub fn is_det_ok(&self, sum: &[u8]) -> bool
        requires { IsCovered self.now.test (length sum.now) }
        ensures { result ≡ is_state_ok self.now (slice_index sum.now) }
    {
        if self.not {
            self.test.holds(sum)
        } else {
            !self.test.holds(sum)
        }
    }

    /// Makes the bytes of a sum name the variant `Ok`, as far as the test's own bits do that: the bytes of
    /// a pattern that must be absent are left alone. The condition is that of `is_det_ok`.
    pub fn ok(&self, sum: &mut [u8])
        requires { IsCovered self.now.test (length sum.old) }
        ensures { sum.new ≡ imposed self.now.test self.now.not sum.old }
    {
        self.test.impose(self.not, sum);
    }

    /// Makes the bytes of a sum name the variant `Err`, as `ok` does for the other.
    pub fn err(&self, sum: &mut [u8])
        requires { IsCovered self.now.test (length sum.old) }
        ensures { sum.new ≡ imposed self.now.test (not self.now.not) sum.old }
    {
        self.test.impose(!self.not, sum);
    }

    /// Whether the variant is told by bytes that a variant leaves unused, and not by a tag.
    pub fn is_niche_trick(&self) -> bool
        ensures { result ≡ is_niche self.now.test }
    {
        !matches!(self.test, Test::BitDeterminant)
    }

    /// An equal determinant.
    pub fn copy(&self, alloc: Global) -> Result<Determinant, OutOfMemory>
        ensures { IfOk result (λ copy. copy ≡ self.now) }
    {
        let test = self.test.copy(alloc)?;
        Ok(Determinant {
            not: self.not,
            test,
        })
    }
}

impl Test {
    ghost use Rattle.abi_det.specs.State.{IsCovered, test_holds, imposed};

    /// Whether the test holds.
    fn holds(&self, sum: &[u8]) -> bool
        requires { IsCovered self.now (length sum.now) }
        ensures { result ≡ test_holds self.now (slice_index sum.now) }
    {
        match self {
            Test::BitDeterminant => sum[0] & 1 == 1,
            Test::ValueIsErr(pattern) => pattern.is_matched(sum),
            Test::BitIsErr { offset, mask } => sum[*offset as usize] & *mask != 0,
        }
    }

    /// Makes the test hold, or else clears its one bit; a pattern is only ever written.
    fn impose(&self, sign: bool, sum: &mut [u8])
        requires { IsCovered self.now (length sum.old) }
        ensures { sum.new ≡ imposed self.now sign sum.old }
    {
        match self {
            Test::BitDeterminant => put_bits(sum, 0, 1, sign),
            Test::ValueIsErr(pattern) => {
                if sign {
                    put_pairs(sum, pattern.pairs());
                }
            }
            Test::BitIsErr { offset, mask } => put_bits(sum, *offset, *mask, sign),
        }
    }

    /// An equal test.
    fn copy(&self, alloc: Global) -> Result<Test, OutOfMemory>
        ensures { IfOk result (λ copy. copy ≡ self.now) }
    {
        match self {
            Test::BitDeterminant => Ok(Test::BitDeterminant),
            Test::ValueIsErr(pattern) => {
                let pattern = pattern.copy(alloc)?;
                Ok(Test::ValueIsErr(pattern))
            }
            Test::BitIsErr { offset, mask } => Ok(Test::BitIsErr {
                offset: *offset,
                mask: *mask,
            }),
        }
    }
}

/// Writes each pair's byte at its offset.
fn put_pairs(bytes: &mut [u8], pairs: &[(u64, u8)])
    requires { IsTrue (are_below (length bytes.old) pairs.now) }
    ensures { bytes.new ≡ put_pairs pairs.now bytes.old }
{
    for (offset, byte) in pairs {
        bytes[*offset as usize] = *byte;
    }
}

/// Sets the bits of `mask` in the byte at `offset`, or clears them.
fn put_bits(bytes: &mut [u8], offset: u64, mask: u8, sign: bool)
    requires { offset < length bytes.old }
    ensures { bytes.new ≡ put_bits offset mask sign bytes.old }
{
    if sign {
        bytes[offset as usize] |= mask;
    } else {
        bytes[offset as usize] &= !mask;
    }
}
