ghost use Rattle.std.specs.Prelude.{◌≡◌, ◌==◌, ◌↔◌, Bool, IsTrue};
ghost use Rattle.abi_nonmax.specs.Word.{greatest, complement};

use std::hash::Hash;

/// An unsigned integer type, in which restricted numbers are stored.
pub trait Word: Copy + Ord + Hash {
    ghost is_zero: { Self → Bool };

    ghost greatest: { Self };

    ghost complement: { Self → Self };

    /// Whether it is 0.
    fn is_zero(self) -> bool
        ensures { result ≡ is_zero self };

    /// How far it is below the greatest number.
    fn complement(self) -> Self
        ensures value { result ≡ complement self }
        ensures back { complement result ≡ self }
        ensures lowest { IsTrue (is_zero result) ↔ (self ≡ greatest) }
        ensures highest { result ≡ greatest → IsTrue (is_zero self) };
}

impl Word for u8 {
    ghost is_zero = { λ n. n == 0 };

    ghost greatest = { greatest 8 };

    ghost complement = { complement 8 };

    fn is_zero(self) -> bool {
        self == 0
    }

    fn complement(self) -> u8 {
        u8::MAX - self
    }
}

impl Word for u16 {
    ghost is_zero = { λ n. n == 0 };

    ghost greatest = { greatest 16 };

    ghost complement = { complement 16 };

    fn is_zero(self) -> bool {
        self == 0
    }

    fn complement(self) -> u16 {
        u16::MAX - self
    }
}

impl Word for u32 {
    ghost is_zero = { λ n. n == 0 };

    ghost greatest = { greatest 32 };

    ghost complement = { complement 32 };

    fn is_zero(self) -> bool {
        self == 0
    }

    fn complement(self) -> u32 {
        u32::MAX - self
    }
}

impl Word for u64 {
    ghost is_zero = { λ n. n == 0 };

    ghost greatest = { greatest 64 };

    ghost complement = { complement 64 };

    fn is_zero(self) -> bool {
        self == 0
    }

    fn complement(self) -> u64 {
        u64::MAX - self
    }
}

impl Word for u128 {
    ghost is_zero = { λ n. n == 0 };

    ghost greatest = { greatest 128 };

    ghost complement = { complement 128 };

    fn is_zero(self) -> bool {
        self == 0
    }

    fn complement(self) -> u128 {
        u128::MAX - self
    }
}

impl Word for usize {
    ghost is_zero = { λ n. n == 0 };

    ghost greatest = { greatest 64 };

    ghost complement = { complement 64 };

    fn is_zero(self) -> bool {
        self == 0
    }

    fn complement(self) -> usize {
        usize::MAX - self
    }
}
