ghost use Rattle.std.specs.Prelude.{◌≡◌, ◌↔◌, pos, IsTrue, IsSome, IfSome, ⊤};
ghost use Rattle.abi_narrow_i.specs.Digits.{both, either};
ghost use Rattle.abi_narrow_i.specs.Width.{has_width, greatest, least, IsWithin, InRange};

use crate::base::Base;
use crate::digits::{greatest, least, low_digits, sign_extended};
use std::alloc::AllocError;
use std::marker::Model;
use std::ops::{BitAnd, BitAndAssign, BitOr, BitOrAssign};

/// A number of `N` binary digits, the first of which is its sign, kept in a `B`; 0 where `B` does not hold numbers of
/// that width.
#[derive(Copy, PartialEq, Eq, PartialOrd, Ord, Hash)]
pub struct Narrow<B: Base, const N: u32> {
    value: B,
}

impl<B: Base, const N: u32> Model for Narrow<B, N> {
    ghost Value = { B };

    ghost view = { λ s. s.value };

    ghost inverse = { λ value. record { value = value } };

    ghost invariant = { λ s. InRange B.width N (B.number s.value) };
}

impl<B: Base, const N: u32> Narrow<B, N> {
    /// The number `value`; `None` exactly outside `min` to `max`.
    #[tactic(auto, using(crate::proofs::Ranges::digits_bound, crate::proofs::Ranges::digits_some))]
    pub fn new(value: B) -> Option<Self>
        requires { IsTrue (has_width B.width N) }
        ensures range { IsSome result ↔ IsWithin N (B.number value) }
        ensures value { IfSome result (λ x. x ≡ value) }
    {
        let n = value.widen();
        if least(N) <= n && n <= greatest(N) {
            Some(Narrow { value })
        } else {
            None
        }
    }

    /// The number.
    pub fn get(&self) -> B
        ensures value { result ≡ self.now }
        ensures range { InRange B.width N (B.number result) }
    {
        self.value
    }

    /// The greatest number.
    #[tactic(auto, using(crate::proofs::Ranges::digits_bound, crate::proofs::Ranges::digits_some))]
    pub fn max() -> Self
        requires { IsTrue (has_width B.width N) }
        ensures { B.number result ≡ greatest N }
    {
        Self::kept(greatest(N))
    }

    /// The least number.
    #[tactic(auto, using(crate::proofs::Ranges::digits_bound, crate::proofs::Ranges::digits_some))]
    pub fn min() -> Self
        requires { IsTrue (has_width B.width N) }
        ensures { B.number result ≡ least N }
    {
        Self::kept(least(N))
    }

    #[tactic(auto, using(crate::proofs::Ranges::in_range_fits))]
    fn kept(n: i128) -> Self
        requires { InRange B.width N n }
        ensures { B.number result ≡ n }
    {
        Narrow { value: B::keep(n) }
    }

    #[tactic(auto, using(crate::proofs::Ranges::digits_bound, crate::proofs::Ranges::digits_some, std::proofs::lemmas::Nat::and_le_l))]
    fn both(self, other: B) -> Self
        ensures { B.number result ≡ both B.width N (B.number self) (B.number other) }
    {
        if B::holds(N) {
            let low = low_digits(self.value.widen(), N) & low_digits(other.widen(), N);
            Self::kept(sign_extended(low, N))
        } else {
            Self::kept(0)
        }
    }

    #[tactic(auto, using(crate::proofs::Ranges::digits_bound, crate::proofs::Ranges::digits_some, std::proofs::lemmas::Nat::or_lt))]
    fn either(self, other: Self) -> Self
        ensures { B.number result ≡ either B.width N (B.number self) (B.number other) }
    {
        if B::holds(N) {
            let low = low_digits(self.value.widen(), N) | low_digits(other.value.widen(), N);
            Self::kept(sign_extended(low, N))
        } else {
            Self::kept(0)
        }
    }
}

impl<B: Base, const N: u32> Clone for Narrow<B, N> {
    ghost is_clone = { λ x y. x ≡ y };

    ghost is_infallible = { λ _. ⊤ };

    fn clone(&self) -> Result<Self, AllocError> {
        Ok(*self)
    }
}

impl<B: Base, const N: u32> Default for Narrow<B, N> {
    ghost is_default = { λ x. B.number x ≡ pos 0 };

    fn default() -> Self {
        Self::kept(0)
    }
}

impl<B: Base, const N: u32> BitAnd<B> for Narrow<B, N> {
    type Output = Narrow<B, N>;

    ghost bitand_gives = { λ x y r. B.number r ≡ both B.width N (B.number x) (B.number y) };

    fn bitand(self, rhs: B) -> Narrow<B, N> {
        self.both(rhs)
    }
}

impl<B: Base, const N: u32> BitAnd<Narrow<B, N>> for Narrow<B, N> {
    type Output = Narrow<B, N>;

    ghost bitand_gives = { λ x y r. B.number r ≡ both B.width N (B.number x) (B.number y) };

    fn bitand(self, rhs: Narrow<B, N>) -> Narrow<B, N> {
        self.both(rhs.value)
    }
}

impl<B: Base, const N: u32> BitAndAssign<B> for Narrow<B, N> {
    ghost bitand_assign_gives = { λ x y r. B.number r ≡ both B.width N (B.number x) (B.number y) };

    fn bitand_assign(&mut self, rhs: B) {
        *self = self.both(rhs);
    }
}

impl<B: Base, const N: u32> BitAndAssign<Narrow<B, N>> for Narrow<B, N> {
    ghost bitand_assign_gives = { λ x y r. B.number r ≡ both B.width N (B.number x) (B.number y) };

    fn bitand_assign(&mut self, rhs: Narrow<B, N>) {
        *self = self.both(rhs.value);
    }
}

impl<B: Base, const N: u32> BitOr<Narrow<B, N>> for Narrow<B, N> {
    type Output = Narrow<B, N>;

    ghost bitor_gives = { λ x y r. B.number r ≡ either B.width N (B.number x) (B.number y) };

    fn bitor(self, rhs: Narrow<B, N>) -> Narrow<B, N> {
        self.either(rhs)
    }
}

impl<B: Base, const N: u32> BitOrAssign<Narrow<B, N>> for Narrow<B, N> {
    ghost bitor_assign_gives = { λ x y r. B.number r ≡ either B.width N (B.number x) (B.number y) };

    fn bitor_assign(&mut self, rhs: Narrow<B, N>) {
        *self = self.either(rhs);
    }
}
