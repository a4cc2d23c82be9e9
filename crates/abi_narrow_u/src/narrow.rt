ghost use Rattle.std.specs.Prelude.{◌≡◌, ◌≤◌, ◌<◌, ◌+◌, ◌-◌, ◌*◌, ◌^◌, ◌↔◌, IsTrue, IsNone, IfSome, bit_and, bit_or, ⊤};
ghost use mir.Val.{bits};
ghost use Rattle.abi_narrow_u.specs.Width.{has_width, limit};

use crate::base::Base;
use std::alloc::AllocError;
use std::marker::Model;
use std::ops::{Add, BitAnd, BitAndAssign, BitOr, BitOrAssign, Sub};

/// A number of `N` binary digits, kept in a `B`; 0 where `B` does not hold numbers of that width.
#[derive(Copy, PartialEq, Eq, PartialOrd, Ord, Hash)]
pub struct Narrow<B: Base, const N: u32> {
    value: B,
}

impl<B: Base, const N: u32> Model for Narrow<B, N> {
    ghost Value = { B };

    ghost view = { λ s. s.value };

    ghost inverse = { λ value. record { value = value } };

    ghost invariant = { λ s. B.number s.value < limit B.width N };
}

impl<B: Base, const N: u32> Narrow<B, N> {
    /// The number `value`; `None` exactly where it is above `max`.
    #[tactic(auto, using(crate::proofs::Limits::digits_bound))]
    pub fn new(value: B) -> Option<Self>
        requires { IsTrue (has_width B.width N) }
        ensures none { IsNone result ↔ (2 ^ N ≤ B.number value) }
        ensures value { IfSome result (λ x. x ≡ value) }
    {
        if value.widen() < power(N) {
            Some(Narrow { value })
        } else {
            None
        }
    }

    /// The number.
    pub fn get(&self) -> B
        ensures value { result ≡ self.now }
        ensures range { B.number result < limit B.width N }
    {
        self.value
    }

    /// The greatest number.
    #[tactic(auto, using(crate::proofs::Limits::digits_bound, crate::proofs::Limits::limit_held))]
    pub fn max() -> Self
        requires { IsTrue (has_width B.width N) }
        ensures { B.number result ≡ 2 ^ N - 1 }
    {
        Self::kept(power(N) - 1)
    }

    /// The least number, 0.
    #[tactic(auto, using(crate::proofs::Limits::limit_held))]
    pub fn min() -> Self
        requires { IsTrue (has_width B.width N) }
        ensures { B.number result ≡ 0 }
    {
        Self::kept(0)
    }

    #[tactic(auto, using(crate::proofs::Limits::limit_fits))]
    fn kept(n: u128) -> Self
        requires { n < limit B.width N }
        ensures { B.number result ≡ n }
    {
        Narrow { value: B::keep(n) }
    }

    #[tactic(auto, using(crate::proofs::Limits::limit_room, crate::proofs::Limits::bits_bound))]
    fn widen(self) -> u128
        ensures value { result ≡ B.number self }
        ensures range { result < limit B.width N }
        ensures room { 2 * limit B.width N ≤ 2 ^ bits B.width }
        ensures small { 2 ^ bits B.width ≤ 2 ^ 128 }
    {
        self.value.widen()
    }

    fn both(self, other: B) -> Self
        ensures { B.number result ≡ bit_and (B.number self) (B.number other) }
    {
        Self::kept(self.widen() & other.widen())
    }

    #[tactic(auto, using(crate::proofs::Limits::either_limited))]
    fn either(self, other: Self) -> Self
        ensures { B.number result ≡ bit_or (B.number self) (B.number other) }
    {
        Self::kept(self.widen() | other.widen())
    }

    fn difference(self, other: B) -> B
        requires { B.number other ≤ B.number self }
        ensures { B.number result ≡ B.number self - B.number other }
    {
        B::keep(self.widen() - other.widen())
    }
}

/// 2 to the power `exponent`.
fn power(exponent: u32) -> u128
    requires { exponent < 128 }
    ensures { result ≡ 2 ^ exponent }
{
    1 << exponent
}

impl<B: Base, const N: u32> Clone for Narrow<B, N> {
    ghost is_clone = { λ x y. x ≡ y };

    ghost is_infallible = { λ _. ⊤ };

    fn clone(&self) -> Result<Self, AllocError> {
        Ok(*self)
    }
}

impl<B: Base, const N: u32> Default for Narrow<B, N> {
    ghost is_default = { λ x. B.number x ≡ 0 };

    fn default() -> Self {
        Self::kept(0)
    }
}

impl<B: Base, const N: u32> BitAnd<B> for Narrow<B, N> {
    type Output = Narrow<B, N>;

    ghost bitand_gives = { λ x y r. B.number r ≡ bit_and (B.number x) (B.number y) };

    fn bitand(self, rhs: B) -> Narrow<B, N> {
        self.both(rhs)
    }
}

impl<B: Base, const N: u32> BitAnd<Narrow<B, N>> for Narrow<B, N> {
    type Output = Narrow<B, N>;

    ghost bitand_gives = { λ x y r. B.number r ≡ bit_and (B.number x) (B.number y) };

    fn bitand(self, rhs: Narrow<B, N>) -> Narrow<B, N> {
        self.both(rhs.value)
    }
}

impl<B: Base, const N: u32> BitAndAssign<B> for Narrow<B, N> {
    ghost bitand_assign_gives = { λ x y r. B.number r ≡ bit_and (B.number x) (B.number y) };

    fn bitand_assign(&mut self, rhs: B) {
        *self = self.both(rhs);
    }
}

impl<B: Base, const N: u32> BitAndAssign<Narrow<B, N>> for Narrow<B, N> {
    ghost bitand_assign_gives = { λ x y r. B.number r ≡ bit_and (B.number x) (B.number y) };

    fn bitand_assign(&mut self, rhs: Narrow<B, N>) {
        *self = self.both(rhs.value);
    }
}

impl<B: Base, const N: u32> BitOr<B> for Narrow<B, N> {
    type Output = B;

    ghost bitor_gives = { λ x y r. B.number r ≡ bit_or (B.number x) (B.number y) };

    #[tactic(auto, using(std::proofs::lemmas::Nat::or_lt))]
    fn bitor(self, rhs: B) -> B {
        B::keep(self.value.widen() | rhs.widen())
    }
}

impl<B: Base, const N: u32> BitOr<Narrow<B, N>> for Narrow<B, N> {
    type Output = Narrow<B, N>;

    ghost bitor_gives = { λ x y r. B.number r ≡ bit_or (B.number x) (B.number y) };

    fn bitor(self, rhs: Narrow<B, N>) -> Narrow<B, N> {
        self.either(rhs)
    }
}

impl<B: Base, const N: u32> BitOrAssign<Narrow<B, N>> for Narrow<B, N> {
    ghost bitor_assign_gives = { λ x y r. B.number r ≡ bit_or (B.number x) (B.number y) };

    fn bitor_assign(&mut self, rhs: Narrow<B, N>) {
        *self = self.either(rhs);
    }
}

impl<B: Base, const N: u32> Add<Narrow<B, N>> for Narrow<B, N> {
    type Output = B;

    ghost add_gives = { λ x y r. B.number r ≡ B.number x + B.number y };

    fn add(self, rhs: Narrow<B, N>) -> B {
        B::keep(self.widen() + rhs.widen())
    }
}

impl<B: Base, const N: u32> Sub<B> for Narrow<B, N> {
    type Output = B;

    ghost can_sub = { λ x y. B.number y ≤ B.number x };

    ghost sub_gives = { λ x y r. B.number r ≡ B.number x - B.number y };

    fn sub(self, rhs: B) -> B {
        self.difference(rhs)
    }
}

impl<B: Base, const N: u32> Sub<Narrow<B, N>> for Narrow<B, N> {
    type Output = B;

    ghost can_sub = { λ x y. B.number y ≤ B.number x };

    ghost sub_gives = { λ x y r. B.number r ≡ B.number x - B.number y };

    fn sub(self, rhs: Narrow<B, N>) -> B {
        self.difference(rhs.value)
    }
}
