ghost use Rattle.std.specs.Prelude.{◌≡◌, ◌≢◌, ◌↔◌, IsNone, IfSome, ⊤, IsTrue, MatchResult};
ghost use Rattle.std.proofs.Common.{ap};

use crate::illegal_value::IllegalValue;
use crate::stored::Stored;
use crate::word::Word;
use std::alloc::AllocError;
use std::cmp::Ordering;
use std::hash::{Hash, Hasher};
use std::marker::{Model, PhantomData};

/// Which number is forbidden, and how the others are stored in `W`.
pub trait Restriction<W: Word>: Copy {
    type Number: Copy + Ord + Hash;

    ghost forbidden: { Self.Number };

    ghost form: { Self.Number → W };

    ghost number: { W → Self.Number };

    /// What `n` is stored as, which is 0 exactly for the forbidden number.
    fn form(n: Self::Number) -> W
        ensures zero { IsTrue (W.is_zero result) ↔ (n ≡ forbidden) }
        ensures value { result ≡ form n }
        ensures back { number result ≡ n };

    /// The number that is stored so.
    fn number(stored: W) -> Self::Number
        ensures value { result ≡ number stored }
        ensures allowed { result ≡ forbidden → IsTrue (W.is_zero stored) };
}

/// A number that is not the forbidden one.
#[derive(Copy)]
pub struct Restricted<W: Word, R: Restriction<W>> {
    stored: Stored<W>,
    rule: PhantomData<R>,
}

impl<W: Word, R: Restriction<W>> Model for Restricted<W, R> {
    ghost Value = { R.Number };

    ghost view = { λ s. R.number s.stored };

    ghost inverse = { λ n. record { stored = R.form n; rule = record {} } };

    ghost inverse_ok = { λ a h. ap (λ (f : _). record { stored = f; rule = a.rule }) h };

    ghost invariant = { λ s. R.form (R.number s.stored) ≡ s.stored };
}

impl<W: Word, R: Restriction<W>> Clone for Restricted<W, R> {
    ghost is_clone = { λ x y. x ≡ y };

    ghost is_infallible = { λ _. ⊤ };

    fn clone(&self) -> Result<Self, AllocError> {
        Ok(*self)
    }
}

impl<W: Word, R: Restriction<W>> Restricted<W, R> {
    /// The number `n`; `None` exactly where it is forbidden.
    pub fn new(n: R::Number) -> Option<Self>
        ensures none { IsNone result ↔ (n ≡ R.forbidden) }
        ensures value { IfSome result (λ x. x ≡ n) }
    {
        match Stored::new(R::form(n)) {
            Some(stored) => Some(Restricted {
                stored,
                rule: PhantomData,
            }),
            None => None,
        }
    }

    /// The number.
    pub fn get(self) -> R::Number
        ensures value { result ≡ self }
        ensures allowed { result ≢ R.forbidden }
    {
        R::number(self.stored.get())
    }

    /// The number `n`, which must not be the forbidden one.
    pub fn new_unchecked(n: R::Number) -> Self
        requires { n ≢ R.forbidden }
        ensures { result ≡ n }
    {
        match Self::new(n) {
            Some(restricted) => restricted,
            None => unreachable!(),
        }
    }
}

impl<W: Word, R: Restriction<W>> TryFrom<R::Number> for Restricted<W, R> {
    type Error = IllegalValue;

    ghost try_from_gives = { λ n r.
        MatchResult r (λ x. (x ≡ n) × (n ≢ R.forbidden)) (λ _. n ≡ R.forbidden) };

    fn try_from(n: R::Number) -> Result<Self, IllegalValue> {
        match Self::new(n) {
            Some(restricted) => Ok(restricted),
            None => Err(IllegalValue),
        }
    }
}

impl<W: Word, R: Restriction<W>> PartialEq for Restricted<W, R> {
    ghost eq = { R.Number.eq };

    ghost laws = { R.Number.PartialEq.laws };

    fn eq(&self, other: &Self) -> bool {
        self.get() == other.get()
    }
}

impl<W: Word, R: Restriction<W>> Eq for Restricted<W, R> {
    ghost laws = { R.Number.Eq.laws };
}

impl<W: Word, R: Restriction<W>> PartialOrd for Restricted<W, R> {
    ghost partial_cmp = { R.Number.partial_cmp };

    ghost laws = { R.Number.PartialOrd.laws };

    fn partial_cmp(&self, other: &Self) -> Option<Ordering> {
        self.get().partial_cmp(&other.get())
    }
}

impl<W: Word, R: Restriction<W>> Ord for Restricted<W, R> {
    ghost cmp = { R.Number.cmp };

    ghost total = { R.Number.total };

    ghost matches_partial_cmp = { R.Number.matches_partial_cmp };

    ghost matches_eq = { R.Number.matches_eq };

    fn cmp(&self, other: &Self) -> Ordering {
        self.get().cmp(&other.get())
    }
}

impl<W: Word, R: Restriction<W>> Hash for Restricted<W, R> {
    ghost hash_input = { R.Number.hash_input };

    ghost respects_eq = { R.Number.respects_eq };

    fn hash<H: Hasher>(&self, state: &mut H) {
        self.get().hash(state);
    }
}

impl<W: Word, R: Restriction<W, Number = u8>> From<Restricted<W, R>> for u8 {
    ghost from_gives = { λ x n. n ≡ x };

    fn from(restricted: Restricted<W, R>) -> u8 {
        restricted.get()
    }
}

impl<W: Word, R: Restriction<W, Number = u16>> From<Restricted<W, R>> for u16 {
    ghost from_gives = { λ x n. n ≡ x };

    fn from(restricted: Restricted<W, R>) -> u16 {
        restricted.get()
    }
}

impl<W: Word, R: Restriction<W, Number = u32>> From<Restricted<W, R>> for u32 {
    ghost from_gives = { λ x n. n ≡ x };

    fn from(restricted: Restricted<W, R>) -> u32 {
        restricted.get()
    }
}

impl<W: Word, R: Restriction<W, Number = u64>> From<Restricted<W, R>> for u64 {
    ghost from_gives = { λ x n. n ≡ x };

    fn from(restricted: Restricted<W, R>) -> u64 {
        restricted.get()
    }
}

impl<W: Word, R: Restriction<W, Number = u128>> From<Restricted<W, R>> for u128 {
    ghost from_gives = { λ x n. n ≡ x };

    fn from(restricted: Restricted<W, R>) -> u128 {
        restricted.get()
    }
}

impl<W: Word, R: Restriction<W, Number = usize>> From<Restricted<W, R>> for usize {
    ghost from_gives = { λ x n. n ≡ x };

    fn from(restricted: Restricted<W, R>) -> usize {
        restricted.get()
    }
}

impl<W: Word, R: Restriction<W, Number = i8>> From<Restricted<W, R>> for i8 {
    ghost from_gives = { λ x n. n ≡ x };

    fn from(restricted: Restricted<W, R>) -> i8 {
        restricted.get()
    }
}

impl<W: Word, R: Restriction<W, Number = i16>> From<Restricted<W, R>> for i16 {
    ghost from_gives = { λ x n. n ≡ x };

    fn from(restricted: Restricted<W, R>) -> i16 {
        restricted.get()
    }
}

impl<W: Word, R: Restriction<W, Number = i32>> From<Restricted<W, R>> for i32 {
    ghost from_gives = { λ x n. n ≡ x };

    fn from(restricted: Restricted<W, R>) -> i32 {
        restricted.get()
    }
}

impl<W: Word, R: Restriction<W, Number = i64>> From<Restricted<W, R>> for i64 {
    ghost from_gives = { λ x n. n ≡ x };

    fn from(restricted: Restricted<W, R>) -> i64 {
        restricted.get()
    }
}

impl<W: Word, R: Restriction<W, Number = i128>> From<Restricted<W, R>> for i128 {
    ghost from_gives = { λ x n. n ≡ x };

    fn from(restricted: Restricted<W, R>) -> i128 {
        restricted.get()
    }
}

impl<W: Word, R: Restriction<W, Number = isize>> From<Restricted<W, R>> for isize {
    ghost from_gives = { λ x n. n ≡ x };

    fn from(restricted: Restricted<W, R>) -> isize {
        restricted.get()
    }
}
