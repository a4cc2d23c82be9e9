ghost use Rattle.std.specs.Prelude.{◌≡◌};
ghost use Rattle.std.specs.Borrow.{sem};
ghost use Rattle.abi_result.specs.Lending.{LendsStableIf};

use std::marker::PhantomData;
use std::ops::{Deref, DerefMut};

mod stable;
#[cfg(test)]
mod tests;

/// A value whose type is stable where the type `Cond` is.
#[derive(Drop)]
#[derive_where(Clone, Copy; T: Copy)]
pub struct StableIf<T, Cond> {
    /// The value in it.
    pub value: T,
    marker: PhantomData<Cond>,
}

impl<T, Cond> StableIf<T, Cond> {
    /// Holds `value`.
    pub fn new(value: T) -> Self
        ensures { result.value ≡ value }
    {
        StableIf {
            value,
            marker: PhantomData,
        }
    }
}

impl<T, Cond> Deref for StableIf<T, Cond> {
    type Target = T;

    ghost deref_gives = { λ it value. value ≡ it.value };

    /// The value in it.
    fn deref(&self) -> &T {
        &self.value
    }
}

impl<T, Cond> DerefMut for StableIf<T, Cond> {
    ghost deref_mut_gives = { λ it value. value ≡ it.value };

    /// The value in it, to change it.
    fn deref_mut(&mut self) -> &mut T
        ensures* writes_back { sem 𝓛 (LendsStableIf T.row Cond.row self.entry result) }
        ensures shows { result.now ≡ self.old.value }
    {
        &mut self.value
    }
}
