ghost use Rattle.std.specs.Prelude.{◌≡◌};
ghost use Rattle.std.specs.Borrow.{sem};
ghost use Rattle.abi_result.specs.Lending.{LendsNotPod};

use std::ops::{Deref, DerefMut};

mod stable;
#[cfg(test)]
mod tests;

/// A value whose type is not to count as plain data.
#[derive(Debug, Default, PartialEq, Eq, PartialOrd, Ord, Hash, Drop)]
#[derive_where(Clone, Copy; T: Copy)]
pub struct NotPod<T>(pub T);

impl<T> Deref for NotPod<T> {
    type Target = T;

    ghost deref_gives = { λ it value. value ≡ it.0 };

    /// The value in it.
    fn deref(&self) -> &T {
        &self.0
    }
}

impl<T> DerefMut for NotPod<T> {
    ghost deref_mut_gives = { λ it value. value ≡ it.0 };

    /// The value in it, to change it.
    fn deref_mut(&mut self) -> &mut T
        ensures* writes_back { sem 𝓛 (LendsNotPod T.row self.entry result) }
        ensures shows { result.now ≡ self.old.0 }
    {
        &mut self.0
    }
}
