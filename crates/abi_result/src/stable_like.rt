ghost use Rattle.std.specs.Prelude.{◌≡◌};
ghost use Rattle.std.specs.Borrow.{sem};
ghost use Rattle.abi_result.specs.Lending.{LendsStableLike};
ghost use Rattle.abi_result.specs.Wrappers.{value_of};

use std::fmt::{self, Debug, Display, Formatter, Write};
use std::marker::PhantomData;

mod stable;
#[cfg(test)]
mod tests;

/// A value that is laid out as an `As` is, whatever its own type.
#[derive(Drop)]
#[derive_where(Clone, Copy; T: Copy)]
#[derive_where(PartialEq, Eq, PartialOrd, Ord, Hash; T)]
pub struct StableLike<T, As> {
    value: T,
    #[derive_where(skip)]
    marker: PhantomData<As>,
}

impl<T, As> StableLike<T, As> {
    /// Holds `value`.
    pub fn new(value: T) -> Self
        ensures { value_of result ≡ value }
    {
        StableLike {
            value,
            marker: PhantomData,
        }
    }

    /// The value held. It is asked nothing of its type here.
    pub fn as_ref_unchecked(&self) -> &T
        ensures { result.now ≡ value_of self.now }
    {
        &self.value
    }

    /// The value held, to change it.
    pub fn as_mut_unchecked(&mut self) -> &mut T
        ensures* writes_back { sem 𝓛 (LendsStableLike T.row As.row self.entry result) }
        ensures value { result.now ≡ value_of self.old }
    {
        &mut self.value
    }

    /// The value held. It is asked nothing of its type here.
    pub fn into_inner_unchecked(self) -> T
        ensures { result ≡ value_of self }
    {
        self.value
    }
}

/// That of the value held.
impl<T: Debug, As> Debug for StableLike<T, As> {
    ghost debug_output = { λ it. T.debug_output (value_of it) };

    fn fmt<W: Write>(&self, f: &mut Formatter<W>) -> fmt::Result {
        self.value.fmt(f)
    }
}

/// That of the value held.
impl<T: Display, As> Display for StableLike<T, As> {
    ghost output = { λ it. T.output (value_of it) };

    ghost styled_output = { λ it options. T.styled_output (value_of it) options };

    fn fmt<W: Write>(&self, f: &mut Formatter<W>) -> fmt::Result {
        self.value.fmt(f)
    }
}
