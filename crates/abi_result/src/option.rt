ghost use Rattle.std.specs.Prelude.{◌≡◌, IsSome, Some, is_some, not};
ghost use Rattle.std.specs.Option.{option_copied, option_copied_mut};
ghost use Rattle.std.specs.Borrow.{sem};
ghost use Rattle.abi_result.specs.Lending.{LendsSome};
ghost use Rattle.abi_result.specs.Sums.{core_option};

mod calls;
mod stable;
#[cfg(test)]
mod tests;
mod traits;

use abi_typed::IStable;
use std::option::Option as CoreOption;

/// A value or none, as std's `Option`, but with a layout that no compiler chooses.
#[derive(Debug, PartialEq, Eq, Drop)]
pub enum Option<T> {
    /// A value.
    Some(T),
    /// No value.
    None,
}

impl<T: IStable> Option<T> {
    /// Whether it is `Some`.
    pub fn is_some(&self) -> bool
        ensures { result ≡ is_some (core_option self.now) }
    {
        matches!(self, Option::Some(_))
    }

    /// Whether it is `None`.
    pub fn is_none(&self) -> bool
        ensures { result ≡ not (is_some (core_option self.now)) }
    {
        matches!(self, Option::None)
    }

    /// A reference to the contents; `None` exactly at `None`.
    pub fn as_ref(&self) -> CoreOption<&T>
        ensures { option_copied result ≡ core_option self.now }
    {
        match self {
            Option::Some(x) => CoreOption::Some(x),
            Option::None => CoreOption::None,
        }
    }

    /// A reference to the contents, to change them; `None` exactly at `None`.
    pub fn as_mut(&mut self) -> CoreOption<&mut T>
        ensures value { option_copied_mut result ≡ core_option self.old }
        ensures* writes_back { sem 𝓛 (LendsSome T.row self.entry result) }
    {
        match self {
            Option::Some(x) => CoreOption::Some(x),
            Option::None => CoreOption::None,
        }
    }

    /// The contents, which must be there.
    pub fn unwrap(self) -> T
        requires { IsSome (core_option self) }
        ensures { core_option self ≡ Some result }
    {
        match self {
            Option::Some(x) => x,
            Option::None => unreachable!(),
        }
    }

    /// The contents, which must be there. Nothing is checked at run time here, nor in `unwrap`.
    pub fn unwrap_unchecked(self) -> T
        requires { IsSome (core_option self) }
        ensures { core_option self ≡ Some result }
    {
        self.unwrap()
    }
}
