ghost use Rattle.std.specs.Prelude.{◌≡◌, Ok, Err, IsOk, IsErr, is_ok, is_err};
ghost use Rattle.std.specs.Option.{option_copied, option_copied_mut};
ghost use Rattle.std.specs.Result.{result_copied, result_ok, result_err};
ghost use Rattle.std.specs.Borrow.{sem};
ghost use Rattle.abi_result.specs.Lending.{LendsOk, LendsErr};
ghost use Rattle.abi_result.specs.Sums.{core_result};

mod calls;
mod stable;
#[cfg(test)]
mod tests;
mod traits;

use abi_typed::IStable;
use std::option::Option;
use std::result::Result as CoreResult;

/// One of two values, as std's `Result`, but with a layout that no compiler chooses.
#[derive(Debug, PartialEq, Eq, Drop)]
pub enum Result<T, E> {
    /// The first variant, with its contents.
    Ok(T),
    /// The second variant, with its contents.
    Err(E),
}

impl<T: IStable, E: IStable> Result<T, E> {
    /// Whether it is `Ok`.
    pub fn is_ok(&self) -> bool
        ensures { result ≡ is_ok (core_result self.now) }
    {
        matches!(self, Result::Ok(_))
    }

    /// Whether it is `Err`.
    pub fn is_err(&self) -> bool
        ensures { result ≡ is_err (core_result self.now) }
    {
        matches!(self, Result::Err(_))
    }

    /// A reference to the contents, in the same variant.
    pub fn as_ref(&self) -> CoreResult<&T, &E>
        ensures { result_copied result ≡ core_result self.now }
    {
        match self {
            Result::Ok(x) => CoreResult::Ok(x),
            Result::Err(e) => CoreResult::Err(e),
        }
    }

    /// The contents of `Ok`; `None` exactly at `Err`.
    pub fn ok(self) -> Option<T>
        ensures { result ≡ result_ok (core_result self) }
    {
        match self {
            Result::Ok(x) => Some(x),
            Result::Err(_) => None,
        }
    }

    /// The contents of `Err`; `None` exactly at `Ok`.
    pub fn err(self) -> Option<E>
        ensures { result ≡ result_err (core_result self) }
    {
        match self {
            Result::Ok(_) => None,
            Result::Err(e) => Some(e),
        }
    }

    /// A reference to the contents of `Ok`; `None` exactly at `Err`.
    pub fn ok_ref(&self) -> Option<&T>
        ensures { option_copied result ≡ result_ok (core_result self.now) }
    {
        match self {
            Result::Ok(x) => Some(x),
            Result::Err(_) => None,
        }
    }

    /// A reference to the contents of `Err`; `None` exactly at `Ok`.
    pub fn err_ref(&self) -> Option<&E>
        ensures { option_copied result ≡ result_err (core_result self.now) }
    {
        match self {
            Result::Ok(_) => None,
            Result::Err(e) => Some(e),
        }
    }

    /// A reference to the contents of `Ok`, to change them; `None` exactly at `Err`.
    pub fn ok_mut(&mut self) -> Option<&mut T>
        ensures value { option_copied_mut result ≡ result_ok (core_result self.old) }
        ensures* writes_back { sem 𝓛 (LendsOk T.row E.row self.entry result) }
    {
        match self {
            Result::Ok(x) => Some(x),
            Result::Err(_) => None,
        }
    }

    /// A reference to the contents of `Err`, to change them; `None` exactly at `Ok`.
    pub fn err_mut(&mut self) -> Option<&mut E>
        ensures value { option_copied_mut result ≡ result_err (core_result self.old) }
        ensures* writes_back { sem 𝓛 (LendsErr T.row E.row self.entry result) }
    {
        match self {
            Result::Ok(_) => None,
            Result::Err(e) => Some(e),
        }
    }

    /// The contents of `Ok`, which it must be.
    pub fn unwrap(self) -> T
        requires { IsOk (core_result self) }
        ensures { core_result self ≡ Ok result }
    {
        match self {
            Result::Ok(x) => x,
            Result::Err(_) => unreachable!(),
        }
    }

    /// The contents of `Ok`, which it must be. Nothing is checked at run time here, nor in `unwrap`.
    pub fn unwrap_unchecked(self) -> T
        requires { IsOk (core_result self) }
        ensures { core_result self ≡ Ok result }
    {
        self.unwrap()
    }

    /// The contents of `Err`, which it must be.
    pub fn unwrap_err(self) -> E
        requires { IsErr (core_result self) }
        ensures { core_result self ≡ Err result }
    {
        match self {
            Result::Ok(_) => unreachable!(),
            Result::Err(e) => e,
        }
    }

    /// The contents of `Err`, which it must be. Nothing is checked at run time here, nor in `unwrap_err`.
    pub fn unwrap_err_unchecked(self) -> E
        requires { IsErr (core_result self) }
        ensures { core_result self ≡ Err result }
    {
        self.unwrap_err()
    }
}
