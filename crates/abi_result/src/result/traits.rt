ghost use Rattle.std.proofs.Common.{rules};
ghost use Rattle.std.specs.Prelude.{◌≡◌};
ghost use Rattle.abi_result.specs.Fed.{result_fed};
ghost use Rattle.abi_result.specs.Sums.{core_result};

use crate::result::Result;
use std::hash::{Hash, Hasher};
use std::result::Result as CoreResult;

/// The same variant with the same contents.
impl<T, E> From<CoreResult<T, E>> for Result<T, E> {
    ghost from_gives = { λ plain typed. core_result typed ≡ plain };

    fn from(plain: CoreResult<T, E>) -> Result<T, E> {
        match plain {
            CoreResult::Ok(x) => Result::Ok(x),
            CoreResult::Err(e) => Result::Err(e),
        }
    }
}

/// The same variant with the same contents.
impl<T, E> From<Result<T, E>> for CoreResult<T, E> {
    ghost from_gives = { λ typed plain. plain ≡ core_result typed };

    fn from(typed: Result<T, E>) -> CoreResult<T, E> {
        match typed {
            Result::Ok(x) => CoreResult::Ok(x),
            Result::Err(e) => CoreResult::Err(e),
        }
    }
}

/// Feeds true for `Ok` and false for `Err`, and then the contents.
impl<T: Hash, E: Hash> Hash for Result<T, E> {
    ghost hash_input = { result_fed T.hash_input E.hash_input };

    ghost respects_eq = { Prim.search rules };

    fn hash<H: Hasher>(&self, state: &mut H) {
        match self {
            Result::Ok(x) => {
                true.hash(state);
                x.hash(state);
            }
            Result::Err(e) => {
                false.hash(state);
                e.hash(state);
            }
        }
    }
}
