ghost use Rattle.std.proofs.Common.{rules};
ghost use Rattle.std.specs.Prelude.{◌≡◌, None};
ghost use Rattle.abi_result.specs.Fed.{option_fed};
ghost use Rattle.abi_result.specs.Sums.{core_option};

use crate::option::Option;
use std::hash::{Hash, Hasher};
use std::option::Option as CoreOption;

/// The same variant with the same contents.
impl<T> From<CoreOption<T>> for Option<T> {
    ghost from_gives = { λ plain typed. core_option typed ≡ plain };

    fn from(plain: CoreOption<T>) -> Option<T> {
        match plain {
            CoreOption::Some(x) => Option::Some(x),
            CoreOption::None => Option::None,
        }
    }
}

/// The same variant with the same contents.
impl<T> From<Option<T>> for CoreOption<T> {
    ghost from_gives = { λ typed plain. plain ≡ core_option typed };

    fn from(typed: Option<T>) -> CoreOption<T> {
        match typed {
            Option::Some(x) => CoreOption::Some(x),
            Option::None => CoreOption::None,
        }
    }
}

/// `None`.
impl<T> Default for Option<T> {
    ghost is_default = { λ it. core_option it ≡ None };

    fn default() -> Option<T> {
        Option::None
    }
}

/// Feeds true and the contents for `Some`, and false for `None`.
impl<T: Hash> Hash for Option<T> {
    ghost hash_input = { option_fed T.hash_input };

    ghost respects_eq = { Prim.search rules };

    fn hash<H: Hasher>(&self, state: &mut H) {
        match self {
            Option::Some(x) => {
                true.hash(state);
                x.hash(state);
            }
            Option::None => false.hash(state),
        }
    }
}
