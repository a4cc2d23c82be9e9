ghost use Rattle.std.specs.Prelude.{◌≡◌};

use abi_num::OutOfMemory;

/// Why a description has no layout on a target.
#[derive(Debug, Clone, Copy, PartialEq, Eq)]
pub enum DescError {
    /// The target is not a supported one.
    BadTarget,
    /// There are more than `MAX_PARTS` parts.
    TooManyParts,
    /// The part breaks a rule of its form.
    IllFormed {
        /// The part's number.
        part: u32,
    },
    /// The array has more than `MAX_LEN` items.
    ArrayLength {
        /// The part's number.
        part: u32,
    },
    /// The sum is none that the compiler lays out in the same way everywhere.
    NotStable {
        /// The part's number.
        part: u32,
    },
    /// The part is larger than `MAX_SIZE`.
    TooLarge {
        /// The part's number.
        part: u32,
    },
    /// Memory was refused.
    OutOfMemory,
}

impl From<OutOfMemory> for DescError {
    ghost use Rattle.abi_layout.specs.declared.desc_error.DescError.TheVariants as fault;

    ghost from_gives = { λ _ error. error ≡ fault.OutOfMemory };

    fn from(_: OutOfMemory) -> DescError {
        DescError::OutOfMemory
    }
}
