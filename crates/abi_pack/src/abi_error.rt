ghost use Rattle.std.specs.Prelude.{◌≡◌};

use crate::plan::EditError;
use abi_layout::DescError;
use abi_num::OutOfMemory;

/// Why a job is not done.
#[derive(Debug, Clone, Copy, PartialEq, Eq)]
pub enum AbiError {
    /// The target is not a supported one.
    BadTarget,
    /// There are more than `MAX_PARTS` parts.
    TooManyParts,
    /// The part breaks a rule of its form.
    IllFormed {
        /// The part's number.
        part: u32,
    },
    /// The array has more than `MAX_LEN` items.
    ArrayLength {
        /// The part's number.
        part: u32,
    },
    /// The sum is none that the compiler lays out in the same way everywhere.
    NotStable {
        /// The part's number.
        part: u32,
    },
    /// The part is larger than `MAX_SIZE`.
    TooLarge {
        /// The part's number.
        part: u32,
    },
    /// Memory was refused.
    OutOfMemory,
    /// The value is none of the description's.
    WrongValue,
    /// The first step of the edit's path that fails names no part of the description.
    NoSuchPath {
        /// The edit's number, from 0.
        edit: u32,
    },
    /// The first step of the edit's path that fails enters a variant in which the value is not.
    WrongVariant {
        /// The edit's number, from 0.
        edit: u32,
    },
    /// What the edit is to put there is none of the part's values.
    WrongPart {
        /// The edit's number, from 0.
        edit: u32,
    },
}

impl From<OutOfMemory> for AbiError {
    ghost use Rattle.abi_pack.specs.declared.abi_error.AbiError.TheVariants as fault;

    ghost from_gives = { λ _ error. error ≡ fault.OutOfMemory };

    fn from(_: OutOfMemory) -> AbiError {
        AbiError::OutOfMemory
    }
}

impl From<DescError> for AbiError {
    ghost use Rattle.abi_pack.specs.Jobs.{of_description};

    ghost from_gives = { λ found error. error ≡ of_description found };

    fn from(error: DescError) -> AbiError {
        match error {
            DescError::BadTarget => AbiError::BadTarget,
            DescError::TooManyParts => AbiError::TooManyParts,
            DescError::IllFormed { part } => AbiError::IllFormed { part },
            DescError::ArrayLength { part } => AbiError::ArrayLength { part },
            DescError::NotStable { part } => AbiError::NotStable { part },
            DescError::TooLarge { part } => AbiError::TooLarge { part },
            DescError::OutOfMemory => AbiError::OutOfMemory,
        }
    }
}

impl AbiError {
    ghost use Rattle.abi_pack.specs.Jobs.{of_edit};

    /// The same error, of an edit of that number.
    pub(crate) fn of_edit(number: u32, error: EditError) -> AbiError
        ensures { result ≡ of_edit number error }
    {
        match error {
            EditError::NoSuchPath => AbiError::NoSuchPath { edit: number },
            EditError::WrongVariant => AbiError::WrongVariant { edit: number },
            EditError::WrongPart => AbiError::WrongPart { edit: number },
        }
    }
}
