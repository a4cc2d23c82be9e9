ghost use Rattle.std.specs.Prelude.{◌≡◌};

use crate::fault::Fault;
use abi_layout::DescError;
use abi_num::OutOfMemory;
use abi_pack::{AbiError, ReadError};

/// Why no text comes of a job.
#[derive(Debug, Clone, Copy, PartialEq, Eq)]
pub enum JobError {
    /// The job has this fault.
    Fault(Fault),
    /// Memory was refused.
    OutOfMemory,
}

impl From<OutOfMemory> for JobError {
    ghost use Rattle.abi_tool.specs.declared.job_error.JobError.TheVariants as why;

    ghost from_gives = { λ _ error. error ≡ why.OutOfMemory };

    fn from(_: OutOfMemory) -> JobError {
        JobError::OutOfMemory
    }
}

impl From<AbiError> for JobError {
    ghost use Rattle.abi_tool.specs.Outcomes.{of_packing};

    ghost from_gives = { λ found error. error ≡ of_packing found };

    fn from(error: AbiError) -> JobError {
        match error {
            AbiError::BadTarget => JobError::Fault(Fault::BadTarget),
            AbiError::TooManyParts => JobError::Fault(Fault::TooManyParts),
            AbiError::IllFormed { part } => JobError::Fault(Fault::IllFormed { part }),
            AbiError::ArrayLength { part } => JobError::Fault(Fault::ArrayLength { part }),
            AbiError::NotStable { part } => JobError::Fault(Fault::NotStable { part }),
            AbiError::TooLarge { part } => JobError::Fault(Fault::TooLarge { part }),
            AbiError::OutOfMemory => JobError::OutOfMemory,
            AbiError::WrongValue => JobError::Fault(Fault::WrongValue),
            AbiError::NoSuchPath { edit } => JobError::Fault(Fault::NoSuchPath { edit }),
            AbiError::WrongVariant { edit } => JobError::Fault(Fault::WrongVariant { edit }),
            AbiError::WrongPart { edit } => JobError::Fault(Fault::WrongPart { edit }),
        }
    }
}

impl From<DescError> for JobError {
    ghost use Rattle.abi_tool.specs.Outcomes.{of_describing};

    ghost from_gives = { λ found error. error ≡ of_describing found };

    fn from(error: DescError) -> JobError {
        JobError::from(AbiError::from(error))
    }
}

impl From<ReadError> for JobError {
    ghost use Rattle.abi_tool.specs.Outcomes.{of_reading};

    ghost from_gives = { λ found error. error ≡ of_reading found };

    fn from(error: ReadError) -> JobError {
        match error {
            ReadError::WrongLength => JobError::Fault(Fault::WrongLength),
            ReadError::IllegalBytes => JobError::Fault(Fault::IllegalBytes),
            ReadError::OutOfMemory => JobError::OutOfMemory,
        }
    }
}
