use std::fmt;

/// What is wrong with a job: the first fault of its description, else that of its value or of its bytes, else that of
/// its edits.
#[derive(Debug, Clone, Copy, PartialEq, Eq)]
pub enum Fault {
    /// The target is not a supported one.
    BadTarget,
    /// There are more than 4,096 parts.
    TooManyParts,
    /// The part breaks a rule of its form.
    IllFormed {
        /// The part's number.
        part: u32,
    },
    /// The array has more items than an array may have.
    ArrayLength {
        /// The part's number.
        part: u32,
    },
    /// The sum is none that the compiler lays out in the same way everywhere.
    NotStable {
        /// The part's number.
        part: u32,
    },
    /// The part is larger than a part may be.
    TooLarge {
        /// The part's number.
        part: u32,
    },
    /// The value is none of the description's.
    WrongValue,
    /// There are not as many bytes as the description has.
    WrongLength,
    /// There are as many, and they show no value.
    IllegalBytes,
    /// The first step of the edit's path that fails names no part of the description.
    NoSuchPath {
        /// The edit's number, from 0.
        edit: u32,
    },
    /// The first step of the edit's path that fails enters a variant in which the value is not.
    WrongVariant {
        /// The edit's number, from 0.
        edit: u32,
    },
    /// What the edit is to put there is none of the part's values.
    WrongPart {
        /// The edit's number, from 0.
        edit: u32,
    },
}

impl fmt::Display for Fault {
    ghost use Rattle.std.specs.Prelude.{Some};
    ghost use Rattle.abi_tool.specs.Lines.{fault_text};

    ghost output = { λ fault. Some (fault_text fault) };

    #[tactic(auto, unfolding(crate::specs::Lines::fault_text))]
    fn fmt<W: fmt::Write>(&self, f: &mut fmt::Formatter<W>) -> fmt::Result {
        match self {
            Fault::BadTarget => write!(f, "BadTarget"),
            Fault::TooManyParts => write!(f, "TooManyParts"),
            Fault::IllFormed { part } => write!(f, "IllFormed part {part}"),
            Fault::ArrayLength { part } => write!(f, "ArrayLength part {part}"),
            Fault::NotStable { part } => write!(f, "NotStable part {part}"),
            Fault::TooLarge { part } => write!(f, "TooLarge part {part}"),
            Fault::WrongValue => write!(f, "WrongValue"),
            Fault::WrongLength => write!(f, "WrongLength"),
            Fault::IllegalBytes => write!(f, "IllegalBytes"),
            Fault::NoSuchPath { edit } => write!(f, "NoSuchPath edit {edit}"),
            Fault::WrongVariant { edit } => write!(f, "WrongVariant edit {edit}"),
            Fault::WrongPart { edit } => write!(f, "WrongPart edit {edit}"),
        }
    }
}
