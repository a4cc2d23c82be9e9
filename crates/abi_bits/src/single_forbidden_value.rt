ghost use Rattle.std.specs.Prelude.{◌≡◌, ◌<◌, IfOk};
ghost use Rattle.abi_bits.specs.Pairs.{first_offset};
ghost use Rattle.abi_bits.specs.Single.{pairs_of, pushed, either, both, resolved};

use crate::pattern::Pattern;
use abi_num::OutOfMemory;
use std::alloc::Global;

/// At most one pattern: the answer of a search among forbidden values.
#[derive(Debug, Drop)]
pub enum SingleForbiddenValue {
    /// A pattern was there and could not be taken.
    Saturator,
    /// There was nothing to take.
    End,
    /// This pattern.
    Array(Pattern),
}

impl SingleForbiddenValue {
    /// The answer with the value `byte` of the byte at `offset` in front, which lies before every byte of the
    /// pattern; `Saturator` stays. Dropped where memory is refused.
    pub fn push(
        self,
        alloc: Global,
        offset: u64,
        byte: u8,
    ) -> Result<SingleForbiddenValue, OutOfMemory>
        requires { offset < first_offset (pairs_of self) }
        ensures { IfOk result (λ found. found ≡ pushed (offset, byte) self) }
    {
        match self {
            SingleForbiddenValue::Saturator => Ok(SingleForbiddenValue::Saturator),
            SingleForbiddenValue::End => {
                let pattern = Pattern::of_byte(alloc, offset, byte)?;
                Ok(SingleForbiddenValue::Array(pattern))
            }
            SingleForbiddenValue::Array(pattern) => {
                let pattern = pattern.with_front(alloc, offset, byte)?;
                Ok(SingleForbiddenValue::Array(pattern))
            }
        }
    }

    /// This answer where it is a pattern, else the other.
    pub fn or(self, other: SingleForbiddenValue) -> SingleForbiddenValue
        ensures { result ≡ either self other }
    {
        match self {
            SingleForbiddenValue::Array(pattern) => SingleForbiddenValue::Array(pattern),
            SingleForbiddenValue::Saturator => other,
            SingleForbiddenValue::End => other,
        }
    }

    /// `Saturator` where this answer is, else the other.
    pub fn and(self, other: SingleForbiddenValue) -> SingleForbiddenValue
        ensures { result ≡ both self other }
    {
        match self {
            SingleForbiddenValue::Saturator => SingleForbiddenValue::Saturator,
            SingleForbiddenValue::Array(_) => other,
            SingleForbiddenValue::End => other,
        }
    }

    /// `End` for `Saturator`, else this answer.
    pub fn resolve(self) -> SingleForbiddenValue
        ensures { result ≡ resolved self }
    {
        match self {
            SingleForbiddenValue::Saturator => SingleForbiddenValue::End,
            SingleForbiddenValue::End => SingleForbiddenValue::End,
            SingleForbiddenValue::Array(pattern) => SingleForbiddenValue::Array(pattern),
        }
    }
}
