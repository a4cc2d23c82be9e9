ghost use Rattle.std.specs.Prelude.{◌≡◌, None, IfOk, IfErr};
ghost use Rattle.abi_det.specs.Offers.{One};
ghost use Rattle.abi_layout.specs.Trees.{option as option_of};
ghost use Rattle.abi_pack.specs.Values.{IsImageOf};
ghost use Rattle.abi_result.specs.Stable.{IsOptionOf, option_value};
ghost use Rattle.abi_result.specs.Storage.{
  ShownAs,
  IsOnly,
  IfFaultless,
  IsFaultOf,
  IsStorageError,
};
ghost use Rattle.abi_result.specs.StableLaws.{option_fixed, option_indirect, option_fitting};

use crate::contents::{described, held};
use crate::option::Option;
use crate::storage::{StorageError, cloned, from_storage, storage};
use abi_layout::{Desc, DescError};
use abi_num::{OutOfMemory, Target};
use abi_pack::{Bytes, Value};
use abi_typed::IStable;
use std::alloc::Global;
use std::option::Option as CoreOption;

impl<T: IStable> IStable for Option<T> {
    ghost is_value = { IsOptionOf T.is_value };

    ghost description = { option_of T.description };

    ghost value_of = { option_value T.value_of };

    ghost indirections = { T.indirections };

    fn describe(alloc: Global) -> Result<Desc, OutOfMemory> {
        let some = described::<T>(alloc)?;
        Ok(Desc::Option { some })
    }

    fn to_value(&self, alloc: Global) -> Result<Value, OutOfMemory> {
        match self {
            Option::Some(x) => {
                let value = held(x, alloc)?;
                Ok(Value::Some(value))
            }
            Option::None => Ok(Value::None),
        }
    }

    fn from_value(value: &Value) -> CoreOption<Self> {
        match value {
            Value::Some(value) => match T::from_value(value) {
                CoreOption::Some(x) => CoreOption::Some(Option::Some(x)),
                CoreOption::None => CoreOption::None,
            },
            Value::None => CoreOption::Some(Option::None),
            _ => CoreOption::None,
        }
    }

    fn indirections() -> bool {
        T::indirections()
    }

    ghost fixed = { option_fixed T.description T.fixed };

    ghost fitting = { option_fitting T.is_value T.description T.value_of T.fitting };

    ghost indirect = { option_indirect T.description T.indirections T.indirect };
}

impl<T: IStable> Option<T> {
    /// An equal value, with no bound on the contents but that they are stable.
    pub fn clone(&self, alloc: Global) -> Result<Self, OutOfMemory>
        ensures { IfOk result (λ copy. copy ≡ self.now) }
    {
        let copy = cloned(self, alloc)?;
        Result::Ok(copy)
    }

    /// The canonical bytes of the value on a target: those that `Plan::write` writes. Refused as `Plan::of` is.
    pub fn storage(&self, alloc: Global, target: &Target) -> Result<Bytes, DescError>
        ensures told { IsOptionOf T.is_value self.now }
        ensures faultless { IfFaultless target.now (option_of T.description) result }
        ensures bytes { IfOk result (IsImageOf One target.now
            (option_of T.description) (option_value T.value_of self.now)) }
        ensures err { IfErr result (IsFaultOf target.now (option_of T.description)) }
    {
        let bytes = storage(self, alloc, target)?;
        Result::Ok(bytes)
    }

    /// What the bytes show on a target. Refused as `Plan::of` is, and then as `Plan::read` is.
    pub fn from_storage(alloc: Global, target: &Target, bytes: &[u8]) -> Result<Self, StorageError>
        ensures told { IfOk result (IsOptionOf T.is_value) }
        ensures faultless { IfFaultless target.now (option_of T.description) result }
        ensures value { IfOk result (ShownAs target.now bytes.now
            (option_of T.description) (option_value T.value_of)) }
        ensures only { IfOk result (IsOnly (IsOptionOf T.is_value)
            (ShownAs target.now bytes.now
            (option_of T.description) (option_value T.value_of))) }
        ensures err { IfErr result (IsStorageError target.now
            (option_of T.description) bytes.now) }
    {
        let value = from_storage(alloc, target, bytes)?;
        Result::Ok(value)
    }
}
