ghost use Rattle.std.specs.Prelude.{◌≡◌, ◌||◌, None, IfOk, IfErr};
ghost use Rattle.abi_det.specs.Offers.{One};
ghost use Rattle.abi_layout.specs.declared.part.Sort.TheVariants as sort;
ghost use Rattle.abi_layout.specs.Trees.{result as result_of};
ghost use Rattle.abi_pack.specs.Values.{IsImageOf};
ghost use Rattle.abi_result.specs.Stable.{IsResultOf, result_value};
ghost use Rattle.abi_result.specs.Storage.{
  ShownAs,
  IsOnly,
  IfFaultless,
  IsFaultOf,
  IsStorageError,
};
ghost use Rattle.abi_result.specs.StableLaws.{sum_fixed, sum_indirect, result_fitting};

use crate::contents::{described, held};
use crate::result::Result;
use crate::storage::{StorageError, cloned, from_storage, storage};
use abi_layout::{Desc, DescError};
use abi_num::{OutOfMemory, Target};
use abi_pack::{Bytes, Value};
use abi_typed::IStable;
use std::alloc::Global;
use std::option::Option;
use std::result::Result as CoreResult;

impl<T: IStable, E: IStable> IStable for Result<T, E> {
    ghost is_value = { IsResultOf T.is_value E.is_value };

    ghost description = { result_of T.description E.description };

    ghost value_of = { result_value T.value_of E.value_of };

    ghost indirections = { T.indirections || E.indirections };

    fn describe(alloc: Global) -> CoreResult<Desc, OutOfMemory> {
        let ok = described::<T>(alloc)?;
        let err = described::<E>(alloc)?;
        CoreResult::Ok(Desc::Result { ok, err })
    }

    fn to_value(&self, alloc: Global) -> CoreResult<Value, OutOfMemory> {
        match self {
            Result::Ok(x) => {
                let value = held(x, alloc)?;
                CoreResult::Ok(Value::Ok(value))
            }
            Result::Err(e) => {
                let value = held(e, alloc)?;
                CoreResult::Ok(Value::Err(value))
            }
        }
    }

    fn from_value(value: &Value) -> Option<Self> {
        match value {
            Value::Ok(value) => match T::from_value(value) {
                Some(x) => Some(Result::Ok(x)),
                None => None,
            },
            Value::Err(value) => match E::from_value(value) {
                Some(e) => Some(Result::Err(e)),
                None => None,
            },
            _ => None,
        }
    }

    fn indirections() -> bool {
        T::indirections() || E::indirections()
    }

    ghost fixed = { sum_fixed sort.OfResult T.description E.description T.fixed E.fixed };

    ghost fitting = { result_fitting T.is_value E.is_value T.description E.description
        T.value_of E.value_of T.fitting E.fitting };

    ghost indirect = { sum_indirect sort.OfResult T.description E.description
        T.indirections E.indirections T.indirect E.indirect };
}

impl<T: IStable, E: IStable> Result<T, E> {
    /// An equal value, with no bound on the contents but that they are stable.
    pub fn clone(&self, alloc: Global) -> CoreResult<Self, OutOfMemory>
        ensures { IfOk result (λ copy. copy ≡ self.now) }
    {
        let copy = cloned(self, alloc)?;
        CoreResult::Ok(copy)
    }

    /// The canonical bytes of the value on a target: those that `Plan::write` writes. Refused as `Plan::of` is.
    pub fn storage(&self, alloc: Global, target: &Target) -> CoreResult<Bytes, DescError>
        ensures told { IsResultOf T.is_value E.is_value self.now }
        ensures faultless { IfFaultless target.now (result_of T.description E.description) result }
        ensures bytes { IfOk result (IsImageOf One target.now
            (result_of T.description E.description) (result_value T.value_of E.value_of self.now)) }
        ensures err { IfErr result (IsFaultOf target.now (result_of T.description E.description)) }
    {
        let bytes = storage(self, alloc, target)?;
        CoreResult::Ok(bytes)
    }

    /// What the bytes show on a target. Refused as `Plan::of` is, and then as `Plan::read` is.
    pub fn from_storage(
        alloc: Global,
        target: &Target,
        bytes: &[u8],
    ) -> CoreResult<Self, StorageError>
        ensures told { IfOk result (IsResultOf T.is_value E.is_value) }
        ensures faultless { IfFaultless target.now (result_of T.description E.description) result }
        ensures value { IfOk result (ShownAs target.now bytes.now
            (result_of T.description E.description) (result_value T.value_of E.value_of)) }
        ensures only { IfOk result (IsOnly (IsResultOf T.is_value E.is_value)
            (ShownAs target.now bytes.now
            (result_of T.description E.description) (result_value T.value_of E.value_of))) }
        ensures err { IfErr result (IsStorageError target.now
            (result_of T.description E.description) bytes.now) }
    {
        let value = from_storage(alloc, target, bytes)?;
        CoreResult::Ok(value)
    }
}
