ghost use Rattle.std.specs.Prelude.{◌≡◌, true, None, IfOk, IfErr};
ghost use Rattle.abi_det.specs.Offers.{One};
ghost use Rattle.abi_layout.specs.Trees.{tree};
ghost use Rattle.abi_pack.specs.ByteMap.{AreBytes, bytes_of};
ghost use Rattle.abi_pack.specs.Plain.{Plain};
ghost use Rattle.abi_pack.specs.Values.{fits, IsImageOf};
ghost use Rattle.abi_pack.specs.View.{plain};
ghost use Rattle.abi_result.specs.Storage.{
  IsShownBy,
  ShownAs,
  IsOnly,
  IfFaultless,
  IsFaultOf,
  IsStorageError,
};

#[cfg(test)]
mod tests;

use abi_layout::{Desc, DescError};
use abi_num::{Items, OutOfMemory, Target};
use abi_pack::laws::{one_value, shown_value_fits};
use abi_pack::{Bytes, Plan, ReadError, Value};
use abi_typed::IStable;
use std::alloc::Global;
use std::result::Result;

/// Why bytes are not read as a value of a type.
#[derive(Debug, Clone, Copy, PartialEq, Eq)]
pub enum StorageError {
    /// The first fault of the type's description on the target; never want of memory.
    Desc(DescError),
    /// There are not as many bytes as the type has on the target.
    WrongLength,
    /// There are as many, and they show no value.
    IllegalBytes,
    /// Memory was refused, or the bytes show a value that has more than `MAX_VALUES` values in it.
    OutOfMemory,
}

impl From<OutOfMemory> for StorageError {
    ghost use Rattle.abi_result.specs.declared.storage.StorageError.TheVariants as refusal;

    ghost from_gives = { λ _ error. error ≡ refusal.OutOfMemory };

    fn from(_: OutOfMemory) -> StorageError {
        StorageError::OutOfMemory
    }
}

/// The canonical bytes of a value on a target.
pub(crate) fn storage<T: IStable>(
    value: &T,
    alloc: Global,
    target: &Target,
) -> Result<Bytes, DescError>
    ensures told { T.is_value value.now }
    ensures faultless { IfFaultless target.now T.description result }
    ensures bytes { IfOk result (IsImageOf One target.now T.description (T.value_of value.now)) }
    ensures err { IfErr result (IsFaultOf target.now T.description) }
{
    let value = value.to_value(alloc)?;
    let desc = T::describe(alloc)?;
    let bytes = packed(alloc, target, &desc, &value)?;
    Ok(bytes)
}

/// The canonical bytes of a value of the description.
fn packed(alloc: Global, target: &Target, desc: &Desc, value: &Value) -> Result<Bytes, DescError>
    requires fits { fits One target.now (tree desc.now) (plain value.now) ≡ true }
    ensures faultless { IfFaultless target.now (tree desc.now) result }
    ensures bytes { IfOk result (IsImageOf One target.now (tree desc.now) (plain value.now)) }
    ensures err { IfErr result (IsFaultOf target.now (tree desc.now)) }
{
    let plan = Plan::of(alloc, target, desc)?;
    if !plan.fits(value) {
        unreachable!();
    }
    let size = plan.layout().size() as usize;
    let Ok(mut bytes) = vec![in alloc; 0; size] else {
        return Err(DescError::OutOfMemory);
    };
    plan.write(value, &mut bytes);
    Ok(Items::from(bytes))
}

/// What the bytes show on a target.
pub(crate) fn from_storage<T: IStable>(
    alloc: Global,
    target: &Target,
    bytes: &[u8],
) -> Result<T, StorageError>
    ensures told { IfOk result T.is_value }
    ensures faultless { IfFaultless target.now T.description result }
    ensures value { IfOk result (ShownAs target.now bytes.now T.description T.value_of) }
    ensures only { IfOk result
        (IsOnly T.is_value (ShownAs target.now bytes.now T.description T.value_of)) }
    ensures err { IfErr result (IsStorageError target.now T.description bytes.now) }
{
    let desc = T::describe(alloc)?;
    let value = shown(alloc, target, &desc, bytes)?;
    match T::from_value(&value) {
        Some(x) => Ok(x),
        None => unreachable!(),
    }
}

/// The value of the description that the bytes show.
fn shown(alloc: Global, target: &Target, desc: &Desc, bytes: &[u8]) -> Result<Value, StorageError>
    ensures faultless { IfFaultless target.now (tree desc.now) result }
    ensures value { IfOk result (λ v.
        IsShownBy target.now (tree desc.now) (plain v) bytes.now) }
    ensures only { IfOk result (λ v. (w : Plain)
        → IsShownBy target.now (tree desc.now) w bytes.now → w ≡ plain v) }
    ensures fits { IfOk result (λ v. fits One target.now (tree desc.now) (plain v) ≡ true) }
    ensures err { IfErr result (IsStorageError target.now (tree desc.now) bytes.now) }
{
    let plan = match Plan::of(alloc, target, desc) {
        Ok(plan) => plan,
        Err(DescError::OutOfMemory) => return Err(StorageError::OutOfMemory),
        Err(error) => return Err(StorageError::Desc(error)),
    };
    are_bytes(bytes);
    shown_value_fits();
    one_value();
    match plan.read(alloc, bytes) {
        Ok(value) => Ok(value),
        Err(ReadError::WrongLength) => Err(StorageError::WrongLength),
        Err(ReadError::IllegalBytes) => Err(StorageError::IllegalBytes),
        Err(ReadError::OutOfMemory) => Err(StorageError::OutOfMemory),
    }
}

/// Each is a byte.
fn are_bytes(bytes: &[u8])
    ensures { AreBytes (bytes_of bytes.now) }
{}

/// An equal value, by way of the value that it stands for.
pub(crate) fn cloned<T: IStable>(value: &T, alloc: Global) -> Result<T, OutOfMemory>
    ensures told { T.is_value value.now }
    ensures equal { IfOk result (λ copy. copy ≡ value.now) }
{
    let plain = value.to_value(alloc)?;
    match T::from_value(&plain) {
        Some(copy) => Ok(copy),
        None => unreachable!(),
    }
}
