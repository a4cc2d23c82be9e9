//! Types as contents of others.

ghost use Rattle.std.specs.Prelude.{◌≡◌, IfOk};
ghost use Rattle.abi_layout.specs.Trees.{tree};
ghost use Rattle.abi_pack.specs.View.{plain};

use abi_layout::Desc;
use abi_num::OutOfMemory;
use abi_pack::Value;
use abi_typed::IStable;
use std::alloc::Global;
use std::result::Result;

/// The description of the type, for another's.
pub(crate) fn described<T: IStable>(alloc: Global) -> Result<Box<Desc>, OutOfMemory>
    ensures { IfOk result (λ desc. tree desc.value ≡ T.description) }
{
    let desc = T::describe(alloc)?;
    let desc = Box::new(alloc, desc)?;
    Ok(desc)
}

/// The value of the contents, for another's.
pub(crate) fn held<T: IStable>(contents: &T, alloc: Global) -> Result<Box<Value>, OutOfMemory>
    ensures told { T.is_value contents.now }
    ensures value { IfOk result (λ value. plain value.value ≡ T.value_of contents.now) }
{
    let value = contents.to_value(alloc)?;
    let value = Box::new(alloc, value)?;
    Ok(value)
}
