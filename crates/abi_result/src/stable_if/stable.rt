ghost use Rattle.abi_layout.specs.Trees.{stable_if};

use crate::contents::described;
use crate::stable_if::StableIf;
use abi_layout::Desc;
use abi_num::OutOfMemory;
use abi_pack::Value;
use abi_typed::IStable;
use std::alloc::Global;

impl<T: IStable, Cond: IStable> IStable for StableIf<T, Cond> {
    ghost is_value = { λ it. T.is_value it.value };

    ghost description = { stable_if T.description Cond.description };

    ghost value_of = { λ it. T.value_of it.value };

    ghost indirections = { T.indirections };

    fn describe(alloc: Global) -> Result<Desc, OutOfMemory> {
        let value = described::<T>(alloc)?;
        let cond = described::<Cond>(alloc)?;
        Ok(Desc::StableIf { value, cond })
    }

    fn to_value(&self, alloc: Global) -> Result<Value, OutOfMemory> {
        let value = self.value.to_value(alloc)?;
        Ok(value)
    }

    fn from_value(value: &Value) -> Option<Self> {
        match T::from_value(value) {
            Some(value) => Some(StableIf::new(value)),
            None => None,
        }
    }

    fn indirections() -> bool {
        T::indirections()
    }

    ghost fixed = { T.fixed };

    ghost fitting = { λ it told. T.fitting it.value told };

    ghost indirect = { T.indirect };
}
