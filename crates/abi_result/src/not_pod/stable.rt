ghost use Rattle.std.specs.Prelude.{true};
ghost use Rattle.abi_layout.specs.Trees.{wrap};
ghost use Rattle.abi_layout.specs.declared.desc.WrapKind.TheVariants as wrapper;
ghost use Rattle.abi_result.specs.StableLaws.{wrap_fixed, not_pod_indirect};

use crate::contents::described;
use crate::not_pod::NotPod;
use abi_layout::{Desc, WrapKind};
use abi_num::OutOfMemory;
use abi_pack::Value;
use abi_typed::IStable;
use std::alloc::Global;

impl<T: IStable> IStable for NotPod<T> {
    ghost is_value = { λ it. T.is_value it.0 };

    ghost description = { wrap wrapper.NotPod T.description };

    ghost value_of = { λ it. T.value_of it.0 };

    ghost indirections = { true };

    fn describe(alloc: Global) -> Result<Desc, OutOfMemory> {
        let inner = described::<T>(alloc)?;
        Ok(Desc::Wrap {
            kind: WrapKind::NotPod,
            inner,
        })
    }

    fn to_value(&self, alloc: Global) -> Result<Value, OutOfMemory> {
        let value = self.0.to_value(alloc)?;
        Ok(value)
    }

    fn from_value(value: &Value) -> Option<Self> {
        match T::from_value(value) {
            Some(inner) => Some(NotPod(inner)),
            None => None,
        }
    }

    fn indirections() -> bool {
        true
    }

    ghost fixed = { wrap_fixed T.description T.fixed };

    ghost fitting = { λ it told. T.fitting it.0 told };

    ghost indirect = { not_pod_indirect T.description };
}
