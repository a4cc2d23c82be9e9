//! Types that are a primitive of their name.

ghost use Rattle.std.specs.Prelude.{false, ⊤, refl};
ghost use Rattle.abi_layout.specs.Trees.{prim};
ghost use Rattle.abi_layout.specs.declared.prim.Primitive.TheVariants as primitive;
ghost use Rattle.abi_pack.specs.Plain.{unit, boolean, order};
ghost use Rattle.abi_typed.specs.IntegerLaws.{no_pointers};

use crate::stable::IStable;
use abi_layout::{Desc, Prim};
use abi_num::OutOfMemory;
use abi_pack::Value;
use std::alloc::Global;
use std::cmp::Ordering;

impl IStable for bool {
    ghost is_value = { λ _. ⊤ };

    ghost description = { prim primitive.Bool };

    ghost value_of = { boolean };

    ghost indirections = { false };

    fn describe(_alloc: Global) -> Result<Desc, OutOfMemory> {
        Ok(Desc::Prim(Prim::Bool))
    }

    fn to_value(&self, _alloc: Global) -> Result<Value, OutOfMemory> {
        Ok(Value::Bool(*self))
    }

    fn from_value(value: &Value) -> Option<bool> {
        match value {
            Value::Bool(truth) => Some(*truth),
            _ => None,
        }
    }

    fn indirections() -> bool {
        false
    }

    ghost fixed = { λ _ _ _ _ _. refl };

    ghost fitting = { λ _ _ _ _. refl };

    ghost indirect = { no_pointers primitive.Bool (λ _. refl) };
}

impl IStable for () {
    ghost is_value = { λ _. ⊤ };

    ghost description = { prim primitive.Unit };

    ghost value_of = { λ _. unit };

    ghost indirections = { false };

    fn describe(_alloc: Global) -> Result<Desc, OutOfMemory> {
        Ok(Desc::Prim(Prim::Unit))
    }

    fn to_value(&self, _alloc: Global) -> Result<Value, OutOfMemory> {
        Ok(Value::Unit)
    }

    fn from_value(value: &Value) -> Option<()> {
        match value {
            Value::Unit => Some(()),
            _ => None,
        }
    }

    fn indirections() -> bool {
        false
    }

    ghost fixed = { λ _ _ _ _ _. refl };

    ghost fitting = { λ _ _ _ _. refl };

    ghost indirect = { no_pointers primitive.Unit (λ _. refl) };
}

impl IStable for Ordering {
    ghost is_value = { λ _. ⊤ };

    ghost description = { prim primitive.Ordering };

    ghost value_of = { order };

    ghost indirections = { false };

    fn describe(_alloc: Global) -> Result<Desc, OutOfMemory> {
        Ok(Desc::Prim(Prim::Ordering))
    }

    fn to_value(&self, _alloc: Global) -> Result<Value, OutOfMemory> {
        Ok(Value::Order(*self))
    }

    fn from_value(value: &Value) -> Option<Ordering> {
        match value {
            Value::Order(order) => Some(*order),
            _ => None,
        }
    }

    fn indirections() -> bool {
        false
    }

    ghost fixed = { λ _ _ _ _ _. refl };

    ghost fitting = { λ _ _ _ _. refl };

    ghost indirect = { no_pointers primitive.Ordering (λ _. refl) };
}
