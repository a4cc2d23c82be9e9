ghost use Rattle.std.specs.Prelude.{◌≡◌, IfOk};
ghost use Rattle.std.specs.Option.{option_map};
ghost use Rattle.serde_json.specs.View.{view};
ghost use Rattle.abi_tool.specs.Reading.{reading};

use abi_num::OutOfMemory;
use serde_json::Value;
use std::alloc::Global;

/// The JSON tree of `bytes`; `None` exactly where they are no UTF-8 or no JSON.
#[tactic(auto, using(crate::proofs::ReadingLemmas::has_reading, crate::proofs::ReadingLemmas::has_none))]
pub fn reading(alloc: Global, bytes: &[u8]) -> Result<Option<Value>, OutOfMemory>
    ensures { IfOk result (λ tree. option_map view tree ≡ reading bytes.now) }
{
    match Value::from_slice(alloc, bytes) {
        Ok(tree) => Ok(Some(tree)),
        Err(error) if error.is_memory() => Err(OutOfMemory),
        Err(_) => Ok(None),
    }
}
