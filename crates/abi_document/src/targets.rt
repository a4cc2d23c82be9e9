//! Targets, from trees of JSON.

ghost use Rattle.std.specs.Prelude.{◌≡◌};
ghost use Rattle.serde_json.specs.View.{view};
ghost use Rattle.abi_document.specs.Targets.{fields_of, target_of};

use crate::forms::{has_only, long_under, truth_under};
use abi_num::Target;
use serde_json::Value as Json;

/// A target: the name of a supported one, or an object of four fields, which may be those of no supported one.
/// `None` exactly where the tree is neither.
#[tactic(auto, unfolding(crate::specs::Targets::target_of))]
pub fn target_of(json: &Json) -> Option<Target>
    ensures { result ≡ target_of (view json.now) }
{
    match json {
        Json::String(name) => Target::named(name.as_str()),
        Json::Object(_) => fields_of(json),
        _ => None,
    }
}

/// A target, from an object of its four fields.
fn fields_of(json: &Json) -> Option<Target>
    ensures { result ≡ fields_of (view json.now) }
{
    if !has_only(&["little", "pointer", "u64_align", "u128_align"], json) {
        return None;
    }
    Some(Target {
        little: truth_under("little", json)?,
        pointer: long_under("pointer", json)?,
        u64_align: long_under("u64_align", json)?,
        u128_align: long_under("u128_align", json)?,
    })
}
