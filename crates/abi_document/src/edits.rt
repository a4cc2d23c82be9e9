//! Edits, from trees of JSON.

ghost use Rattle.std.specs.Prelude.{◌≡◌, IfOk, IfSome, codes, map};
ghost use Rattle.serde_json.specs.View.{view, items_view};
ghost use Rattle.abi_pack.specs.EditLists.{plain_edits};
ghost use Rattle.abi_pack.specs.View.{plain};
ghost use Rattle.abi_document.specs.Forms.{Tells, under};
ghost use Rattle.abi_document.specs.Values.{value_at};
ghost use Rattle.abi_document.specs.Edits.{AreFew, levels, plain_edit, path_in, step_of, steps_of, edit_of, each_edit, edits_of};

use crate::forms::{has_only, items_under, sole_member, word_of};
use crate::values::value_at;
use abi_num::OutOfMemory;
use abi_pack::{Edit, Edits, Step, Steps, Value};
use serde_json::Value as Json;
use std::alloc::Global;

/// One more than the levels that a document can nest.
pub const LEVELS: usize = 128;

/// One more than the edits that a document can have.
const MANY: usize = 1 << 32;

/// Fewer than 2^32 edits in order, from an array; `None` exactly where the tree is none.
pub fn edits_of(alloc: Global, json: &Json) -> Result<Option<Edits>, OutOfMemory>
    ensures told { IfOk result (Tells plain_edits (edits_of (view json.now))) }
    ensures few { IfOk result (λ edits. IfSome edits AreFew) }
{
    let Some(items) = json.as_array() else {
        return Ok(None);
    };
    match each_edit(alloc, items.as_slice())? {
        Some(edits) if edits.as_slice().len() < MANY => Ok(Some(edits)),
        _ => Ok(None),
    }
}

/// Edits in order; `None` exactly where an item is none.
#[tactic(auto, using(crate::proofs::Arrays::go_on, crate::proofs::Arrays::stop, crate::proofs::Arrays::at_end))]
fn each_edit(alloc: Global, items: &[Json]) -> Result<Option<Edits>, OutOfMemory>
    ensures { IfOk result (Tells (map plain_edit) (each_edit (items_view items.now))) }
{
    let mut edits = Edits::new(alloc);
    for item in items {
        match edit_of(alloc, item)? {
            Some(edit) => edits.push(edit)?,
            None => return Ok(None),
        }
    }
    Ok(Some(edits))
}

/// An edit, from an object of its path and its value; `None` exactly where the tree is none.
#[tactic(auto, unfolding(crate::specs::Edits::edit_of))]
fn edit_of(alloc: Global, json: &Json) -> Result<Option<Edit>, OutOfMemory>
    ensures { IfOk result (Tells plain_edit (edit_of (view json.now))) }
{
    if !has_only(&["path", "value"], json) {
        return Ok(None);
    }
    let Some(path) = path_in(alloc, json)? else {
        return Ok(None);
    };
    let Some(value) = value_in(alloc, json)? else {
        return Ok(None);
    };
    Ok(Some(Edit { path, value }))
}

/// The path under the key `path`; `None` exactly where there is none.
fn path_in(alloc: Global, json: &Json) -> Result<Option<Steps>, OutOfMemory>
    ensures { IfOk result (λ path. path ≡ path_in (view json.now)) }
{
    match items_under("path", json) {
        Some(items) => steps_of(alloc, items),
        None => Ok(None),
    }
}

/// The value under the key `value`; `None` exactly where there is none.
pub fn value_in(alloc: Global, json: &Json) -> Result<Option<Value>, OutOfMemory>
    ensures { IfOk result (Tells plain (under (codes "value") (value_at levels) (view json.now))) }
{
    match json.get("value") {
        Some(value) => value_at(alloc, LEVELS, value),
        None => Ok(None),
    }
}

/// Steps in order; `None` exactly where an item is none.
#[tactic(auto, using(crate::proofs::Arrays::one_more, crate::proofs::Arrays::stop, crate::proofs::Arrays::at_end))]
fn steps_of(alloc: Global, items: &[Json]) -> Result<Option<Steps>, OutOfMemory>
    ensures { IfOk result (λ steps. steps ≡ steps_of (items_view items.now)) }
{
    let mut steps = Steps::new(alloc);
    for item in items {
        match step_of(item) {
            Some(step) => steps.push(step)?,
            None => return Ok(None),
        }
    }
    Ok(Some(steps))
}

/// A step: the name of a variant, or an object of a field's or an item's number; `None` exactly where the tree is none.
#[tactic(auto, unfolding(crate::specs::Edits::step_of))]
fn step_of(json: &Json) -> Option<Step>
    ensures { result ≡ step_of (view json.now) }
{
    match json {
        Json::String(name) => match name.as_str() {
            "ok" => Some(Step::Ok),
            "err" => Some(Step::Err),
            "some" => Some(Step::Some),
            _ => None,
        },
        Json::Object(_) => match sole_member(json) {
            Some(("field", number)) => word_of(number).map(Step::Field),
            Some(("item", number)) => word_of(number).map(Step::Item),
            _ => None,
        },
        _ => None,
    }
}
