//! Values, from trees of JSON.

ghost use Rattle.std.specs.Prelude.{◌≡◌, IfOk, map};
ghost use Rattle.serde_json.specs.View.{view, items_view};
ghost use Rattle.abi_pack.specs.View.{plain};
ghost use Rattle.abi_document.specs.Forms.{Tells, all_of};
ghost use Rattle.abi_document.specs.Values.{boxed, integer, text_value, form_of, value_step, value_at};

use crate::forms::{bytes_of, sole_member};
use crate::integers::{integer_number, integer_text};
use abi_num::OutOfMemory;
use abi_pack::{Value, Values};
use serde_json::Value as Json;
use std::alloc::Global;
use std::cmp::Ordering;

/// A value that nests fewer than that many levels; `None` exactly where the tree is none.
#[cycle(reading)]
#[tactic(auto, using(crate::proofs::Levels::no_level, crate::proofs::Levels::one_level))]
pub fn value_at(alloc: Global, levels: usize, json: &Json) -> Result<Option<Value>, OutOfMemory>
    ensures { IfOk result (Tells plain (value_at levels (view json.now))) }
{
    if levels == 0 {
        return Ok(None);
    }
    value_step(alloc, levels - 1, json)
}

/// A value of parts that nest fewer than that many levels.
#[cycle(reading)]
#[tactic(auto, unfolding(crate::specs::Values::value_step))]
fn value_step(alloc: Global, levels: usize, json: &Json) -> Result<Option<Value>, OutOfMemory>
    ensures { IfOk result (Tells plain (value_step (value_at levels) (view json.now))) }
{
    match json {
        Json::Null => Ok(Some(Value::Unit)),
        Json::Bool(truth) => Ok(Some(Value::Bool(*truth))),
        Json::Number(number) => Ok(integer_number(number).map(integer)),
        Json::String(text) => Ok(text_value(text.as_str())),
        Json::Array(items) => Ok(values_of(alloc, levels, items.as_slice())?.map(Value::List)),
        Json::Object(_) => match sole_member(json) {
            Some((key, content)) => form_of(alloc, levels, key, content),
            None => Ok(None),
        },
    }
}

/// The value that a text tells: a word, or an integer; `None` exactly where it tells none.
#[tactic(auto, unfolding(crate::specs::Values::text_value))]
fn text_value(text: &str) -> Option<Value>
    ensures { Tells plain (text_value text.now) result }
{
    match text {
        "none" => Some(Value::None),
        "less" => Some(Value::Order(Ordering::Less)),
        "equal" => Some(Value::Order(Ordering::Equal)),
        "greater" => Some(Value::Order(Ordering::Greater)),
        _ => integer_text(text).map(integer),
    }
}

/// The value that is an integer of a magnitude, below 0 or not.
fn integer(signed: (u128, bool)) -> Value
    ensures { plain result ≡ integer signed }
{
    let (magnitude, negative) = signed;
    Value::Int {
        magnitude,
        negative,
    }
}

/// Values in order; `None` exactly where an item is no value.
#[cycle(reading)]
#[tactic(auto, using(crate::proofs::Arrays::go_on, crate::proofs::Arrays::stop, crate::proofs::Arrays::at_end))]
fn values_of(alloc: Global, levels: usize, items: &[Json]) -> Result<Option<Values>, OutOfMemory>
    ensures { IfOk result (Tells (map plain) (all_of (value_at levels) (items_view items.now))) }
{
    let mut values = Values::new(alloc);
    for item in items {
        match value_at(alloc, levels, item)? {
            Some(value) => values.push(value)?,
            None => return Ok(None),
        }
    }
    Ok(Some(values))
}

/// A value, from the one key of an object and what it holds.
#[cycle(reading)]
#[tactic(auto, unfolding(crate::specs::Values::form_of))]
fn form_of(
    alloc: Global,
    levels: usize,
    key: &str,
    content: &Json,
) -> Result<Option<Value>, OutOfMemory>
    ensures { IfOk result (Tells plain (form_of (value_at levels) key.now (view content.now))) }
{
    match key {
        "ok" => Ok(boxed_at(alloc, levels, content)?.map(Value::Ok)),
        "err" => Ok(boxed_at(alloc, levels, content)?.map(Value::Err)),
        "some" => Ok(boxed_at(alloc, levels, content)?.map(Value::Some)),
        "bytes" => Ok(bytes_of(alloc, content)?.map(Value::Bytes)),
        _ => Ok(None),
    }
}

/// A value in a box of its own.
#[cycle(reading)]
fn boxed_at(alloc: Global, levels: usize, json: &Json) -> Result<Option<Box<Value>>, OutOfMemory>
    ensures { IfOk result (Tells boxed (value_at levels (view json.now))) }
{
    match value_at(alloc, levels, json)? {
        Some(value) => Ok(Some(Box::new(alloc, value)?)),
        None => Ok(None),
    }
}
