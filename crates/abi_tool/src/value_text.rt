//! The line of a value, in the form that documents have.

ghost use Rattle.std.specs.Prelude.{◌≡◌, [], IfOk, OnOk};
ghost use Rattle.abi_pack.specs.View.{plain, plains};
ghost use Rattle.abi_tool.specs.Lines.{Adds, member_text, integer_text, is_number, numeral_text, truth_text, order_text, hex_text, value_text, values_text, value_line};

use abi_num::{OutOfMemory, Text};
use abi_pack::Value;
use std::alloc::{AllocError, Global};
use std::cmp::Ordering;
use std::fmt::Write;

/// The farthest below 0 that a number of JSON lies.
const FARTHEST_BELOW: u128 = 1 << 63;

/// The greatest number of JSON.
const GREATEST: u128 = (1 << 64) - 1;

/// The line of a value.
#[tactic(auto, unfolding(crate::specs::Lines::value_line))]
pub fn value_line(alloc: Global, value: &Value) -> Result<Text, OutOfMemory>
    ensures { IfOk result (λ text. text ≡ value_line (plain value.now)) }
{
    let mut out = String::new(alloc);
    out.push_str("value ")?;
    push_value(alloc, &mut out, value)?;
    out.push_str("\n")?;
    Ok(Text::from(out))
}

#[cycle(writing)]
fn push_value(alloc: Global, out: &mut String, value: &Value) -> Result<(), AllocError>
    ensures { OnOk result (Adds out.old out.new (value_text (plain value.now))) }
{
    match value {
        Value::Unit => out.push_str("null"),
        Value::Int {
            magnitude,
            negative,
        } => push_integer(out, *magnitude, *negative),
        Value::Bool(truth) => push_truth(out, *truth),
        Value::Order(order) => push_order(out, *order),
        Value::Bytes(bytes) => push_hex(alloc, out, bytes.as_slice()),
        Value::List(values) => {
            out.push_str("[")?;
            push_values(alloc, out, values.as_slice())?;
            out.push_str("]")
        }
        Value::Ok(payload) => push_member(alloc, out, "ok", payload),
        Value::Err(payload) => push_member(alloc, out, "err", payload),
        Value::Some(payload) => push_member(alloc, out, "some", payload),
        Value::None => out.push_str("\"none\""),
    }
}

// Values with commas between them.
#[cycle(writing)]
fn push_values(alloc: Global, out: &mut String, values: &[Value]) -> Result<(), AllocError>
    ensures { OnOk result (Adds out.old out.new (values_text [] (plains values.now))) }
{
    let mut before = "";
    for value in values {
        out.push_str(before)?;
        push_value(alloc, out, value)?;
        before = ",";
    }
    Ok(())
}

// An object with this key alone.
#[cycle(writing)]
fn push_member(alloc: Global, out: &mut String, key: &str, value: &Value) -> Result<(), AllocError>
    ensures { OnOk result
        (Adds out.old out.new (member_text key.now (value_text (plain value.now)))) }
{
    write!(out, "{{\"{key}\":")?;
    push_value(alloc, out, value)?;
    out.push_str("}")
}

// A number where JSON has it, and else a text.
#[tactic(auto, unfolding(crate::specs::Lines::integer_text))]
fn push_integer(out: &mut String, magnitude: u128, negative: bool) -> Result<(), AllocError>
    ensures { OnOk result (Adds out.old out.new (integer_text magnitude negative)) }
{
    if is_number(magnitude, negative) {
        push_numeral(out, magnitude, negative)
    } else {
        out.push_str("\"")?;
        push_numeral(out, magnitude, negative)?;
        out.push_str("\"")
    }
}

// Whether JSON has the integer as a number.
fn is_number(magnitude: u128, negative: bool) -> bool
    ensures { result ≡ is_number magnitude negative }
{
    if negative {
        magnitude <= FARTHEST_BELOW
    } else {
        magnitude <= GREATEST
    }
}

#[tactic(auto, unfolding(crate::specs::Lines::numeral_text))]
fn push_numeral(out: &mut String, magnitude: u128, negative: bool) -> Result<(), AllocError>
    ensures { OnOk result (Adds out.old out.new (numeral_text magnitude negative)) }
{
    if negative {
        write!(out, "-{magnitude}")
    } else {
        write!(out, "{magnitude}")
    }
}

#[tactic(auto, unfolding(crate::specs::Lines::truth_text))]
fn push_truth(out: &mut String, truth: bool) -> Result<(), AllocError>
    ensures { OnOk result (Adds out.old out.new (truth_text truth)) }
{
    out.push_str(if truth { "true" } else { "false" })
}

#[tactic(auto, unfolding(crate::specs::Lines::order_text))]
fn push_order(out: &mut String, order: Ordering) -> Result<(), AllocError>
    ensures { OnOk result (Adds out.old out.new (order_text order)) }
{
    match order {
        Ordering::Less => out.push_str("\"less\""),
        Ordering::Equal => out.push_str("\"equal\""),
        Ordering::Greater => out.push_str("\"greater\""),
    }
}

#[tactic(auto, unfolding(crate::specs::Lines::hex_text))]
fn push_hex(alloc: Global, out: &mut String, bytes: &[u8]) -> Result<(), AllocError>
    ensures { OnOk result (Adds out.old out.new (hex_text bytes.now)) }
{
    out.push_str("{\"bytes\":\"")?;
    out.push_str(hex::encode(alloc, bytes)?.as_str())?;
    out.push_str("\"}")
}
