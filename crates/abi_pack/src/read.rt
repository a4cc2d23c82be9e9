ghost use Rattle.std.specs.Prelude.{◌≡◌, true, false, ◌+◌, ◌≤◌, ◌<◌, ◌^◌, IfOk, OnOk, length};
ghost use Rattle.abi_pack.specs.ByteMap.{seen_in};
ghost use Rattle.abi_pack.specs.Plain.{unit, variant};
ghost use Rattle.abi_layout.specs.Shape.{size, size_in};
ghost use Rattle.abi_pack.specs.Reading.{AreRead};
ghost use Rattle.abi_pack.specs.Shows.{same_sort};
ghost use Rattle.abi_pack.specs.Consistent.{IsConsistent, AreConsistent};
ghost use Rattle.abi_layout.specs.Plans.{IsNamed, AreNamed};
ghost use Rattle.abi_pack.specs.ValueShown.{value_shown};
ghost use Rattle.abi_pack.specs.View.{items_of, shape, shapes, plain};

use crate::sides::{side, size, start};
use crate::value::{Value, Values};
use crate::{raw, scalars};
use abi_layout::{Part, PartField, Sort};
use abi_num::{Items, OutOfMemory};
use std::alloc::Global;

/// The value of the part that the bytes from `at` on show; they show one.
#[cycle(read)]
pub(crate) fn read(
    alloc: Global,
    part: &Part,
    bytes: &[u8],
    at: usize,
) -> Result<Value, OutOfMemory>
    requires sound { IsConsistent (shape part.now) }
    requires named { IsNamed (shape part.now) }
    requires small { length bytes.now < 2 ^ 32 }
    requires within { at + size (shape part.now) ≤ length bytes.now }
    ensures { IfOk result (λ v. plain v ≡ value_shown (shape part.now) (seen_in bytes.now at)) }
{
    match part {
        Part::Scalar(scalar) => Ok(scalars::value_shown(scalar, bytes, at)),
        Part::Raw { size, free, .. } => {
            let value = raw::value_shown(alloc, *size, free, bytes, at)?;
            Ok(value)
        }
        Part::Struct { fields, .. } => {
            let mut values = Items::new(alloc);
            read_all(alloc, fields.as_slice(), bytes, at, &mut values)?;
            Ok(Value::List(values))
        }
        Part::Array { item, len, .. } => {
            let mut values = Items::new(alloc);
            read_each(alloc, item, *len, bytes, at, &mut values)?;
            Ok(Value::List(values))
        }
        Part::Sum {
            names,
            ok,
            err,
            sum_layout,
        } => {
            let first = sum_layout.determinant.is_det_ok(&bytes[at..]);
            let variant = side(ok, err, first);
            let payload = read(alloc, variant, bytes, at + start(sum_layout, first))?;
            let value = variant_value(alloc, names, first, payload)?;
            Ok(value)
        }
    }
}

/// Adds the values of the fields that the bytes from `at` on show.
#[cycle(read)]
fn read_all(
    alloc: Global,
    fields: &[PartField],
    bytes: &[u8],
    at: usize,
    values: &mut Values,
) -> Result<(), OutOfMemory>
    requires sound { AreConsistent (shapes fields.now) }
    requires named { AreNamed (shapes fields.now) }
    requires small { length bytes.now < 2 ^ 32 }
    requires within { at + size_in (shapes fields.now) ≤ length bytes.now }
    ensures { OnOk result (AreRead (shapes fields.now) bytes.now at values.old values.new) }
{
    match fields.split_first() {
        Some((field, fields)) => {
            let start = at + field.gap as usize;
            let end = start + size(&field.part);
            let value = read(alloc, &field.part, bytes, start)?;
            values.push(value)?;
            read_all(alloc, fields, bytes, end, values)?;
            Ok(())
        }
        None => Ok(()),
    }
}

/// Adds the `len` values of the item that the bytes from `at` on show.
#[cycle(read)]
#[tactic(auto, using(crate::proofs::Rows::row_size_next, crate::proofs::Rows::row_told))]
fn read_each(
    alloc: Global,
    item: &Part,
    len: u64,
    bytes: &[u8],
    at: usize,
    values: &mut Values,
) -> Result<(), OutOfMemory>
    requires sound { AreConsistent (items_of len item.now) }
    requires named { AreNamed (items_of len item.now) }
    requires small { length bytes.now < 2 ^ 32 }
    requires within { at + size_in (items_of len item.now) ≤ length bytes.now }
    ensures { OnOk result (AreRead (items_of len item.now) bytes.now at values.old values.new) }
{
    if len == 0 {
        return Ok(());
    }
    let size = size(item);
    let mut start = at;
    for i in 0..len {
        let value = read(alloc, item, bytes, start)?;
        values.push(value)?;
        start += size;
    }
    Ok(())
}

/// The value of a sum with this payload, which is `Unit` for `None`.
fn variant_value(
    alloc: Global,
    names: &Sort,
    first: bool,
    payload: Value,
) -> Result<Value, OutOfMemory>
    requires { same_sort names.now Sort.OfOption ≡ true → first ≡ false → plain payload ≡ unit }
    ensures { IfOk result (λ v. plain v ≡ variant names.now first (plain payload)) }
{
    match (names, first) {
        (Sort::OfResult, true) => {
            let payload = Box::new(alloc, payload)?;
            Ok(Value::Ok(payload))
        }
        (Sort::OfResult, false) => {
            let payload = Box::new(alloc, payload)?;
            Ok(Value::Err(payload))
        }
        (Sort::OfOption, true) => {
            let payload = Box::new(alloc, payload)?;
            Ok(Value::Some(payload))
        }
        (Sort::OfOption, false) => Ok(Value::None),
    }
}
