ghost use Rattle.std.specs.Prelude.{◌≡◌, true, ◌+◌, ◌≤◌, ◌<◌, ◌^◌, length, IfOk};
ghost use Rattle.abi_pack.specs.Packed.{packed, packed_at, packed_in};
ghost use Rattle.abi_layout.specs.Shape.{size, size_in};
ghost use Rattle.abi_pack.specs.Shows.{fits, fits_in};
ghost use Rattle.abi_pack.specs.Consistent.{IsConsistent, AreConsistent};
ghost use Rattle.abi_pack.specs.View.{items_of, shape, shapes, plain, plains};

use crate::sides::{name_variant, side, size, start};
use crate::value::Value;
use crate::{raw, scalars};
use abi_layout::{Part, PartField};
use abi_num::OutOfMemory;
use std::alloc::Global;

/// The value's canonical bytes.
pub(crate) fn packed(alloc: Global, part: &Part, value: &Value) -> Result<Vec<u8>, OutOfMemory>
    requires sound { IsConsistent (shape part.now) }
    requires small { size (shape part.now) < 2 ^ 32 }
    requires fits { fits (shape part.now) (plain value.now) ≡ true }
    ensures { IfOk result (λ bytes. bytes.items ≡ packed (shape part.now) (plain value.now)) }
{
    let mut bytes = vec![in alloc; 0; size(part)]?;
    write(part, value, &mut bytes);
    Ok(bytes)
}

/// Writes the value's canonical bytes, whatever stood there.
#[cycle(write)]
pub(crate) fn write(part: &Part, value: &Value, out: &mut [u8])
    requires sound { IsConsistent (shape part.now) }
    requires small { size (shape part.now) < 2 ^ 32 }
    requires fits { fits (shape part.now) (plain value.now) ≡ true }
    requires room { length out.old ≡ size (shape part.now) }
    ensures { out.new ≡ packed (shape part.now) (plain value.now) }
{
    match part {
        Part::Scalar(scalar) => scalars::write(scalar, value, out),
        Part::Raw { .. } => raw::write(value, out),
        Part::Struct { fields, .. } => match value.as_list() {
            Some(values) => write_all(fields.as_slice(), values, out),
            None => unreachable!(),
        },
        Part::Array { item, len, .. } => match value.as_list() {
            Some(values) => write_each(item, *len, values, out),
            None => unreachable!(),
        },
        Part::Sum {
            ok,
            err,
            sum_layout,
            ..
        } => {
            let unit = Value::Unit;
            if let Some(variant) = value.as_variant(&unit) {
                let part = side(ok, err, variant.first);
                write_at(part, variant.payload, start(sum_layout, variant.first), out);
                name_variant(sum_layout, variant.first, out);
            }
        }
    }
}

/// Writes the value's canonical bytes at `shift`, and zeros around them.
#[cycle(write)]
fn write_at(part: &Part, value: &Value, shift: usize, out: &mut [u8])
    requires sound { IsConsistent (shape part.now) }
    requires small { length out.old < 2 ^ 32 }
    requires fits { fits (shape part.now) (plain value.now) ≡ true }
    requires room { shift + size (shape part.now) ≤ length out.old }
    ensures { out.new ≡ packed_at (length out.old) shift (shape part.now) (plain value.now) }
{
    let (before, rest) = out.split_at_mut(shift);
    before.fill(0);
    let (here, after) = rest.split_at_mut(size(part));
    write(part, value, here);
    after.fill(0);
}

/// Writes the values of the fields, and zeros between and after them.
#[cycle(write)]
fn write_all(fields: &[PartField], values: &[Value], out: &mut [u8])
    requires sound { AreConsistent (shapes fields.now) }
    requires small { length out.old < 2 ^ 32 }
    requires fits { fits_in (shapes fields.now) (plains values.now) ≡ true }
    requires room { size_in (shapes fields.now) ≤ length out.old }
    ensures { out.new ≡ packed_in (length out.old) (shapes fields.now) (plains values.now) }
{
    match (fields.split_first(), values.split_first()) {
        (Some((field, fields)), Some((value, values))) => {
            let (before, rest) = out.split_at_mut(field.gap as usize);
            before.fill(0);
            let (here, rest) = rest.split_at_mut(size(&field.part));
            write(&field.part, value, here);
            write_all(fields, values, rest);
        }
        (None, None) => out.fill(0),
        (Some(_), None) | (None, Some(_)) => {}
    }
}

/// Writes the `len` values one after another, and zeros after them.
#[cycle(write)]
fn write_each(item: &Part, len: u64, values: &[Value], out: &mut [u8])
    requires sound { AreConsistent (items_of len item.now) }
    requires small { length out.old < 2 ^ 32 }
    requires fits { fits_in (items_of len item.now) (plains values.now) ≡ true }
    requires room { size_in (items_of len item.now) ≤ length out.old }
    ensures { out.new ≡ packed_in (length out.old) (items_of len item.now) (plains values.now) }
{
    if out.is_empty() {
        return;
    }
    let size = size(item);
    let mut start = 0;
    for value in values {
        let end = start + size;
        write(item, value, &mut out[start..end]);
        start = end;
    }
    let (_, rest) = out.split_at_mut(start);
    rest.fill(0);
}
