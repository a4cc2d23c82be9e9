ghost use Rattle.std.specs.Prelude.{◌≡◌, ◌+◌, ◌<◌, ◌^◌};
ghost use Rattle.abi_layout.specs.Shape.{size, size_in};
ghost use Rattle.abi_pack.specs.Consistent.{IsConsistent};
ghost use Rattle.abi_pack.specs.Edits.{variant_entered};
ghost use Rattle.abi_pack.specs.ShapeEdits.{IsFound, field_named, named};
ghost use Rattle.abi_pack.specs.View.{items_of, shape, shapes};

use crate::sides::{side, size, start};
use crate::step::Step;
use abi_layout::{Part, PartField, Sort};

/// A part in another, and where it starts, in bytes.
#[derive(Clone, Copy)]
pub(crate) struct Inner<'a> {
    pub(crate) part: &'a Part,
    pub(crate) start: usize,
}

/// What a step names in the part.
pub(crate) fn named<'a>(part: &'a Part, step: &Step) -> Option<Inner<'a>>
    requires sound { IsConsistent (shape part.now) }
    requires small { size (shape part.now) < 2 ^ 32 }
    ensures { IsFound result (named (shape part.now) step.now) }
{
    match part {
        Part::Scalar(_) | Part::Raw { .. } => None,
        Part::Struct { fields, .. } => match step {
            Step::Field(number) => field_named(fields.as_slice(), *number, 0),
            _ => None,
        },
        Part::Array { item, len, .. } => match step {
            Step::Item(number) => item_named(item, *len, *number),
            _ => None,
        },
        Part::Sum {
            names,
            ok,
            err,
            sum_layout,
        } => match variant_entered(names, step) {
            Some(first) => Some(Inner {
                part: side(ok, err, first),
                start: start(sum_layout, first),
            }),
            None => None,
        },
    }
}

/// The variant that a step enters, of those that are called so: whether it is the first.
pub(crate) fn variant_entered(names: &Sort, step: &Step) -> Option<bool>
    ensures { result ≡ variant_entered names.now step.now }
{
    match (names, step) {
        (Sort::OfResult, Step::Ok) | (Sort::OfOption, Step::Some) => Some(true),
        (Sort::OfResult, Step::Err) => Some(false),
        _ => None,
    }
}

/// The field of that number; the fields begin after `before` bytes.
#[cycle(field_named)]
fn field_named(fields: &[PartField], number: u32, before: usize) -> Option<Inner<'_>>
    requires small { before + size_in (shapes fields.now) < 2 ^ 32 }
    ensures { IsFound result (field_named (shapes fields.now) number before) }
{
    match fields.split_first() {
        Some((field, fields)) => {
            let start = before + field.gap as usize;
            if number == 0 {
                return Some(Inner {
                    part: &field.part,
                    start,
                });
            }
            field_named(fields, number - 1, start + size(&field.part))
        }
        None => None,
    }
}

/// The item of that number, of `len`.
fn item_named(item: &Part, len: u64, number: u32) -> Option<Inner<'_>>
    requires small { size_in (items_of len item.now) < 2 ^ 32 }
    ensures { IsFound result (field_named (items_of len item.now) number 0) }
{
    if (number as u64) < len {
        return Some(Inner {
            part: item,
            start: number as usize * size(item),
        });
    }
    None
}
