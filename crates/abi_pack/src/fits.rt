ghost use Rattle.std.specs.Prelude.{◌≡◌};
ghost use Rattle.abi_layout.specs.Shape.{repeated};
ghost use Rattle.abi_pack.specs.Consistent.{IsConsistent, AreConsistent};
ghost use Rattle.abi_pack.specs.Shows.{fits, fits_in};
ghost use Rattle.abi_pack.specs.View.{items_of, shape, shapes, plain, plains};

use crate::sides::{is_same, side};
use crate::value::Value;
use crate::{raw, scalars};
use abi_layout::{Part, PartField};

/// Whether the value is one of the part's.
#[cycle(fits)]
#[tactic(auto, using(crate::proofs::Fitting::fits_scalar, crate::proofs::Fitting::fits_struct, crate::proofs::Fitting::fits_array, crate::proofs::Fitting::fits_variant, crate::proofs::Fitting::fits_no_list, crate::proofs::Fitting::fits_no_items, crate::proofs::Fitting::fits_no_variant))]
pub(crate) fn fits(part: &Part, value: &Value) -> bool
    requires sound { IsConsistent (shape part.now) }
    ensures { result ≡ fits (shape part.now) (plain value.now) }
{
    match part {
        Part::Scalar(scalar) => scalars::has(scalar, value),
        Part::Raw {
            size,
            free,
            forbidden,
        } => raw::has(*size, free, forbidden, value),
        Part::Struct { fields, .. } => match value.as_list() {
            Some(values) => fit_all(fields.as_slice(), values),
            None => false,
        },
        Part::Array { item, len, .. } => match value.as_list() {
            Some(values) => fit_each(item, *len, values),
            None => false,
        },
        Part::Sum { names, ok, err, .. } => {
            let unit = Value::Unit;
            match value.as_variant(&unit) {
                Some(variant) => {
                    let same = is_same(names, &variant.names);
                    same && fits(side(ok, err, variant.first), variant.payload)
                }
                None => false,
            }
        }
    }
}

/// Whether there is one value for each field, and each is one of its field's.
#[cycle(fits)]
fn fit_all(fields: &[PartField], values: &[Value]) -> bool
    requires sound { AreConsistent (shapes fields.now) }
    ensures { result ≡ fits_in (shapes fields.now) (plains values.now) }
{
    match (fields.split_first(), values.split_first()) {
        (Some((field, fields)), Some((value, values))) => {
            let first = fits(&field.part, value);
            first && fit_all(fields, values)
        }
        (None, None) => true,
        (Some(_), None) | (None, Some(_)) => false,
    }
}

/// Whether there are `len` values, and each is one of the item's.
#[cycle(fits)]
#[tactic(auto, using(crate::proofs::Rows::row_other_count))]
fn fit_each(item: &Part, len: u64, values: &[Value]) -> bool
    requires sound { AreConsistent (items_of len item.now) }
    ensures { result ≡ fits_in (items_of len item.now) (plains values.now) }
{
    if values.len() as u64 != len {
        return false;
    }
    for value in values {
        if !fits(item, value) {
            return false;
        }
    }
    true
}
