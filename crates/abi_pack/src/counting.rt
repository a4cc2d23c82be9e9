//! How many values reading makes, counted before it makes them.
ghost use Rattle.std.specs.Prelude.{◌≡◌, ◌+◌, ◌≤◌, ◌<◌, ◌^◌, length};
ghost use Rattle.abi_layout.specs.Shape.{size, size_in};
ghost use Rattle.abi_pack.specs.ByteMap.{seen_in};
ghost use Rattle.abi_pack.specs.Consistent.{IsConsistent, AreConsistent};
ghost use Rattle.abi_pack.specs.Counting.{counted, counted_in, max_values};
ghost use Rattle.abi_pack.specs.View.{items_of, shape, shapes};

use crate::sides::{side, size, start};
use abi_layout::{Part, PartField};

/// The greatest number of values that reading makes of bytes: the value itself, those in it, and so on. Items
/// without bytes can be far more than the bytes are.
pub const MAX_VALUES: u64 = 8_388_608;

/// The count so far, and how many values are in the one that the bytes from `at` on show; `MAX_VALUES + 1` where this
/// is more than `MAX_VALUES`. Ends there, and counts items without bytes once for all.
#[cycle(values)]
pub(crate) fn values(part: &Part, bytes: &[u8], at: usize, before: u64) -> u64
    requires sound { IsConsistent (shape part.now) }
    requires small { length bytes.now < 2 ^ 32 }
    requires within { at + size (shape part.now) ≤ length bytes.now }
    requires low { before ≤ max_values + 1 }
    ensures { result ≡ counted before (shape part.now) (seen_in bytes.now at) }
{
    let count = (before + 1).min(MAX_VALUES + 1);
    match part {
        Part::Scalar(_) => count,
        Part::Raw { .. } => count,
        Part::Struct { fields, .. } => values_of_all(fields.as_slice(), bytes, at, count),
        Part::Array { item, len, .. } => values_of_each(item, *len, bytes, at, count),
        Part::Sum {
            ok,
            err,
            sum_layout,
            ..
        } => {
            let first = sum_layout.determinant.is_det_ok(&bytes[at..]);
            let variant = side(ok, err, first);
            values(variant, bytes, at + start(sum_layout, first), count)
        }
    }
}

/// The count so far, and how many values are in those of the fields, likewise.
#[cycle(values)]
fn values_of_all(fields: &[PartField], bytes: &[u8], at: usize, before: u64) -> u64
    requires sound { AreConsistent (shapes fields.now) }
    requires small { length bytes.now < 2 ^ 32 }
    requires within { at + size_in (shapes fields.now) ≤ length bytes.now }
    requires low { before ≤ max_values + 1 }
    ensures { result ≡ counted_in before (shapes fields.now) (seen_in bytes.now at) }
{
    match fields.split_first() {
        Some((field, fields)) => {
            let start = at + field.gap as usize;
            let end = start + size(&field.part);
            let count = values(&field.part, bytes, start, before);
            if MAX_VALUES < count {
                return count;
            }
            values_of_all(fields, bytes, end, count)
        }
        None => before,
    }
}

/// The count so far, and how many values are in the `len` items, likewise.
#[cycle(values)]
#[tactic(auto, using(crate::proofs::Rows::row_size_next))]
fn values_of_each(item: &Part, len: u64, bytes: &[u8], at: usize, before: u64) -> u64
    requires sound { AreConsistent (items_of len item.now) }
    requires small { length bytes.now < 2 ^ 32 }
    requires within { at + size_in (items_of len item.now) ≤ length bytes.now }
    requires low { before ≤ max_values + 1 }
    ensures { result ≡ counted_in before (items_of len item.now) (seen_in bytes.now at) }
{
    if len == 0 {
        return before;
    }
    let size = size(item);
    if size == 0 {
        let count = values(item, bytes, at, 0);
        let all = count.saturating_mul(len).min(MAX_VALUES + 1);
        return (before + all).min(MAX_VALUES + 1);
    }
    let mut start = at;
    let mut count = before;
    for i in 0..len {
        count = values(item, bytes, start, count);
        if MAX_VALUES < count {
            return count;
        }
        start += size;
    }
    count
}
