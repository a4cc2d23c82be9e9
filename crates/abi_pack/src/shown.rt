ghost use Rattle.std.specs.Prelude.{◌≡◌, ◌+◌, ◌*◌, ◌≤◌, ◌<◌, ◌^◌, length};
ghost use Rattle.abi_pack.specs.ByteMap.{seen_in};
ghost use Rattle.abi_layout.specs.Shape.{size, size_in};
ghost use Rattle.abi_pack.specs.Consistent.{IsConsistent, AreConsistent};
ghost use Rattle.abi_pack.specs.ValueShown.{is_shown, is_shown_in, shown_at_each, all_shown_at_each};
ghost use Rattle.abi_pack.specs.View.{items_of, shape, shapes};

use crate::sides::{side, size, start};
use crate::{raw, scalars};
use abi_layout::{Part, PartField};

/// Whether the bytes from `at` on show a value of the part.
#[cycle(shown)]
pub(crate) fn is_shown(part: &Part, bytes: &[u8], at: usize) -> bool
    requires sound { IsConsistent (shape part.now) }
    requires small { length bytes.now < 2 ^ 32 }
    requires within { at + size (shape part.now) ≤ length bytes.now }
    ensures { result ≡ is_shown (shape part.now) (seen_in bytes.now at) }
{
    match part {
        Part::Scalar(scalar) => scalars::is_legal(scalar, bytes, at),
        Part::Raw {
            size,
            forbidden,
            ..
        } => raw::is_legal(*size, forbidden, bytes, at),
        Part::Struct { fields, .. } => are_shown(fields.as_slice(), bytes, at),
        Part::Array { item, len, .. } => each_shown(item, *len, bytes, at),
        Part::Sum {
            ok,
            err,
            sum_layout,
            ..
        } => {
            let first = sum_layout.determinant.is_det_ok(&bytes[at..]);
            let variant = side(ok, err, first);
            is_shown(variant, bytes, at + start(sum_layout, first))
        }
    }
}

/// Whether the bytes from `at` on show a value of each field.
#[cycle(shown)]
fn are_shown(fields: &[PartField], bytes: &[u8], at: usize) -> bool
    requires sound { AreConsistent (shapes fields.now) }
    requires small { length bytes.now < 2 ^ 32 }
    requires within { at + size_in (shapes fields.now) ≤ length bytes.now }
    ensures { result ≡ is_shown_in (shapes fields.now) (seen_in bytes.now at) }
{
    match fields.split_first() {
        Some((field, fields)) => {
            let start = at + field.gap as usize;
            let end = start + size(&field.part);
            let first = is_shown(&field.part, bytes, start);
            first && are_shown(fields, bytes, end)
        }
        None => true,
    }
}

/// Whether the bytes from `at` on show `len` values of the item.
#[cycle(shown)]
#[tactic(auto, using(crate::proofs::Rows::row_nodes, crate::proofs::Rows::row_sound, crate::proofs::Rows::row_one_size, crate::proofs::Rows::row_size))]
fn each_shown(item: &Part, len: u64, bytes: &[u8], at: usize) -> bool
    requires sound { AreConsistent (items_of len item.now) }
    requires small { length bytes.now < 2 ^ 32 }
    requires within { at + size_in (items_of len item.now) ≤ length bytes.now }
    ensures { result ≡ is_shown_in (items_of len item.now) (seen_in bytes.now at) }
{
    if len == 0 {
        return true;
    }
    let stride = size(item);
    spaced_shown(item, len, stride, bytes, at)
}

/// Whether the bytes from each of `count` places on show a value of the part. The first place is `at`, and each
/// next lies `stride` bytes on. Goes over the fields first, so that one without bytes is asked once for all places.
#[cycle(shown)]
fn spaced_shown(part: &Part, count: u64, stride: usize, bytes: &[u8], at: usize) -> bool
    requires sound { IsConsistent (shape part.now) }
    requires small { length bytes.now < 2 ^ 32 }
    requires some { 0 < count }
    requires apart { size (shape part.now) ≤ stride }
    requires near { stride ≤ length bytes.now }
    requires within { at + count * stride + size (shape part.now) ≤ length bytes.now + stride }
    ensures { result ≡ shown_at_each count stride (shape part.now) (seen_in bytes.now at) }
{
    if size(part) == 0 {
        return is_shown(part, bytes, at);
    }
    match part {
        Part::Struct { fields, .. } => {
            spaced_fields_shown(fields.as_slice(), count, stride, bytes, at)
        }
        Part::Array { item, len, .. } => {
            let step = size(item);
            if stride == step * *len as usize {
                spaced_shown(item, count * *len, step, bytes, at)
            } else {
                shown_in_turn(part, count, stride, bytes, at)
            }
        }
        Part::Scalar(_) | Part::Raw { .. } | Part::Sum { .. } => {
            shown_in_turn(part, count, stride, bytes, at)
        }
    }
}

/// Whether the bytes from each of the places on show a value of each field.
#[cycle(shown)]
fn spaced_fields_shown(
    fields: &[PartField],
    count: u64,
    stride: usize,
    bytes: &[u8],
    at: usize,
) -> bool
    requires sound { AreConsistent (shapes fields.now) }
    requires small { length bytes.now < 2 ^ 32 }
    requires some { 0 < count }
    requires apart { size_in (shapes fields.now) ≤ stride }
    requires near { stride ≤ length bytes.now }
    requires room { at + count * stride + size_in (shapes fields.now) ≤ length bytes.now + stride }
    ensures { result ≡ all_shown_at_each count stride (shapes fields.now) (seen_in bytes.now at) }
{
    match fields.split_first() {
        Some((field, fields)) => {
            let start = at + field.gap as usize;
            let end = start + size(&field.part);
            let first = spaced_shown(&field.part, count, stride, bytes, start);
            first && spaced_fields_shown(fields, count, stride, bytes, end)
        }
        None => true,
    }
}

/// Whether the bytes from each of the places on show a value of the part, asked of one place after another.
#[cycle(shown)]
#[tactic(auto, using(crate::proofs::Spaced::each_on, crate::proofs::Spaced::each_not, crate::proofs::Spaced::times_next))]
fn shown_in_turn(part: &Part, count: u64, stride: usize, bytes: &[u8], at: usize) -> bool
    requires sound { IsConsistent (shape part.now) }
    requires small { length bytes.now < 2 ^ 32 }
    requires near { stride ≤ length bytes.now }
    requires within { at + count * stride + size (shape part.now) ≤ length bytes.now + stride }
    ensures { result ≡ shown_at_each count stride (shape part.now) (seen_in bytes.now at) }
{
    let mut start = at;
    for i in 0..count {
        if !is_shown(part, bytes, start) {
            return false;
        }
        start += stride;
    }
    true
}
