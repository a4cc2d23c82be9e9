//! Bytes that are taken as they stand, but for free bits.
ghost use Rattle.std.specs.Prelude.{◌≡◌, ◌+◌, ◌≤◌, ◌<◌, true, IsTrue, IfOk, length};
ghost use Rattle.abi_bits.specs.Forbidden.{items, are_items_below};
ghost use Rattle.abi_layout.specs.Shape.{raw};
ghost use Rattle.abi_pack.specs.Atoms.{has_value};
ghost use Rattle.abi_pack.specs.ByteMap.{seen_in};
ghost use Rattle.abi_pack.specs.Plain.{is_bytes, bytes_in};
ghost use Rattle.abi_pack.specs.Raw.{are_clear, are_raw, bytes_shown, match_none};
ghost use Rattle.abi_pack.specs.View.{plain};

use crate::value::Value;
use abi_bits::{BitMask, ForbiddenValues};
use abi_num::{Items, OutOfMemory};
use std::alloc::Global;

/// Whether the value is so many bytes, with 0 in every free bit, that are not forbidden.
pub(crate) fn has(size: u64, free: &BitMask, forbidden: &ForbiddenValues, value: &Value) -> bool
    requires below { IsTrue (are_items_below size (items forbidden.now)) }
    ensures { result ≡ has_value (raw size free.now (items forbidden.now)) (plain value.now) }
{
    match value.as_bytes() {
        Some(bytes) => are_raw(size, free, forbidden, bytes),
        None => false,
    }
}

/// Whether they are so many bytes, with 0 in every free bit, that are not forbidden.
#[tactic(auto, using(crate::proofs::Cleared::other_count, crate::proofs::Cleared::free_bit_set))]
fn are_raw(size: u64, free: &BitMask, forbidden: &ForbiddenValues, bytes: &[u8]) -> bool
    requires below { IsTrue (are_items_below size (items forbidden.now)) }
    ensures { result ≡ are_raw size free.now (items forbidden.now) bytes.now }
{
    if bytes.len() as u64 != size {
        return false;
    }
    if !are_clear(free, bytes) {
        return false;
    }
    !forbidden.is_invalid(bytes)
}

/// Whether no free bit is set.
#[tactic(auto, using(crate::proofs::Cleared::not_clear, crate::proofs::Cleared::all_clear))]
fn are_clear(free: &BitMask, bytes: &[u8]) -> bool
    ensures { result ≡ are_clear free.now bytes.now }
{
    for (at, byte) in bytes.iter().enumerate() {
        if free.byte_at(at as u64) & *byte != 0 {
            return false;
        }
    }
    true
}

/// Writes the bytes of the value.
pub(crate) fn write(value: &Value, out: &mut [u8])
    requires bytes { is_bytes (plain value.now) ≡ true }
    requires room { length out.old ≡ length (bytes_in (plain value.now)) }
    ensures { out.new ≡ bytes_in (plain value.now) }
{
    match value.as_bytes() {
        Some(bytes) => out.copy_from_slice(bytes),
        None => unreachable!(),
    }
}

/// Whether the `size` bytes from `at` on are not forbidden.
pub(crate) fn is_legal(size: u64, forbidden: &ForbiddenValues, bytes: &[u8], at: usize) -> bool
    requires within { at + size ≤ length bytes.now }
    requires below { IsTrue (are_items_below size (items forbidden.now)) }
    ensures { result ≡ match_none (items forbidden.now) (seen_in bytes.now at) }
{
    !forbidden.is_invalid(&bytes[at..at + size as usize])
}

/// The `size` bytes from `at` on, with 0 in every free bit.
pub(crate) fn value_shown(
    alloc: Global,
    size: u64,
    free: &BitMask,
    bytes: &[u8],
    at: usize,
) -> Result<Value, OutOfMemory>
    requires within { at + size ≤ length bytes.now }
    ensures { IfOk result (λ v. plain v ≡ bytes_shown free.now size (seen_in bytes.now at)) }
{
    let mut cleared = Items::new(alloc);
    for i in 0..size {
        cleared.push(bytes[at + i as usize] & !free.byte_at(i))?;
    }
    Ok(Value::Bytes(cleared))
}
