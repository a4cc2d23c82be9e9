//! Rows of bytes that stand from an offset on.
ghost use Rattle.std.specs.Prelude.{◌≡◌, ◌≤◌, ◌<◌, ◌+◌, ◌-◌, ◌==◌, ◌++◌, ◌∷◌, [], ℕ, nat_le, bit_or, OnOk, OnErr, length, replicate, slice_index, if◌then◌else◌};
ghost use Rattle.abi_bits.specs.Span.{byte_in, row_with, Tells, first_in, start_with};

use abi_num::OutOfMemory;

/// The byte at offset `at` among these, the first of which stands at `start`; 0 where none stands.
pub(crate) fn byte_of(start: u64, bytes: &[u8], at: u64) -> u8
    ensures { result ≡ byte_in start bytes.now at }
{
    if at < start {
        return 0;
    }
    match bytes.get((at - start) as usize) {
        Some(byte) => *byte,
        None => 0,
    }
}

/// The first of these bytes, which stands at `start`: its offset and its bits.
pub(crate) fn first(start: u64, bytes: &[u8]) -> Option<(u64, u8)>
    ensures { result ≡ first_in start bytes.now }
{
    match bytes.first() {
        Some(byte) => Some((start, *byte)),
        None => None,
    }
}

/// The offset from which these bytes stand, the first at `start`, where one is put at `at`: as long as there are
/// none, that one is the first.
pub(crate) fn start_with(start: u64, bytes: &[u8], at: u64) -> u64
    ensures { result ≡ start_with start bytes.now at }
{
    if bytes.is_empty() { at } else { start }
}

/// Puts `front` bytes 0 before these, and as many after them as make `len`.
pub(crate) fn widen(bytes: &mut Vec<u8>, front: usize, len: usize) -> Result<(), OutOfMemory>
    requires { front + length bytes.old.items ≤ len }
    ensures len { OnOk result (length bytes.new.items ≡ len) }
    ensures ok { OnOk result (Tells (byte_in front bytes.old.items) bytes.new.items) }
    ensures err { OnErr result (bytes.new.items ≡ bytes.old.items) }
{
    bytes.resize(len, 0)?;
    bytes.rotate_right(front);
    Ok(())
}

/// Adds the bits of `other` to the bytes from the index `from` on.
pub(crate) fn or_bytes(bytes: &mut Vec<u8>, other: &[u8], from: usize)
    requires { from + length other.now ≤ length bytes.old.items }
    ensures len { length bytes.new.items ≡ length bytes.old.items }
    ensures joined { Tells (row_with from other.now bytes.old.items) bytes.new.items }
{
    for (index, byte) in other.iter().enumerate() {
        bytes[from + index] |= *byte;
    }
}
