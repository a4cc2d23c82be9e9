//! Lists of pairs: an offset in bytes, and the mask or the value of the byte there.
ghost use Rattle.std.specs.Prelude.{◌≡◌, ◌++◌, ◌∷◌, ◌==◌, [], IsTrue, IfOk, OnOk, OnErr, if◌then◌else◌};
ghost use Rattle.abi_bits.specs.Pairs.{are_rising, are_below, moved_pairs};

use crate::{MAX_SIZE, Pairs};
use abi_num::{Items, OutOfMemory};
use std::alloc::Global;

/// Whether the offsets rise and lie below `MAX_SIZE`.
pub fn are_rising(pairs: &[(u64, u8)]) -> bool
    ensures { result ≡ are_rising 0 pairs.now }
{
    let mut least = 0;
    for (offset, _) in pairs {
        if *offset < least || *offset >= MAX_SIZE {
            return false;
        }
        least = *offset + 1;
    }
    true
}

/// Whether each offset lies below `size`, in bytes.
pub(crate) fn are_below(pairs: &[(u64, u8)], size: u64) -> bool
    ensures { result ≡ are_below size pairs.now }
{
    for (offset, _) in pairs {
        if *offset >= size {
            return false;
        }
    }
    true
}

/// The same pairs, `by` bytes further on.
pub(crate) fn moved(alloc: Global, pairs: &[(u64, u8)], by: u64) -> Result<Pairs, OutOfMemory>
    requires { IsTrue (are_below MAX_SIZE (moved_pairs by pairs.now)) }
    ensures { IfOk result (λ moved. moved ≡ moved_pairs by pairs.now) }
{
    let mut moved = Items::new(alloc);
    for (offset, byte) in pairs {
        moved.push((*offset + by, *byte))?;
    }
    Ok(moved)
}

/// The pair `front` and then these.
pub(crate) fn with_front(
    alloc: Global,
    front: (u64, u8),
    pairs: &[(u64, u8)],
) -> Result<Pairs, OutOfMemory>
    ensures { IfOk result (λ all. all ≡ front ∷ pairs.now) }
{
    let mut all = Items::new(alloc);
    all.push(front)?;
    for (offset, byte) in pairs {
        all.push((*offset, *byte))?;
    }
    Ok(all)
}
