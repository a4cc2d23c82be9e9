use crate::restricted::{Restricted, Restriction};
use crate::word::Word;

/// The greatest number is forbidden; the others are stored as their complement.
#[derive(Clone, Copy)]
pub struct BelowGreatest;

impl<W: Word> Restriction<W> for BelowGreatest {
    type Number = W;

    ghost forbidden = { W.greatest };

    ghost form = { W.complement };

    ghost number = { W.complement };

    fn form(n: W) -> W {
        n.complement()
    }

    fn number(stored: W) -> W {
        stored.complement()
    }
}

/// A `u8` other than 255.
pub type NonMaxU8 = Restricted<u8, BelowGreatest>;

/// A `u16` other than 2^16 - 1.
pub type NonMaxU16 = Restricted<u16, BelowGreatest>;

/// A `u32` other than 2^32 - 1.
pub type NonMaxU32 = Restricted<u32, BelowGreatest>;

/// A `u64` other than 2^64 - 1.
pub type NonMaxU64 = Restricted<u64, BelowGreatest>;

/// A `u128` other than 2^128 - 1.
pub type NonMaxU128 = Restricted<u128, BelowGreatest>;

/// A `usize` other than the greatest.
pub type NonMaxUsize = Restricted<usize, BelowGreatest>;
