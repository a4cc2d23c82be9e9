ghost use Rattle.std.specs.Prelude.{◌≡◌};
ghost use Rattle.std.specs.Int.{w8, w16, w32, w64, w128};
ghost use Rattle.abi_nonx.specs.Distance.{distance, at_distance, wide};

use abi_nonmax::{Restricted, Restriction};

/// The number `F` is forbidden; the others are stored as their distance from it.
#[derive(Clone, Copy)]
pub struct ExceptU8<const F: u8>;

impl<const F: u8> Restriction<u8> for ExceptU8<F> {
    type Number = u8;

    ghost forbidden = { F };

    ghost form = { distance w8 F };

    ghost number = { at_distance w8 F };

    fn form(n: u8) -> u8 {
        n.wrapping_sub(F)
    }

    fn number(stored: u8) -> u8 {
        stored.wrapping_add(F)
    }
}

/// A `u8` other than `FORBIDDEN`.
pub type NonXU8<const FORBIDDEN: u8> = Restricted<u8, ExceptU8<FORBIDDEN>>;

/// The number `F` is forbidden; the others are stored as their distance from it.
#[derive(Clone, Copy)]
pub struct ExceptU16<const F: u16>;

impl<const F: u16> Restriction<u16> for ExceptU16<F> {
    type Number = u16;

    ghost forbidden = { F };

    ghost form = { distance w16 F };

    ghost number = { at_distance w16 F };

    fn form(n: u16) -> u16 {
        n.wrapping_sub(F)
    }

    fn number(stored: u16) -> u16 {
        stored.wrapping_add(F)
    }
}

/// A `u16` other than `FORBIDDEN`.
pub type NonXU16<const FORBIDDEN: u16> = Restricted<u16, ExceptU16<FORBIDDEN>>;

/// The number `F` is forbidden; the others are stored as their distance from it.
#[derive(Clone, Copy)]
pub struct ExceptU32<const F: u32>;

impl<const F: u32> Restriction<u32> for ExceptU32<F> {
    type Number = u32;

    ghost forbidden = { F };

    ghost form = { distance w32 F };

    ghost number = { at_distance w32 F };

    fn form(n: u32) -> u32 {
        n.wrapping_sub(F)
    }

    fn number(stored: u32) -> u32 {
        stored.wrapping_add(F)
    }
}

/// A `u32` other than `FORBIDDEN`.
pub type NonXU32<const FORBIDDEN: u32> = Restricted<u32, ExceptU32<FORBIDDEN>>;

/// The number `F` is forbidden; the others are stored as their distance from it.
#[derive(Clone, Copy)]
pub struct ExceptU64<const F: u64>;

impl<const F: u64> Restriction<u64> for ExceptU64<F> {
    type Number = u64;

    ghost forbidden = { F };

    ghost form = { distance w64 F };

    ghost number = { at_distance w64 F };

    fn form(n: u64) -> u64 {
        n.wrapping_sub(F)
    }

    fn number(stored: u64) -> u64 {
        stored.wrapping_add(F)
    }
}

/// A `u64` other than `FORBIDDEN`.
pub type NonXU64<const FORBIDDEN: u64> = Restricted<u64, ExceptU64<FORBIDDEN>>;

/// The number `F` is forbidden; the others are stored as their distance from it.
#[derive(Clone, Copy)]
pub struct ExceptUsize<const F: usize>;

impl<const F: usize> Restriction<usize> for ExceptUsize<F> {
    type Number = usize;

    ghost forbidden = { F };

    ghost form = { distance w64 F };

    ghost number = { at_distance w64 F };

    fn form(n: usize) -> usize {
        n.wrapping_sub(F)
    }

    fn number(stored: usize) -> usize {
        stored.wrapping_add(F)
    }
}

/// A `usize` other than `FORBIDDEN`.
pub type NonXUsize<const FORBIDDEN: usize> = Restricted<usize, ExceptUsize<FORBIDDEN>>;

/// The number of 128 bits with these halves.
fn joined(high: u64, low: u64) -> u128
    ensures { result ≡ wide high low }
{
    u128::from(high) * 0x1_0000_0000_0000_0000 + u128::from(low)
}

/// The number `HIGH * 2^64 + LOW` is forbidden; the others are stored as their distance from it.
#[derive(Clone, Copy)]
pub struct ExceptU128<const HIGH: u64, const LOW: u64>;

impl<const HIGH: u64, const LOW: u64> Restriction<u128> for ExceptU128<HIGH, LOW> {
    type Number = u128;

    ghost forbidden = { wide HIGH LOW };

    ghost form = { distance w128 (wide HIGH LOW) };

    ghost number = { at_distance w128 (wide HIGH LOW) };

    fn form(n: u128) -> u128 {
        n.wrapping_sub(joined(HIGH, LOW))
    }

    fn number(stored: u128) -> u128 {
        stored.wrapping_add(joined(HIGH, LOW))
    }
}

/// A `u128` other than `HIGH * 2^64 + LOW`.
pub type NonXU128<const HIGH: u64, const LOW: u64> = Restricted<u128, ExceptU128<HIGH, LOW>>;
