ghost use Rattle.std.specs.Prelude.{◌≡◌};
ghost use Rattle.std.specs.Int.{w8, w16, w32, w64, w128};
ghost use Rattle.abi_nonx.specs.Distance.{signed_distance, signed_at_distance, signed_wide};

use abi_nonmax::{Restricted, Restriction};

/// The number `F` is forbidden; the others are stored as their distance from it.
#[derive(Clone, Copy)]
pub struct ExceptI8<const F: i8>;

impl<const F: i8> Restriction<u8> for ExceptI8<F> {
    type Number = i8;

    ghost forbidden = { F };

    ghost form = { signed_distance w8 F };

    ghost number = { signed_at_distance w8 F };

    fn form(n: i8) -> u8 {
        n.wrapping_sub(F).cast_unsigned()
    }

    fn number(stored: u8) -> i8 {
        stored.wrapping_add(F.cast_unsigned()).cast_signed()
    }
}

/// An `i8` other than `FORBIDDEN`.
pub type NonXI8<const FORBIDDEN: i8> = Restricted<u8, ExceptI8<FORBIDDEN>>;

/// The number `F` is forbidden; the others are stored as their distance from it.
#[derive(Clone, Copy)]
pub struct ExceptI16<const F: i16>;

impl<const F: i16> Restriction<u16> for ExceptI16<F> {
    type Number = i16;

    ghost forbidden = { F };

    ghost form = { signed_distance w16 F };

    ghost number = { signed_at_distance w16 F };

    fn form(n: i16) -> u16 {
        n.wrapping_sub(F).cast_unsigned()
    }

    fn number(stored: u16) -> i16 {
        stored.wrapping_add(F.cast_unsigned()).cast_signed()
    }
}

/// An `i16` other than `FORBIDDEN`.
pub type NonXI16<const FORBIDDEN: i16> = Restricted<u16, ExceptI16<FORBIDDEN>>;

/// The number `F` is forbidden; the others are stored as their distance from it.
#[derive(Clone, Copy)]
pub struct ExceptI32<const F: i32>;

impl<const F: i32> Restriction<u32> for ExceptI32<F> {
    type Number = i32;

    ghost forbidden = { F };

    ghost form = { signed_distance w32 F };

    ghost number = { signed_at_distance w32 F };

    fn form(n: i32) -> u32 {
        n.wrapping_sub(F).cast_unsigned()
    }

    fn number(stored: u32) -> i32 {
        stored.wrapping_add(F.cast_unsigned()).cast_signed()
    }
}

/// An `i32` other than `FORBIDDEN`.
pub type NonXI32<const FORBIDDEN: i32> = Restricted<u32, ExceptI32<FORBIDDEN>>;

/// The number `F` is forbidden; the others are stored as their distance from it.
#[derive(Clone, Copy)]
pub struct ExceptI64<const F: i64>;

impl<const F: i64> Restriction<u64> for ExceptI64<F> {
    type Number = i64;

    ghost forbidden = { F };

    ghost form = { signed_distance w64 F };

    ghost number = { signed_at_distance w64 F };

    fn form(n: i64) -> u64 {
        n.wrapping_sub(F).cast_unsigned()
    }

    fn number(stored: u64) -> i64 {
        stored.wrapping_add(F.cast_unsigned()).cast_signed()
    }
}

/// An `i64` other than `FORBIDDEN`.
pub type NonXI64<const FORBIDDEN: i64> = Restricted<u64, ExceptI64<FORBIDDEN>>;

/// The number `F` is forbidden; the others are stored as their distance from it.
#[derive(Clone, Copy)]
pub struct ExceptIsize<const F: isize>;

impl<const F: isize> Restriction<usize> for ExceptIsize<F> {
    type Number = isize;

    ghost forbidden = { F };

    ghost form = { signed_distance w64 F };

    ghost number = { signed_at_distance w64 F };

    fn form(n: isize) -> usize {
        n.wrapping_sub(F).cast_unsigned()
    }

    fn number(stored: usize) -> isize {
        stored.wrapping_add(F.cast_unsigned()).cast_signed()
    }
}

/// An `isize` other than `FORBIDDEN`.
pub type NonXIsize<const FORBIDDEN: isize> = Restricted<usize, ExceptIsize<FORBIDDEN>>;

/// The number of 128 bits with these halves.
fn joined(high: i64, low: u64) -> i128
    ensures { result ≡ signed_wide high low }
{
    i128::from(high) * 0x1_0000_0000_0000_0000 + i128::from(low)
}

fn number_at(forbidden: i128, stored: u128) -> i128
    ensures value { result ≡ signed_at_distance w128 forbidden stored }
    ensures allowed { result ≡ forbidden → stored ≡ 0 }
{
    stored.wrapping_add(forbidden.cast_unsigned()).cast_signed()
}

/// The number `HIGH * 2^64 + LOW` is forbidden; the others are stored as their distance from it.
#[derive(Clone, Copy)]
pub struct ExceptI128<const HIGH: i64, const LOW: u64>;

impl<const HIGH: i64, const LOW: u64> Restriction<u128> for ExceptI128<HIGH, LOW> {
    type Number = i128;

    ghost forbidden = { signed_wide HIGH LOW };

    ghost form = { signed_distance w128 (signed_wide HIGH LOW) };

    ghost number = { signed_at_distance w128 (signed_wide HIGH LOW) };

    fn form(n: i128) -> u128 {
        n.wrapping_sub(joined(HIGH, LOW)).cast_unsigned()
    }

    fn number(stored: u128) -> i128 {
        number_at(joined(HIGH, LOW), stored)
    }
}

/// An `i128` other than `HIGH * 2^64 + LOW`.
pub type NonXI128<const HIGH: i64, const LOW: u64> = Restricted<u128, ExceptI128<HIGH, LOW>>;
