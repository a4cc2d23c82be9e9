ghost use Rattle.std.specs.Prelude.{◌≡◌, true, ◌+◌, ◌-◌, ◌%◌, ◌<◌, ◌≤◌, length, if◌then◌else◌};
ghost use Rattle.abi_layout.specs.Prims.{width_size, in_width};
ghost use Rattle.abi_pack.specs.Scalars.{full, digits_of, encoded, decoded, coded, integer_bytes, is_int, signed_integer, integer_shown, low_bytes, low_worth, ordered};
ghost use Rattle.abi_pack.specs.View.{plain};

use crate::value::Value;
use abi_layout::{Integer, Stored, Width};

/// Whether the integer is one of its kind's.
pub(crate) fn has_integer(integer: &Integer, magnitude: u128, negative: bool) -> bool
    ensures { result ≡ is_int integer.now magnitude negative }
{
    if !integer.width.holds(integer.signed, magnitude, negative) {
        return false;
    }
    integer.zero || 0 < coded_integer(integer, magnitude, negative)
}

/// The number that stands for the integer, which has a place in the width.
fn coded_integer(integer: &Integer, magnitude: u128, negative: bool) -> u128
    requires { in_width integer.now.width integer.now.signed magnitude negative ≡ true }
    ensures { result ≡ coded integer.now magnitude negative }
{
    encoded(
        integer.width,
        integer.stored,
        digits_of(integer.width, magnitude, negative),
    )
}

/// The integer in as many binary digits as the width has: two's complement.
#[tactic(auto, using(crate::proofs::Coding::last_digits, crate::proofs::Coding::negated_digits))]
fn digits_of(width: Width, magnitude: u128, negative: bool) -> u128
    ensures same { result ≡ digits_of width magnitude negative }
    ensures small { result < full width }
{
    if negative {
        magnitude.wrapping_neg() & width.greatest()
    } else {
        magnitude & width.greatest()
    }
}

/// What number stands for these digits.
#[tactic(auto, using(crate::proofs::Coding::less_digits))]
fn encoded(width: Width, stored: Stored, digits: u128) -> u128
    requires { digits < full width }
    ensures { result ≡ encoded width stored digits }
{
    match stored {
        Stored::Itself => digits,
        Stored::Complement => width.greatest() - digits,
        Stored::Distance {
            magnitude,
            negative,
        } => digits.wrapping_sub(digits_of(width, magnitude, negative)) & width.greatest(),
    }
}

/// For which digits the number stands.
#[tactic(auto, using(crate::proofs::Coding::wrapped_digits))]
fn decoded(width: Width, stored: Stored, number: u128) -> u128
    requires { number < full width }
    ensures { result ≡ decoded width stored number }
{
    match stored {
        Stored::Itself => number,
        Stored::Complement => width.greatest() - number,
        Stored::Distance {
            magnitude,
            negative,
        } => number.wrapping_add(digits_of(width, magnitude, negative)) & width.greatest(),
    }
}

/// The integer for which the number stands.
pub(crate) fn integer_shown(integer: &Integer, number: u128) -> Value
    requires { number < full integer.now.width }
    ensures { plain result ≡ integer_shown integer.now number }
{
    signed_integer(integer, decoded(integer.width, integer.stored, number))
}

/// The integer of these digits.
fn signed_integer(integer: &Integer, digits: u128) -> Value
    requires { digits < full integer.now.width }
    ensures { plain result ≡ signed_integer integer.now digits }
{
    let most = integer.width.greatest();
    if integer.signed && most / 2 < digits {
        Value::Int {
            magnitude: most - digits + 1,
            negative: true,
        }
    } else {
        Value::Int {
            magnitude: digits,
            negative: false,
        }
    }
}

/// Writes the integer.
pub(crate) fn write_integer(integer: &Integer, magnitude: u128, negative: bool, out: &mut [u8])
    requires value { is_int integer.now magnitude negative ≡ true }
    requires room { length out.old ≡ width_size integer.now.width }
    ensures { out.new ≡ integer_bytes integer.now magnitude negative }
{
    write_low_first(coded_integer(integer, magnitude, negative), out);
    if !integer.little {
        out.reverse();
    }
}

/// Writes the number, the least significant byte first.
#[tactic(auto, using(crate::proofs::Written::low_step))]
fn write_low_first(number: u128, out: &mut [u8])
    ensures { out.new ≡ low_bytes (length out.old) number }
{
    let mut rest = number;
    for byte in out.iter_mut() {
        *byte = (rest % 256) as u8;
        rest /= 256;
    }
}

/// The number that stands in the bytes.
pub(crate) fn number_in(bytes: &[u8], little: bool) -> u128
    requires { length bytes.now ≤ 16 }
    ensures { result ≡ low_worth (ordered little bytes.now) }
{
    let mut number = 0u128;
    for rank in 0..bytes.len() {
        let byte = bytes[place(bytes.len(), little, rank)];
        number = number * 256 + byte as u128;
    }
    number
}

/// Where the byte stands that has `rank` bytes of more worth.
fn place(size: usize, little: bool, rank: usize) -> usize
    requires { rank < size }
    ensures { result ≡ (if little then size - 1 - rank else rank) }
{
    if little { size - 1 - rank } else { rank }
}
