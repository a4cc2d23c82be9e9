ghost use Rattle.std.specs.Prelude.{◌≡◌, true, ◌+◌, ◌<◌, ◌≤◌, length};
ghost use Rattle.abi_layout.specs.Prims.{scalar_size};
ghost use Rattle.abi_pack.specs.Scalars.{full, is_value, stored, is_legal, scalar_shown, order_byte, order_shown, number_in as number_there};
ghost use Rattle.abi_pack.specs.ByteMap.{seen_in};
ghost use Rattle.abi_pack.specs.View.{plain};

use crate::integer::{has_integer, integer_shown, number_in, write_integer};
use crate::value::Value;
use abi_layout::{Integer, Scalar};
use std::cmp::Ordering;

/// Whether the value is one of the scalar's.
#[tactic(auto, using(crate::proofs::Primitives::no_unit, crate::proofs::Primitives::no_boolean, crate::proofs::Primitives::no_order, crate::proofs::Primitives::no_integer))]
pub(crate) fn has(scalar: &Scalar, value: &Value) -> bool
    ensures { result ≡ is_value scalar.now (plain value.now) }
{
    match scalar {
        Scalar::Unit => value.is_unit(),
        Scalar::Bool => value.as_bool().is_some(),
        Scalar::Order => value.as_order().is_some(),
        Scalar::Int(integer) => match value.as_integer() {
            Some((magnitude, negative)) => has_integer(integer, magnitude, negative),
            None => false,
        },
    }
}

/// Writes the bytes in which the value stands.
#[tactic(auto, using(crate::proofs::Primitives::no_boolean, crate::proofs::Primitives::no_order, crate::proofs::Primitives::no_integer, crate::proofs::Primitives::one_byte))]
pub(crate) fn write(scalar: &Scalar, value: &Value, out: &mut [u8])
    requires fits { is_value scalar.now (plain value.now) ≡ true }
    requires room { length out.old ≡ scalar_size scalar.now }
    ensures { out.new ≡ stored scalar.now (plain value.now) }
{
    match scalar {
        Scalar::Unit => {}
        Scalar::Bool => match value.as_bool() {
            Some(truth) => out[0] = u8::from(truth),
            None => unreachable!(),
        },
        Scalar::Order => match value.as_order() {
            Some(order) => out[0] = order_byte(order),
            None => unreachable!(),
        },
        Scalar::Int(integer) => match value.as_integer() {
            Some((magnitude, negative)) => write_integer(integer, magnitude, negative, out),
            None => unreachable!(),
        },
    }
}

/// Whether the bytes from `at` on are those of some value of the scalar.
pub(crate) fn is_legal(scalar: &Scalar, bytes: &[u8], at: usize) -> bool
    requires { at + scalar_size scalar.now ≤ length bytes.now }
    ensures { result ≡ is_legal scalar.now (seen_in bytes.now at) }
{
    match scalar {
        Scalar::Unit => true,
        Scalar::Bool => bytes[at] < 2,
        Scalar::Order => bytes[at] < 2 || bytes[at] == 255,
        Scalar::Int(integer) => {
            let number = number_at(integer, bytes, at);
            integer.zero || 0 < number
        }
    }
}

/// The value that the bytes from `at` on show; they are legal.
pub(crate) fn value_shown(scalar: &Scalar, bytes: &[u8], at: usize) -> Value
    requires { at + scalar_size scalar.now ≤ length bytes.now }
    ensures { plain result ≡ scalar_shown scalar.now (seen_in bytes.now at) }
{
    match scalar {
        Scalar::Unit => Value::Unit,
        Scalar::Bool => Value::Bool(0 < bytes[at]),
        Scalar::Order => Value::Order(order_shown(bytes[at])),
        Scalar::Int(integer) => integer_shown(integer, number_at(integer, bytes, at)),
    }
}

/// The byte in which an order stands.
fn order_byte(order: Ordering) -> u8
    ensures { result ≡ order_byte order }
{
    match order {
        Ordering::Less => 255,
        Ordering::Equal => 0,
        Ordering::Greater => 1,
    }
}

/// The order that stands in a legal byte.
fn order_shown(byte: u8) -> Ordering
    ensures { result ≡ order_shown byte }
{
    match byte {
        0 => Ordering::Equal,
        1 => Ordering::Greater,
        _ => Ordering::Less,
    }
}

/// The number that stands in the bytes from `at` on.
fn number_at(integer: &Integer, bytes: &[u8], at: usize) -> u128
    requires { at + scalar_size (Scalar.Int integer.now) ≤ length bytes.now }
    ensures same { result ≡ number_there integer.now (seen_in bytes.now at) }
    ensures small { result < full integer.now.width }
{
    let size = integer.width.bytes() as usize;
    number_in(&bytes[at..at + size], integer.little)
}
