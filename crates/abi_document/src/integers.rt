//! Integers, from numbers and texts of JSON: each is its distance from 0, and whether it lies below 0.

ghost use Rattle.std.specs.Prelude.{◌≡◌, option_map};
ghost use Rattle.std.specs.List.{list_all};
ghost use Rattle.std.specs.Char.{is_ascii_digit};
ghost use Rattle.serde_json.specs.View.{view, number_view};
ghost use Rattle.abi_document.specs.Integers.{is_plain, magnitude_of, signed_by, signed_text, integer_text, integer_of, integer_number, integer_in};

use serde_json::{Number, Value as Json};

/// The integer that a number or a text is; `None` exactly where the tree is no integer.
pub fn integer_in(json: &Json) -> Option<(u128, bool)>
    ensures { result ≡ integer_in (view json.now) }
{
    match json {
        Json::Number(number) => integer_number(number),
        Json::String(text) => integer_text(text.as_str()),
        _ => None,
    }
}

/// An integer that JSON does not hold as a float; `None` exactly where it holds one.
pub fn integer_number(number: &Number) -> Option<(u128, bool)>
    ensures { result ≡ integer_number (number_view number.now) }
{
    Some(integer_of(number.as_i128()?))
}

/// The magnitude and the sign of an integer.
fn integer_of(number: i128) -> (u128, bool)
    ensures { result ≡ integer_of number }
{
    (number.unsigned_abs(), number < 0)
}

/// The integer that a text spells: `0`, or an optional `-` and digits of which the first is not 0, of a
/// magnitude below 2^128. `None` exactly where it spells none.
#[tactic(auto, unfolding(crate::specs::Integers::integer_text))]
pub fn integer_text(text: &str) -> Option<(u128, bool)>
    ensures { result ≡ integer_text text.now }
{
    if text == "0" {
        Some((0, false))
    } else {
        signed_text(text)
    }
}

/// The integer of digits with a `-` in front, or without; `None` exactly where the text spells none.
fn signed_text(text: &str) -> Option<(u128, bool)>
    ensures { result ≡ signed_text text.now }
{
    match text.strip_prefix('-') {
        Some(digits) => signed_magnitude(true, digits),
        None => signed_magnitude(false, text),
    }
}

/// The integer of digits, below 0 or not; `None` exactly where they spell no magnitude.
fn signed_magnitude(negative: bool, digits: &str) -> Option<(u128, bool)>
    ensures { result ≡ option_map (signed_by negative) (magnitude_of digits.now) }
{
    let magnitude = magnitude_of(digits)?;
    Some((magnitude, negative))
}

/// The number below 2^128 that digits spell, the first of them not 0; `None` exactly where they spell none.
#[tactic(auto, unfolding(crate::specs::Integers::magnitude_of))]
pub fn magnitude_of(digits: &str) -> Option<u128>
    ensures { result ≡ magnitude_of digits.now }
{
    if !is_plain(digits) {
        return None;
    }
    match digits.parse::<u128>() {
        Ok(magnitude) => Some(magnitude),
        Err(_) => None,
    }
}

/// Whether the text is a digit 1 to 9, then digits.
fn is_plain(text: &str) -> bool
    ensures { result ≡ is_plain text.now }
{
    match text.as_bytes() {
        [first, rest @ ..] => b'1' <= *first && *first <= b'9' && all_digits(rest),
        [] => false,
    }
}

/// Whether each byte is a digit.
fn all_digits(text: &[u8]) -> bool
    ensures { result ≡ list_all is_ascii_digit text.now }
{
    text.iter().all(|byte| byte.is_ascii_digit())
}
