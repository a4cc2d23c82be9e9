//! Numbers by their low binary digits, in two's complement.
ghost use Rattle.std.specs.Prelude.{◌≡◌, ◌<◌, ◌≤◌, ◌^◌, ◌≤ℤ◌};
ghost use Rattle.abi_narrow_i.specs.Digits.{low_digits, sign_extended};
ghost use Rattle.abi_narrow_i.specs.Width.{greatest, least};

/// 2 to the power `exponent`.
#[tactic(auto, using(crate::proofs::Complement::power_bound))]
fn power(exponent: u32) -> u128
    requires { exponent < 128 }
    ensures value { result ≡ 2 ^ exponent }
    ensures bound { result ≤ 2 ^ 127 }
{
    1 << exponent
}

/// The greatest number of that many digits.
pub(crate) fn greatest(digits: u32) -> i128
    requires some { 0 < digits }
    requires fits { digits < 128 }
    ensures { result ≡ greatest digits }
{
    (power(digits - 1) - 1) as i128
}

/// The least number of that many digits.
pub(crate) fn least(digits: u32) -> i128
    requires some { 0 < digits }
    requires fits { digits < 128 }
    ensures { result ≡ least digits }
{
    !greatest(digits)
}

/// The low digits of `n`.
#[tactic(auto, using(crate::proofs::Complement::low_of_bits))]
pub(crate) fn low_digits(n: i128, digits: u32) -> u128
    requires { digits < 128 }
    ensures value { result ≡ low_digits digits n }
    ensures range { result < 2 ^ digits }
{
    n.cast_unsigned() % power(digits)
}

/// The number with these digits, of which the first is the sign.
pub(crate) fn sign_extended(low: u128, digits: u32) -> i128
    requires some { 0 < digits }
    requires fits { digits < 128 }
    requires range { low < 2 ^ digits }
    ensures value { result ≡ sign_extended digits low }
    ensures above { least digits ≤ℤ result }
    ensures below { result ≤ℤ greatest digits }
{
    if low < power(digits - 1) {
        low as i128
    } else {
        !((power(digits) - 1 - low) as i128)
    }
}
