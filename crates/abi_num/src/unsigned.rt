//! Arithmetic on sizes and counts: whole numbers below 2^128. Nothing wraps; what would not fit is a condition.
ghost use Rattle.std.specs.Prelude.{◌≡◌, ℕ, ◌+◌, ◌-◌, ◌*◌, ◌/◌, ◌%◌, ◌^◌, ◌<◌, ◌≤◌, ◌≢◌, ◌↔◌, min, max, bit_and, bit_or, IsTrue, IsNone, IfSome};
ghost use Rattle.std.specs.Int.{is_power_of_two, next_multiple_of};
ghost use Rattle.std.specs.Ordering.{nat_cmp};
ghost use Rattle.abi_num.specs.Unsigned.{IsLowestOne};

use std::cmp::Ordering;

/// The bits that both have.
pub fn bit_and(a: u128, b: u128) -> u128
    ensures { result ≡ bit_and a b }
{
    a & b
}

/// The bits that one or both have.
pub fn bit_or(a: u128, b: u128) -> u128
    ensures { result ≡ bit_or a b }
{
    a | b
}

/// The sum, which must be below 2^128.
pub fn add(a: u128, b: u128) -> u128
    requires { a + b < 2 ^ 128 }
    ensures { result ≡ a + b }
{
    a + b
}

/// The product, which must be below 2^128.
pub fn mul(a: u128, b: u128) -> u128
    requires { a * b < 2 ^ 128 }
    ensures { result ≡ a * b }
{
    a * b
}

/// How far the two are apart.
pub fn abs_sub(a: u128, b: u128) -> u128
    ensures { result ≡ max a b - min a b }
{
    if a < b { b - a } else { a - b }
}

/// The smaller one.
pub fn min(a: u128, b: u128) -> u128
    ensures { result ≡ min a b }
{
    a.min(b)
}

/// The larger one.
pub fn max(a: u128, b: u128) -> u128
    ensures { result ≡ max a b }
{
    a.max(b)
}

/// Whether they are one number.
pub fn equal(a: u128, b: u128) -> bool
    ensures { IsTrue result ↔ (a ≡ b) }
{
    a == b
}

/// Whether they are two numbers.
pub fn not_equal(a: u128, b: u128) -> bool
    ensures { IsTrue result ↔ (a ≢ b) }
{
    a != b
}

/// Whether `a` is above `b`.
pub fn greater(a: u128, b: u128) -> bool
    ensures { IsTrue result ↔ (b < a) }
{
    a > b
}

/// Whether `a` is `b` or above it.
pub fn greater_or_eq(a: u128, b: u128) -> bool
    ensures { IsTrue result ↔ (b ≤ a) }
{
    a >= b
}

/// Whether `a` is below `b`.
pub fn smaller(a: u128, b: u128) -> bool
    ensures { IsTrue result ↔ (a < b) }
{
    a < b
}

/// Whether `a` is `b` or below it.
pub fn smaller_or_eq(a: u128, b: u128) -> bool
    ensures { IsTrue result ↔ (a ≤ b) }
{
    a <= b
}

/// The order of the two.
pub fn cmp(a: u128, b: u128) -> Ordering
    ensures { result ≡ nat_cmp a b }
{
    a.cmp(&b)
}

/// The low `digits` binary digits of `a`; all of them from 128 on.
#[tactic(auto, using(crate::proofs::Powers::truncated_above))]
pub fn truncate(a: u128, digits: u128) -> u128
    ensures { result ≡ a % 2 ^ digits }
{
    if digits < 128 { a % (1 << digits) } else { a }
}

/// The remainder of `a` by `b`, a power of two.
pub fn mod_of(a: u128, b: u128) -> u128
    requires { IsTrue (is_power_of_two b) }
    ensures { result ≡ a % b }
{
    a % b
}

/// How often `b`, a power of two, goes into `a`.
pub fn divide(a: u128, b: u128) -> u128
    requires { IsTrue (is_power_of_two b) }
    ensures { result ≡ a / b }
{
    a / b
}

/// `a`, rounded up to a multiple of `b`, a power of two; it must be below 2^128.
pub fn next_multiple_of(a: u128, b: u128) -> u128
    requires power { IsTrue (is_power_of_two b) }
    requires fits { next_multiple_of a b < 2 ^ 128 }
    ensures value { result ≡ next_multiple_of a b }
    ensures multiple { result % b ≡ 0 }
    ensures above { a ≤ result }
    ensures least { result < a + b }
{
    a.next_multiple_of(b)
}

/// `a + 1`; `a` must not be the greatest number.
pub fn increment(a: u128) -> u128
    requires { a < 2 ^ 128 - 1 }
    ensures { result ≡ a + 1 }
{
    a + 1
}

/// `a - 1`; `a` must not be 0.
pub fn decrement(a: u128) -> u128
    requires { 0 < a }
    ensures { result ≡ a - 1 }
{
    a - 1
}

/// The number of binary digits of `a`, which is 0 for 0.
#[tactic(auto, using(crate::proofs::Powers::digits_needed))]
pub fn digits(a: u128) -> u32
    ensures fits { a < 2 ^ result }
    ensures least { (room : ℕ) → a < 2 ^ room → result ≤ room }
{
    if a == 0 { 0 } else { a.ilog2() + 1 }
}

/// The value of the lowest set bit of `a`; `None` exactly at 0.
#[tactic(auto, using(crate::proofs::Powers::lowest_at_zeros))]
pub fn lowest_one(a: u128) -> Option<u128>
    ensures none { IsNone result ↔ (a ≡ 0) }
    ensures lowest { IfSome result (IsLowestOne a) }
{
    if a == 0 {
        None
    } else {
        Some(1 << a.trailing_zeros())
    }
}

/// The exponent of `a`, a power of two.
#[tactic(auto, using(crate::proofs::Powers::power_between))]
pub fn log2(a: u128) -> u32
    requires { IsTrue (is_power_of_two a) }
    ensures { 2 ^ result ≡ a }
{
    a.ilog2()
}

#[cfg(test)]
mod tests {
    use super::*;

    // a, b, common bits, all bits, sum, a cut to b digits, larger, smaller, distance
    const PAIRS: [[u128; 9]; 21] = [
        [0, 0, 0, 0, 0, 0, 0, 0, 0],
        [0, 1, 0, 1, 1, 0, 1, 0, 1],
        [1, 0, 0, 1, 1, 0, 1, 0, 1],
        [1, 1, 1, 1, 2, 1, 1, 1, 0],
        [1, 2, 0, 3, 3, 1, 2, 1, 1],
        [2, 2, 2, 2, 4, 2, 2, 2, 0],
        [3, 1, 1, 3, 4, 1, 3, 1, 2],
        [4, 1, 0, 5, 5, 0, 4, 1, 3],
        [2, 1, 0, 3, 3, 0, 2, 1, 1],
        [4, 2, 0, 6, 6, 0, 4, 2, 2],
        [4, 3, 0, 7, 7, 4, 4, 3, 1],
        [4, 4, 4, 4, 8, 4, 4, 4, 0],
        [4, 5, 4, 5, 9, 4, 5, 4, 1],
        [5, 1, 1, 5, 6, 1, 5, 1, 4],
        [1, 5, 1, 5, 6, 1, 5, 1, 4],
        [5, 4, 4, 5, 9, 5, 5, 4, 1],
        [2, 3, 2, 3, 5, 2, 3, 2, 1],
        [3, 2, 2, 3, 5, 3, 3, 2, 1],
        [10, 0, 0, 10, 10, 0, 10, 0, 10],
        [10, 5, 0, 15, 15, 10, 10, 5, 5],
        [10, 4, 0, 14, 14, 10, 10, 4, 6],
    ];

    #[test]
    fn small_pairs_have_their_worked_answers(rt: HostRuntime) {
        for [a, b, both, either, sum, cut, larger, smaller_one, apart] in PAIRS {
            assert_eq!(rt; bit_and(a, b), both);
            assert_eq!(rt; bit_or(a, b), either);
            assert!(rt; a < 100 && b < 100);
            assert_eq!(rt; add(a, b), sum);
            assert_eq!(rt; truncate(a, b), cut);
            assert_eq!(rt; max(a, b), larger);
            assert_eq!(rt; min(a, b), smaller_one);
            assert_eq!(rt; abs_sub(a, b), apart);
            assert_eq!(rt; greater(a, b), apart != 0 && a == larger);
            assert_eq!(rt; smaller(a, b), apart != 0 && b == larger);
            assert_eq!(rt; equal(a, b), apart == 0);
        }
    }

    #[test]
    fn powers_of_two_divide_and_round_up(rt: HostRuntime) {
        // a, b, a rounded up
        let rounded = [
            (26u128, 32u128, 32),
            (26, 8, 32),
            (16, 8, 16),
            (10, 8, 16),
            (0, 8, 0),
        ];
        for (a, b, multiple) in rounded {
            assert!(rt; a < 100 && b < 100 && b.is_power_of_two());
            assert_eq!(rt; next_multiple_of(a, b), multiple);
        }
        // a, b, the remainder
        let remainders = [
            (11u128, 16u128, 11),
            (10, 16, 10),
            (11, 8, 3),
            (10, 8, 2),
            (11, 4, 3),
            (10, 4, 2),
            (11, 2, 1),
            (10, 2, 0),
            (10, 1, 0),
        ];
        for (a, b, rest) in remainders {
            assert!(rt; b.is_power_of_two());
            assert_eq!(rt; mod_of(a, b), rest);
        }
        assert!(rt; 8u128.is_power_of_two());
        assert_eq!(rt; (divide(26, 8), log2(8), mul(6, 7)), (3, 3, 42));
    }

    #[test]
    fn digits_and_comparisons_of_single_numbers(rt: HostRuntime) {
        assert_eq!(rt; (bit_and(10, 6), bit_and(252, 63)), (2, 60));
        for n in [0, 1, 2, 3, 4] {
            assert_eq!(rt; not_equal(n, 0), n > 0);
        }
        assert_eq!(rt; (digits(0), digits(10), digits(u128::MAX)), (0, 4, 128));
        assert_eq!(rt; (lowest_one(0), lowest_one(12)), (None, Some(4)));
        assert_eq!(rt; (increment(7), decrement(7)), (8, 6));
        assert_eq!(rt; (greater_or_eq(2, 2), smaller_or_eq(3, 2)), (true, false));
        assert_eq!(rt; cmp(1, 2), Ordering::Less);
    }
}
