//! Operations on single bits, and one place of a binary sum or difference.
ghost use Rattle.std.specs.Prelude.{◌≡◌, not, ◌&&◌, ◌||◌, ◌↔◌, IsTrue};
ghost use Rattle.abi_num.specs.Bits.{digit, sum_digit, sum_carry, difference_carry};

/// Whether both hold.
pub fn and(a: bool, b: bool) -> bool
    ensures { result ≡ (a && b) }
{
    a && b
}

/// Whether one or both hold.
pub fn or(a: bool, b: bool) -> bool
    ensures { result ≡ (a || b) }
{
    a || b
}

/// Whether at most one holds.
pub fn nand(a: bool, b: bool) -> bool
    ensures { result ≡ not (a && b) }
{
    !(a && b)
}

/// Whether exactly one holds.
pub fn xor(a: bool, b: bool) -> bool
    ensures { result ≡ (a && not b || not a && b) }
{
    a != b
}

/// Whether both hold or neither does.
pub fn equals(a: bool, b: bool) -> bool
    ensures { IsTrue result ↔ (a ≡ b) }
{
    a == b
}

/// Whether `a` does not hold.
pub fn not(a: bool) -> bool
    ensures { result ≡ not a }
{
    !a
}

/// One place of the sum `a + b`, to which `carry` comes from the place below.
pub fn adder_sum(a: bool, b: bool, carry: bool) -> bool
    ensures { result ≡ sum_digit a b carry }
{
    a ^ b ^ carry
}

/// What this place of the sum `a + b` carries to the next one: whether at least two hold.
pub fn adder_carry(a: bool, b: bool, carry: bool) -> bool
    ensures { result ≡ sum_carry a b carry }
{
    (a && b) || (carry && (a || b))
}

/// One place of the difference `a - b`, from which the place below borrowed `carry`.
pub fn suber_sum(a: bool, b: bool, carry: bool) -> bool
    ensures { result ≡ sum_digit a b carry }
{
    a ^ b ^ carry
}

/// What this place of the difference `a - b` borrows from the next one.
pub fn suber_carry(a: bool, b: bool, carry: bool) -> bool
    ensures { result ≡ difference_carry a b carry }
{
    if a { b && carry } else { b || carry }
}

#[cfg(test)]
mod tests {
    use super::*;

    #[test]
    fn one_place_of_a_sum_and_a_difference(rt: HostRuntime) {
        let rows = [
            // a, b, carry in; the digit; carry of the sum, of the difference
            ([0, 0, 0], 0, 0, 0),
            ([0, 0, 1], 1, 0, 1),
            ([0, 1, 0], 1, 0, 1),
            ([0, 1, 1], 0, 1, 1),
            ([1, 0, 0], 1, 0, 0),
            ([1, 0, 1], 0, 1, 0),
            ([1, 1, 0], 0, 1, 0),
            ([1, 1, 1], 1, 1, 1),
        ];
        for ([a, b, carry], digit, sum_carry, difference_carry) in rows {
            let (a, b, carry) = (a == 1, b == 1, carry == 1);
            assert_eq!(rt; adder_sum(a, b, carry), digit == 1);
            assert_eq!(rt; suber_sum(a, b, carry), digit == 1);
            assert_eq!(rt; adder_carry(a, b, carry), sum_carry == 1);
            assert_eq!(rt; suber_carry(a, b, carry), difference_carry == 1);
        }
        assert_eq!(rt;
            (and(true, false), or(true, false), nand(true, true)),
            (false, true, false)
        );
        assert_eq!(rt;
            (xor(true, true), equals(false, false), not(true)),
            (false, true, false)
        );
    }
}
