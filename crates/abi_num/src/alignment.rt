ghost use Rattle.std.specs.Prelude.{◌≡◌, ◌^◌, ◌↔◌, min, max, IsSome, IfSome};
ghost use Rattle.abi_num.specs.Alignment.{IsAlignment};

use std::marker::Model;

/// The greatest alignment, in bytes.
pub const MAX_ALIGN: u64 = 65536;

/// An alignment in bytes: a power of two up to `MAX_ALIGN`.
#[derive(Debug, Clone, Copy, PartialEq, Eq)]
pub struct Alignment {
    bytes: u64,
}

impl Model for Alignment {
    ghost use Rattle.std.specs.Prelude.{ℕ};
    ghost use Rattle.abi_num.specs.Alignment.{IsAlignment};

    ghost Value = { ℕ };

    ghost view = { λ a. a.bytes };

    ghost inverse = { λ n. record { bytes = n } };

    ghost invariant = { λ a. IsAlignment a.bytes };
}

impl Alignment {
    /// The alignment of `n` bytes; `None` exactly where `n` is no power of two up to `MAX_ALIGN`.
    pub fn new(n: u64) -> Option<Alignment>
        ensures valid { IsSome result ↔ IsAlignment n }
        ensures value { IfSome result (λ alignment. alignment ≡ n) }
    {
        if n <= MAX_ALIGN && n.is_power_of_two() {
            Some(Alignment { bytes: n })
        } else {
            None
        }
    }

    /// The alignment in bytes.
    pub fn get(self) -> u64
        ensures value { result ≡ self }
        ensures alignment { IsAlignment result }
    {
        self.bytes
    }

    /// The larger one.
    pub fn max(self, other: Alignment) -> Alignment
        ensures { result ≡ max self other }
    {
        if self.bytes < other.bytes {
            other
        } else {
            self
        }
    }

    /// The smaller one.
    pub fn min(self, other: Alignment) -> Alignment
        ensures { result ≡ min self other }
    {
        if other.bytes < self.bytes {
            other
        } else {
            self
        }
    }

    /// The exponent: the alignment is 2 to its power.
    #[tactic(auto, using(crate::proofs::Powers::power_between))]
    pub fn log2(self) -> u32
        ensures { 2 ^ result ≡ self }
    {
        self.bytes.ilog2()
    }
}

#[cfg(test)]
mod tests {
    use super::*;
    use std::test::Fail;

    #[test]
    fn eight_and_sixty_four_compare_and_have_their_exponents(rt: HostRuntime) -> Result<(), Fail> {
        let eight = Alignment::new(8).ok_or("8")?;
        let larger = Alignment::new(64).ok_or("64")?;
        assert_eq!(rt; (eight.max(larger), larger.min(eight)), (larger, eight));
        assert_eq!(rt; (eight.log2(), larger.log2()), (3, 6));
        Ok(())
    }
}
