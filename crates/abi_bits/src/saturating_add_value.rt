/// How many niches are known of: none, one, or many.
#[derive(Debug, Clone, Copy, PartialEq, Eq)]
pub enum SaturatingAddValue {
    /// No niche.
    B0,
    /// One niche.
    B1,
    /// More than one niche.
    Saturator,
}

impl SaturatingAddValue {
    ghost use Rattle.abi_bits.specs.Count.{added};
    ghost use Rattle.std.specs.Prelude.{◌≡◌};

    /// The niches of two places together: more than one is many.
    pub fn saturating_add(self, other: SaturatingAddValue) -> SaturatingAddValue
        ensures { result ≡ added self other }
    {
        match (self, other) {
            (SaturatingAddValue::B0, _) => other,
            (_, SaturatingAddValue::B0) => self,
            _ => SaturatingAddValue::Saturator,
        }
    }

    /// One niche more.
    pub fn saturating_add_b1(self) -> SaturatingAddValue
        ensures { result ≡ added self SaturatingAddValue.B1 }
    {
        self.saturating_add(SaturatingAddValue::B1)
    }
}
