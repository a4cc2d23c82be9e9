ghost use Rattle.std.specs.Prelude.{◌≡◌, IfOk};

use abi_bits::{BitMask, ForbiddenValues, MAX_SIZE, SaturatingAddValue};
use abi_num::{Alignment, OutOfMemory};
use std::alloc::Global;

/// What is known of a type's bytes, before it is checked to be lawful.
#[derive(Debug, Drop)]
pub struct RawLayout {
    /// Size in bytes.
    pub size: u64,
    /// Alignment in bytes.
    pub align: u64,
    /// Values that the bytes never have.
    pub forbidden: ForbiddenValues,
    /// Bits that no value fixes.
    pub unused: BitMask,
    /// How many niches are counted.
    pub niches: SaturatingAddValue,
    /// Whether a value may lead to other memory.
    pub indirections: bool,
}

impl RawLayout {
    ghost use Rattle.abi_det.specs.Frame.{is_lawful};
    ghost use Rattle.abi_det.specs.FrameOf.{frame};

    /// Equal parts.
    pub fn copy(&self, alloc: Global) -> Result<RawLayout, OutOfMemory>
        ensures { IfOk result (λ raw. frame raw ≡ frame self.now) }
    {
        let forbidden = self.forbidden.copy(alloc)?;
        let unused = self.unused.copy(alloc)?;
        Ok(RawLayout {
            size: self.size,
            align: self.align,
            forbidden,
            unused,
            niches: self.niches,
            indirections: self.indirections,
        })
    }

    /// Whether the rule of lawful layouts holds.
    pub(crate) fn is_lawful(&self) -> bool
        ensures { result ≡ is_lawful (frame self.now) }
    {
        Alignment::new(self.align).is_some()
            && self.size <= MAX_SIZE
            && self.size % self.align == 0
            && self.unused.is_below(self.size)
            && self.forbidden.is_solid(self.size, &self.unused)
    }
}
