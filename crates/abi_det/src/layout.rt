ghost use Rattle.std.specs.Prelude.{◌≡◌, ◌↔◌, ◌≤◌, ◌<◌, IsTrue, IsSome, IfSome, IfOk, length, slice_index};
ghost use Rattle.std.specs.List.{list_any};

use crate::raw_layout::RawLayout;
use abi_bits::{BitMask, ForbiddenValues, MAX_SIZE, Patterns, SaturatingAddValue};
use abi_num::{MAX_ALIGN, OutOfMemory};
use std::alloc::Global;
use std::marker::Model;

/// A layout that keeps the rule of lawful layouts: an alignment that is a power of two up to 65,536, a size
/// that is a multiple of it and at most `MAX_SIZE`, free bits and forbidden bytes below the size, ranges that
/// rise, and no forbidden byte that has a free bit.
#[derive(Debug, Drop)]
pub struct Layout {
    raw: RawLayout,
}

impl Model for Layout {
    ghost use Rattle.abi_bits.specs.ForbiddenCode.{forbidden_code};
    ghost use Rattle.abi_det.specs.Frame.{Frame, IsLawful};
    ghost use Rattle.std.specs.Coded.{codes};

    ghost Value = { Frame };

    ghost coded = { Prim.hlevel (codes, forbidden_code) };

    ghost use Rattle.abi_det.specs.FrameOf.{frame};

    ghost view = { λ l. frame l.raw };

    ghost invariant = { λ l. IsLawful (frame l.raw) };
}

impl Layout {
    ghost use Rattle.abi_det.specs.Frame.{IsLawful, forbids};
    ghost use Rattle.abi_det.specs.FrameOf.{frame};
    ghost use Rattle.abi_bits.specs.Mask.{IsMask};
    ghost use Rattle.abi_bits.specs.Forbidden.{tree, items, offered, is_match, AreSound};
    ghost use Rattle.abi_det.specs.SoundPlacement.{IsWellFormed};

    /// The layout of these parts; `None` exactly where they break the rule of lawful layouts.
    pub fn new(raw: RawLayout) -> Option<Layout>
        ensures lawful { IsSome result ↔ IsLawful (frame raw) }
        ensures same { IfSome result (λ l. l ≡ frame raw) }
    {
        if raw.is_lawful() {
            Some(Layout { raw })
        } else {
            None
        }
    }

    /// The layout of these parts, which are known to keep the rule of lawful layouts: no test is made.
    pub fn from_lawful(raw: RawLayout) -> Layout
        requires { IsLawful (frame raw) }
        ensures { result ≡ frame raw }
    {
        Layout { raw }
    }

    /// The parts.
    pub fn into_raw(self) -> RawLayout
        ensures same { frame result ≡ self }
        ensures lawful { IsLawful self }
    {
        self.raw
    }

    /// An equal layout.
    pub fn copy(&self, alloc: Global) -> Result<Layout, OutOfMemory>
        ensures { IfOk result (λ l. l ≡ self.now) }
    {
        let raw = self.raw.copy(alloc)?;
        Ok(Layout { raw })
    }

    /// Size in bytes, at most `MAX_SIZE`.
    #[tactic(auto, using(crate::proofs::Lawful::size_bound))]
    pub fn size(&self) -> u64
        ensures same { result ≡ self.now.size }
        ensures bound { result ≤ MAX_SIZE }
        ensures lawful { IsLawful self.now }
    {
        self.raw.size
    }

    /// Alignment in bytes: a power of two, at most 65,536.
    #[tactic(auto, using(crate::proofs::Lawful::align_bounds))]
    pub fn align(&self) -> u64
        ensures same { result ≡ self.now.align }
        ensures positive { 0 < result }
        ensures bound { result ≤ MAX_ALIGN }
        ensures lawful { IsLawful self.now }
    {
        self.raw.align
    }

    /// Values that the bytes never have.
    pub fn forbidden(&self) -> &ForbiddenValues
        ensures same { tree result.now ≡ self.now.forbidden }
        ensures sound { AreSound (items result.now) }
    {
        &self.raw.forbidden
    }

    /// The patterns that the forbidden values offer, in order.
    pub(crate) fn patterns(&self, alloc: Global) -> Result<Patterns, OutOfMemory>
        ensures same { IfOk result (λ patterns. patterns ≡ offered (forbids self.now)) }
        ensures well_formed { IfOk result (λ _. IsWellFormed self.now) }
    {
        // Does nothing: its clause on the free bits is wanted.
        self.unused();
        let patterns = self.forbidden().patterns(alloc)?;
        Ok(patterns)
    }

    /// Bits that no value fixes: the free bits.
    pub fn unused(&self) -> &BitMask
        ensures same { result.now ≡ self.now.free }
        ensures mask { IsMask self.now.free }
        ensures lawful { IsLawful self.now }
    {
        let unused = &self.raw.unused;
        // Does nothing: its clause is wanted, that the entries are in order.
        unused.walk();
        unused
    }

    /// How many niches are counted.
    pub fn niches(&self) -> SaturatingAddValue
        ensures { result ≡ self.now.niches }
    {
        self.raw.niches
    }

    /// Whether a value may lead to other memory.
    pub fn indirections(&self) -> bool
        ensures { result ≡ self.now.indirections }
    {
        self.raw.indirections
    }

    /// Whether bytes, at least as many as the size, have a value that is forbidden.
    pub fn is_invalid(&self, bytes: &[u8]) -> bool
        requires { self.now.size ≤ length bytes.now }
        ensures { result ≡ list_any (is_match (slice_index bytes.now)) (forbids self.now) }
    {
        self.raw.forbidden.is_invalid(bytes)
    }
}
