ghost use Rattle.std.specs.Prelude.{◌≡◌, ◌+◌, ◌≤◌, IfOk};
ghost use Rattle.abi_det.specs.Frame.{IsLawful};

use crate::layout::Layout;
use crate::refusals::has_no_head;
use crate::variant::Variant;
use abi_bits::{BitMask, ByteMask, Patterns, Steps};
use abi_num::OutOfMemory;
use std::alloc::Global;
use std::sync::ledger::Ledger;

/// A variant of a sum as far as a search goes by it. Its free bits are told one byte a step.
#[derive(Debug, Drop)]
pub struct Side {
    /// Size in bytes.
    pub size: u64,
    /// Alignment in bytes.
    pub align: u64,
    /// The patterns that it offers, in order.
    pub offered: Patterns,
    /// Whether the first of them is its head; else it has none.
    pub headed: bool,
    /// The bits that no value fixes.
    pub free: ByteMask,
}

impl Side {
    ghost use Rattle.abi_det.specs.Counted.{frame_of, side_of};

    /// The side of a layout.
    #[tactic(auto, using(crate::proofs::Seen::side_lawful))]
    pub fn of(alloc: Global, layout: &Layout) -> Result<Side, OutOfMemory>
        ensures same { IfOk result (λ side. side ≡ side_of layout.now) }
        ensures lawful { IfOk result (λ side. IsLawful (frame_of side)) }
    {
        let offered = layout.patterns(alloc)?;
        let free = ByteMask::of(alloc, layout.unused())?;
        Ok(Side {
            size: layout.size(),
            align: layout.align(),
            offered,
            headed: !has_no_head(layout.forbidden()),
            free,
        })
    }

    /// The variant that the side tells, with its free bits.
    pub(crate) fn with_free<'a>(&'a self, free: &'a BitMask) -> Variant<'a>
        requires same { free.now ≡ self.now.free }
        requires lawful { IsLawful (frame_of self.now) }
        ensures { result ≡ frame_of self.now }
    {
        Variant::new(
            self.size,
            self.align,
            free,
            self.offered.as_slice(),
            self.headed,
        )
    }

    /// The free bits, each byte of the side probed once.
    #[tactic(auto, using(crate::proofs::Seen::nothing_read, crate::proofs::Seen::room_for_byte, crate::proofs::Seen::one_more_read, crate::proofs::Seen::all_read))]
    pub(crate) fn read<L: Ledger>(
        &self,
        alloc: Global,
        steps: &mut Steps<L>,
    ) -> Result<BitMask, OutOfMemory>
        requires { IsLawful (frame_of self.now) }
        ensures same { IfOk result (λ mask. mask ≡ self.now.free) }
        ensures counted { steps.new ≤ steps.old + self.now.size }
    {
        let mut mask = BitMask::new(alloc);
        for at in 0..self.size {
            mask.push_byte(at, self.free.probe(at, steps))?;
        }
        Ok(mask)
    }
}
