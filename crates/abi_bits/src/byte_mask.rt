ghost use Rattle.std.specs.Prelude.{◌≡◌, ◌+◌, IfOk};
ghost use Rattle.abi_bits.specs.Mask.{mask_at, IsMask};

use crate::bit_mask::BitMask;
use crate::steps::Steps;
use abi_num::OutOfMemory;
use std::alloc::Global;
use std::marker::Model;
use std::sync::ledger::Ledger;

/// A set of bits whose bytes can be looked up one by one and in no other way, each for one step.
#[derive(Debug, Drop)]
pub struct ByteMask {
    mask: BitMask,
}

impl Model for ByteMask {
    ghost use Rattle.std.specs.Prelude.{List, ℕ};

    ghost Value = { List (ℕ × ℕ) };

    ghost view = { λ m. m.mask };
}

impl ByteMask {
    /// The same set of bits.
    pub fn of(alloc: Global, mask: &BitMask) -> Result<ByteMask, OutOfMemory>
        ensures same { IfOk result (λ bytes. bytes ≡ mask.now) }
        ensures valid { IsMask mask.now }
    {
        let mask = mask.copy(alloc)?;
        Ok(ByteMask { mask })
    }

    /// The bits at the byte at offset `at`, 0 where none stands, for one step. Takes no memory.
    pub fn probe<L: Ledger>(&self, at: u64, steps: &mut Steps<L>) -> u8
        ensures same { result ≡ mask_at self.now at }
        ensures counted { steps.new ≡ steps.old + 1 }
        ensures valid { IsMask self.now }
    {
        steps.step();
        self.mask.byte_at(at)
    }
}
