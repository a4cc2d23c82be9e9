ghost use Rattle.std.specs.Prelude.{◌≡◌, ◌≤◌, ◌<◌, IfOk};
ghost use Rattle.abi_bits.specs.Mask.{entries_below};
ghost use Rattle.abi_det.specs.Written.{without, beside_tag};

use crate::determinant::Test;
use crate::roles::Roles;
use abi_bits::BitMask;
use abi_num::{MAX_ALIGN, OutOfMemory};
use std::alloc::Global;

impl Roles<'_> {
    ghost use Rattle.abi_det.specs.Search.{IsSpared, spare_of, exported_of};

    /// The bits that both variants leave free, without the one bit that the test takes.
    #[tactic(auto, using(crate::proofs::Exporting::nothing_below, crate::proofs::Exporting::room_for_next, crate::proofs::Exporting::next_exported, crate::proofs::Exporting::all_exported))]
    pub(crate) fn exported(
        &self,
        alloc: Global,
        shift: u64,
        test: &Test,
    ) -> Result<BitMask, OutOfMemory>
        requires { IsSpared (spare_of self.now shift) test.now }
        ensures { IfOk result (λ mask. mask ≡ exported_of self.now shift test.now) }
    {
        let mut mask = BitMask::new(alloc);
        let mut own = self.own_bits();
        let mut from = 0;
        while let Some((at, byte)) = self.next_spare(shift, &mut own, from) {
            mask.push_byte(at, without(test, at, byte))?;
            from = at + 1;
        }
        Ok(mask)
    }
}

/// The bits of the byte at offset `at` without the bit that the test takes there.
fn without(test: &Test, at: u64, byte: u8) -> u8
    ensures { result ≡ without test.now (λ _. byte) at }
{
    match test {
        Test::BitDeterminant => byte,
        Test::ValueIsErr(_) => byte,
        Test::BitIsErr { offset, mask } => { if at == *offset { byte ^ *mask } else { byte } }
    }
}

/// The bits that a tag leaves free in the bytes before the variants.
#[tactic(auto, using(crate::proofs::Exporting::nothing_below, crate::proofs::Exporting::room_beside_tag, crate::proofs::Exporting::next_beside_tag))]
pub(crate) fn beside_tag(alloc: Global, front: u64) -> Result<BitMask, OutOfMemory>
    requires { front ≤ MAX_ALIGN }
    ensures { IfOk result (λ mask. mask ≡ entries_below beside_tag front) }
{
    let mut mask = BitMask::new(alloc);
    for at in 0..front {
        mask.push_byte(at, byte_beside_tag(at))?;
    }
    Ok(mask)
}

fn byte_beside_tag(at: u64) -> u8
    ensures { result ≡ beside_tag at }
{
    if at == 0 { 254 } else { 255 }
}
