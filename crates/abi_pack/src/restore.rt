ghost use Rattle.std.specs.Prelude.{◌≡◌, ◌+◌, ◌<◌, ◌^◌, IsTrue, Some, length};
ghost use Rattle.abi_bits.specs.Pairs.{are_below};
ghost use Rattle.abi_det.specs.State.{IsCovered};
ghost use Rattle.abi_pack.specs.ShapeEdits.{bytes_from, range_told, is_inside, put_inside, restored_as};

use crate::sides::name_variant;
use abi_det::Test;
use abi_layout::SumLayout;

/// Bytes that an edit replaces.
#[derive(Clone, Copy)]
pub(crate) struct Replaced {
    pub(crate) start: usize,
    pub(crate) size: usize,
}

impl Replaced {
    /// Whether the byte is one of them.
    fn has(self, at: usize) -> bool
        requires { self.start + self.size < 2 ^ 32 }
        ensures { result ≡ is_inside (bytes_from self.start self.size) at }
    {
        self.start <= at && at < self.start + self.size
    }
}

/// Makes the replaced bytes of a sum name the variant, and changes no other.
pub(crate) fn restore(sum_layout: &SumLayout, first: bool, range: Replaced, out: &mut [u8])
    requires covered { IsCovered sum_layout.now.determinant.test (length out.old) }
    requires small { range.start + range.size < 2 ^ 32 }
    ensures { out.new ≡ restored_as sum_layout.now (range_told range) out.old (Some first) }
{
    match &sum_layout.determinant.test {
        Test::BitDeterminant => {
            if range.has(0) {
                name_variant(sum_layout, first, out);
            }
        }
        Test::ValueIsErr(pattern) => {
            if sum_layout.determinant.not == first {
                put_inside(pattern.pairs(), range, out);
            }
        }
        Test::BitIsErr { offset, .. } => {
            if range.has(*offset as usize) {
                name_variant(sum_layout, first, out);
            }
        }
    }
}

/// Writes each pair's byte that is one of the replaced.
fn put_inside(pairs: &[(u64, u8)], range: Replaced, out: &mut [u8])
    requires below { IsTrue (are_below (length out.old) pairs.now) }
    requires small { range.start + range.size < 2 ^ 32 }
    ensures { out.new ≡ put_inside (range_told range) pairs.now out.old }
{
    for (offset, byte) in pairs {
        if range.has(*offset as usize) {
            out[*offset as usize] = *byte;
        }
    }
}
