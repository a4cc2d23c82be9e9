ghost use Rattle.std.specs.Prelude.{◌≡◌, ◌≢◌, None, Some, IfOk, IfErr};
ghost use Rattle.abi_det.specs.SoundPlacement.{IsSoundPlacement};
ghost use Rattle.abi_det.specs.Written.{written_placement, written_sum};
ghost use Rattle.abi_layout.specs.Faults.{IsFault, sum_fault};

use crate::desc_error::DescError;
use abi_bits::MAX_SIZE;
use abi_det::{Layout, Placement, Rules, placement_by, sum_layout, sum_size};
use std::alloc::Global;

/// The placement and the layout of the packed sum of two by these rules, which is part number
/// `part` of a description. Refused with `TooLarge` where its size passes `MAX_SIZE`.
pub fn packed_sum(
    alloc: Global,
    rules: Rules,
    part: u32,
    ok: &Layout,
    err: &Layout,
) -> Result<(Placement, Layout), DescError>
    ensures faultless { IfOk result (λ _. sum_fault rules part ok.now err.now ≡ None) }
    ensures placement { IfOk result (λ sum. sum.0 ≡ written_placement rules ok.now err.now) }
    ensures sound { IfOk result (λ sum. IsSoundPlacement ok.now err.now sum.0) }
    ensures layout { IfOk result (λ sum. sum.1 ≡ written_sum rules ok.now err.now) }
    ensures err { IfErr result (IsFault (sum_fault rules part ok.now err.now)) }
{
    let placement = placement_by(alloc, rules, ok, err)?;
    if sum_size(ok, err, &placement) > MAX_SIZE {
        return Err(DescError::TooLarge { part });
    }
    let layout = sum_layout(alloc, ok, err, &placement)?;
    Ok((placement, layout))
}
