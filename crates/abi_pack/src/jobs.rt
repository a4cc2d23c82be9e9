ghost use Rattle.std.specs.Prelude.{◌≡◌, ◌<◌, ◌^◌, None, IfOk, IfErr, OnOk, length};
ghost use Rattle.abi_pack.specs.Jobs.{IsJobFault, fault_of, image_left, IsImageLeft};
ghost use Rattle.abi_pack.specs.PlanCalls.{AreShownBy, AreEditsBy, AreRefusedBy};

use crate::abi_error::AbiError;
use crate::image::Image;
use crate::plan::Plan;
use crate::step::Edit;
use crate::value::Value;
use abi_det::Rules;
use abi_layout::Desc;
use abi_num::{Items, Target};
use std::alloc::Global;

/// Packs a value of a description, and then edits it in place by each edit in turn. There must be fewer than
/// 2^32 edits. Refused with the first fault: that of `layout_of`, then `WrongValue` where the value is none of the
/// description's, then that of the first edit that fails on the value as those before it left it.
pub fn run(
    alloc: Global,
    target: &Target,
    desc: &Desc,
    value: &Value,
    edits: &[Edit],
) -> Result<Image, AbiError>
    requires few_edits { length edits.now < 2 ^ 32 }
    ensures faultless { IfOk result (λ _. fault_of target.now desc.now value.now edits.now ≡ None) }
    ensures image { IfOk result (λ i. i ≡ image_left target.now desc.now value.now edits.now) }
    ensures canonical { IfOk result (IsImageLeft target.now desc.now value.now edits.now) }
    ensures err { IfErr result (IsJobFault (fault_of target.now desc.now value.now edits.now)) }
{
    let plan = Plan::of(alloc, target, desc)?;
    if !plan.fits(value) {
        return Err(AbiError::WrongValue);
    }
    let mut bytes = plan.packed(alloc, value)?;
    match edit_each(&plan, &mut bytes, edits) {
        Ok(()) => Ok(plan.into_image(Items::from(bytes))),
        Err(error) => Err(error),
    }
}

/// Edits the bytes, which must show a value, by each edit in turn. There must be fewer than 2^32 edits. Refused with
/// the fault of the first that fails; the bytes are then as those before it left them. Takes no memory.
pub fn edit_each(plan: &Plan, bytes: &mut [u8], edits: &[Edit]) -> Result<(), AbiError>
    requires shown { AreShownBy plan.now bytes.old }
    requires few_edits { length edits.now < 2 ^ 32 }
    ensures ok { OnOk result (AreEditsBy plan.now edits.now bytes.old bytes.new) }
    ensures err { IfErr result (AreRefusedBy plan.now edits.now bytes.old) }
{
    for (number, edit) in edits.iter().enumerate() {
        if let Err(error) = plan.edit(bytes, edit.path.as_slice(), &edit.value) {
            return Err(AbiError::of_edit(number as u32, error));
        }
    }
    Ok(())
}
