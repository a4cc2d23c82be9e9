ghost use Rattle.std.specs.Prelude.{◌≡◌, ◌≢◌, ◌≤◌, None, IsTrue, IfOk, IfErr, OnOk};
ghost use Rattle.abi_num.specs.Target.{is_row};
ghost use Rattle.abi_det.specs.Offers.{One};
ghost use Rattle.abi_layout.specs.Trees.{tree, parts};
ghost use Rattle.abi_layout.specs.Frames.{written_frame};
ghost use Rattle.abi_layout.specs.Faults.{IsFault, IsFaultByAny, desc_fault};
ghost use Rattle.abi_layout.specs.PartView.{shape};
ghost use Rattle.abi_layout.specs.Plans.{shape_of, IsNamed};
ghost use Rattle.abi_layout.specs.Sums.{written_sums};

use crate::desc::Desc;
use crate::desc_error::DescError;
use crate::numbering::{MAX_PARTS, parts};
use crate::part::Part;
use crate::placed::PlacedList;
use crate::walk::lay_out_part;
use abi_det::{Layout, Rules};
use abi_num::{Items, Target};
use std::alloc::Global;

/// A description, laid out on a target.
#[derive(Drop)]
pub struct LaidOut {
    /// What its bytes mean.
    pub part: Part,
    /// Its layout.
    pub layout: Layout,
    /// Its packed sums in pre-order.
    pub placed: PlacedList,
}

/// Lays out a description on a target, by these rules. Refused with the first fault: `BadTarget`
/// where the target is no supported one, `TooManyParts` where there are more than `MAX_PARTS` parts, and
/// else that of the first part, in post-order, that has one.
#[tactic(auto, using(crate::proofs::Steps::faultless))]
pub fn lay_out(
    alloc: Global,
    rules: Rules,
    target: &Target,
    desc: &Desc,
) -> Result<LaidOut, DescError>
    ensures faultless { IfOk result (λ _. desc_fault rules target.now (tree desc.now) ≡ None) }
    ensures part { IfOk result (λ f. shape f.part ≡ shape_of rules target.now (tree desc.now)) }
    ensures named { IfOk result (λ f. IsNamed (shape f.part)) }
    ensures layout { IfOk result (λ f. f.layout ≡ written_frame rules target.now (tree desc.now)) }
    ensures placed { IfOk result (λ f. f.placed ≡ written_sums rules target.now 0 (tree desc.now)) }
    ensures err { IfErr result (IsFault (desc_fault rules target.now (tree desc.now))) }
{
    check(target, desc)?;
    let mut sums = Vec::new(alloc);
    let found = lay_out_part(alloc, rules, target, 0, desc, &mut sums)?;
    Ok(LaidOut {
        part: found.part,
        layout: found.layout,
        placed: Items::from(sums),
    })
}

/// The layout of a description on a target, by the first rules. Refused as `lay_out` is.
pub fn layout_of(alloc: Global, target: &Target, desc: &Desc) -> Result<Layout, DescError>
    ensures faultless { IfOk result (λ _. desc_fault One target.now (tree desc.now) ≡ None) }
    ensures layout { IfOk result (λ l. l ≡ written_frame One target.now (tree desc.now)) }
    ensures err { IfErr result (IsFault (desc_fault One target.now (tree desc.now))) }
{
    let found = lay_out(alloc, Rules::One, target, desc)?;
    Ok(found.layout)
}

/// Whether the target is a supported one and there are at most `MAX_PARTS` parts, whatever the rules.
#[tactic(auto, using(crate::proofs::Steps::bad_target, crate::proofs::Steps::too_many))]
fn check(target: &Target, desc: &Desc) -> Result<(), DescError>
    ensures ok { OnOk result (IsTrue (is_row target.now) × (parts (tree desc.now) ≤ MAX_PARTS)) }
    ensures err { IfErr result (IsFaultByAny target.now (tree desc.now)) }
{
    if !target.is_row() {
        return Err(DescError::BadTarget);
    }
    if parts(desc) > MAX_PARTS {
        return Err(DescError::TooManyParts);
    }
    Ok(())
}
