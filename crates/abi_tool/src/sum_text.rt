//! The lines of packed sums, and of what refuses them a niche.

ghost use Rattle.std.specs.Prelude.{OnOk};
ghost use Rattle.abi_tool.specs.Lines.{Adds, offsets_text, refusal_line, refusal_lines, refused_sum_lines, refused_sums_lines, side_text, niche_text, meaning_text, places_text, sum_line, sum_lines};

use crate::text::push_pairs;
use abi_det::{Kind, Refusal, Test};
use abi_layout::Placed;
use std::alloc::AllocError;
use std::fmt::Write;

/// Adds a line for each sum.
#[tactic(auto, unfolding(crate::specs::Lines::sum_lines))]
pub fn push_sums(out: &mut String, sums: &[Placed]) -> Result<(), AllocError>
    ensures { OnOk result (Adds out.old out.new (sum_lines sums.now)) }
{
    for sum in sums {
        push_sum(out, sum)?;
    }
    Ok(())
}

/// Adds a line for each sum, and one for each refusal after it.
#[tactic(auto, unfolding(crate::specs::Lines::refused_sums_lines))]
pub fn push_refused_sums(out: &mut String, sums: &[Placed]) -> Result<(), AllocError>
    ensures { OnOk result (Adds out.old out.new (refused_sums_lines sums.now)) }
{
    for sum in sums {
        push_refused_sum(out, sum)?;
    }
    Ok(())
}

#[tactic(auto, unfolding(crate::specs::Lines::refused_sum_lines))]
fn push_refused_sum(out: &mut String, sum: &Placed) -> Result<(), AllocError>
    ensures { OnOk result (Adds out.old out.new (refused_sum_lines sum.now)) }
{
    push_sum(out, sum)?;
    push_refusals(out, sum.refusals.as_slice())
}

#[tactic(auto, unfolding(crate::specs::Lines::refusal_lines))]
fn push_refusals(out: &mut String, refusals: &[Refusal]) -> Result<(), AllocError>
    ensures { OnOk result (Adds out.old out.new (refusal_lines refusals.now)) }
{
    for refusal in refusals {
        push_refusal(out, refusal)?;
    }
    Ok(())
}

#[tactic(auto, unfolding(crate::specs::Lines::refusal_line))]
fn push_refusal(out: &mut String, refusal: &Refusal) -> Result<(), AllocError>
    ensures { OnOk result (Adds out.old out.new (refusal_line refusal.now)) }
{
    write!(out, "refusal {} smaller", refusal.place)?;
    push_offsets(out, refusal.smaller.as_slice())?;
    out.push_str(" larger")?;
    push_offsets(out, refusal.larger.as_slice())?;
    out.push_str("\n")
}

#[tactic(auto, unfolding(crate::specs::Lines::offsets_text))]
fn push_offsets(out: &mut String, offsets: &[u64]) -> Result<(), AllocError>
    ensures { OnOk result (Adds out.old out.new (offsets_text offsets.now)) }
{
    for offset in offsets {
        write!(out, " {offset}")?;
    }
    Ok(())
}

#[tactic(auto, unfolding(crate::specs::Lines::sum_line))]
fn push_sum(out: &mut String, sum: &Placed) -> Result<(), AllocError>
    ensures { OnOk result (Adds out.old out.new (sum_line sum.now)) }
{
    push_places(out, sum)?;
    push_niche(out, sum.kind, &sum.determinant.test)?;
    push_meaning(out, sum.determinant.not)
}

#[tactic(auto, unfolding(crate::specs::Lines::places_text))]
fn push_places(out: &mut String, sum: &Placed) -> Result<(), AllocError>
    ensures { OnOk result (Adds out.old out.new (places_text sum.now)) }
{
    write!(
        out,
        "sum {} place {} front {}",
        sum.part, sum.place, sum.front
    )?;
    write!(out, " ok {} err {} ", sum.ok_shift, sum.err_shift)
}

#[tactic(auto, unfolding(crate::specs::Lines::niche_text))]
fn push_niche(out: &mut String, kind: Kind, test: &Test) -> Result<(), AllocError>
    ensures { OnOk result (Adds out.old out.new (niche_text kind test.now)) }
{
    match test {
        Test::BitDeterminant => out.push_str("tag"),
        Test::ValueIsErr(pattern) => {
            push_side(out, kind)?;
            push_pairs(out, pattern.pairs())
        }
        Test::BitIsErr { offset, mask } => write!(out, "bit {offset}:{mask}"),
    }
}

fn push_side(out: &mut String, kind: Kind) -> Result<(), AllocError>
    ensures { OnOk result (Adds out.old out.new (side_text kind)) }
{
    match kind {
        Kind::SmallerPattern => out.push_str("smaller "),
        Kind::LargerPattern | Kind::SharedBit | Kind::Tag => out.push_str("larger "),
    }
}

#[tactic(auto, unfolding(crate::specs::Lines::meaning_text))]
fn push_meaning(out: &mut String, means_ok: bool) -> Result<(), AllocError>
    ensures { OnOk result (Adds out.old out.new (meaning_text means_ok)) }
{
    out.push_str(if means_ok {
        " means ok\n"
    } else {
        " means err\n"
    })
}
