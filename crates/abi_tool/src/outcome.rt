//! What comes of a job: one function for each command.

ghost use Rattle.std.specs.Prelude.{◌≡◌, IfErr, OnOk, length};
ghost use Rattle.abi_layout.specs.Trees.{tree};
ghost use Rattle.abi_pack.specs.EditLists.{plain_edits};
ghost use Rattle.abi_pack.specs.Packing.{OfPlan};
ghost use Rattle.abi_pack.specs.Reading.{IsShown, IsReadError};
ghost use Rattle.abi_pack.specs.View.{plain};
ghost use Rattle.abi_document.specs.Documents.{HasFewEdits, plain_job};
ghost use Rattle.abi_document.specs.Edits.{AreFew};
ghost use Rattle.abi_tool.specs.Outcomes.{IsOutcome, outcome_of, pack_outcome, layout_outcome, read_outcome, edit_outcome, report_outcome};

use crate::job_error::JobError;
use crate::report_text::report_text;
use crate::text::{bytes_text, layout_text, text_of};
use crate::value_text::value_line;
use abi_det::Rules;
use abi_document::{Job, Work};
use abi_layout::{Desc, id_of, lay_out, report_of};
use abi_num::{OutOfMemory, Target, Text};
use abi_pack::{Edit, Plan, ReadError, Value, edit_each, run};
use std::alloc::Global;

/// The text that answers a job, or the job's first fault.
pub fn outcome_of(alloc: Global, job: &Job) -> Result<Text, JobError>
    requires { HasFewEdits job.now.work }
    ensures { IsOutcome (outcome_of (plain_job job.now)) result }
{
    match &job.work {
        Work::Pack { desc, value, edits } => {
            pack_outcome(alloc, &job.target, desc, value, edits.as_slice())
        }
        Work::Layout { desc } => layout_outcome(alloc, &job.target, desc),
        Work::Read { desc, bytes } => read_outcome(alloc, &job.target, desc, bytes.as_slice()),
        Work::Edit { desc, bytes, edits } => {
            edit_outcome(alloc, &job.target, desc, bytes.as_slice(), edits.as_slice())
        }
        Work::Report { desc } => report_outcome(alloc, &job.target, desc),
    }
}

// The lines of the image of a value, as edits leave it.
#[tactic(auto, using(crate::proofs::Outcomes::refused, crate::proofs::Outcomes::made))]
fn pack_outcome(
    alloc: Global,
    target: &Target,
    desc: &Desc,
    value: &Value,
    edits: &[Edit],
) -> Result<Text, JobError>
    requires { AreFew edits.now }
    ensures { IsOutcome
        (pack_outcome target.now (tree desc.now) (plain value.now) (plain_edits edits.now)) result }
{
    let image = run(alloc, target, desc, value, edits)?;
    Ok(text_of(alloc, &image)?)
}

// The lines of a description's layout and its sums.
fn layout_outcome(alloc: Global, target: &Target, desc: &Desc) -> Result<Text, JobError>
    ensures { IsOutcome (layout_outcome target.now (tree desc.now)) result }
{
    let found = lay_out(alloc, Rules::One, target, desc)?;
    Ok(layout_text(alloc, &found.layout, found.placed.as_slice())?)
}

// The line of the value of a description that bytes show.
fn read_outcome(alloc: Global, target: &Target, desc: &Desc, bytes: &[u8]) -> Result<Text, JobError>
    ensures { IsOutcome (read_outcome target.now (tree desc.now) bytes.now) result }
{
    let plan = Plan::of(alloc, target, desc)?;
    let value = plan.read(alloc, bytes)?;
    Ok(value_line(alloc, &value)?)
}

// The line of the bytes that edits leave of bytes which show a value of a description.
fn edit_outcome(
    alloc: Global,
    target: &Target,
    desc: &Desc,
    bytes: &[u8],
    edits: &[Edit],
) -> Result<Text, JobError>
    requires { AreFew edits.now }
    ensures { IsOutcome
        (edit_outcome target.now (tree desc.now) bytes.now (plain_edits edits.now)) result }
{
    let plan = Plan::of(alloc, target, desc)?;
    if plan.shows_many(bytes) {
        return Err(JobError::OutOfMemory);
    }
    check_shown(&plan, bytes)?;
    let Ok(mut edited) = Vec::from_slice(alloc, bytes) else {
        return Err(JobError::OutOfMemory);
    };
    edit_each(&plan, &mut edited, edits)?;
    Ok(bytes_text(alloc, &edited)?)
}

// Refused where there are not as many bytes as the description has, or they show no value.
fn check_shown(plan: &Plan, bytes: &[u8]) -> Result<(), ReadError>
    ensures ok { OnOk result (OfPlan plan.now (λ rules target t.
        IsShown rules target t bytes.now)) }
    ensures err { IfErr result (λ error. OfPlan plan.now (λ rules target t.
        IsReadError rules target t bytes.now error)) }
{
    if bytes.len() as u64 != plan.layout().size() {
        return Err(ReadError::WrongLength);
    }
    if !plan.shown(bytes) {
        return Err(ReadError::IllegalBytes);
    }
    Ok(())
}

// The lines of a description's identifier and its report.
fn report_outcome(alloc: Global, target: &Target, desc: &Desc) -> Result<Text, JobError>
    ensures { IsOutcome (report_outcome target.now (tree desc.now)) result }
{
    let id = id_of(alloc, target, desc)?;
    let report = report_of(alloc, target, desc)?;
    Ok(report_text(alloc, id, &report)?)
}
