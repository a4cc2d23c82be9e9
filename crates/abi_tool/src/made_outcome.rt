//! What comes of a made job: its image, and whether reading gives its value again.

ghost use Rattle.std.specs.Prelude.{◌≡◌, ◌∷◌, [], true, None, IsTrue, IfOk, IfErr};
ghost use Rattle.abi_layout.specs.Faults.{desc_fault};
ghost use Rattle.abi_layout.specs.Trees.{tree};
ghost use Rattle.abi_pack.specs.Jobs.{image_of, job_fault};
ghost use Rattle.abi_pack.specs.Values.{IsImageOf};
ghost use Rattle.abi_pack.specs.View.{plain};
ghost use Rattle.abi_document.specs.Made.{is_count};
ghost use Rattle.abi_tool.specs.Lines.{made_text};
ghost use Rattle.abi_tool.specs.Outcomes.{IsOutcome, made_outcome};
ghost use Rattle.abi_tool.specs.declared.job_error.JobError.TheVariants.{OutOfMemory};

use crate::job_error::JobError;
use crate::made_text::made_text;
use crate::value_text::value_line;
use abi_det::Rules;
use abi_document::{Work, made_job};
use abi_layout::Desc;
use abi_num::{Target, Text};
use abi_pack::{Plan, Value, run};
use std::alloc::Global;

/// The lines of the image of the made job of so many fields.
#[tactic(auto, using(abi_document::proofs::MadeJobs::made_law))]
pub fn made_outcome(alloc: Global, count: u32) -> Result<Text, JobError>
    requires { IsTrue (is_count count) }
    ensures { IsOutcome (made_outcome count) result }
{
    let job = made_job(alloc, count)?;
    match &job.work {
        Work::Pack { desc, value, .. } => image_outcome(alloc, count, &job.target, desc, value),
        _ => unreachable!(),
    }
}

// The same, from the parts of the job.
#[tactic(auto, using(crate::proofs::Made::no_packing_fault, crate::proofs::Made::no_description_fault))]
fn image_outcome(
    alloc: Global,
    count: u32,
    target: &Target,
    desc: &Desc,
    value: &Value,
) -> Result<Text, JobError>
    requires { job_fault Rules.One target.now (tree desc.now) (plain value.now) [] ≡ None }
    ensures ok { IfOk result (λ text. text ≡ made_text count true
        (image_of Rules.One target.now (tree desc.now) (plain value.now))) }
    ensures err { IfErr result (λ error. error ≡ OutOfMemory) }
{
    let image = run(alloc, target, desc, value, &[])?;
    let back = is_read_back(alloc, target, desc, value, image.bytes.as_slice())?;
    Ok(made_text(alloc, count, back, &image)?)
}

// Whether the bytes, which are the value's canonical ones, are read as the value.
#[tactic(auto, using(crate::proofs::Made::no_describing_fault, crate::proofs::Made::no_reading_error))]
fn is_read_back(
    alloc: Global,
    target: &Target,
    desc: &Desc,
    value: &Value,
    bytes: &[u8],
) -> Result<bool, JobError>
    requires faultless { desc_fault Rules.One target.now (tree desc.now) ≡ None }
    requires image { IsImageOf Rules.One target.now (tree desc.now) (plain value.now) bytes.now }
    ensures ok { IfOk result (λ back. back ≡ true) }
    ensures err { IfErr result (λ error. error ≡ OutOfMemory) }
{
    let plan = Plan::of(alloc, target, desc)?;
    let again = plan.read(alloc, bytes)?;
    Ok(value_line(alloc, &again)? == value_line(alloc, value)?)
}
