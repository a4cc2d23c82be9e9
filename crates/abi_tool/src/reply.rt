ghost use Rattle.std.specs.Prelude.{◌≡◌, IsTrue, IfOk};
ghost use Rattle.serde_json.specs.View.{view};
ghost use Rattle.abi_document.specs.Documents.{HasFewEdits, plain_job};
ghost use Rattle.abi_document.specs.Made.{is_count};
ghost use Rattle.abi_tool.specs.Outcomes.{Outcome, IsOutcome, outcome_of};
ghost use Rattle.abi_tool.specs.Reply.{reply_by, made_reply, reply_to_tree};

use crate::answer::{Answer, Reply};
use crate::job_error::JobError;
use crate::made_outcome::made_outcome;
use crate::outcome::outcome_of;
use crate::text::refused;
use abi_document::{Command, Job, job_of};
use abi_num::{OutOfMemory, Text};
use serde_json::Value;
use std::alloc::Global;

/// The reply to a document that is read as JSON.
#[tactic(auto, unfolding(crate::specs::Reply::reply_to_tree))]
pub fn reply_to_tree(alloc: Global, command: Command, tree: &Value) -> Result<Reply, OutOfMemory>
    ensures { IfOk result (λ reply. reply ≡ reply_to_tree command (view tree.now)) }
{
    match job_of(alloc, command, tree)? {
        Some(job) => reply_to_job(alloc, &job),
        None => Ok(Reply {
            answer: Answer::NotAJob,
            text: Text::new(alloc, "not a job\n")?,
        }),
    }
}

// The reply to a job of any command.
fn reply_to_job(alloc: Global, job: &Job) -> Result<Reply, OutOfMemory>
    requires { HasFewEdits job.now.work }
    ensures { IfOk result (λ reply. reply ≡ reply_by (outcome_of (plain_job job.now))) }
{
    reply_by(alloc, outcome_of(alloc, job))
}

/// The reply to `made` of so many fields.
pub fn made_reply(alloc: Global, count: u32) -> Result<Reply, OutOfMemory>
    requires { IsTrue (is_count count) }
    ensures { IfOk result (λ reply. reply ≡ made_reply count) }
{
    reply_by(alloc, made_outcome(alloc, count))
}

// The reply by what came of a job.
fn reply_by(alloc: Global, outcome: Result<Text, JobError>) -> Result<Reply, OutOfMemory>
    ensures { IfOk result (λ reply. (o : Outcome) → IsOutcome o outcome → reply ≡ reply_by o) }
{
    match outcome {
        Ok(text) => Ok(Reply {
            answer: Answer::Done,
            text,
        }),
        Err(JobError::Fault(fault)) => Ok(Reply {
            answer: Answer::Refused,
            text: refused(alloc, fault)?,
        }),
        Err(JobError::OutOfMemory) => Err(OutOfMemory),
    }
}
