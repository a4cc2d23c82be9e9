ghost use Rattle.std.specs.Prelude.{◌≡◌, IfOk, IfSome, codes, map};
ghost use Rattle.serde_json.specs.View.{view};
ghost use Rattle.abi_layout.specs.Trees.{tree};
ghost use Rattle.abi_pack.specs.EditLists.{plain_edits};
ghost use Rattle.abi_document.specs.Forms.{Tells, under, bytes_of};
ghost use Rattle.abi_document.specs.Edits.{AreFew};
ghost use Rattle.abi_document.specs.Targets.{target_of};
ghost use Rattle.abi_document.specs.Documents.{HasFewEdits, keys_of, desc_in, edits_in, edits_or_none, pack_work, layout_work, read_work, edit_work, report_work, work_in, task_of, job_of, plain_job};

use crate::command::Command;
use crate::descriptions::desc_at;
use crate::edits::{LEVELS, edits_of, value_in};
use crate::forms::{bytes_of, has_only};
use crate::job::{Job, Work};
use crate::targets::target_of;
use abi_layout::Desc;
use abi_num::{OutOfMemory, Target};
use abi_pack::{Bytes, Edits};
use serde_json::Value as Json;
use std::alloc::Global;

/// The job of a document of the command; `None` exactly where the tree is none.
#[tactic(auto, unfolding(crate::specs::Documents::job_of))]
pub fn job_of(alloc: Global, command: Command, json: &Json) -> Result<Option<Job>, OutOfMemory>
    ensures told { IfOk result (Tells plain_job (job_of command (view json.now))) }
    ensures few_edits { IfOk result (λ job. IfSome job (λ j. HasFewEdits j.work)) }
{
    if !has_only(keys_of(command), json) {
        return Ok(None);
    }
    let Some(target) = target_in(json) else {
        return Ok(None);
    };
    let Some(work) = work_in(alloc, command, json)? else {
        return Ok(None);
    };
    Ok(Some(Job { target, work }))
}

/// The keys that a document of the command may have.
fn keys_of(command: Command) -> &'static [&'static str]
    ensures { map (λ key. key.now) result.now ≡ keys_of command }
{
    match command {
        Command::Pack => &["target", "desc", "value", "edits"],
        Command::Layout => &["target", "desc"],
        Command::Read => &["target", "desc", "bytes"],
        Command::Edit => &["target", "desc", "bytes", "edits"],
        Command::Report => &["target", "desc"],
    }
}

/// What a document of the command asks for, beside its target.
fn work_in(alloc: Global, command: Command, json: &Json) -> Result<Option<Work>, OutOfMemory>
    ensures told { IfOk result (Tells task_of (work_in command (view json.now))) }
    ensures few_edits { IfOk result (λ work. IfSome work HasFewEdits) }
{
    match command {
        Command::Pack => pack_work(alloc, json),
        Command::Layout => layout_work(alloc, json),
        Command::Read => read_work(alloc, json),
        Command::Edit => edit_work(alloc, json),
        Command::Report => report_work(alloc, json),
    }
}

/// What a document of `pack` asks for.
fn pack_work(alloc: Global, json: &Json) -> Result<Option<Work>, OutOfMemory>
    ensures told { IfOk result (Tells task_of (pack_work (view json.now))) }
    ensures few_edits { IfOk result (λ work. IfSome work HasFewEdits) }
{
    let Some(desc) = desc_in(alloc, json)? else {
        return Ok(None);
    };
    let Some(value) = value_in(alloc, json)? else {
        return Ok(None);
    };
    let Some(edits) = edits_or_none(alloc, json)? else {
        return Ok(None);
    };
    Ok(Some(Work::Pack { desc, value, edits }))
}

/// What a document of `layout` asks for.
fn layout_work(alloc: Global, json: &Json) -> Result<Option<Work>, OutOfMemory>
    ensures told { IfOk result (Tells task_of (layout_work (view json.now))) }
    ensures few_edits { IfOk result (λ work. IfSome work HasFewEdits) }
{
    let Some(desc) = desc_in(alloc, json)? else {
        return Ok(None);
    };
    Ok(Some(Work::Layout { desc }))
}

/// What a document of `read` asks for.
fn read_work(alloc: Global, json: &Json) -> Result<Option<Work>, OutOfMemory>
    ensures told { IfOk result (Tells task_of (read_work (view json.now))) }
    ensures few_edits { IfOk result (λ work. IfSome work HasFewEdits) }
{
    let Some(desc) = desc_in(alloc, json)? else {
        return Ok(None);
    };
    let Some(bytes) = bytes_in(alloc, json)? else {
        return Ok(None);
    };
    Ok(Some(Work::Read { desc, bytes }))
}

/// What a document of `edit` asks for.
fn edit_work(alloc: Global, json: &Json) -> Result<Option<Work>, OutOfMemory>
    ensures told { IfOk result (Tells task_of (edit_work (view json.now))) }
    ensures few_edits { IfOk result (λ work. IfSome work HasFewEdits) }
{
    let Some(desc) = desc_in(alloc, json)? else {
        return Ok(None);
    };
    let Some(bytes) = bytes_in(alloc, json)? else {
        return Ok(None);
    };
    let Some(edits) = edits_in(alloc, json)? else {
        return Ok(None);
    };
    Ok(Some(Work::Edit { desc, bytes, edits }))
}

/// What a document of `report` asks for.
fn report_work(alloc: Global, json: &Json) -> Result<Option<Work>, OutOfMemory>
    ensures told { IfOk result (Tells task_of (report_work (view json.now))) }
    ensures few_edits { IfOk result (λ work. IfSome work HasFewEdits) }
{
    let Some(desc) = desc_in(alloc, json)? else {
        return Ok(None);
    };
    Ok(Some(Work::Report { desc }))
}

/// The target under the key `target`; `None` exactly where there is none.
fn target_in(json: &Json) -> Option<Target>
    ensures { result ≡ under (codes "target") target_of (view json.now) }
{
    target_of(json.get("target")?)
}

/// The description under the key `desc`; `None` exactly where there is none.
fn desc_in(alloc: Global, json: &Json) -> Result<Option<Desc>, OutOfMemory>
    ensures { IfOk result (Tells tree (desc_in (view json.now))) }
{
    match json.get("desc") {
        Some(desc) => desc_at(alloc, LEVELS, desc),
        None => Ok(None),
    }
}

/// The bytes under the key `bytes`; `None` exactly where there are none.
fn bytes_in(alloc: Global, json: &Json) -> Result<Option<Bytes>, OutOfMemory>
    ensures { IfOk result (λ bytes. bytes ≡ under (codes "bytes") bytes_of (view json.now)) }
{
    match json.get("bytes") {
        Some(bytes) => bytes_of(alloc, bytes),
        None => Ok(None),
    }
}

/// The edits under the key `edits`; `None` exactly where there are none.
fn edits_in(alloc: Global, json: &Json) -> Result<Option<Edits>, OutOfMemory>
    ensures told { IfOk result (Tells plain_edits (edits_in (view json.now))) }
    ensures few { IfOk result (λ edits. IfSome edits AreFew) }
{
    match json.get("edits") {
        Some(edits) => edits_of(alloc, edits),
        None => Ok(None),
    }
}

/// The edits under the key `edits`, or no edits where the key is left out; `None` exactly where it holds none.
fn edits_or_none(alloc: Global, json: &Json) -> Result<Option<Edits>, OutOfMemory>
    ensures told { IfOk result (Tells plain_edits (edits_or_none (view json.now))) }
    ensures few { IfOk result (λ edits. IfSome edits AreFew) }
{
    match json.get("edits") {
        Some(edits) => edits_of(alloc, edits),
        None => Ok(Some(Edits::new(alloc))),
    }
}
