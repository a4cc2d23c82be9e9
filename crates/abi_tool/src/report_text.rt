//! The lines of a report.

ghost use Rattle.std.specs.Prelude.{◌≡◌, IfOk, OnOk};
ghost use Rattle.abi_report.specs.Reports.{tree};
ghost use Rattle.abi_tool.specs.Lines.{Adds, id_line, report_line, report_text};

use abi_num::{OutOfMemory, Text};
use abi_report::TypeReport;
use std::alloc::{AllocError, Global};
use std::fmt::Write;

/// The lines of an identifier and of the report that it is of.
#[tactic(auto, unfolding(crate::specs::Lines::report_text))]
pub fn report_text(alloc: Global, id: u64, report: &TypeReport) -> Result<Text, OutOfMemory>
    ensures { IfOk result (λ text. text ≡ report_text id (tree report.now)) }
{
    let mut out = String::new(alloc);
    push_id(alloc, &mut out, id)?;
    push_report(&mut out, report)?;
    Ok(Text::from(out))
}

#[tactic(auto, unfolding(crate::specs::Lines::id_line))]
fn push_id(alloc: Global, out: &mut String, id: u64) -> Result<(), AllocError>
    ensures { OnOk result (Adds out.old out.new (id_line id)) }
{
    out.push_str("id ")?;
    out.push_str(hex::encode(alloc, &id.to_be_bytes())?.as_str())?;
    out.push_str("\n")
}

#[tactic(auto, unfolding(crate::specs::Lines::report_line))]
fn push_report(out: &mut String, report: &TypeReport) -> Result<(), AllocError>
    ensures { OnOk result (Adds out.old out.new (report_line (tree report.now))) }
{
    write!(out, "report {report}\n")
}
