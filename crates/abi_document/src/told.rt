//! Jobs as texts that tests compare.

use crate::{Job, Work};
use abi_layout::{Desc, Field, Forbid, LeafDesc};
use abi_pack::{Edit, Step, Value};
use std::alloc::{AllocError, Global};
use std::fmt::Write;

/// What the job asks for, beside its target: the description, and what stands with it.
pub fn told(alloc: Global, job: &Job) -> Result<String, AllocError> {
    let mut out = String::new(alloc);
    match &job.work {
        Work::Pack { desc, value, edits } => {
            push_desc(alloc, &mut out, desc)?;
            out.push_str(" = ")?;
            push_value(alloc, &mut out, value)?;
            push_edits(alloc, &mut out, edits.as_slice())?;
        }
        Work::Layout { desc } | Work::Report { desc } => push_desc(alloc, &mut out, desc)?,
        Work::Read { desc, bytes } => {
            push_desc(alloc, &mut out, desc)?;
            out.push_str(" in")?;
            push_bytes(&mut out, bytes.as_slice())?;
        }
        Work::Edit { desc, bytes, edits } => {
            push_desc(alloc, &mut out, desc)?;
            out.push_str(" in")?;
            push_bytes(&mut out, bytes.as_slice())?;
            push_edits(alloc, &mut out, edits.as_slice())?;
        }
    }
    Ok(out)
}

fn push_edits(alloc: Global, out: &mut String, edits: &[Edit]) -> Result<(), AllocError> {
    for edit in edits {
        out.push_str(" then")?;
        push_path(out, edit.path.as_slice())?;
        out.push_str(" to ")?;
        push_value(alloc, out, &edit.value)?;
    }
    Ok(())
}

fn push_path(out: &mut String, path: &[Step]) -> Result<(), AllocError> {
    for step in path {
        match step {
            Step::Field(n) => write!(out, " field {n}")?,
            Step::Item(n) => write!(out, " item {n}")?,
            Step::Ok => out.push_str(" ok")?,
            Step::Err => out.push_str(" err")?,
            Step::Some => out.push_str(" some")?,
        }
    }
    Ok(())
}

#[cycle(telling)]
fn push_desc(alloc: Global, out: &mut String, desc: &Desc) -> Result<(), AllocError> {
    match desc {
        Desc::Prim(primitive) => write!(out, "{primitive:?}"),
        Desc::Struct {
            name,
            module,
            version,
            fields,
            align,
        } => {
            let (name, module) = (name.as_str(), module.as_str());
            write!(out, "{module}.{name} {version} {align:?} [")?;
            push_fields(alloc, out, fields.as_slice())?;
            out.push_str("]")
        }
        Desc::Array { item, len } => {
            write!(out, "{len} times ")?;
            push_desc(alloc, out, item)
        }
        Desc::Union { ok, err } => {
            push_one(alloc, out, "union", ok)?;
            push_one(alloc, out, " and", err)
        }
        Desc::Result { ok, err } => {
            push_one(alloc, out, "result", ok)?;
            push_one(alloc, out, " and", err)
        }
        Desc::Option { some } => push_one(alloc, out, "option", some),
        Desc::CoreOption { some } => push_one(alloc, out, "core option", some),
        Desc::CoreResult { ok, err } => {
            push_one(alloc, out, "core result", ok)?;
            push_one(alloc, out, " and", err)
        }
        Desc::Wrap { kind, inner } => push_one(alloc, out, &format!(in alloc; "{kind:?}")?, inner),
        Desc::StableIf { value, cond } => {
            push_one(alloc, out, "stable if", value)?;
            push_one(alloc, out, " and", cond)
        }
        Desc::Pointer { kind, pointee } => {
            push_one(alloc, out, &format!(in alloc; "{kind:?}")?, pointee)
        }
        Desc::NoNiches {
            size,
            align,
            niches,
            indirections,
        } => write!(out, "no niches {size} {align} {niches:?} {indirections}"),
        Desc::Leaf(leaf) => push_leaf(out, leaf),
    }
}

#[cycle(telling)]
fn push_one(alloc: Global, out: &mut String, word: &str, desc: &Desc) -> Result<(), AllocError> {
    out.push_str(word)?;
    out.push_str(" of ")?;
    push_desc(alloc, out, desc)
}

#[cycle(telling)]
fn push_fields(alloc: Global, out: &mut String, fields: &[Field]) -> Result<(), AllocError> {
    for field in fields {
        out.push_str(field.name.as_str())?;
        out.push_str(": ")?;
        push_desc(alloc, out, &field.ty)?;
        out.push_str(",")?;
    }
    Ok(())
}

fn push_leaf(out: &mut String, leaf: &LeafDesc) -> Result<(), AllocError> {
    let (name, module) = (leaf.name.as_str(), leaf.module.as_str());
    write!(out, "leaf {module}.{name} {} {}", leaf.size, leaf.align)?;
    write!(out, " {:?} {} free", leaf.niches, leaf.indirections)?;
    push_entries(out, leaf.free.as_slice())?;
    for forbid in leaf.forbidden.as_slice() {
        match forbid {
            Forbid::Pattern(pairs) => {
                out.push_str(" pattern")?;
                push_entries(out, pairs.as_slice())?;
            }
            Forbid::Range { offset, min, max } => write!(out, " range {offset}:{min}-{max}")?,
        }
    }
    Ok(())
}

fn push_entries(out: &mut String, entries: &[(u64, u8)]) -> Result<(), AllocError> {
    for (offset, byte) in entries {
        write!(out, " {offset}:{byte}")?;
    }
    Ok(())
}

fn push_bytes(out: &mut String, bytes: &[u8]) -> Result<(), AllocError> {
    for byte in bytes {
        write!(out, " {byte}")?;
    }
    Ok(())
}

#[cycle(telling_values)]
fn push_value(alloc: Global, out: &mut String, value: &Value) -> Result<(), AllocError> {
    match value {
        Value::Unit => out.push_str("unit"),
        Value::Int {
            magnitude,
            negative,
        } => {
            let sign = if *negative { "-" } else { "+" };
            write!(out, "{sign}{magnitude}")
        }
        Value::Bool(truth) => write!(out, "{truth}"),
        Value::Order(order) => write!(out, "{order:?}"),
        Value::Bytes(bytes) => {
            out.push_str("bytes")?;
            push_bytes(out, bytes.as_slice())
        }
        Value::List(values) => {
            out.push_str("[")?;
            push_values(alloc, out, values.as_slice())?;
            out.push_str("]")
        }
        Value::Ok(payload) => push_variant(alloc, out, "ok ", payload),
        Value::Err(payload) => push_variant(alloc, out, "err ", payload),
        Value::Some(payload) => push_variant(alloc, out, "some ", payload),
        Value::None => out.push_str("none"),
    }
}

#[cycle(telling_values)]
fn push_variant(
    alloc: Global,
    out: &mut String,
    word: &str,
    payload: &Value,
) -> Result<(), AllocError> {
    out.push_str(word)?;
    push_value(alloc, out, payload)
}

#[cycle(telling_values)]
fn push_values(alloc: Global, out: &mut String, values: &[Value]) -> Result<(), AllocError> {
    for value in values {
        push_value(alloc, out, value)?;
        out.push_str(",")?;
    }
    Ok(())
}
