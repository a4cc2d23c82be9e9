//! The job of `made`: a struct of so many fields, which have six types in turn.

ghost use Rattle.std.specs.Prelude.{◌≡◌, IsTrue, IfOk, IfSome, codes, map};
ghost use Rattle.abi_layout.specs.Trees.{tree};
ghost use Rattle.abi_pack.specs.View.{plain};
ghost use Rattle.abi_document.specs.Documents.{HasFewEdits, plain_job};
ghost use Rattle.abi_document.specs.Made.{is_count, made_count, pair_type, field_type, number, truth_of, result_of, pair_of, bytes_of, field_value, made_field, made_fields, made_values, made_desc, made_value, le64, made_job};

use crate::integers::magnitude_of;
use crate::job::{Job, Work};
use abi_layout::{Desc, Field, FieldDescs, Prim};
use abi_num::{OutOfMemory, Target, Text};
use abi_pack::{Edits, Value, Values};
use std::alloc::Global;

/// The most fields of a made job.
const MOST_FIELDS: u128 = 1500;

/// The number of fields that a word tells, from 1 to 1,500 and without leading zeros; `None` exactly where it tells
/// none.
pub fn made_count(word: &str) -> Option<u32>
    ensures told { result ≡ made_count word.now }
    ensures range { IfSome result (λ count. IsTrue (is_count count)) }
{
    let count = magnitude_of(word)?;
    if 1 <= count && count <= MOST_FIELDS {
        Some(count as u32)
    } else {
        None
    }
}

/// The job of `pack` that has so many fields, from 1 to 1,500, on the target `le64`, with a value of its struct and
/// without edits. Refused where memory is.
pub fn made_job(alloc: Global, count: u32) -> Result<Job, OutOfMemory>
    requires { IsTrue (is_count count) }
    ensures told { IfOk result (λ job. plain_job job ≡ made_job count) }
    ensures few_edits { IfOk result (λ job. HasFewEdits job.work) }
{
    Ok(Job {
        target: le64(),
        work: Work::Pack {
            desc: made_desc(alloc, count)?,
            value: made_value(alloc, count)?,
            edits: Edits::new(alloc),
        },
    })
}

fn le64() -> Target
    ensures { result ≡ le64 }
{
    Target {
        little: true,
        pointer: 8,
        u64_align: 8,
        u128_align: 16,
    }
}

// The struct of the fields with the numbers below `count`.
fn made_desc(alloc: Global, count: u32) -> Result<Desc, OutOfMemory>
    ensures { IfOk result (λ desc. tree desc ≡ made_desc count) }
{
    Ok(Desc::Struct {
        name: Text::new(alloc, "Made")?,
        module: Text::new(alloc, "demo")?,
        version: 0,
        fields: made_fields(alloc, count)?,
        align: None,
    })
}

#[tactic(auto, using(crate::proofs::Numbered::one_more))]
fn made_fields(alloc: Global, count: u32) -> Result<FieldDescs, OutOfMemory>
    ensures { IfOk result (λ fields. map (λ f. (f.name, tree f.ty)) fields ≡ made_fields count) }
{
    let mut fields = FieldDescs::new(alloc);
    'fields: for i in 0..count {
        fields.push(made_field(alloc, i)?)?;
    }
    Ok(fields)
}

fn made_field(alloc: Global, i: u32) -> Result<Field, OutOfMemory>
    ensures { IfOk result (λ f. (f.name, tree f.ty) ≡ made_field i) }
{
    Ok(Field {
        name: Text::from(format!(in alloc; "f{i}")?),
        ty: field_type(alloc, i)?,
    })
}

// The type of field number `i`.
#[tactic(auto, unfolding(crate::specs::Made::field_type))]
fn field_type(alloc: Global, i: u32) -> Result<Desc, OutOfMemory>
    ensures { IfOk result (λ desc. tree desc ≡ field_type i) }
{
    match i % 6 {
        0 => Ok(Desc::Prim(Prim::U8)),
        1 => Ok(Desc::Prim(Prim::U32)),
        2 => Ok(Desc::Option {
            some: Box::new(alloc, Desc::Prim(Prim::Bool))?,
        }),
        3 => Ok(Desc::Result {
            ok: Box::new(alloc, Desc::Prim(Prim::U16))?,
            err: Box::new(alloc, Desc::Prim(Prim::NonZeroU8))?,
        }),
        4 => Ok(Desc::Option {
            some: Box::new(alloc, pair_type(alloc)?)?,
        }),
        _ => Ok(Desc::Array {
            item: Box::new(alloc, Desc::Prim(Prim::U8))?,
            len: 3,
        }),
    }
}

// The struct of a `u32` and a `bool`.
fn pair_type(alloc: Global) -> Result<Desc, OutOfMemory>
    ensures { IfOk result (λ desc. tree desc ≡ pair_type) }
{
    let mut fields = FieldDescs::new(alloc);
    fields.push(Field {
        name: Text::new(alloc, "f0")?,
        ty: Desc::Prim(Prim::U32),
    })?;
    fields.push(Field {
        name: Text::new(alloc, "f1")?,
        ty: Desc::Prim(Prim::Bool),
    })?;
    Ok(Desc::Struct {
        name: Text::new(alloc, "S")?,
        module: Text::new(alloc, "demo")?,
        version: 0,
        fields,
        align: None,
    })
}

// A value of the struct.
fn made_value(alloc: Global, count: u32) -> Result<Value, OutOfMemory>
    ensures { IfOk result (λ value. plain value ≡ made_value count) }
{
    Ok(Value::List(made_values(alloc, count)?))
}

#[tactic(auto, using(crate::proofs::Numbered::one_more))]
fn made_values(alloc: Global, count: u32) -> Result<Values, OutOfMemory>
    ensures { IfOk result (λ values. map plain values ≡ made_values count) }
{
    let mut values = Values::new(alloc);
    'values: for i in 0..count {
        values.push(field_value(alloc, i)?)?;
    }
    Ok(values)
}

// The value of field number `i`.
#[tactic(auto, unfolding(crate::specs::Made::field_value))]
fn field_value(alloc: Global, i: u32) -> Result<Value, OutOfMemory>
    ensures { IfOk result (λ value. plain value ≡ field_value i) }
{
    let (turn, round) = (i % 6, i / 6);
    match turn {
        0 => Ok(number(u64::from(i % 256))),
        1 => Ok(number(7 * u64::from(i))),
        2 => truth_of(alloc, round),
        3 => result_of(alloc, round, i),
        4 => pair_of(alloc, round, i),
        _ => bytes_of(alloc, round, i),
    }
}

fn number(n: u64) -> Value
    ensures { plain result ≡ number n }
{
    Value::Int {
        magnitude: u128::from(n),
        negative: false,
    }
}

fn truth_of(alloc: Global, round: u32) -> Result<Value, OutOfMemory>
    ensures { IfOk result (λ value. plain value ≡ truth_of round) }
{
    match round % 3 {
        0 => Ok(Value::None),
        1 => Ok(Value::Some(Box::new(alloc, Value::Bool(false))?)),
        _ => Ok(Value::Some(Box::new(alloc, Value::Bool(true))?)),
    }
}

fn result_of(alloc: Global, round: u32, i: u32) -> Result<Value, OutOfMemory>
    ensures { IfOk result (λ value. plain value ≡ result_of round i) }
{
    if round % 2 == 0 {
        Ok(Value::Ok(Box::new(alloc, number(u64::from(i)))?))
    } else {
        Ok(Value::Err(Box::new(alloc, number(u64::from(1 + i % 255)))?))
    }
}

fn pair_of(alloc: Global, round: u32, i: u32) -> Result<Value, OutOfMemory>
    ensures { IfOk result (λ value. plain value ≡ pair_of round i) }
{
    if round % 2 != 0 {
        return Ok(Value::None);
    }
    let mut values = Values::new(alloc);
    values.push(number(u64::from(i)))?;
    values.push(Value::Bool(round % 4 == 0))?;
    Ok(Value::Some(Box::new(alloc, Value::List(values))?))
}

fn bytes_of(alloc: Global, round: u32, i: u32) -> Result<Value, OutOfMemory>
    ensures { IfOk result (λ value. plain value ≡ bytes_of round i) }
{
    let mut values = Values::new(alloc);
    values.push(number(u64::from(i % 256)))?;
    values.push(number(u64::from(round % 256)))?;
    values.push(number(7))?;
    Ok(Value::List(values))
}
