ghost use Rattle.std.specs.Prelude.{◌≡◌, ◌≢◌, ◌<◌, ◌≤◌, ◌+◌, ℕ, None, Some, IsTrue, IfOk, IfErr, MatchOption, MatchResult};
ghost use Rattle.abi_num.specs.Alignment.{is_alignment};
ghost use Rattle.abi_det.specs.FrameOf.{frame};
ghost use Rattle.abi_layout.specs.Builders.{IsOpen, start_after};
ghost use Rattle.abi_layout.specs.Structs.{end_of, struct_frame};
ghost use Rattle.abi_layout.specs.Folds.{opened, folded, no_bytes, closed_by, AreLawful};
ghost use Rattle.abi_layout.specs.Faults.{IsFault, align_fault, struct_fault};

use crate::builders::{aligned_struct, push_field, struct_of};
use crate::desc_error::DescError;
use abi_bits::{BitMask, ForbiddenValues, MAX_SIZE, SaturatingAddValue};
use abi_det::{Layout, RawLayout};
use abi_num::{Alignment, OutOfMemory};
use std::alloc::Global;

/// The layout of a struct of these fields, which is part number `part` of a description; `align`
/// may request an alignment in bytes. Refused with `IllFormed` where that is none, and with
/// `TooLarge` where the struct's size passes `MAX_SIZE`.
pub fn struct_layout(
    alloc: Global,
    part: u32,
    fields: &[Layout],
    align: Option<u64>,
) -> Result<Layout, DescError>
    requires { AreLawful fields.now }
    ensures faultless { IfOk result (λ _. struct_fault part fields.now align ≡ None) }
    ensures layout { IfOk result (λ l. l ≡ struct_frame fields.now align) }
    ensures err { IfErr result (IsFault (struct_fault part fields.now align)) }
{
    let alignment = requested(part, align)?;
    let opened = open_struct(alloc, fields)?;
    match opened {
        None => Err(DescError::TooLarge { part }),
        Some(raw) => {
            let layout = closed_struct(alloc, raw, alignment)?;
            Ok(layout)
        }
    }
}

/// The alignment that the struct with number `part` requests, if it does.
fn requested(part: u32, align: Option<u64>) -> Result<Option<Alignment>, DescError>
    ensures ok { IfOk result (λ found. (align_fault part align ≡ None) × (found ≡ align)) }
    ensures err { IfErr result (λ error. align_fault part align ≡ Some error) }
{
    match align {
        None => Ok(None),
        Some(bytes) => match Alignment::new(bytes) {
            Some(alignment) => Ok(Some(alignment)),
            None => Err(DescError::IllFormed { part }),
        },
    }
}

/// The fields one after the other; `None` where they end past `MAX_SIZE`.
fn open_struct(alloc: Global, fields: &[Layout]) -> Result<Option<RawLayout>, OutOfMemory>
    requires { AreLawful fields.now }
    ensures { IfOk result (λ found. MatchOption found
        (MAX_SIZE < end_of 0 fields.now)
        (λ raw. (frame raw ≡ opened fields.now) × IsOpen (frame raw))) }
{
    match fields.split_first() {
        None => Ok(Some(no_bytes(alloc))),
        Some((first, others)) => {
            let raw = first.copy(alloc)?.into_raw();
            let found = with_fields(alloc, raw, others)?;
            Ok(found)
        }
    }
}

/// The fields `others` after those of `raw`; `None` where they end past `MAX_SIZE`.
fn with_fields(
    alloc: Global,
    raw: RawLayout,
    others: &[Layout],
) -> Result<Option<RawLayout>, OutOfMemory>
    requires built { IsOpen (frame raw) }
    requires lawful { AreLawful others.now }
    ensures { IfOk result (λ found. MatchOption found
        (MAX_SIZE < end_of raw.size others.now)
        (λ whole. (frame whole ≡ folded (frame raw) others.now) × IsOpen (frame whole))) }
{
    let mut whole = raw;
    for field in others {
        if end_after(whole.size, field) > MAX_SIZE {
            return Ok(None);
        }
        whole = push_field(alloc, whole, field)?;
    }
    Ok(Some(whole))
}

/// Where a field that comes after `end` bytes ends, in bytes. `end` is at most `MAX_SIZE`.
pub fn end_after(end: u64, field: &Layout) -> u64
    requires { end ≤ MAX_SIZE }
    ensures { result ≡ start_after end field.now + field.now.size }
{
    end.next_multiple_of(field.align()) + field.size()
}

/// A struct without fields, before it is closed.
fn no_bytes(alloc: Global) -> RawLayout
    ensures { frame result ≡ no_bytes }
{
    RawLayout {
        size: 0,
        align: 1,
        forbidden: ForbiddenValues::End,
        unused: BitMask::new(alloc),
        niches: SaturatingAddValue::B0,
        indirections: false,
    }
}

/// The struct of these fields, closed at the alignment that is requested, or at their own.
fn closed_struct(
    alloc: Global,
    raw: RawLayout,
    align: Option<Alignment>,
) -> Result<Layout, OutOfMemory>
    requires { IsOpen (frame raw) }
    ensures { IfOk result (λ l. l ≡ closed_by align (frame raw)) }
{
    match align {
        None => {
            let layout = struct_of(alloc, raw)?;
            Ok(layout)
        }
        Some(align) => {
            let layout = aligned_struct(alloc, raw, align)?;
            Ok(layout)
        }
    }
}
