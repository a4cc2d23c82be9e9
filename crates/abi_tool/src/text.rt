//! The lines that the program writes: of a packed value, of a layout, of a job that has a fault.

ghost use Rattle.std.specs.Prelude.{◌≡◌, IfOk, OnOk};
ghost use Rattle.abi_bits.specs.Forbidden.{items};
ghost use Rattle.abi_tool.specs.Lines.{Adds, size_line, align_line, niches_line, indirections_line, entry_text, entries_text, free_line, pairs_text, more_pairs_text, items_text, forbidden_line, layout_lines, bytes_line, image_text, layout_text, refused_line};

use crate::fault::Fault;
use crate::sum_text::{push_refused_sums, push_sums};
use abi_bits::{BitMask, ForbiddenValues, SaturatingAddValue};
use abi_det::Layout;
use abi_layout::Placed;
use abi_num::{OutOfMemory, Text};
use abi_pack::Image;
use std::alloc::{AllocError, Global};
use std::fmt::Write;

/// The lines of a packed value: its layout, its sums and its bytes.
#[tactic(auto, unfolding(crate::specs::Lines::image_text))]
pub fn text_of(alloc: Global, image: &Image) -> Result<Text, OutOfMemory>
    ensures { IfOk result (λ text. text ≡ image_text image.now) }
{
    let mut out = String::new(alloc);
    push_layout(&mut out, &image.layout)?;
    push_sums(&mut out, image.placed.as_slice())?;
    push_bytes(alloc, &mut out, image.bytes.as_slice())?;
    Ok(Text::from(out))
}

/// The lines of a layout and its sums, each sum followed by what refuses it a niche, place by place.
#[tactic(auto, unfolding(crate::specs::Lines::layout_text))]
pub fn layout_text(alloc: Global, layout: &Layout, sums: &[Placed]) -> Result<Text, OutOfMemory>
    ensures { IfOk result (λ text. text ≡ layout_text layout.now sums.now) }
{
    let mut out = String::new(alloc);
    push_layout(&mut out, layout)?;
    push_refused_sums(&mut out, sums)?;
    Ok(Text::from(out))
}

/// The line of bytes.
pub fn bytes_text(alloc: Global, bytes: &[u8]) -> Result<Text, OutOfMemory>
    ensures { IfOk result (λ text. text ≡ bytes_line bytes.now) }
{
    let mut out = String::new(alloc);
    push_bytes(alloc, &mut out, bytes)?;
    Ok(Text::from(out))
}

/// The line of a job that has a fault.
#[tactic(auto, unfolding(crate::specs::Lines::refused_line))]
pub fn refused(alloc: Global, fault: Fault) -> Result<Text, OutOfMemory>
    ensures { IfOk result (λ text. text ≡ refused_line fault) }
{
    Ok(Text::from(format!(in alloc; "refused: {fault}\n")?))
}

#[tactic(auto, unfolding(crate::specs::Lines::layout_lines))]
fn push_layout(out: &mut String, layout: &Layout) -> Result<(), AllocError>
    ensures { OnOk result (Adds out.old out.new (layout_lines layout.now)) }
{
    push_size(out, layout.size())?;
    push_align(out, layout.align())?;
    push_niches(out, layout.niches())?;
    push_indirections(out, layout.indirections())?;
    push_free(out, layout.unused())?;
    push_forbidden(out, layout.forbidden())
}

#[tactic(auto, unfolding(crate::specs::Lines::size_line))]
fn push_size(out: &mut String, size: u64) -> Result<(), AllocError>
    ensures { OnOk result (Adds out.old out.new (size_line size)) }
{
    write!(out, "size {size}\n")
}

#[tactic(auto, unfolding(crate::specs::Lines::align_line))]
fn push_align(out: &mut String, align: u64) -> Result<(), AllocError>
    ensures { OnOk result (Adds out.old out.new (align_line align)) }
{
    write!(out, "align {align}\n")
}

#[tactic(auto, unfolding(crate::specs::Lines::niches_line))]
fn push_niches(out: &mut String, niches: SaturatingAddValue) -> Result<(), AllocError>
    ensures { OnOk result (Adds out.old out.new (niches_line niches)) }
{
    match niches {
        SaturatingAddValue::B0 => out.push_str("niches 0\n"),
        SaturatingAddValue::B1 => out.push_str("niches 1\n"),
        SaturatingAddValue::Saturator => out.push_str("niches many\n"),
    }
}

#[tactic(auto, unfolding(crate::specs::Lines::indirections_line))]
fn push_indirections(out: &mut String, indirections: bool) -> Result<(), AllocError>
    ensures { OnOk result (Adds out.old out.new (indirections_line indirections)) }
{
    out.push_str(if indirections {
        "indirections yes\n"
    } else {
        "indirections no\n"
    })
}

#[tactic(auto, unfolding(crate::specs::Lines::free_line))]
fn push_free(out: &mut String, free: &BitMask) -> Result<(), AllocError>
    ensures { OnOk result (Adds out.old out.new (free_line free.now)) }
{
    out.push_str("free")?;
    push_entries(out, free)?;
    out.push_str("\n")
}

#[tactic(auto, unfolding(crate::specs::Lines::entries_text))]
fn push_entries(out: &mut String, free: &BitMask) -> Result<(), AllocError>
    ensures { OnOk result (Adds out.old out.new (entries_text free.now)) }
{
    let mut from = 0;
    'entries: while let Some((offset, mask)) = free.next_entry(from) {
        push_entry(out, offset, mask)?;
        from = offset + 1;
    }
    Ok(())
}

fn push_entry(out: &mut String, offset: u64, mask: u8) -> Result<(), AllocError>
    ensures { OnOk result (Adds out.old out.new (entry_text (offset, mask))) }
{
    write!(out, " {offset}:{mask}")
}

#[tactic(auto, unfolding(crate::specs::Lines::forbidden_line))]
fn push_forbidden(out: &mut String, forbidden: &ForbiddenValues) -> Result<(), AllocError>
    ensures { OnOk result (Adds out.old out.new (forbidden_line (items forbidden.now))) }
{
    out.push_str("forbidden")?;
    push_items(out, forbidden)?;
    out.push_str("\n")
}

#[tactic(auto, unfolding(crate::specs::Lines::items_text, crate::specs::Lines::item_text))]
fn push_items(out: &mut String, forbidden: &ForbiddenValues) -> Result<(), AllocError>
    ensures { OnOk result (Adds out.old out.new (items_text (items forbidden.now))) }
{
    match forbidden {
        ForbiddenValues::End => Ok(()),
        ForbiddenValues::Array(pattern) => {
            out.push_str(" ")?;
            push_pairs(out, pattern.pairs())
        }
        ForbiddenValues::ForbiddenRange { min, max, offset } => {
            write!(out, " {offset}={min}-{max}")
        }
        ForbiddenValues::Or(left, right) => {
            push_items(out, left)?;
            push_items(out, right)
        }
    }
}

/// Adds pairs of an offset and the value of its byte, joined by commas.
#[tactic(auto, unfolding(crate::specs::Lines::pairs_text))]
pub fn push_pairs(out: &mut String, pairs: &[(u64, u8)]) -> Result<(), AllocError>
    ensures { OnOk result (Adds out.old out.new (pairs_text pairs.now)) }
{
    match pairs.split_first() {
        Some(((offset, byte), more)) => {
            write!(out, "{offset}={byte}")?;
            push_more_pairs(out, more)
        }
        None => Ok(()),
    }
}

#[tactic(auto, unfolding(crate::specs::Lines::more_pairs_text))]
fn push_more_pairs(out: &mut String, pairs: &[(u64, u8)]) -> Result<(), AllocError>
    ensures { OnOk result (Adds out.old out.new (more_pairs_text pairs.now)) }
{
    for (offset, byte) in pairs {
        write!(out, ",{offset}={byte}")?;
    }
    Ok(())
}

#[tactic(auto, unfolding(crate::specs::Lines::bytes_line))]
fn push_bytes(alloc: Global, out: &mut String, bytes: &[u8]) -> Result<(), AllocError>
    ensures { OnOk result (Adds out.old out.new (bytes_line bytes.now)) }
{
    out.push_str("bytes")?;
    if !bytes.is_empty() {
        out.push_str(" ")?;
        out.push_str(hex::encode(alloc, bytes)?.as_str())?;
    }
    out.push_str("\n")
}
