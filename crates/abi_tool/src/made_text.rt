//! The lines of a made job.

ghost use Rattle.std.specs.Prelude.{◌≡◌, IfOk, OnOk};
ghost use Rattle.std.specs.List.{sum};
ghost use Rattle.abi_tool.specs.Lines.{Adds, number_line, free_bits, back_line, made_text};

use abi_det::Layout;
use abi_num::{OutOfMemory, Text};
use abi_pack::Image;
use std::alloc::{AllocError, Global};
use std::fmt::Write;

/// The lines of the image of the made job of so many fields; `back` tells whether reading gives its value again.
#[tactic(auto, unfolding(crate::specs::Lines::made_text))]
pub fn made_text(alloc: Global, count: u32, back: bool, image: &Image) -> Result<Text, OutOfMemory>
    ensures { IfOk result (λ text. text ≡ made_text count back image.now) }
{
    let mut out = String::new(alloc);
    push_number(&mut out, "made", u128::from(count))?;
    push_number(&mut out, "size", u128::from(image.layout.size()))?;
    push_number(&mut out, "free", free_bits(&image.layout))?;
    push_number(&mut out, "sums", image.placed.as_slice().len() as u128)?;
    push_number(&mut out, "total", total(image.bytes.as_slice()))?;
    push_back(&mut out, back)?;
    Ok(Text::from(out))
}

#[tactic(auto, unfolding(crate::specs::Lines::number_line))]
fn push_number(out: &mut String, word: &str, number: u128) -> Result<(), AllocError>
    ensures { OnOk result (Adds out.old out.new (number_line word.now number)) }
{
    write!(out, "{word} {number}\n")
}

#[tactic(auto, unfolding(crate::specs::Lines::back_line))]
fn push_back(out: &mut String, back: bool) -> Result<(), AllocError>
    ensures { OnOk result (Adds out.old out.new (back_line back)) }
{
    out.push_str(if back { "back yes\n" } else { "back no\n" })
}

// How many bits of a layout are free.
#[tactic(auto, unfolding(crate::specs::Lines::free_bits))]
fn free_bits(layout: &Layout) -> u128
    ensures { result ≡ free_bits layout.now }
{
    let mut bits = 0;
    'bytes: for at in 0..layout.size() {
        bits += u128::from(layout.unused().byte_at(at).count_ones());
    }
    bits
}

// The sum of the bytes.
fn total(bytes: &[u8]) -> u128
    ensures { result ≡ sum bytes.now }
{
    let mut total = 0;
    'bytes: for byte in bytes {
        total += u128::from(*byte);
    }
    total
}
