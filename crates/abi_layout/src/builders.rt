ghost use Rattle.std.specs.Prelude.{◌≡◌, ◌≤◌, ◌<◌, ◌+◌, ◌*◌, ◌==◌, ℕ, max, bit_or, IsTrue, IfOk, if◌then◌else◌};
ghost use Rattle.std.specs.Int.{next_multiple_of};
ghost use Rattle.abi_num.specs.Alignment.{IsAlignment};
ghost use Rattle.abi_bits.specs.Pairs.{are_below};
ghost use Rattle.abi_bits.specs.Mask.{mask_at, IsMask, entries_below};
ghost use Rattle.abi_det.specs.Frame.{IsLawful};
ghost use Rattle.abi_det.specs.FrameOf.{frame};
ghost use Rattle.abi_layout.specs.Builders.{IsOpen, start_after, whole_between, byte_from, counted, after, pair, rounded_to, closed, closed_at, overlaid, repeated, bare};

use abi_bits::{BitMask, ForbiddenValues, MAX_SIZE, SaturatingAddValue};
use abi_det::{Layout, RawLayout};
use abi_num::{Alignment, OutOfMemory};
use std::alloc::Global;

/// `t` after `start` bytes: at the next multiple of its alignment, with the bytes up to there free.
/// The resulting size is at most `MAX_SIZE`.
pub fn aligned_after(alloc: Global, t: &Layout, start: u64) -> Result<RawLayout, OutOfMemory>
    requires { start_after start t.now + t.now.size ≤ MAX_SIZE }
    ensures { IfOk result (λ raw. frame raw ≡ after t.now start) }
{
    let from = start.next_multiple_of(t.align());
    let unused = with_field(BitMask::new(alloc), start, from, t)?;
    let forbidden = t.forbidden().shift(alloc, from)?;
    Ok(RawLayout {
        size: from + t.size(),
        align: t.align(),
        forbidden,
        unused,
        niches: t.niches(),
        indirections: t.indirections(),
    })
}

/// The field `b` after the fields `a`, which keep the rule of lawful layouts but for the size,
/// which need be no multiple of the alignment. The resulting size is at most `MAX_SIZE`.
pub fn field_pair(alloc: Global, a: &RawLayout, b: &Layout) -> Result<RawLayout, OutOfMemory>
    requires open { IsOpen (frame a.now) }
    requires room { start_after a.now.size b.now + b.now.size ≤ MAX_SIZE }
    ensures same { IfOk result (λ raw. frame raw ≡ pair (frame a.now) b.now) }
    ensures built { IfOk result (λ raw. IsOpen (frame raw)) }
{
    let before = a.copy(alloc)?;
    let pair = push_field(alloc, before, b)?;
    Ok(pair)
}

/// As `field_pair`, on fields that are handed in whole.
pub(crate) fn push_field(
    alloc: Global,
    before: RawLayout,
    field: &Layout,
) -> Result<RawLayout, OutOfMemory>
    requires open { IsOpen (frame before) }
    requires room { start_after before.size field.now + field.now.size ≤ MAX_SIZE }
    ensures same { IfOk result (λ raw. frame raw ≡ pair (frame before) field.now) }
    ensures lawful { IfOk result (λ _. IsLawful field.now) }
{
    let start = before.size.next_multiple_of(field.align());
    let end = start + field.size();
    let unused = with_field(before.unused, before.size, start, field)?;
    let moved = field.forbidden().shift(alloc, start)?;
    let forbidden = ForbiddenValues::either(alloc, before.forbidden, moved)?;
    let together = before.niches.saturating_add(field.niches());
    Ok(RawLayout {
        size: end,
        align: before.align.max(field.align()),
        forbidden,
        unused,
        niches: counted(end == before.size + field.size(), together),
        indirections: before.indirections | field.indirections(),
    })
}

/// The fields `t` as a struct: the size is rounded up to the alignment, and the added bytes are
/// free. `t` keeps the rule of lawful layouts but for the size, which need be no multiple of the
/// alignment.
#[tactic(auto, using(crate::proofs::Opening::open_parts))]
pub fn struct_of(_alloc: Global, t: RawLayout) -> Result<Layout, OutOfMemory>
    requires { IsOpen (frame t) }
    ensures { IfOk result (λ l. l ≡ closed (frame t)) }
{
    let align = t.align;
    let layout = rounded_to(t, align)?;
    Ok(layout)
}

/// The fields `t` as a struct at a requested alignment: the size is rounded up to the larger
/// alignment, and of the added bytes those up to the rounding at the fields' own alignment are
/// free. `t` is as in `struct_of`.
#[tactic(auto, using(crate::proofs::Opening::open_parts, abi_det::proofs::Sizes::alignment_max))]
pub fn aligned_struct(_alloc: Global, t: RawLayout, align: Alignment) -> Result<Layout, OutOfMemory>
    requires { IsOpen (frame t) }
    ensures { IfOk result (λ l. l ≡ closed_at (frame t) align) }
{
    let whole = t.align.max(align.get());
    let layout = rounded_to(t, whole)?;
    Ok(layout)
}

/// The size rounded up to a multiple of `whole`, which is at least the alignment.
fn rounded_to(t: RawLayout, whole: u64) -> Result<Layout, OutOfMemory>
    requires open { IsOpen (frame t) }
    requires aligned { IsAlignment whole }
    requires larger { t.align ≤ whole }
    ensures { IfOk result (λ l. l ≡ rounded_to (frame t) whole) }
{
    let own = t.size.next_multiple_of(t.align);
    let size = t.size.next_multiple_of(whole);
    let unused = with_whole(t.unused, t.size, own)?;
    Ok(Layout::from_lawful(RawLayout {
        size,
        align: whole,
        forbidden: t.forbidden,
        unused,
        niches: counted(size == t.size, t.niches),
        indirections: t.indirections,
    }))
}

/// Either of two in the same bytes: nothing is free or forbidden. Takes no memory.
pub fn union_of(alloc: Global, ok: &Layout, err: &Layout) -> Layout
    ensures { result ≡ overlaid ok.now err.now }
{
    let align = ok.align().max(err.align());
    let size = ok.size().max(err.size()).next_multiple_of(align);
    let indirections = ok.indirections() | err.indirections();
    bare(alloc, size, align, SaturatingAddValue::B0, indirections)
}

/// Several of one in a row, at most 128 and of at most `MAX_SIZE` bytes in all: one alone passes on
/// what it has.
pub fn array_of(alloc: Global, item: &Layout, len: u64) -> Result<Layout, OutOfMemory>
    requires few { len ≤ 128 }
    requires room { item.now.size * len ≤ MAX_SIZE }
    ensures { IfOk result (λ l. l ≡ repeated item.now len) }
{
    if len == 1 {
        let copy = item.copy(alloc)?;
        return Ok(copy);
    }
    let size = item.size() * len;
    Ok(bare(
        alloc,
        size,
        item.align(),
        niches_of_row(len),
        item.indirections(),
    ))
}

/// The count of niches of several in a row: none where there is none.
fn niches_of_row(len: u64) -> SaturatingAddValue
    ensures { result ≡ (if len == 0 then SaturatingAddValue.B0 else SaturatingAddValue.Saturator) }
{
    if len == 0 {
        SaturatingAddValue::B0
    } else {
        SaturatingAddValue::Saturator
    }
}

/// The layout of bytes of which none is free or forbidden.
pub(crate) fn bare(
    alloc: Global,
    size: u64,
    align: u64,
    niches: SaturatingAddValue,
    indirections: bool,
) -> Layout
    requires { IsLawful (bare size align niches indirections) }
    ensures { result ≡ bare size align niches indirections }
{
    Layout::from_lawful(RawLayout {
        size,
        align,
        forbidden: ForbiddenValues::End,
        unused: BitMask::new(alloc),
        niches,
        indirections,
    })
}

/// A count of niches, which a byte that was added makes many.
fn counted(same: bool, niches: SaturatingAddValue) -> SaturatingAddValue
    ensures { result ≡ counted same niches }
{
    if same {
        niches
    } else {
        SaturatingAddValue::Saturator
    }
}

/// The free bits of what ends at `end`, and after it of `field` at `start`, with the bytes between.
#[tactic(auto, using(crate::proofs::Making::moved_free_below))]
fn with_field(unused: BitMask, end: u64, start: u64, field: &Layout) -> Result<BitMask, OutOfMemory>
    requires below { IsTrue (are_below end unused) }
    requires ordered { end ≤ start }
    requires room { start + field.now.size ≤ MAX_SIZE }
    ensures { IfOk result (λ mask. mask ≡ entries_below
        (λ at. bit_or (mask_at unused at)
        (bit_or (whole_between end start at) (byte_from start field.now at)))
        (start + field.now.size)) }
{
    let padded = with_whole(unused, end, start)?;
    let mask = padded.with_moved(field.unused(), start)?;
    Ok(mask)
}

/// The set with all bits of the bytes from `from` up to `to`, which lie past every byte of it.
#[tactic(auto, using(crate::proofs::Making::whole_more, crate::proofs::Making::whole_none_yet, crate::proofs::Making::pushed_below))]
fn with_whole(mut unused: BitMask, from: u64, to: u64) -> Result<BitMask, OutOfMemory>
    requires below { IsTrue (are_below from unused) }
    requires ordered { from ≤ to }
    requires within { to ≤ MAX_SIZE }
    ensures valid { IfOk result (λ mask. IsMask mask) }
    ensures below { IfOk result (λ mask. IsTrue (are_below to mask)) }
    ensures bytes { IfOk result (λ mask. (at : ℕ) →
        mask_at mask at ≡ bit_or (mask_at unused at) (whole_between from to at)) }
{
    for at in from..to {
        unused.push_byte(at, 255)?;
    }
    Ok(unused)
}
