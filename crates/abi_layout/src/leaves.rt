ghost use Rattle.std.specs.Prelude.{◌≡◌, ◌≤◌, ◌==◌, ◌∷◌, ◌++◌, ◌&&◌, [], true, not, Some, IsTrue, IfOk, map};
ghost use Rattle.std.specs.List.{list_all};
ghost use Rattle.abi_bits.specs.Pairs.{are_bytes, is_pattern};
ghost use Rattle.abi_bits.specs.Forbidden.{alone, tree, joined_from, tree_of, offer, offered, is_solid_byte, is_solid_item};
ghost use Rattle.abi_bits.specs.Mask.{mask_at};
ghost use Rattle.abi_layout.specs.Leaves.{is_sized, rise, AreRising, have_bits, is_byte_item, is_leaf, leaf_frame};
ghost use Rattle.abi_layout.specs.Trees.{item_of, leaf_items};

use crate::desc::{Forbid, LeafDesc};
use abi_bits::{BitMask, ForbiddenValues, MAX_SIZE, Pattern};
use abi_det::{Layout, RawLayout};
use abi_num::{Alignment, OutOfMemory};
use std::alloc::Global;

/// The greatest number of items that a leaf may forbid.
pub const MAX_ITEMS: usize = 256;

/// Whether the size is a multiple of the alignment, and that is one.
pub(crate) fn is_sized(size: u64, align: u64) -> bool
    ensures { result ≡ is_sized size align }
{
    match Alignment::new(align) {
        Some(align) => size % align.get() == 0,
        None => false,
    }
}

/// Whether the leaf keeps the rules of its form. Takes no memory, and time that grows as its lists
/// together, times the logarithm of the number of free bytes.
#[tactic(auto, using(crate::proofs::LeafRules::leaf_tests))]
pub(crate) fn is_leaf(leaf: &LeafDesc) -> bool
    ensures { result ≡ is_leaf leaf.now }
{
    let free = leaf.free.as_slice();
    let forbidden = leaf.forbidden.as_slice();
    if !is_sized(leaf.size, leaf.align) {
        return false;
    }
    if !rise(leaf.size, free) {
        return false;
    }
    if !have_bits(free) {
        return false;
    }
    if forbidden.len() > MAX_ITEMS {
        return false;
    }
    if !are_items(leaf.size, forbidden) {
        return false;
    }
    are_solid(leaf.size, free, forbidden)
}

/// Whether the offsets rise and lie below `size`. Each pair's second number is one of a byte.
fn rise(size: u64, pairs: &[(u64, u8)]) -> bool
    ensures { result ≡ (rise size 0 pairs.now && are_bytes pairs.now) }
{
    let mut least = 0;
    for (offset, byte) in pairs {
        // Does nothing: that it is one of a byte is wanted.
        let _byte = *byte;
        if *offset < least || size <= *offset {
            return false;
        }
        least = *offset + 1;
    }
    true
}

/// Whether each mask has a bit.
fn have_bits(entries: &[(u64, u8)]) -> bool
    ensures { result ≡ have_bits entries.now }
{
    for (_, mask) in entries {
        if *mask == 0 {
            return false;
        }
    }
    true
}

/// Whether each pattern names some bytes below `size`, each once and in rising order.
fn are_items(size: u64, forbidden: &[Forbid]) -> bool
    ensures { result ≡ list_all (is_byte_item size) (map item_of forbidden.now) }
{
    for item in forbidden {
        if !is_item(size, item) {
            return false;
        }
    }
    true
}

fn is_item(size: u64, item: &Forbid) -> bool
    ensures { result ≡ is_byte_item size (item_of item.now) }
{
    match item {
        Forbid::Pattern(pairs) => {
            let pairs = pairs.as_slice();
            !pairs.is_empty() && rise(size, pairs)
        }
        Forbid::Range { min, .. } => {
            // Does nothing: that it is one of a byte is wanted.
            let _byte = *min;
            true
        }
    }
}

/// Whether each item lies in bytes below `size` without a free bit, and each range rises. The
/// offsets of the free bits rise, and each of their masks has a bit.
fn are_solid(size: u64, free: &[(u64, u8)], forbidden: &[Forbid]) -> bool
    requires rise { rise size 0 free.now ≡ true }
    requires bits { have_bits free.now ≡ true }
    ensures { result ≡ list_all (is_solid_item size free.now) (map item_of forbidden.now) }
{
    for item in forbidden {
        if !is_solid(size, free, item) {
            return false;
        }
    }
    true
}

fn is_solid(size: u64, free: &[(u64, u8)], item: &Forbid) -> bool
    requires rise { rise size 0 free.now ≡ true }
    requires bits { have_bits free.now ≡ true }
    ensures { result ≡ is_solid_item size free.now (item_of item.now) }
{
    match item {
        Forbid::Pattern(pairs) => are_solid_bytes(size, free, pairs.as_slice()),
        Forbid::Range { offset, min, max } => is_solid_byte(size, free, *offset) && *min < *max,
    }
}

/// Whether each of the bytes is below `size` and has no free bit.
fn are_solid_bytes(size: u64, free: &[(u64, u8)], pairs: &[(u64, u8)]) -> bool
    requires rise { rise size 0 free.now ≡ true }
    requires bits { have_bits free.now ≡ true }
    ensures { result ≡ list_all (λ p. is_solid_byte size free.now p.0) pairs.now }
{
    for (offset, _) in pairs {
        if !is_solid_byte(size, free, *offset) {
            return false;
        }
    }
    true
}

fn is_solid_byte(size: u64, free: &[(u64, u8)], at: u64) -> bool
    requires rise { rise size 0 free.now ≡ true }
    requires bits { have_bits free.now ≡ true }
    ensures { result ≡ is_solid_byte size free.now at }
{
    at < size && !has_entry(free, at)
}

/// Whether the byte at the offset `at` has a bit of the set with these entries, whose offsets rise
/// below some bound. Halves the entries until it finds the byte.
#[cycle(has_entry)]
fn has_entry(entries: &[(u64, u8)], at: u64) -> bool
    requires rise { AreRising entries.now }
    requires bits { have_bits entries.now ≡ true }
    ensures { result ≡ not (mask_at entries.now at == 0) }
{
    let (before, rest) = entries.split_at(entries.len() / 2);
    match rest.split_first() {
        None => false,
        Some(((offset, _), after)) => {
            if at < *offset {
                has_entry(before, at)
            } else if *offset < at {
                has_entry(after, at)
            } else {
                true
            }
        }
    }
}

/// The free bits of a leaf, which keeps the rules of its form and is at most `MAX_SIZE` large.
#[tactic(auto, using(crate::proofs::LeafRules::leaf_mask))]
pub(crate) fn free_of(alloc: Global, leaf: &LeafDesc) -> Result<BitMask, OutOfMemory>
    requires form { is_leaf leaf.now ≡ true }
    requires small { leaf.now.size ≤ MAX_SIZE }
    ensures { IfOk result (λ mask. mask ≡ leaf.now.free) }
{
    match BitMask::from_entries(alloc, leaf.free.as_slice())? {
        Some(mask) => Ok(mask),
        None => unreachable!(),
    }
}

/// What the bytes of a leaf never are; the conditions are those of `free_of`.
pub(crate) fn forbidden_of(alloc: Global, leaf: &LeafDesc) -> Result<ForbiddenValues, OutOfMemory>
    requires form { is_leaf leaf.now ≡ true }
    requires small { leaf.now.size ≤ MAX_SIZE }
    ensures { IfOk result (λ values. tree values ≡ tree_of (leaf_items leaf.now)) }
{
    match leaf.forbidden.as_slice().split_first() {
        None => Ok(ForbiddenValues::End),
        Some((first, others)) => {
            let values = values_of(alloc, first)?;
            let all = with_items(alloc, values, others)?;
            Ok(all)
        }
    }
}

/// What the values forbid, and then each of the items.
fn with_items(
    alloc: Global,
    mut values: ForbiddenValues,
    others: &[Forbid],
) -> Result<ForbiddenValues, OutOfMemory>
    requires { IsTrue (list_all is_pattern (offered (map item_of others.now))) }
    ensures { IfOk result (λ all. tree all ≡ joined_from (tree values) (map item_of others.now)) }
{
    for item in others {
        let next = values_of(alloc, item)?;
        values = ForbiddenValues::either(alloc, values, next)?;
    }
    Ok(values)
}

/// What the item forbids; a pattern names some bytes below `MAX_SIZE`, each once and in order.
fn values_of(alloc: Global, item: &Forbid) -> Result<ForbiddenValues, OutOfMemory>
    requires { IsTrue (is_pattern (offer (item_of item.now))) }
    ensures { IfOk result (λ values. tree values ≡ alone (item_of item.now)) }
{
    match item {
        Forbid::Pattern(pairs) => match Pattern::new(alloc, pairs.as_slice())? {
            Some(pattern) => Ok(ForbiddenValues::Array(pattern)),
            None => unreachable!(),
        },
        Forbid::Range { offset, min, max } => Ok(ForbiddenValues::ForbiddenRange {
            min: *min,
            max: *max,
            offset: *offset,
        }),
    }
}

/// The layout of a leaf; the conditions are those of `free_of`.
pub(crate) fn leaf_layout(alloc: Global, leaf: &LeafDesc) -> Result<Layout, OutOfMemory>
    requires form { is_leaf leaf.now ≡ true }
    requires small { leaf.now.size ≤ MAX_SIZE }
    ensures { IfOk result (λ l. l ≡ leaf_frame leaf.now) }
{
    let unused = free_of(alloc, leaf)?;
    let forbidden = forbidden_of(alloc, leaf)?;
    Ok(Layout::from_lawful(RawLayout {
        size: leaf.size,
        align: leaf.align,
        forbidden,
        unused,
        niches: leaf.niches,
        indirections: leaf.indirections,
    }))
}
