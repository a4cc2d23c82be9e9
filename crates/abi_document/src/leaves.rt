//! Types that are described by their layout alone, from trees of JSON.

ghost use Rattle.std.specs.Prelude.{◌≡◌, IfOk};
ghost use Rattle.serde_json.specs.View.{view, items_view};
ghost use Rattle.abi_layout.specs.Trees.{tree};
ghost use Rattle.abi_document.specs.Forms.{Tells};
ghost use Rattle.abi_document.specs.Leaves.{count_of, outline_of, no_niches_of, entry_of, entries_of, pattern_of, range_of, forbid_of, forbids_of, free_in, forbidden_in, leaf_of};

use crate::forms::{
    byte_of, has_only, items_under, long_of, long_under, name_under, pair_of, sole_member,
    triple_of, truth_under,
};
use abi_bits::{Pairs, SaturatingAddValue};
use abi_layout::{Desc, Forbid, Forbids, LeafDesc};
use abi_num::{OutOfMemory, Text};
use serde_json::Value as Json;
use std::alloc::Global;

/// What every type says that is described by its layout.
#[derive(Debug, Clone, Copy, PartialEq, Eq)]
struct Outline {
    size: u64,
    align: u64,
    niches: SaturatingAddValue,
    indirections: bool,
}

/// Bytes of which nothing is known but their number, from an object of what is said of them; `None` exactly
/// where the tree is no such object.
#[tactic(auto, unfolding(crate::specs::Leaves::no_niches_of))]
pub fn no_niches_of(json: &Json) -> Option<Desc>
    ensures { Tells tree (no_niches_of (view json.now)) result }
{
    if !has_only(&["size", "align", "niches", "indirections"], json) {
        return None;
    }
    let outline = outline_of(json)?;
    Some(Desc::NoNiches {
        size: outline.size,
        align: outline.align,
        niches: outline.niches,
        indirections: outline.indirections,
    })
}

/// A leaf, from its description; `None` exactly where the tree is none.
#[tactic(auto, unfolding(crate::specs::Leaves::leaf_of))]
pub fn leaf_of(alloc: Global, json: &Json) -> Result<Option<LeafDesc>, OutOfMemory>
    ensures { IfOk result (λ leaf. leaf ≡ leaf_of (view json.now)) }
{
    if !has_only(
        &[
            "name",
            "module",
            "size",
            "align",
            "free",
            "forbidden",
            "niches",
            "indirections",
        ],
        json,
    ) {
        return Ok(None);
    }
    let Some(name) = name_under("name", json) else {
        return Ok(None);
    };
    let Some(module) = name_under("module", json) else {
        return Ok(None);
    };
    let Some(outline) = outline_of(json) else {
        return Ok(None);
    };
    let Some(free) = free_in(alloc, json)? else {
        return Ok(None);
    };
    let Some(forbidden) = forbidden_in(alloc, json)? else {
        return Ok(None);
    };
    Ok(Some(LeafDesc {
        name: Text::new(alloc, name)?,
        module: Text::new(alloc, module)?,
        size: outline.size,
        align: outline.align,
        free,
        forbidden,
        niches: outline.niches,
        indirections: outline.indirections,
    }))
}

/// Size, alignment, count of niches, and whether there are pointers, each under its key.
fn outline_of(json: &Json) -> Option<Outline>
    ensures { result ≡ outline_of (view json.now) }
{
    Some(Outline {
        size: long_under("size", json)?,
        align: long_under("align", json)?,
        niches: count_of(json.get("niches")?)?,
        indirections: truth_under("indirections", json)?,
    })
}

/// A count of niches by its name.
fn count_of(json: &Json) -> Option<SaturatingAddValue>
    ensures { result ≡ count_of (view json.now) }
{
    match json.as_str()? {
        "none" => Some(SaturatingAddValue::B0),
        "one" => Some(SaturatingAddValue::B1),
        "many" => Some(SaturatingAddValue::Saturator),
        _ => None,
    }
}

/// The free bits under the key `free`.
fn free_in(alloc: Global, json: &Json) -> Result<Option<Pairs>, OutOfMemory>
    ensures { IfOk result (λ free. free ≡ free_in (view json.now)) }
{
    match items_under("free", json) {
        Some(items) => entries_of(alloc, items),
        None => Ok(None),
    }
}

/// What is forbidden under the key `forbidden`.
fn forbidden_in(alloc: Global, json: &Json) -> Result<Option<Forbids>, OutOfMemory>
    ensures { IfOk result (λ forbidden. forbidden ≡ forbidden_in (view json.now)) }
{
    match items_under("forbidden", json) {
        Some(items) => forbids_of(alloc, items),
        None => Ok(None),
    }
}

/// Masks or values of bytes in order; `None` exactly where an item is none.
#[tactic(auto, using(crate::proofs::Arrays::one_more, crate::proofs::Arrays::stop, crate::proofs::Arrays::at_end))]
fn entries_of(alloc: Global, items: &[Json]) -> Result<Option<Pairs>, OutOfMemory>
    ensures { IfOk result (λ entries. entries ≡ entries_of (items_view items.now)) }
{
    let mut entries = Pairs::new(alloc);
    for item in items {
        match entry_of(item) {
            Some(entry) => entries.push(entry)?,
            None => return Ok(None),
        }
    }
    Ok(Some(entries))
}

/// The mask or the value of a byte, from an array of its offset and it.
fn entry_of(json: &Json) -> Option<(u64, u8)>
    ensures { result ≡ entry_of (view json.now) }
{
    let (offset, byte) = pair_of(json)?;
    Some((long_of(offset)?, byte_of(byte)?))
}

/// What is forbidden, in order; `None` exactly where an item forbids nothing.
#[tactic(auto, using(crate::proofs::Arrays::one_more, crate::proofs::Arrays::stop, crate::proofs::Arrays::at_end))]
fn forbids_of(alloc: Global, items: &[Json]) -> Result<Option<Forbids>, OutOfMemory>
    ensures { IfOk result (λ forbids. forbids ≡ forbids_of (items_view items.now)) }
{
    let mut forbids = Forbids::new(alloc);
    for item in items {
        match forbid_of(alloc, item)? {
            Some(forbid) => forbids.push(forbid)?,
            None => return Ok(None),
        }
    }
    Ok(Some(forbids))
}

/// What an item forbids, by the one key of an object.
#[tactic(auto, unfolding(crate::specs::Leaves::forbid_of))]
fn forbid_of(alloc: Global, json: &Json) -> Result<Option<Forbid>, OutOfMemory>
    ensures { IfOk result (λ forbid. forbid ≡ forbid_of (view json.now)) }
{
    match sole_member(json) {
        Some(("pattern", content)) => pattern_of(alloc, content),
        Some(("range", content)) => Ok(range_of(content)),
        _ => Ok(None),
    }
}

/// One value of some bytes.
fn pattern_of(alloc: Global, json: &Json) -> Result<Option<Forbid>, OutOfMemory>
    ensures { IfOk result (λ forbid. forbid ≡ pattern_of (view json.now)) }
{
    match json.as_array() {
        Some(items) => Ok(entries_of(alloc, items.as_slice())?.map(Forbid::Pattern)),
        None => Ok(None),
    }
}

/// The values of a byte from the least to the greatest.
fn range_of(json: &Json) -> Option<Forbid>
    ensures { result ≡ range_of (view json.now) }
{
    let (offset, min, max) = triple_of(json)?;
    Some(Forbid::Range {
        offset: long_of(offset)?,
        min: byte_of(min)?,
        max: byte_of(max)?,
    })
}
