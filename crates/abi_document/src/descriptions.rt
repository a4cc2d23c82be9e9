//! Descriptions of types, from trees of JSON.

ghost use Rattle.std.specs.Prelude.{◌≡◌, IfOk, map, option_map};
ghost use Rattle.serde_json.specs.View.{view, items_view};
ghost use Rattle.abi_layout.specs.Trees.{tree, wrap, pointer as point};
ghost use Rattle.abi_document.specs.Forms.{Tells};
ghost use Rattle.abi_document.specs.Descriptions.{named, boxed, both_boxed, version_of, align_of, field_of, fields_of, struct_of, array_of, pair_at, pointer_of, one_sided_of, form_of, desc_step, desc_at};

use crate::forms::{
    has_only, items_under, long_of, name_of, name_under, pair_of, sole_member, word_of,
};
use crate::leaves::{leaf_of, no_niches_of};
use crate::primitives::{non_x_of, prim_named};
use abi_layout::{Desc, Field, FieldDescs, PointerKind, WrapKind};
use abi_num::{OutOfMemory, Text};
use serde_json::Value as Json;
use std::alloc::Global;

/// A description that nests fewer than that many levels; `None` exactly where the tree is none.
#[cycle(reading)]
#[tactic(auto, using(crate::proofs::Levels::no_level, crate::proofs::Levels::one_level))]
pub fn desc_at(alloc: Global, levels: usize, json: &Json) -> Result<Option<Desc>, OutOfMemory>
    ensures { IfOk result (Tells tree (desc_at levels (view json.now))) }
{
    if levels == 0 {
        return Ok(None);
    }
    desc_step(alloc, levels - 1, json)
}

/// A description of parts that nest fewer than that many levels.
#[cycle(reading)]
#[tactic(auto, unfolding(crate::specs::Descriptions::desc_step))]
fn desc_step(alloc: Global, levels: usize, json: &Json) -> Result<Option<Desc>, OutOfMemory>
    ensures { IfOk result (Tells tree (desc_step (desc_at levels) (view json.now))) }
{
    match json {
        Json::String(name) => Ok(prim_named(name.as_str()).map(Desc::Prim)),
        Json::Object(_) => match sole_member(json) {
            Some((key, content)) => form_of(alloc, levels, key, content),
            None => Ok(None),
        },
        _ => Ok(None),
    }
}

/// A description, from the one key of an object and what it holds.
#[cycle(reading)]
#[tactic(auto, unfolding(crate::specs::Descriptions::form_of))]
fn form_of(
    alloc: Global,
    levels: usize,
    key: &str,
    content: &Json,
) -> Result<Option<Desc>, OutOfMemory>
    ensures { IfOk result (Tells tree (form_of (desc_at levels) key.now (view content.now))) }
{
    match key {
        "struct" => struct_of(alloc, levels, content),
        "array" => array_of(alloc, levels, content),
        "union" => {
            let pair = pair_at(alloc, levels, content)?;
            Ok(pair.map(|(ok, err)| Desc::Union { ok, err }))
        }
        "result" => {
            let pair = pair_at(alloc, levels, content)?;
            Ok(pair.map(|(ok, err)| Desc::Result { ok, err }))
        }
        "core_result" => {
            let pair = pair_at(alloc, levels, content)?;
            Ok(pair.map(|(ok, err)| Desc::CoreResult { ok, err }))
        }
        "stable_if" => {
            let pair = pair_at(alloc, levels, content)?;
            Ok(pair.map(|(value, cond)| Desc::StableIf { value, cond }))
        }
        "non_x" => Ok(non_x_of(content).map(Desc::Prim)),
        "no_niches" => Ok(no_niches_of(content)),
        "leaf" => Ok(leaf_of(alloc, content)?.map(Desc::Leaf)),
        _ => one_sided_of(alloc, levels, key, content),
    }
}

/// A description of one other, from the one key of an object and what it holds.
#[cycle(reading)]
#[tactic(auto, unfolding(crate::specs::Descriptions::one_sided_forms))]
fn one_sided_of(
    alloc: Global,
    levels: usize,
    key: &str,
    content: &Json,
) -> Result<Option<Desc>, OutOfMemory>
    ensures { IfOk result (Tells tree (one_sided_of (desc_at levels) key.now (view content.now))) }
{
    match key {
        "option" => {
            let some = boxed_at(alloc, levels, content)?;
            Ok(some.map(|some| Desc::Option { some }))
        }
        "core_option" => {
            let some = boxed_at(alloc, levels, content)?;
            Ok(some.map(|some| Desc::CoreOption { some }))
        }
        "manually_drop" => wrap_of(alloc, levels, WrapKind::ManuallyDrop, content),
        "maybe_uninit" => wrap_of(alloc, levels, WrapKind::MaybeUninit, content),
        "unsafe_cell" => wrap_of(alloc, levels, WrapKind::UnsafeCell, content),
        "pin" => wrap_of(alloc, levels, WrapKind::Pin, content),
        "not_pod" => wrap_of(alloc, levels, WrapKind::NotPod, content),
        "or_infallible" => wrap_of(alloc, levels, WrapKind::OrInfallible, content),
        _ => pointer_of(alloc, levels, key, content),
    }
}

/// A pointer, from the one key of an object and what it holds.
#[cycle(reading)]
#[tactic(auto, unfolding(crate::specs::Descriptions::pointers))]
fn pointer_of(
    alloc: Global,
    levels: usize,
    key: &str,
    content: &Json,
) -> Result<Option<Desc>, OutOfMemory>
    ensures { IfOk result (Tells tree (pointer_of (desc_at levels) key.now (view content.now))) }
{
    match key {
        "const_ptr" => pointer_to(alloc, levels, PointerKind::ConstPtr, content),
        "mut_ptr" => pointer_to(alloc, levels, PointerKind::MutPtr, content),
        "atomic_ptr" => pointer_to(alloc, levels, PointerKind::AtomicPtr, content),
        "non_null" => pointer_to(alloc, levels, PointerKind::NonNull, content),
        "ref" => pointer_to(alloc, levels, PointerKind::Ref, content),
        "ref_mut" => pointer_to(alloc, levels, PointerKind::RefMut, content),
        _ => Ok(None),
    }
}

/// A wrapper of that kind, from what it wraps.
#[cycle(reading)]
fn wrap_of(
    alloc: Global,
    levels: usize,
    kind: WrapKind,
    json: &Json,
) -> Result<Option<Desc>, OutOfMemory>
    ensures { IfOk result (Tells tree (option_map (wrap kind) (desc_at levels (view json.now)))) }
{
    let inner = boxed_at(alloc, levels, json)?;
    Ok(inner.map(|inner| Desc::Wrap { kind, inner }))
}

/// A pointer of that kind, from what it points to.
#[cycle(reading)]
fn pointer_to(
    alloc: Global,
    levels: usize,
    kind: PointerKind,
    json: &Json,
) -> Result<Option<Desc>, OutOfMemory>
    ensures { IfOk result (Tells tree (option_map (point kind) (desc_at levels (view json.now)))) }
{
    let pointee = boxed_at(alloc, levels, json)?;
    Ok(pointee.map(|pointee| Desc::Pointer { kind, pointee }))
}

/// An array, from a description and how many.
#[cycle(reading)]
fn array_of(alloc: Global, levels: usize, json: &Json) -> Result<Option<Desc>, OutOfMemory>
    ensures { IfOk result (Tells tree (array_of (desc_at levels) (view json.now))) }
{
    let Some((item, len)) = pair_of(json) else {
        return Ok(None);
    };
    let Some(item) = boxed_at(alloc, levels, item)? else {
        return Ok(None);
    };
    let Some(len) = long_of(len) else {
        return Ok(None);
    };
    Ok(Some(Desc::Array { item, len }))
}

/// A description in a box of its own.
#[cycle(reading)]
fn boxed_at(alloc: Global, levels: usize, json: &Json) -> Result<Option<Box<Desc>>, OutOfMemory>
    ensures { IfOk result (Tells boxed (desc_at levels (view json.now))) }
{
    match desc_at(alloc, levels, json)? {
        Some(desc) => Ok(Some(Box::new(alloc, desc)?)),
        None => Ok(None),
    }
}

/// Two descriptions, from an array of them.
#[cycle(reading)]
fn pair_at(
    alloc: Global,
    levels: usize,
    json: &Json,
) -> Result<Option<(Box<Desc>, Box<Desc>)>, OutOfMemory>
    ensures { IfOk result (Tells both_boxed (pair_at (desc_at levels) (view json.now))) }
{
    let Some((first, second)) = pair_of(json) else {
        return Ok(None);
    };
    let Some(first) = boxed_at(alloc, levels, first)? else {
        return Ok(None);
    };
    let Some(second) = boxed_at(alloc, levels, second)? else {
        return Ok(None);
    };
    Ok(Some((first, second)))
}

/// A struct, from its declaration.
#[cycle(reading)]
#[tactic(auto, unfolding(crate::specs::Descriptions::struct_of))]
fn struct_of(alloc: Global, levels: usize, json: &Json) -> Result<Option<Desc>, OutOfMemory>
    ensures { IfOk result (Tells tree (struct_of (desc_at levels) (view json.now))) }
{
    if !has_only(&["name", "module", "fields", "version", "align"], json) {
        return Ok(None);
    }
    let Some(name) = name_under("name", json) else {
        return Ok(None);
    };
    let Some(module) = name_under("module", json) else {
        return Ok(None);
    };
    let Some(version) = version_of(json.get("version")) else {
        return Ok(None);
    };
    let Some(align) = align_of(json.get("align")) else {
        return Ok(None);
    };
    let Some(fields) = items_under("fields", json) else {
        return Ok(None);
    };
    let Some(fields) = fields_of(alloc, levels, fields)? else {
        return Ok(None);
    };
    let name = Text::new(alloc, name)?;
    let module = Text::new(alloc, module)?;
    Ok(Some(Desc::Struct {
        name,
        module,
        version,
        fields,
        align,
    }))
}

/// The version of a declaration, which is 0 where none is said.
fn version_of(json: Option<&Json>) -> Option<u32>
    ensures { result ≡ version_of (option_map (λ said. view said.now) json.entry) }
{
    match json {
        Some(version) => word_of(version),
        None => Some(0),
    }
}

/// The alignment that is requested, if one is.
fn align_of(json: Option<&Json>) -> Option<Option<u64>>
    ensures { result ≡ align_of (option_map (λ said. view said.now) json.entry) }
{
    match json {
        Some(align) => Some(Some(long_of(align)?)),
        None => Some(None),
    }
}

/// Fields in order; `None` exactly where an item is no field.
#[cycle(reading)]
#[tactic(auto, using(crate::proofs::Arrays::go_on, crate::proofs::Arrays::stop, crate::proofs::Arrays::at_end))]
fn fields_of(
    alloc: Global,
    levels: usize,
    items: &[Json],
) -> Result<Option<FieldDescs>, OutOfMemory>
    ensures { IfOk result (Tells (map named) (fields_of (desc_at levels) (items_view items.now))) }
{
    let mut fields = FieldDescs::new(alloc);
    for item in items {
        match field_of(alloc, levels, item)? {
            Some(field) => fields.push(field)?,
            None => return Ok(None),
        }
    }
    Ok(Some(fields))
}

/// A field, from an array of its name and its description.
#[cycle(reading)]
fn field_of(alloc: Global, levels: usize, json: &Json) -> Result<Option<Field>, OutOfMemory>
    ensures { IfOk result (Tells named (field_of (desc_at levels) (view json.now))) }
{
    let Some((name, held)) = pair_of(json) else {
        return Ok(None);
    };
    let Some(name) = name_of(name) else {
        return Ok(None);
    };
    let Some(ty) = desc_at(alloc, levels, held)? else {
        return Ok(None);
    };
    let name = Text::new(alloc, name)?;
    Ok(Some(Field { name, ty }))
}
