ghost use Rattle.std.specs.Prelude.{◌≡◌, ◌≢◌, ◌≤◌, ◌<◌, ◌+◌, ◌^◌, ◌++◌, None, Some, IsTrue, true, IfOk, IfErr, OnOk, insert, vec_len};
ghost use Rattle.abi_num.specs.Target.{is_row};
ghost use Rattle.abi_det.specs.Written.{written_placement, written_sum};
ghost use Rattle.abi_layout.specs.Builders.{start_after};
ghost use Rattle.abi_layout.specs.Faults.{IsFault, part_fault, part_fault_in, struct_fault, sum_fault};
ghost use Rattle.abi_layout.specs.Folds.{AreLawful};
ghost use Rattle.abi_layout.specs.Frames.{written_frame, written_frames};
ghost use Rattle.abi_layout.specs.Structs.{struct_frame};
ghost use Rattle.abi_layout.specs.Trees.{tree, branches, sides, parts, parts_in};
ghost use Rattle.abi_layout.specs.Plans.{sum_layout_at, sum_layout_of, shape_of, shapes_of, is_second, IsNamed, AreNamed};
ghost use Rattle.abi_layout.specs.Shape.{scalar as scalar_shape, fields as fields_shape, sum};
ghost use Rattle.abi_layout.specs.Sums.{numbered_placement, written_sums, written_sums_in};
ghost use Rattle.abi_layout.specs.PartView.{shape, shapes};

use crate::arrays::lay_out_array;
use crate::core_sums::lay_out_core;
use crate::desc::{Desc, Field};
use crate::desc_error::DescError;
use crate::laid_part::LaidPart;
use crate::numbering::MAX_PARTS;
use crate::opaque::{lay_out_bytes, lay_out_leaf, lay_out_union};
use crate::packed_sums::lay_out_sum;
use crate::part::{Compound, Part, PartField, PartFields, Sort};
use crate::placed::Placed;
use crate::primitives::{lay_out_prim, unit_part};
use crate::structs::struct_layout;
use crate::wrappers::{lay_out_conditional, lay_out_pointer, lay_out_wrapper};
use abi_det::{Layout, Rules};
use abi_num::{Items, MAX_ALIGN, OutOfMemory, Target};
use std::alloc::Global;

/// The fields of a struct, laid out.
#[derive(Drop)]
struct LaidFields {
    /// What their bytes mean, each behind its gap.
    fields: PartFields,
    /// Their layouts.
    layouts: Items<Layout>,
    /// The number after that of their last part.
    next: u32,
}

/// Lays out a description whose first part has the number `first`, and adds its packed sums in
/// pre-order to `sums`. Refused with the first fault of a part; what was added then is of no use.
#[cycle(walk)]
#[tactic(auto, using(crate::proofs::Views::tree_struct, crate::proofs::Views::tree_option, crate::proofs::Sounding::parts_lawful, crate::proofs::PartViews::shape_struct))]
pub(crate) fn lay_out_part(
    alloc: Global,
    rules: Rules,
    target: &Target,
    first: u32,
    desc: &Desc,
    sums: &mut Vec<Placed>,
) -> Result<LaidPart, DescError>
    requires row { IsTrue (is_row target.now) }
    requires room { first + parts (tree desc.now) ≤ MAX_PARTS }
    ensures faultless { OnOk result (part_fault rules target.now first (tree desc.now) ≡ None) }
    ensures part { IfOk result (λ f. shape f.part ≡ shape_of rules target.now (tree desc.now)) }
    ensures named { IfOk result (λ f. IsNamed (shape f.part)) }
    ensures layout { IfOk result (λ f. f.layout ≡ written_frame rules target.now (tree desc.now)) }
    ensures next { IfOk result (λ f. f.next ≡ first + parts (tree desc.now)) }
    ensures sums { OnOk result (sums.new.items
        ≡ sums.old.items ++ written_sums rules target.now first (tree desc.now)) }
    ensures err { IfErr result (IsFault (part_fault rules target.now first (tree desc.now))) }
{
    match desc {
        Desc::Prim(prim) => {
            let found = lay_out_prim(alloc, target, first, *prim)?;
            Ok(found)
        }
        Desc::Struct { fields, align, .. } => {
            let fields = lay_out_fields(alloc, rules, target, first, fields.as_slice(), sums)?;
            let found = lay_out_struct(alloc, fields, *align)?;
            Ok(found)
        }
        Desc::Array { item, len } => {
            let item = lay_out_part(alloc, rules, target, first, item, sums)?;
            let found = lay_out_array(alloc, item, *len)?;
            Ok(found)
        }
        Desc::Union { ok, err } => {
            let ok = lay_out_part(alloc, rules, target, first, ok, sums)?;
            let err = lay_out_part(alloc, rules, target, ok.next, err, sums)?;
            Ok(lay_out_union(alloc, ok, err))
        }
        Desc::Result { ok, err } => {
            let at = sums.len();
            let ok = lay_out_part(alloc, rules, target, first, ok, sums)?;
            let err = lay_out_part(alloc, rules, target, ok.next, err, sums)?;
            let found = lay_out_sum(alloc, rules, Sort::OfResult, ok, err, at, sums)?;
            Ok(found)
        }
        Desc::Option { some } => {
            let at = sums.len();
            let some = lay_out_part(alloc, rules, target, first, some, sums)?;
            let none = unit_part(alloc, target, some.next)?;
            let found = lay_out_sum(alloc, rules, Sort::OfOption, some, none, at, sums)?;
            Ok(found)
        }
        Desc::CoreOption { some } => {
            let some = lay_out_part(alloc, rules, target, first, some, sums)?;
            let none = unit_part(alloc, target, some.next)?;
            let found = lay_out_core(alloc, Sort::OfOption, some, none)?;
            Ok(found)
        }
        Desc::CoreResult { ok, err } => {
            let ok = lay_out_part(alloc, rules, target, first, ok, sums)?;
            let err = lay_out_part(alloc, rules, target, ok.next, err, sums)?;
            let found = lay_out_core(alloc, Sort::OfResult, ok, err)?;
            Ok(found)
        }
        Desc::Wrap { kind, inner } => {
            let inner = lay_out_part(alloc, rules, target, first, inner, sums)?;
            Ok(lay_out_wrapper(*kind, inner))
        }
        Desc::StableIf { value, cond } => {
            let value = lay_out_part(alloc, rules, target, first, value, sums)?;
            let part = lay_out_aside(alloc, rules, target, value.next, cond)?;
            Ok(lay_out_conditional(value, part))
        }
        Desc::Pointer { kind, pointee } => {
            let part = lay_out_aside(alloc, rules, target, first, pointee)?;
            let found = lay_out_pointer(alloc, target, part, *kind)?;
            Ok(found)
        }
        Desc::NoNiches {
            size,
            align,
            niches,
            indirections,
        } => {
            let found = lay_out_bytes(alloc, first, *size, *align, *niches, *indirections)?;
            Ok(found)
        }
        Desc::Leaf(leaf) => {
            let found = lay_out_leaf(alloc, first, leaf)?;
            Ok(found)
        }
    }
}

/// The number after the last part of a description that holds no bytes, as a pointee or a
/// condition. Refused as `lay_out_part` is.
#[cycle(walk)]
fn lay_out_aside(
    alloc: Global,
    rules: Rules,
    target: &Target,
    first: u32,
    desc: &Desc,
) -> Result<u32, DescError>
    requires row { IsTrue (is_row target.now) }
    requires room { first + parts (tree desc.now) ≤ MAX_PARTS }
    ensures faultless { OnOk result (part_fault rules target.now first (tree desc.now) ≡ None) }
    ensures next { IfOk result (λ next. next ≡ first + parts (tree desc.now)) }
    ensures err { IfErr result (IsFault (part_fault rules target.now first (tree desc.now))) }
{
    let mut sums = Vec::new(alloc);
    let found = lay_out_part(alloc, rules, target, first, desc, &mut sums)?;
    Ok(found.next)
}

/// Lays out the fields of a struct as `lay_out_part` does a description.
#[cycle(walk)]
fn lay_out_fields(
    alloc: Global,
    rules: Rules,
    target: &Target,
    first: u32,
    fields: &[Field],
    sums: &mut Vec<Placed>,
) -> Result<LaidFields, DescError>
    requires row { IsTrue (is_row target.now) }
    requires room { first + parts_in (branches fields.now) ≤ MAX_PARTS }
    ensures faultless { OnOk result
        (part_fault_in rules target.now first (branches fields.now) ≡ None) }
    ensures fields { IfOk result (λ f. shapes f.fields
        ≡ shapes_of rules target.now 0 (branches fields.now)) }
    ensures named { IfOk result (λ f. AreNamed (shapes f.fields)) }
    ensures layouts { IfOk result (λ f. f.layouts
        ≡ written_frames rules target.now (branches fields.now)) }
    ensures next { IfOk result (λ f. f.next ≡ first + parts_in (branches fields.now)) }
    ensures sums { OnOk result (sums.new.items
        ≡ sums.old.items ++ written_sums_in rules target.now first (branches fields.now)) }
    ensures err { IfErr result
        (IsFault (part_fault_in rules target.now first (branches fields.now))) }
{
    let mut laid = Items::new(alloc);
    let mut layouts = Items::new(alloc);
    let mut end = 0;
    let mut part = first;
    for field in fields {
        let found = lay_out_part(alloc, rules, target, part, &field.ty, sums)?;
        let start = start_after(end, &found.layout);
        let gap = start - end;
        end = start + found.layout.size();
        part = found.next;
        laid.push(PartField {
            gap,
            part: found.part,
        })?;
        layouts.push(found.layout)?;
    }
    Ok(LaidFields {
        fields: laid,
        layouts,
        next: part,
    })
}

/// Where a field that comes after `end` bytes starts.
fn start_after(end: u64, field: &Layout) -> u64
    requires { end ≤ 2 ^ 33 }
    ensures same { result ≡ start_after end field.now }
    ensures later { end ≤ result }
    ensures near { result < end + MAX_ALIGN }
{
    end.next_multiple_of(field.align())
}

/// Lays out the struct of these fields, whose number is the one after theirs; `align` may request
/// an alignment in bytes. Refused with the fault of the struct itself.
#[tactic(auto, using(crate::proofs::PartViews::shape_struct))]
fn lay_out_struct(
    alloc: Global,
    fields: LaidFields,
    align: Option<u64>,
) -> Result<LaidPart, DescError>
    requires lawful { AreLawful fields.layouts }
    requires named { AreNamed (shapes fields.fields) }
    requires room { fields.next < MAX_PARTS }
    ensures faultless { IfOk result (λ _. struct_fault fields.next fields.layouts align ≡ None) }
    ensures part { IfOk result (λ f. shape f.part
        ≡ fields_shape Compound.Struct (struct_frame fields.layouts align).size
        (shapes fields.fields)) }
    ensures named { IfOk result (λ f. IsNamed (shape f.part)) }
    ensures layout { IfOk result (λ f. f.layout ≡ struct_frame fields.layouts align) }
    ensures next { IfOk result (λ f. f.next ≡ fields.next + 1) }
    ensures err { IfErr result (IsFault (struct_fault fields.next fields.layouts align)) }
{
    let layout = struct_layout(alloc, fields.next, fields.layouts.as_slice(), align)?;
    Ok(LaidPart {
        part: Part::Struct {
            fields: fields.fields,
            size: layout.size(),
        },
        layout,
        next: fields.next + 1,
    })
}
