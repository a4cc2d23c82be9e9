//! Reports of descriptions.

ghost use Rattle.std.specs.Prelude.{◌≡◌, None, IfOk, IfErr, OnOk};
ghost use Rattle.abi_det.specs.Offers.{One};
ghost use Rattle.abi_report.specs.Identifier.{identifier};
ghost use Rattle.abi_report.specs.Reports.{tree as reported, field_trees, report, no_field};
ghost use Rattle.abi_layout.specs.CoreSums.{is_empty};
ghost use Rattle.abi_layout.specs.Faults.{IsFault, desc_fault};
ghost use Rattle.abi_layout.specs.Frames.{written_frame};
ghost use Rattle.abi_layout.specs.ReportsOf.{HasSides, HaveSides, followed, plain, one_field, holder, array_name, pointer_name, wrap_report, result_report, sum_report, core_report, report_tree, field_reports};
ghost use Rattle.abi_layout.specs.Trees.{tree, branches, prim};

use crate::desc::{Desc, Field, PointerKind, WrapKind};
use crate::desc_error::DescError;
use crate::layouts::layout_of;
use crate::names::{STABLE_IMPLS, report_module, report_name};
use crate::part::Sort;
use crate::prim::Primitive;
use abi_num::{Items, OutOfMemory, Target, Text};
use abi_report::{FieldList, FieldReport, TyTy, TypeReport, gen_id};
use std::alloc::Global;

/// The report of a description on a target. Refused as `layout_of` is.
///
/// The description is laid out once, and what `Err` of a core result holds once more, for each core
/// result around it.
#[tactic(auto, using(crate::proofs::Sides::has_sides))]
pub fn report_of(alloc: Global, target: &Target, desc: &Desc) -> Result<TypeReport, DescError>
    ensures faultless { IfOk result (λ _. desc_fault One target.now (tree desc.now) ≡ None) }
    ensures report { IfOk result (λ r. reported r ≡ report_tree One target.now (tree desc.now)) }
    ensures err { IfErr result (IsFault (desc_fault One target.now (tree desc.now))) }
{
    layout_of(alloc, target, desc)?;
    let report = report_part(alloc, target, desc)?;
    Ok(report)
}

/// The identifier of a description on a target. Refused as `layout_of` is.
#[tactic(auto, using(crate::proofs::Sides::supported))]
pub fn id_of(alloc: Global, target: &Target, desc: &Desc) -> Result<u64, DescError>
    ensures faultless { IfOk result (λ _. desc_fault One target.now (tree desc.now) ≡ None) }
    ensures id { IfOk result (λ id.
        id ≡ identifier target.now (report_tree One target.now (tree desc.now))) }
    ensures err { IfErr result (IsFault (desc_fault One target.now (tree desc.now))) }
{
    let report = report_of(alloc, target, desc)?;
    Ok(gen_id(&report, target))
}

/// The report of a description without a fault.
#[cycle(reports)]
#[tactic(auto, using(crate::proofs::Views::tree_struct, crate::proofs::Views::tree_core_option, crate::proofs::FieldReports::option_payload))]
fn report_part(alloc: Global, target: &Target, desc: &Desc) -> Result<TypeReport, OutOfMemory>
    requires { HasSides One target.now (tree desc.now) }
    ensures { IfOk result (λ r. reported r ≡ report_tree One target.now (tree desc.now)) }
{
    match desc {
        Desc::Prim(prim) => {
            let name = report_name(alloc, target, *prim)?;
            bare(alloc, name, report_module(*prim))
        }
        Desc::Struct {
            name,
            module,
            version,
            fields,
            ..
        } => {
            let fields = report_fields(alloc, target, fields.as_slice())?;
            let name = Text::new(alloc, name.as_str())?;
            let module = Text::new(alloc, module.as_str())?;
            Ok(of_parts(name, module, fields, TyTy::Struct, *version))
        }
        Desc::Array { item, len } => {
            let item = report_part(alloc, target, item)?;
            let name = array_name(alloc, *len)?;
            holder(alloc, name, STABLE_IMPLS, item)
        }
        Desc::Union { .. } => {
            let name = Text::new(alloc, "Union")?;
            bare(alloc, name, "stabby_abi::istable")
        }
        Desc::Result { ok, err } => {
            let ok = report_part(alloc, target, ok)?;
            let err = report_part(alloc, target, err)?;
            packed_result(alloc, ok, err)
        }
        Desc::Option { some } => {
            let some = report_part(alloc, target, some)?;
            packed_option(alloc, target, some)
        }
        Desc::CoreOption { some } => {
            let some = report_part(alloc, target, some)?;
            compiled_sum(alloc, Sort::OfOption, true, some)
        }
        Desc::CoreResult { ok, err } => {
            if has_no_bytes(alloc, target, err)? {
                let payload = report_part(alloc, target, ok)?;
                compiled_sum(alloc, Sort::OfResult, true, payload)
            } else {
                let payload = report_part(alloc, target, err)?;
                compiled_sum(alloc, Sort::OfResult, false, payload)
            }
        }
        Desc::Wrap { kind, inner } => {
            let inner = report_part(alloc, target, inner)?;
            wrapper(alloc, *kind, inner)
        }
        Desc::StableIf { value, .. } => {
            let report = report_part(alloc, target, value)?;
            Ok(report)
        }
        Desc::Pointer { kind, pointee } => {
            let pointee = report_part(alloc, target, pointee)?;
            let name = Text::new(alloc, pointer_name(*kind))?;
            holder(alloc, name, STABLE_IMPLS, pointee)
        }
        Desc::NoNiches { .. } => {
            let name = Text::new(alloc, "NoNiches")?;
            bare(alloc, name, "stabby_abi")
        }
        Desc::Leaf(leaf) => {
            let name = Text::new(alloc, leaf.name.as_str())?;
            bare(alloc, name, leaf.module.as_str())
        }
    }
}

/// The fields of a struct, each with the report of its type.
#[cycle(reports)]
#[tactic(auto, using(crate::proofs::FieldReports::sides_at, crate::proofs::FieldReports::one_more, crate::proofs::FieldReports::none_left))]
fn report_fields(alloc: Global, target: &Target, fields: &[Field]) -> Result<FieldList, OutOfMemory>
    requires { HaveSides One target.now (branches fields.now) }
    ensures { IfOk result (λ list.
        field_trees list ≡ field_reports One target.now (branches fields.now)) }
{
    let mut reports = Items::new(alloc);
    for field in fields {
        let ty = report_part(alloc, target, &field.ty)?;
        push_field(alloc, &mut reports, field.name.as_str(), ty)?;
    }
    Ok(reports)
}

/// Whether a description without a fault has no bytes, and no alignment to keep.
fn has_no_bytes(alloc: Global, target: &Target, desc: &Desc) -> Result<bool, OutOfMemory>
    requires { desc_fault One target.now (tree desc.now) ≡ None }
    ensures { IfOk result (λ found.
        found ≡ is_empty (written_frame One target.now (tree desc.now))) }
{
    match layout_of(alloc, target, desc) {
        Ok(layout) => Ok(layout.size() == 0 && layout.align() == 1),
        Err(DescError::OutOfMemory) => Err(OutOfMemory),
        Err(_) => unreachable!(),
    }
}

#[tactic(auto, using(abi_report::proofs::Views::tree_out))]
fn of_parts(
    name: Text,
    module_name: Text,
    fields: FieldList,
    tyty: TyTy,
    version: u32,
) -> TypeReport
    ensures { reported result ≡ report name module_name (field_trees fields) tyty version }
{
    TypeReport {
        name,
        module: module_name,
        fields,
        tyty,
        version,
    }
}

/// Adds a field at the end.
fn push_field(
    alloc: Global,
    fields: &mut FieldList,
    name: &str,
    ty: TypeReport,
) -> Result<(), OutOfMemory>
    ensures { OnOk result (field_trees fields.new
        ≡ followed (field_trees fields.old) (one_field name.now (reported ty))) }
{
    let name = Text::new(alloc, name)?;
    fields.push(FieldReport { name, ty })?;
    Ok(())
}

fn one_field(alloc: Global, name: &str, ty: TypeReport) -> Result<FieldList, OutOfMemory>
    ensures { IfOk result (λ list. field_trees list ≡ one_field name.now (reported ty)) }
{
    let mut fields = Items::new(alloc);
    push_field(alloc, &mut fields, name, ty)?;
    Ok(fields)
}

/// A type without fields.
fn bare(alloc: Global, name: Text, module_name: &str) -> Result<TypeReport, OutOfMemory>
    ensures { IfOk result (λ r. reported r ≡ plain name module_name.now no_field) }
{
    let module_name = Text::new(alloc, module_name)?;
    let fields = Items::new(alloc);
    Ok(of_parts(name, module_name, fields, TyTy::Struct, 0))
}

/// A type that holds another as its field `inner`.
fn holder(
    alloc: Global,
    name: Text,
    module_name: &str,
    inner: TypeReport,
) -> Result<TypeReport, OutOfMemory>
    ensures { IfOk result (λ r. reported r ≡ holder name module_name.now (reported inner)) }
{
    let fields = one_field(alloc, "inner", inner)?;
    let module_name = Text::new(alloc, module_name)?;
    Ok(of_parts(name, module_name, fields, TyTy::Struct, 0))
}

/// A packed result.
fn packed_result(alloc: Global, ok: TypeReport, err: TypeReport) -> Result<TypeReport, OutOfMemory>
    ensures { IfOk result (λ r. reported r ≡ result_report (reported ok) (reported err)) }
{
    let mut fields = Items::new(alloc);
    push_field(alloc, &mut fields, "Ok", ok)?;
    push_field(alloc, &mut fields, "Err", err)?;
    let name = Text::new(alloc, "Result")?;
    let module_name = Text::new(alloc, "stabby_abi::result")?;
    let rules = TyTy::Enum(Text::new(alloc, "stabby")?);
    Ok(of_parts(name, module_name, fields, rules, 1))
}

/// A packed option, which holds the result of its contents and `()`.
fn packed_option(
    alloc: Global,
    target: &Target,
    some: TypeReport,
) -> Result<TypeReport, OutOfMemory>
    ensures { IfOk result (λ r. reported r ≡ sum_report Sort.OfOption (reported some)
        (report_tree One target.now (prim Primitive.Unit))) }
{
    let name = report_name(alloc, target, Primitive::Unit)?;
    let none = bare(alloc, name, report_module(Primitive::Unit))?;
    let inner = packed_result(alloc, some, none)?;
    let name = Text::new(alloc, "Option")?;
    holder(alloc, name, "stabby_abi::option", inner)
}

/// A sum of the compiler's with this payload, which is the first variant where `first`.
fn compiled_sum(
    alloc: Global,
    names: Sort,
    first: bool,
    payload: TypeReport,
) -> Result<TypeReport, OutOfMemory>
    ensures { IfOk result (λ r. reported r ≡ core_report names first (reported payload)) }
{
    let (name, module_name, variant) = match names {
        Sort::OfResult if first => ("Result", "core::result", "Ok"),
        Sort::OfResult => ("Result", "core::result", "Err"),
        Sort::OfOption => ("Option", "core::option", "Some"),
    };
    let fields = one_field(alloc, variant, payload)?;
    let name = Text::new(alloc, name)?;
    let module_name = Text::new(alloc, module_name)?;
    let rules = TyTy::Enum(Text::new(alloc, "rust")?);
    Ok(of_parts(name, module_name, fields, rules, 0))
}

#[tactic(auto, using(abi_report::proofs::Views::tree_out))]
fn wrapper(alloc: Global, kind: WrapKind, inner: TypeReport) -> Result<TypeReport, OutOfMemory>
    ensures { IfOk result (λ r. reported r ≡ wrap_report kind (reported inner)) }
{
    match kind {
        WrapKind::ManuallyDrop => bare(alloc, inner.name, STABLE_IMPLS),
        WrapKind::MaybeUninit => bare(alloc, inner.name, STABLE_IMPLS),
        WrapKind::UnsafeCell => bare(alloc, inner.name, STABLE_IMPLS),
        WrapKind::Pin => {
            let name = Text::new(alloc, "core::pin::Pin")?;
            holder(alloc, name, STABLE_IMPLS, inner)
        }
        WrapKind::NotPod => {
            let name = Text::new(alloc, "NotPod")?;
            holder(alloc, name, "stabby_abi::istable", inner)
        }
        WrapKind::OrInfallible => Ok(inner),
    }
}

/// The name of an array tells its length.
#[tactic(auto, unfolding(crate::specs::ReportsOf::array_name))]
fn array_name(alloc: Global, len: u64) -> Result<Text, OutOfMemory>
    ensures { IfOk result (λ text. text ≡ array_name len) }
{
    Ok(Text::from(format!(in alloc; "[T;{len}]")?))
}

fn pointer_name(kind: PointerKind) -> &'static str
    ensures { result.now ≡ pointer_name kind }
{
    match kind {
        PointerKind::ConstPtr => "*const",
        PointerKind::MutPtr => "*mut",
        PointerKind::AtomicPtr => "core::sync::atomic::AtomicPtr",
        PointerKind::NonNull => "core::ptr::NonNull",
        PointerKind::Ref => "&",
        PointerKind::RefMut => "&mut",
    }
}
