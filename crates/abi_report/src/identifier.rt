ghost use Rattle.std.specs.Prelude.{◌≡◌, ◌++◌, IsTrue, take};
ghost use Rattle.std.specs.Int.{from_le_bytes, w64};
ghost use Rattle.sha2.specs.Sha256.{sha256};
ghost use Rattle.abi_num.specs.Target.{is_row};
ghost use Rattle.abi_report.specs.Identifier.{Got, hashed, fields_hashed, field_hashed, identifier};
ghost use Rattle.abi_report.specs.Kinds.{kind_row};
ghost use Rattle.abi_report.specs.Reports.{tree, named, field_trees};

use crate::ty_ty::TyTy;
use crate::type_report::{FieldReport, TypeReport};
use abi_num::Target;
use sha2::{Digest, Sha256};

/// The identifier of a report on a target, which must be a supported one. Takes no memory.
pub fn gen_id(report: &TypeReport, target: &Target) -> u64
    requires { IsTrue (is_row target.now) }
    ensures { result ≡ identifier target.now (tree report.now) }
{
    first_eight(report) ^ u64::from_le_bytes(target.arch_info())
}

/// The first eight bytes of the digest of a report's hashed bytes, read with the least byte first.
fn first_eight(report: &TypeReport) -> u64
    ensures { result ≡ from_le_bytes w64 (take 8 (sha256 (hashed (tree report.now)))) }
{
    let mut hasher = Sha256::new();
    take_in(report, &mut hasher);
    let [a, b, c, d, e, f, g, h, ..] = hasher.finalize();
    u64::from_le_bytes([a, b, c, d, e, f, g, h])
}

#[cycle(taking)]
#[tactic(auto, using(crate::proofs::Views::tree_out))]
fn take_in(report: &TypeReport, hasher: &mut Sha256)
    ensures { Got hasher.old hasher.new (hashed (tree report.now)) }
{
    take_in_head(
        report.module.as_str(),
        report.name.as_str(),
        &report.tyty,
        hasher,
    );
    take_in_fields(report.fields.as_slice(), hasher);
}

fn take_in_head(module_name: &str, name: &str, kind: &TyTy, hasher: &mut Sha256)
    ensures { Got hasher.old hasher.new (module_name.now ++ name.now ++ (kind_row kind.now).1) }
{
    hasher.update(module_name);
    hasher.update(name);
    take_in_kind(kind, hasher);
}

fn take_in_kind(kind: &TyTy, hasher: &mut Sha256)
    ensures { Got hasher.old hasher.new ((kind_row kind.now).1) }
{
    match kind {
        TyTy::Struct => hasher.update(&[0u8]),
        TyTy::Union => hasher.update(&[1u8]),
        TyTy::Enum(rules) => hasher.update(rules.as_str()),
    }
}

#[cycle(taking)]
#[tactic(auto, using(crate::proofs::Views::named_out))]
fn take_in_field(field: &FieldReport, hasher: &mut Sha256)
    ensures { Got hasher.old hasher.new (field_hashed (named field.now)) }
{
    hasher.update(field.name.as_str());
    take_in(&field.ty, hasher);
}

#[cycle(taking)]
fn take_in_fields(fields: &[FieldReport], hasher: &mut Sha256)
    ensures { Got hasher.old hasher.new (fields_hashed (field_trees fields.now)) }
{
    for field in fields {
        take_in_field(field, hasher);
    }
}
