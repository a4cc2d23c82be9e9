ghost use Rattle.std.specs.Prelude.{◌≡◌, fold};
ghost use Rattle.abi_report.specs.Fed.{report_fed, fields_fed, field_fed, kind_fed, report_alike, field_alike, kind_alike};
ghost use Rattle.abi_report.specs.Reports.{tree, named, field_trees};

use crate::ty_ty::TyTy;
use crate::type_report::{FieldReport, TypeReport};
use std::hash::{Hash, Hasher};

impl Hash for TyTy {
    ghost hash_input = { kind_fed };

    ghost respects_eq = { kind_alike };

    fn hash<H: Hasher>(&self, state: &mut H) {
        match self {
            TyTy::Struct => 0u8.hash(state),
            TyTy::Union => 1u8.hash(state),
            TyTy::Enum(rules) => {
                2u8.hash(state);
                rules.hash(state);
            }
        }
    }
}

impl Hash for TypeReport {
    ghost hash_input = { λ r. report_fed (tree r) };

    ghost respects_eq = { λ r s e. report_alike (tree r) (tree s) e };

    fn hash<H: Hasher>(&self, state: &mut H) {
        feed(self, state);
    }
}

impl Hash for FieldReport {
    ghost hash_input = { λ f. field_fed (named f) };

    ghost respects_eq = { λ f g e. field_alike (named f) (named g) e };

    fn hash<H: Hasher>(&self, state: &mut H) {
        feed_field(self, state);
    }
}

#[cycle(feed)]
#[tactic(auto, using(crate::proofs::Views::tree_out))]
fn feed<H: Hasher>(report: &TypeReport, state: &mut H)
    ensures { state.new ≡ fold H.write state.old (report_fed (tree report.now)) }
{
    report.name.hash(state);
    report.module.hash(state);
    feed_fields(report.fields.as_slice(), state);
    report.version.hash(state);
    report.tyty.hash(state);
}

#[cycle(feed)]
#[tactic(auto, using(crate::proofs::Views::named_out))]
fn feed_field<H: Hasher>(field: &FieldReport, state: &mut H)
    ensures { state.new ≡ fold H.write state.old (field_fed (named field.now)) }
{
    field.name.hash(state);
    feed(&field.ty, state);
}

#[cycle(feed)]
fn feed_fields<H: Hasher>(fields: &[FieldReport], state: &mut H)
    ensures { state.new ≡ fold H.write state.old (fields_fed (field_trees fields.now)) }
{
    for field in fields {
        feed_field(field, state);
    }
}
