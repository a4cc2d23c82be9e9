ghost use Rattle.std.specs.Prelude.{Some};
ghost use Rattle.std.specs.Fmt.{WritesOnOk};
ghost use Rattle.abi_report.specs.Kinds.{kind_row};
ghost use Rattle.abi_report.specs.Reports.{tree, named, field_trees};
ghost use Rattle.abi_report.specs.Texts.{text, fields_text, field_text, opening_text};

use crate::ty_ty::TyTy;
use crate::type_report::{FieldReport, TypeReport};
use std::fmt::{self, Display, Formatter, Write};

impl Display for TyTy {
    ghost output = { λ k. Some (kind_row k).0 };

    fn fmt<W: Write>(&self, f: &mut Formatter<W>) -> fmt::Result {
        match self {
            TyTy::Struct => f.write_str("Struct"),
            TyTy::Union => f.write_str("Union"),
            TyTy::Enum(rules) => {
                let rules = rules.as_str();
                write!(f, "Enum({rules})")
            }
        }
    }
}

impl Display for TypeReport {
    ghost output = { λ r. Some (text (tree r)) };

    fn fmt<W: Write>(&self, f: &mut Formatter<W>) -> fmt::Result {
        write_report(self, f)
    }
}

#[cycle(writing)]
#[tactic(auto, using(crate::proofs::Views::tree_out))]
fn write_report<W: Write>(report: &TypeReport, f: &mut Formatter<W>) -> fmt::Result
    ensures { WritesOnOk W.write_str_gives f.old result (text (tree report.now)) f.new }
{
    write_opening(
        &report.tyty,
        report.module.as_str(),
        report.name.as_str(),
        report.version,
        f,
    )?;
    write_fields(report.fields.as_slice(), f)?;
    f.write_str("}")
}

#[tactic(auto, unfolding(crate::specs::Texts::opening_text))]
fn write_opening<W: Write>(
    kind: &TyTy,
    module_name: &str,
    name: &str,
    version: u32,
    f: &mut Formatter<W>,
) -> fmt::Result
    ensures { WritesOnOk W.write_str_gives f.old result
        (opening_text kind.now name.now module_name.now version) f.new }
{
    write!(f, "{kind} {module_name} :: {name} (version{version}) {{")
}

#[cycle(writing)]
#[tactic(auto, using(crate::proofs::Views::named_out))]
fn write_field<W: Write>(field: &FieldReport, f: &mut Formatter<W>) -> fmt::Result
    ensures { WritesOnOk W.write_str_gives f.old result (field_text (named field.now)) f.new }
{
    f.write_str(field.name.as_str())?;
    f.write_str(": ")?;
    write_report(&field.ty, f)?;
    f.write_str(", ")
}

#[cycle(writing)]
fn write_fields<W: Write>(fields: &[FieldReport], f: &mut Formatter<W>) -> fmt::Result
    ensures { WritesOnOk W.write_str_gives f.old result
        (fields_text (field_trees fields.now)) f.new }
{
    for field in fields {
        write_field(field, f)?;
    }
    Ok(())
}
