//! Reports of types: what two programs compare before one hands a value to the other.
#![tactic(auto)]

mod compatible;
mod fields;
mod hash;
mod identifier;
mod text;
mod ty_ty;
mod type_report;

pub use fields::Fields;
pub use identifier::gen_id;
pub use ty_ty::TyTy;
pub use type_report::{FieldList, FieldReport, TypeReport};
