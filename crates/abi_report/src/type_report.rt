use crate::ty_ty::TyTy;
use abi_num::{Items, Text};

/// The fields of a report, in order.
pub type FieldList = Items<FieldReport>;

/// A field of a reported type.
#[cycle(report)]
#[derive(Debug, Drop)]
pub struct FieldReport {
    /// The field's name.
    pub name: Text,
    /// The report of the field's type.
    pub ty: TypeReport,
}

/// What is known of a type by those who exchange its values.
#[cycle(report)]
#[derive(Debug, Drop)]
pub struct TypeReport {
    /// The type's name.
    pub name: Text,
    /// The module that declares it.
    pub module: Text,
    /// Its fields in order.
    pub fields: FieldList,
    /// Its kind.
    pub tyty: TyTy,
    /// The version of its declaration.
    pub version: u32,
}
