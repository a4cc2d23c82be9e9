ghost use Rattle.std.specs.Cmp.{decided, partial_equiv_from_equiv};
ghost use Rattle.abi_report.specs.Kinds.{same_kind, kind_decides};

use abi_num::Text;

/// The kind of a type.
#[derive(Debug, Drop)]
pub enum TyTy {
    /// A struct, or a type without parts.
    Struct,
    /// An enum, and by which rules its variants are laid out.
    Enum(Text),
    /// A union.
    Union,
}

impl PartialEq for TyTy {
    ghost eq = { same_kind };

    ghost laws = { partial_equiv_from_equiv (decided same_kind kind_decides) };

    fn eq(&self, other: &Self) -> bool {
        match (self, other) {
            (TyTy::Struct, TyTy::Struct) => true,
            (TyTy::Enum(rules), TyTy::Enum(others)) => rules == others,
            (TyTy::Union, TyTy::Union) => true,
            _ => false,
        }
    }
}

impl Eq for TyTy {
    ghost laws = { decided same_kind kind_decides };
}
