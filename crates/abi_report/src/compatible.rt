ghost use Rattle.std.specs.Prelude.{◌≡◌, ◌↔◌, IsTrue};
ghost use Rattle.std.specs.Cmp.{decided, on_per, on_equiv, partial_equiv_from_equiv};
ghost use Rattle.std.specs.Ordering.{on};
ghost use Rattle.abi_report.specs.Equality.{same, same_fields, same_named, decides, named_decides};
ghost use Rattle.abi_report.specs.Reports.{tree, named, field_trees};

use crate::type_report::{FieldReport, TypeReport};

impl TypeReport {
    /// Whether both reports say the same, in all their fields too.
    #[tactic(auto, using(crate::specs::Equality::decides))]
    pub fn is_compatible(&self, other: &TypeReport) -> bool
        ensures { IsTrue result ↔ (tree self.now ≡ tree other.now) }
    {
        self == other
    }
}

impl PartialEq for TypeReport {
    ghost eq = { on tree same };

    ghost laws = { on_per tree (partial_equiv_from_equiv (decided same decides)) };

    fn eq(&self, other: &Self) -> bool {
        is_same(self, other)
    }
}

impl Eq for TypeReport {
    ghost laws = { on_equiv tree (decided same decides) };
}

impl PartialEq for FieldReport {
    ghost eq = { on named same_named };

    ghost laws = { on_per named (partial_equiv_from_equiv (decided same_named named_decides)) };

    fn eq(&self, other: &Self) -> bool {
        is_same_field(self, other)
    }
}

impl Eq for FieldReport {
    ghost laws = { on_equiv named (decided same_named named_decides) };
}

#[cycle(same)]
#[tactic(auto, using(crate::proofs::Views::tree_out))]
fn is_same(a: &TypeReport, b: &TypeReport) -> bool
    ensures { result ≡ same (tree a.now) (tree b.now) }
{
    (a.name == b.name)
        & (a.module == b.module)
        & are_same(a.fields.as_slice(), b.fields.as_slice())
        & (a.tyty == b.tyty)
        & (a.version == b.version)
}

#[cycle(same)]
#[tactic(auto, using(crate::proofs::Views::named_out))]
fn is_same_field(a: &FieldReport, b: &FieldReport) -> bool
    ensures { result ≡ same_named (named a.now) (named b.now) }
{
    (a.name == b.name) & is_same(&a.ty, &b.ty)
}

#[cycle(same)]
#[tactic(auto, using(crate::proofs::Views::apart, crate::proofs::Views::same_here, crate::proofs::Views::differ_here))]
fn are_same(a: &[FieldReport], b: &[FieldReport]) -> bool
    ensures { result ≡ same_fields (field_trees a.now) (field_trees b.now) }
{
    if a.len() != b.len() {
        return false;
    }
    for i in 0..a.len() {
        if !is_same_field(&a[i], &b[i]) {
            return false;
        }
    }
    true
}
