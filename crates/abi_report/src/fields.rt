ghost use Rattle.std.specs.Prelude.{◌≡◌, ◌∷◌, [], MatchOption};
ghost use Rattle.std.specs.Iterator.{YieldsFirstRef, item_count};

use crate::type_report::{FieldReport, TypeReport};

/// Goes through the fields of a report, each once, in order.
#[derive(Drop)]
pub struct Fields<'a> {
    rest: &'a [FieldReport],
}

impl TypeReport {
    ghost use Rattle.abi_report.specs.FieldsOf.{left};
    ghost use Rattle.abi_report.specs.Reports.{tree, field_trees, fields_in};

    /// The fields, each once, in order.
    pub fn fields(&self) -> Fields<'_>
        ensures { field_trees (left result) ≡ fields_in (tree self.now) }
    {
        Fields {
            rest: self.fields.as_slice(),
        }
    }
}

impl<'a> Fields<'a> {
    ghost use Rattle.abi_report.specs.FieldsOf.{left};

    /// The fields after the first, and the first; `None` exactly where no field is left.
    pub fn next_const(self) -> (Fields<'a>, Option<&'a FieldReport>)
        ensures { MatchOption result.1 ((left self.entry ≡ []) × (left result.0 ≡ []))
            (λ first. left self.entry ≡ first.now ∷ left result.0) }
    {
        match self.rest.split_first() {
            Some((first, rest)) => (Fields { rest }, Some(first)),
            None => (self, None),
        }
    }
}

impl<'a> Iterator for Fields<'a> {
    type Item = &'a FieldReport;

    ghost next_gives = { YieldsFirstRef (λ s. s.rest.now) };

    ghost remaining = { item_count (λ s. s.rest.now) };

    fn next(&mut self) -> Option<&'a FieldReport> {
        let (first, rest) = self.rest.split_first()?;
        self.rest = rest;
        Some(first)
    }
}
