use crate::loader::Loader;
use crate::report_mismatch::ReportMismatch;
use abi_report::TypeReport;

#[cfg(test)]
mod tests;

/// What came of asking the loader.
#[derive(Drop)]
pub(crate) enum Outcome<F> {
    /// It was not asked yet.
    Unasked,
    /// It gave the import.
    Loaded(F),
    /// It refused.
    Refused,
}

/// An import that is asked of its loader once, when it is first used.
#[derive(Drop)]
pub struct CheckedImport<F, L> {
    loader: L,
    local: TypeReport,
    outcome: Outcome<F>,
}

impl<F: Drop, L: Loader<F>> CheckedImport<F, L> {
    ghost use Rattle.std.specs.Prelude.{◌≡◌, ◌≢◌, MatchResult};
    ghost use Rattle.std.specs.Borrow.{sem};
    ghost use Rattle.abi_result.specs.contracts.checked_import.CheckedImport.{the_row};
    ghost use Rattle.abi_result.specs.declared.checked_import.Outcome.TheVariants.{Unasked};
    ghost use Rattle.abi_result.specs.Imports.{Asked, IsLent, IsMismatch, Leaves};

    /// An import with this loader and this report of its own, whose loader was not asked yet.
    pub fn new(loader: L, local: TypeReport) -> CheckedImport<F, L>
        ensures { result ≡ record { loader = loader; local = local; outcome = Unasked } }
    {
        CheckedImport {
            loader,
            local,
            outcome: Outcome::Unasked,
        }
    }

    /// The import. The first call asks the loader; each later one repeats its outcome. Refused only where the loader
    /// refused, by its count.
    pub fn as_ref(&mut self) -> Result<&F, ReportMismatch<'_>>
        ensures* { sem 𝓛 (Leaves (the_row F.row L.row) self.entry
            (λ after. Asked L.askings L.refusals self.old after
            × MatchResult result (IsLent after) (IsMismatch L.loaded after))) }
    {
        self.ask();
        self.repeated()
    }

    /// What came of asking, which must have been done.
    fn repeated(&self) -> Result<&F, ReportMismatch<'_>>
        requires { self.now.outcome ≢ Unasked }
        ensures { MatchResult result (IsLent self.now) (IsMismatch L.loaded self.now) }
    {
        match &self.outcome {
            Outcome::Loaded(import) => Ok(import),
            Outcome::Refused => Err(ReportMismatch {
                local: &self.local,
                loaded: self.loader.report(),
            }),
            Outcome::Unasked => unreachable!(),
        }
    }

    fn ask(&mut self)
        ensures { Asked L.askings L.refusals self.old self.new }
    {
        if let Outcome::Unasked = self.outcome {
            match self.loader.check(&self.local) {
                Some(import) => self.outcome = Outcome::Loaded(import),
                None => self.outcome = Outcome::Refused,
            }
        }
    }
}
