ghost use Rattle.std.specs.Prelude.{◌≡◌, ◌≤◌, ℕ, IfNone};
ghost use Rattle.abi_report.specs.declared.type_report.TypeReport.{TypeReport};
ghost use Rattle.abi_result.specs.Counts.{Rose};

use abi_report::TypeReport;

/// What an import comes from. It alone decides whether the report that it loaded agrees with another.
pub trait Loader<F> {
    /// How often it was asked; it never falls.
    ghost askings: { Self → ℕ };

    /// How often it refused; it never falls.
    ghost refusals: { Self → ℕ };

    /// The report that it loaded.
    ghost loaded: { Self → TypeReport };

    /// The import, whose own report is `local`; `None` only where the count of refusals rose, or stands at its last
    /// value.
    fn check(&mut self, local: &TypeReport) -> Option<F>
        ensures askings { askings self.old ≤ askings self.new }
        ensures asked { Rose (askings self.old) (askings self.new) }
        ensures refusals { refusals self.old ≤ refusals self.new }
        ensures refused { IfNone result (Rose (refusals self.old) (refusals self.new)) };

    /// The report that it loaded.
    fn report(&self) -> &TypeReport
        ensures { result.now ≡ loaded self.now };
}
