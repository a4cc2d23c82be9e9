ghost use Rattle.std.specs.Prelude.{Some, ◌++◌, codes};
ghost use Rattle.abi_report.specs.Reports.{tree};
ghost use Rattle.abi_report.specs.Texts.{text};

use abi_report::TypeReport;
use std::fmt::{self, Display, Formatter, Write};

/// A loader refused: the import's own report, and the one that was loaded.
#[derive(Debug, Clone, Copy)]
pub struct ReportMismatch<'a> {
    /// The import's own report.
    pub local: &'a TypeReport,
    /// The report that its loader lends.
    pub loaded: &'a TypeReport,
}

impl<'a> Display for ReportMismatch<'a> {
    ghost output = { λ m. Some (text (tree m.local.now) ++ codes " is not "
        ++ text (tree m.loaded.now)) };

    fn fmt<W: Write>(&self, f: &mut Formatter<W>) -> fmt::Result {
        let local = self.local;
        let loaded = self.loaded;
        write!(f, "{local} is not {loaded}")
    }
}
