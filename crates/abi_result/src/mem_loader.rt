use crate::loader::Loader;
use abi_report::TypeReport;

/// A loader in memory: a report, a value, whether it gives it, and how often it was asked and refused.
#[derive(Drop)]
pub(crate) struct MemLoader {
    pub report: TypeReport,
    pub value: u32,
    pub accepts: bool,
    pub askings: u64,
    pub refusals: u64,
}

impl Loader<u32> for MemLoader {
    ghost askings = { λ l. l.askings };

    ghost refusals = { λ l. l.refusals };

    ghost loaded = { λ l. l.report };

    fn check(&mut self, _local: &TypeReport) -> Option<u32> {
        self.askings = self.askings.saturating_add(1);
        if self.accepts {
            return Some(self.value);
        }
        self.refusals = self.refusals.saturating_add(1);
        None
    }

    fn report(&self) -> &TypeReport {
        &self.report
    }
}
