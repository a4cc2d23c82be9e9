//! Sums and wrappers of stable types; imports that are used only after a check.
#![tactic(auto)]

mod canaried_import;
mod canary;
mod checked_import;
mod contents;
#[cfg(test)]
mod hash_of;
mod loader;
#[cfg(test)]
mod mem_loader;
mod not_pod;
mod option;
mod report_mismatch;
mod result;
mod stable_if;
mod stable_like;
mod storage;

pub use canaried_import::CanariedImport;
pub use canary::Canary;
pub use checked_import::CheckedImport;
pub use loader::Loader;
pub use not_pod::NotPod;
pub use option::Option;
pub use report_mismatch::ReportMismatch;
pub use result::Result;
pub use stable_if::StableIf;
pub use stable_like::StableLike;
pub use storage::StorageError;
