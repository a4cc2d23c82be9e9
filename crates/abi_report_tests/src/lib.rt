//! Tests of `abi_report`: identifiers, texts, fields and hashes of reports.
#![tactic(auto)]

#[cfg(test)]
mod tests;
