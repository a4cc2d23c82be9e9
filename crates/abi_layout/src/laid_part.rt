use crate::part::Part;
use abi_det::Layout;

/// A part of a description, laid out.
#[derive(Drop)]
pub(crate) struct LaidPart {
    /// What its bytes mean.
    pub part: Part,
    /// Its layout.
    pub layout: Layout,
    /// The number after that of the part.
    pub next: u32,
}
