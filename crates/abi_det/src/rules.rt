/// The rules of the layout, by version. They differ in what an empty smaller variant takes of the larger's
/// patterns.
#[derive(Debug, Clone, Copy, PartialEq, Eq)]
pub enum Rules {
    /// It takes the head: what the very leftmost leaf offers.
    One,
    /// It takes the first that the larger offers.
    Two,
}
