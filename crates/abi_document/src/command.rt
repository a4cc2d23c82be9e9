/// A command that reads a document.
#[derive(Debug, Clone, Copy, PartialEq, Eq)]
pub enum Command {
    /// The bytes of a value of a description.
    Pack,
    /// The layout of a description.
    Layout,
    /// The value of a description that bytes show.
    Read,
    /// The bytes that edits leave of bytes.
    Edit,
    /// The report of a description.
    Report,
}
