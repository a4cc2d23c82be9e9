use abi_layout::Desc;
use abi_num::Target;
use abi_pack::{Bytes, Edits, Value};

/// What a document asks for.
#[derive(Drop)]
pub struct Job {
    /// The target.
    pub target: Target,
    /// What is to be done.
    pub work: Work,
}

/// What is to be done on a target.
#[derive(Drop)]
pub enum Work {
    /// The bytes of a value, as edits leave it.
    Pack {
        /// The type.
        desc: Desc,
        /// The value.
        value: Value,
        /// The edits in order.
        edits: Edits,
    },
    /// The layout of a type.
    Layout {
        /// The type.
        desc: Desc,
    },
    /// The value that bytes show.
    Read {
        /// The type.
        desc: Desc,
        /// The bytes.
        bytes: Bytes,
    },
    /// The bytes that edits leave of bytes which show a value.
    Edit {
        /// The type.
        desc: Desc,
        /// The bytes.
        bytes: Bytes,
        /// The edits in order.
        edits: Edits,
    },
    /// The report of a type.
    Report {
        /// The type.
        desc: Desc,
    },
}
