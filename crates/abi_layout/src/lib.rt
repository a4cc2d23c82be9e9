//! Descriptions of types and the layouts that follow from them.
#![tactic(auto)]

mod arrays;
mod builders;
mod core_sums;
mod desc;
mod desc_error;
mod laid_part;
pub mod laws;
mod layouts;
mod leaves;
mod names;
mod numbering;
mod opaque;
mod packed_sums;
mod part;
mod placed;
mod prim;
mod primitives;
mod reports;
mod scalar;
mod structs;
mod sums;
mod walk;
mod wrappers;

pub use arrays::MAX_LEN;
pub use builders::{aligned_after, aligned_struct, array_of, field_pair, struct_of, union_of};
pub use desc::{Desc, Field, FieldDescs, Forbid, Forbids, LeafDesc, PointerKind, WrapKind};
pub use desc_error::DescError;
pub use layouts::{LaidOut, lay_out, layout_of};
pub use leaves::MAX_ITEMS;
pub use numbering::{MAX_PARTS, parts};
pub use part::{Compound, Part, PartField, PartFields, Sort, SumLayout};
pub use placed::{Placed, PlacedList};
pub use prim::{Form, IntKind, Primitive as Prim};
pub use primitives::{Row, as_uint, pointer_row, prim_layout, row_of};
pub use reports::{id_of, report_of};
pub use scalar::{Integer, Scalar, Stored, Width};
pub use structs::{end_after, struct_layout};
pub use sums::packed_sum;
