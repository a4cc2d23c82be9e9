use crate::value::Bytes;
use abi_det::Layout;
use abi_layout::PlacedList;

/// A packed value.
#[derive(Debug, Drop)]
pub struct Image {
    /// The layout of its type.
    pub layout: Layout,
    /// Where its sums stand.
    pub placed: PlacedList,
    /// Its bytes, as many as the layout's size.
    pub bytes: Bytes,
}
