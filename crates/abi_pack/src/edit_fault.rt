ghost use Rattle.std.specs.Prelude.{◌≡◌, ◌+◌, ◌≤◌, ◌<◌, ◌^◌, length};
ghost use Rattle.abi_layout.specs.Shape.{size};
ghost use Rattle.abi_pack.specs.ByteMap.{seen_in};
ghost use Rattle.abi_pack.specs.Consistent.{IsConsistent};
ghost use Rattle.abi_pack.specs.ShapeEdits.{is_there, shape_fault_at};
ghost use Rattle.abi_pack.specs.View.{shape, plain};

use crate::fits::fits;
use crate::inner::{named, variant_entered};
use crate::plan::EditError;
use crate::step::Step;
use crate::value::Value;
use abi_layout::Part;

/// Why the part at the path does not get the value, where the bytes from `at` on show the value that is edited.
#[cycle(edit_fault)]
pub(crate) fn edit_fault(
    part: &Part,
    bytes: &[u8],
    at: usize,
    path: &[Step],
    value: &Value,
) -> Option<EditError>
    requires sound { IsConsistent (shape part.now) }
    requires small { length bytes.now < 2 ^ 32 }
    requires within { at + size (shape part.now) ≤ length bytes.now }
    ensures { result ≡ shape_fault_at (shape part.now) bytes.now at path.now (plain value.now) }
{
    match path.split_first() {
        None => {
            if fits(part, value) {
                None
            } else {
                Some(EditError::WrongPart)
            }
        }
        Some((step, path)) => match named(part, step) {
            None => Some(EditError::NoSuchPath),
            Some(inner) => {
                if !is_there(part, bytes, at, step) {
                    return Some(EditError::WrongVariant);
                }
                edit_fault(inner.part, bytes, at + inner.start, path, value)
            }
        },
    }
}

/// Whether the bytes from `at` on are in the variant that the step names.
fn is_there(part: &Part, bytes: &[u8], at: usize, step: &Step) -> bool
    requires sound { IsConsistent (shape part.now) }
    requires within { at + size (shape part.now) ≤ length bytes.now }
    ensures { result ≡ is_there (shape part.now) (seen_in bytes.now at) step.now }
{
    match part {
        Part::Sum {
            names,
            sum_layout,
            ..
        } => match variant_entered(names, step) {
            Some(wanted) => wanted == sum_layout.determinant.is_det_ok(&bytes[at..]),
            None => true,
        },
        _ => true,
    }
}
