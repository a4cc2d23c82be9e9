ghost use Rattle.std.specs.Prelude.{◌≡◌, true, ◌+◌, ◌<◌, ◌^◌, length};
ghost use Rattle.abi_layout.specs.Shape.{size};
ghost use Rattle.abi_pack.specs.Consistent.{IsConsistent};
ghost use Rattle.abi_pack.specs.ShapeEdits.{range_told, reaches, shape_range, patched, restored};
ghost use Rattle.abi_pack.specs.View.{shape, plain};

use crate::inner::{named, variant_entered};
use crate::restore::{Replaced, restore};
use crate::sides::size;
use crate::step::Step;
use crate::value::Value;
use crate::write::write;
use abi_layout::Part;

/// Writes the value over the part at the path, and in the bytes so replaced what names each variant around it.
/// Answers which bytes were replaced.
#[cycle(change)]
pub(crate) fn change(part: &Part, bytes: &mut [u8], path: &[Step], value: &Value) -> Replaced
    requires sound { IsConsistent (shape part.now) }
    requires small { size (shape part.now) < 2 ^ 32 }
    requires reaches { reaches (shape part.now) path.now (plain value.now) ≡ true }
    requires room { length bytes.old ≡ size (shape part.now) }
    ensures range { range_told result ≡ shape_range (shape part.now) path.now }
    ensures bytes { bytes.new ≡ patched (shape part.now) path.now (plain value.now) bytes.old }
{
    match path.split_first() {
        None => {
            write(part, value, bytes);
            Replaced {
                start: 0,
                size: size(part),
            }
        }
        Some((step, path)) => match named(part, step) {
            None => unreachable!(),
            Some(inner) => {
                let (_, rest) = bytes.split_at_mut(inner.start);
                let (here, _) = rest.split_at_mut(size(inner.part));
                let replaced = change(inner.part, here, path, value);
                let replaced = Replaced {
                    start: inner.start + replaced.start,
                    size: replaced.size,
                };
                restore_variant(part, step, replaced, bytes);
                replaced
            }
        },
    }
}

/// Makes the replaced bytes of a sum name the variant that the step enters.
fn restore_variant(part: &Part, step: &Step, replaced: Replaced, bytes: &mut [u8])
    requires sound { IsConsistent (shape part.now) }
    requires small { replaced.start + replaced.size < 2 ^ 32 }
    requires room { length bytes.old ≡ size (shape part.now) }
    ensures { bytes.new ≡ restored (shape part.now) step.now (range_told replaced) bytes.old }
{
    if let Part::Sum {
        names,
        sum_layout,
        ..
    } = part
    {
        if let Some(first) = variant_entered(names, step) {
            restore(sum_layout, first, replaced, bytes);
        }
    }
}
