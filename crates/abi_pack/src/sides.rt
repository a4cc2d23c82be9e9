ghost use Rattle.std.specs.Prelude.{◌≡◌, ◌<◌, ◌^◌, length};
ghost use Rattle.abi_det.specs.State.{IsCovered};
ghost use Rattle.abi_layout.specs.Shape.{size};
ghost use Rattle.abi_pack.specs.Packed.{naming};
ghost use Rattle.abi_pack.specs.Shows.{same_sort, start_of};
ghost use Rattle.abi_layout.specs.Trees.{sides};
ghost use Rattle.abi_pack.specs.View.{shape};

use abi_layout::{Part, Sort, SumLayout};

/// Whether the variants are called the same.
pub(crate) fn is_same(names: &Sort, other: &Sort) -> bool
    ensures { result ≡ same_sort names.now other.now }
{
    match (names, other) {
        (Sort::OfResult, Sort::OfResult) | (Sort::OfOption, Sort::OfOption) => true,
        (Sort::OfResult, Sort::OfOption) | (Sort::OfOption, Sort::OfResult) => false,
    }
}

/// The first variant of a sum, or the second.
pub(crate) fn side<'a>(ok: &'a Part, err: &'a Part, first: bool) -> &'a Part
    ensures { shape result.now ≡ sides (shape ok.now) (shape err.now) first }
{
    if first { ok } else { err }
}

/// Where a variant starts in its sum, in bytes.
pub(crate) fn start(sum_layout: &SumLayout, first: bool) -> usize
    ensures { result ≡ start_of sum_layout.now first }
{
    if first {
        sum_layout.ok as usize
    } else {
        sum_layout.err as usize
    }
}

/// Makes the bytes of a sum name the variant.
pub(crate) fn name_variant(sum_layout: &SumLayout, first: bool, out: &mut [u8])
    requires { IsCovered sum_layout.now.determinant.test (length out.old) }
    ensures { out.new ≡ naming sum_layout.now first out.old }
{
    if first {
        sum_layout.determinant.ok(out);
    } else {
        sum_layout.determinant.err(out);
    }
}

/// Size of the part, in bytes.
pub(crate) fn size(part: &Part) -> usize
    ensures { result ≡ size (shape part.now) }
{
    match part {
        Part::Scalar(scalar) => scalar.size() as usize,
        Part::Raw { size, .. } => *size as usize,
        Part::Struct { size, .. } => *size as usize,
        Part::Array { size, .. } => *size as usize,
        Part::Sum { sum_layout, .. } => sum_layout.size as usize,
    }
}
