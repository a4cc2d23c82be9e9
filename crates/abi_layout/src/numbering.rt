ghost use Rattle.std.specs.Prelude.{◌≡◌, ℕ, ◌+◌, ◌≤◌, min};
ghost use Rattle.abi_layout.specs.Trees.{tree, branches, parts, parts_in};

use crate::desc::{Desc, Field};

/// The greatest number of parts of a description, pointees and conditions included.
pub const MAX_PARTS: u32 = 4096;

/// More parts than a description may have.
const TOO_MANY: u32 = MAX_PARTS + 1;

/// The number of parts of a description, or `MAX_PARTS` and one where it is larger.
#[cycle(count)]
#[tactic(auto, using(crate::proofs::Views::tree_struct))]
pub fn parts(desc: &Desc) -> u32
    ensures { result ≡ min TOO_MANY (parts (tree desc.now)) }
{
    match desc {
        Desc::Prim(_) | Desc::NoNiches { .. } | Desc::Leaf(_) => 1,
        Desc::Struct { fields, .. } => with_whole(parts_in(fields.as_slice()), 0),
        Desc::Array { item, .. } => with_whole(parts(item), 0),
        Desc::Union { ok, err } => with_whole(parts(ok), parts(err)),
        Desc::Result { ok, err } => with_whole(parts(ok), parts(err)),
        Desc::Option { some } => with_whole(parts(some), 0),
        Desc::CoreOption { some } => with_whole(parts(some), 0),
        Desc::CoreResult { ok, err } => with_whole(parts(ok), parts(err)),
        Desc::Wrap { inner, .. } => with_whole(parts(inner), 0),
        Desc::StableIf { value, cond } => with_whole(parts(value), parts(cond)),
        Desc::Pointer { pointee, .. } => with_whole(parts(pointee), 0),
    }
}

/// The parts of a whole: those in it, and the whole itself.
fn with_whole(some: u32, others: u32) -> u32
    requires some { some ≤ TOO_MANY }
    requires others { others ≤ TOO_MANY }
    ensures { result ≡ min TOO_MANY (some + others + 1) }
{
    (some + others + 1).min(TOO_MANY)
}

#[cycle(count)]
fn parts_in(fields: &[Field]) -> u32
    ensures { result ≡ min TOO_MANY (parts_in (branches fields.now)) }
{
    let mut sum = 0;
    for field in fields {
        sum = (sum + parts(&field.ty)).min(TOO_MANY);
    }
    sum
}
