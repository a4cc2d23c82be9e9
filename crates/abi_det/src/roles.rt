ghost use Rattle.std.specs.Prelude.{◌≡◌, ◌≤◌, ◌<◌, ◌*◌, IsTrue, if◌then◌else◌};
ghost use Rattle.abi_bits.specs.Pairs.{max_size};
ghost use Rattle.abi_det.specs.Frame.{IsLawful};
ghost use Rattle.abi_det.specs.Sides.{bare};
ghost use Rattle.abi_det.specs.Roles.{ok_is_larger, larger, smaller, sum_align, union_size, is_place};

use crate::layout::Layout;
use crate::variant::Variant;
use abi_bits::MAX_SIZE;
use abi_num::MAX_ALIGN;

/// The number of places at which the smaller variant may stand.
pub(crate) const PLACES: u64 = 8;

/// The two variants of a sum in one union. The larger stands at its start.
#[derive(Drop)]
pub(crate) struct Roles<'a> {
    pub(crate) large: Variant<'a>,
    pub(crate) small: Variant<'a>,
    /// The union's size in bytes.
    pub(crate) size: u64,
    pub(crate) ok_is_larger: bool,
    ghost within: { size ≤ max_size },
    ghost covers: { large.size ≤ size },
    ghost lawful: { IsLawful large },
}

impl<'a> Roles<'a> {
    /// The roles of the two variants of a sum.
    #[tactic(auto, using(crate::proofs::Unions::union_bound, crate::proofs::Unions::rounded_fits))]
    pub(crate) fn new(ok: Variant<'a>, err: Variant<'a>) -> Roles<'a>
        ensures large { result.large ≡ larger ok.entry err.entry }
        ensures small { result.small ≡ smaller ok.entry err.entry }
        ensures size { result.size ≡ union_size ok.entry err.entry }
        ensures ok { result.ok_is_larger ≡ ok_is_larger ok.entry err.entry }
    {
        let align = ok.align().max(err.align());
        let size = ok.size().max(err.size()).next_multiple_of(align);
        if err.size() <= ok.size() {
            Roles {
                large: ok,
                small: err,
                size,
                ok_is_larger: true,
            }
        } else {
            Roles {
                large: err,
                small: ok,
                size,
                ok_is_larger: false,
            }
        }
    }

    /// The roles of two variants with these layouts, without their forbidden values.
    #[tactic(auto, using(crate::proofs::Sides::larger_bare, crate::proofs::Sides::smaller_bare))]
    pub(crate) fn bare(ok: &'a Layout, err: &'a Layout) -> Roles<'a>
        ensures large { result.large ≡ bare (larger ok.now err.now) }
        ensures small { result.small ≡ bare (smaller ok.now err.now) }
        ensures size { result.size ≡ union_size ok.now err.now }
        ensures ok { result.ok_is_larger ≡ ok_is_larger ok.now err.now }
    {
        Roles::new(Variant::bare(ok), Variant::bare(err))
    }

    /// Whether the place of that number exists.
    pub(crate) fn has_place(&self, place: u64) -> bool
        ensures { result ≡ is_place self.now.small self.now.size place }
    {
        if self.small.size() == 0 {
            place == 0
        } else {
            place < PLACES && place * self.small.align() + self.small.size() <= self.size
        }
    }

    /// Where the smaller variant starts at that place, in bytes.
    pub(crate) fn shift(&self, place: u64) -> u64
        requires { IsTrue (is_place self.now.small self.now.size place) }
        ensures same { result ≡ place * self.now.small.align }
        ensures bound { result ≤ MAX_SIZE }
    {
        place * self.small.align()
    }
}

/// The larger variant of a sum.
pub(crate) fn larger<'a>(ok: &'a Layout, err: &'a Layout) -> &'a Layout
    ensures { result.now ≡ larger ok.now err.now }
{
    if err.size() <= ok.size() { ok } else { err }
}

/// The smaller variant of a sum.
pub(crate) fn smaller<'a>(ok: &'a Layout, err: &'a Layout) -> &'a Layout
    ensures { result.now ≡ smaller ok.now err.now }
{
    if err.size() <= ok.size() { err } else { ok }
}

/// The alignment of a sum, in bytes.
pub(crate) fn sum_align(ok: &Layout, err: &Layout) -> u64
    ensures same { result ≡ sum_align ok.now err.now }
    ensures positive { 0 < result }
    ensures bound { result ≤ MAX_ALIGN }
{
    ok.align().max(err.align())
}

/// The size of the union of a sum's variants, in bytes: the larger size, rounded up to the sum's alignment.
#[tactic(auto, using(crate::proofs::Unions::union_bound, crate::proofs::Unions::rounded_fits))]
pub(crate) fn union_size(ok: &Layout, err: &Layout) -> u64
    ensures same { result ≡ union_size ok.now err.now }
    ensures ok { ok.now.size ≤ result }
    ensures err { err.now.size ≤ result }
    ensures bound { result ≤ MAX_SIZE }
    ensures lawful { IsLawful ok.now × IsLawful err.now }
{
    ok.size()
        .max(err.size())
        .next_multiple_of(sum_align(ok, err))
}
