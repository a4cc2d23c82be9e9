ghost use Rattle.std.specs.Prelude.{◌≡◌, ◌≤◌, ◌<◌, IfOk, IsTrue};
ghost use Rattle.abi_bits.specs.Mask.{IsMask};
ghost use Rattle.abi_bits.specs.Forbidden.{offered};
ghost use Rattle.abi_det.specs.Frame.{IsLawful, forbids};
ghost use Rattle.abi_det.specs.Offers.{first_of, leading_pattern};
ghost use Rattle.abi_det.specs.Sides.{seen, bare};
ghost use Rattle.abi_det.specs.Counted.{frame_of, side_of};

use crate::layout::Layout;
use crate::refusals::has_no_head;
use crate::rules::Rules;
use abi_bits::{BitMask, MAX_SIZE, Pattern};
use abi_num::{MAX_ALIGN, OutOfMemory};
use std::alloc::Global;
use std::marker::Model;

/// A variant of a sum, as far as its placement goes by it.
#[derive(Drop)]
pub(crate) struct Variant<'a> {
    size: u64,
    align: u64,
    free: &'a BitMask,
    offered: &'a [Pattern],
    headed: bool,
}

impl<'a> Model for Variant<'a> {
    ghost use Rattle.abi_bits.specs.ForbiddenCode.{forbidden_code};
    ghost use Rattle.abi_det.specs.Frame.{Frame, IsLawful};
    ghost use Rattle.abi_det.specs.Sides.{seen};
    ghost use Rattle.std.specs.Coded.{codes};

    ghost Value = { Frame };

    ghost coded = { Prim.hlevel (codes, forbidden_code) };

    ghost view = { λ v. seen v.size v.align v.free.now v.offered.now v.headed };

    ghost invariant = { λ v. IsLawful (seen v.size v.align v.free.now v.offered.now v.headed) };
}

impl<'a> Variant<'a> {
    /// The variant with that layout, without its forbidden values.
    #[tactic(auto, using(crate::proofs::Sides::bare_lawful))]
    pub(crate) fn bare(layout: &'a Layout) -> Variant<'a>
        ensures { result ≡ bare layout.now }
    {
        Variant {
            size: layout.size(),
            align: layout.align(),
            free: layout.unused(),
            offered: &[],
            headed: false,
        }
    }

    /// The variant with that layout, which offers these patterns.
    #[tactic(auto, using(crate::proofs::Seen::side_lawful))]
    pub(crate) fn of(layout: &'a Layout, patterns: &'a [Pattern]) -> Variant<'a>
        requires { patterns.now ≡ offered (forbids layout.now) }
        ensures { result ≡ frame_of (side_of layout.now) }
    {
        Variant {
            size: layout.size(),
            align: layout.align(),
            free: layout.unused(),
            offered: patterns,
            headed: !has_no_head(layout.forbidden()),
        }
    }

    /// The variant with these parts. It offers the patterns; where `headed`, the first leads.
    pub(crate) fn new(
        size: u64,
        align: u64,
        free: &'a BitMask,
        offered: &'a [Pattern],
        headed: bool,
    ) -> Variant<'a>
        requires { IsLawful (seen size align free.now offered.now headed) }
        ensures { result ≡ seen size align free.now offered.now headed }
    {
        Variant {
            size,
            align,
            free,
            offered,
            headed,
        }
    }

    /// Size in bytes.
    #[tactic(auto, using(crate::proofs::Lawful::size_bound))]
    pub(crate) fn size(&self) -> u64
        ensures same { result ≡ self.now.size }
        ensures bound { result ≤ MAX_SIZE }
        ensures lawful { IsLawful self.now }
    {
        self.size
    }

    /// Alignment in bytes.
    #[tactic(auto, using(crate::proofs::Lawful::align_bounds))]
    pub(crate) fn align(&self) -> u64
        ensures same { result ≡ self.now.align }
        ensures positive { 0 < result }
        ensures bound { result ≤ MAX_ALIGN }
        ensures lawful { IsLawful self.now }
    {
        self.align
    }

    /// The free bits.
    pub(crate) fn unused(&self) -> &'a BitMask
        ensures same { result.now ≡ self.now.free }
        ensures lawful { IsLawful self.now }
    {
        self.free
    }

    /// The offered patterns, in order.
    #[tactic(auto, using(crate::proofs::Sides::offered_seen))]
    pub(crate) fn patterns(&self) -> &'a [Pattern]
        ensures { result.now ≡ offered (forbids self.now) }
    {
        self.offered
    }

    /// What an empty variant beside this one takes of its patterns.
    #[tactic(auto, using(crate::proofs::Sides::leading_one, crate::proofs::Sides::leading_two))]
    pub(crate) fn leading_pattern(
        &self,
        alloc: Global,
        rules: Rules,
    ) -> Result<Option<Pattern>, OutOfMemory>
        ensures { IfOk result (λ found. found ≡ leading_pattern rules self.now) }
    {
        match rules {
            Rules::One => {
                if self.headed {
                    let found = first(alloc, self.offered)?;
                    Ok(found)
                } else {
                    Ok(None)
                }
            }
            Rules::Two => {
                let found = first(alloc, self.offered)?;
                Ok(found)
            }
        }
    }
}

/// The first of the patterns.
fn first(alloc: Global, patterns: &[Pattern]) -> Result<Option<Pattern>, OutOfMemory>
    ensures { IfOk result (λ found. found ≡ first_of patterns.now) }
{
    match patterns.first() {
        Some(pattern) => {
            let pattern = pattern.copy(alloc)?;
            Ok(Some(pattern))
        }
        None => Ok(None),
    }
}
