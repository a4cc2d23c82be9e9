ghost use Rattle.std.specs.Prelude.{◌≡◌, ◌<◌, ◌-◌, nat_lt, Some, None, IfSome, if◌then◌else◌};
ghost use Rattle.abi_bits.specs.Mask.{SameFrom};

use crate::placed_variant::PlacedVariant;
use crate::roles::Roles;
use abi_bits::Walk;

/// Walks over the bits that each of the two variants leaves free of its own.
#[derive(Drop)]
pub(crate) struct OwnBits<'a> {
    pub(crate) large: Walk<'a>,
    pub(crate) small: Walk<'a>,
}

impl PlacedVariant<'_, '_> {
    ghost use Rattle.abi_det.specs.Search.{IsNextBelow, free_of};

    /// The first byte of the union, at the offset `from` or past it, in which the variant leaves bits free,
    /// and these bits. `own` tells the variant's own from there on.
    fn next_free(&self, own: &mut Walk<'_>, from: u64) -> Option<(u64, u8)>
        requires { SameFrom (from - self.now.shift) self.now.variant.now.free own.old }
        ensures next { IsNextBelow (free_of self.now) self.now.size from result }
        ensures left { SameFrom (from - self.now.shift) self.now.variant.now.free own.new }
    {
        if from >= self.size {
            return None;
        }
        if from < self.shift {
            return Some((from, 255));
        }
        let end = self.shift + self.variant.size();
        match own.next_entry(from - self.shift) {
            Some((offset, byte)) => self.within(offset + self.shift, byte),
            None => self.within(from.max(end), 255),
        }
    }

    /// The byte and its bits, where it lies in the union.
    fn within(&self, at: u64, byte: u8) -> Option<(u64, u8)>
        ensures { result ≡ (if nat_lt at self.now.size then Some (at, byte) else None) }
    {
        if at < self.size {
            Some((at, byte))
        } else {
            None
        }
    }
}

impl<'a> Roles<'a> {
    ghost use Rattle.abi_det.specs.Search.{IsNextBelow, AreLeftOf, spare_of};

    /// Walks over the free bits of both variants, from their first bytes on.
    pub(crate) fn own_bits(&self) -> OwnBits<'a>
        ensures large { result.large ≡ self.now.large.free }
        ensures small { result.small ≡ self.now.small.free }
    {
        OwnBits {
            large: self.large.unused().walk(),
            small: self.small.unused().walk(),
        }
    }

    /// The first byte of the union, at the offset `from` or past it, in which both variants leave bits free,
    /// and these bits. An empty smaller variant leaves all to the larger's own. All answers in turn pass
    /// each byte of both masks once.
    #[tactic(auto, using(crate::proofs::Next::next_empty))]
    pub(crate) fn next_spare(
        &self,
        shift: u64,
        own: &mut OwnBits<'_>,
        from: u64,
    ) -> Option<(u64, u8)>
        requires { AreLeftOf self.now shift own.old from }
        ensures next { IsNextBelow (spare_of self.now shift) self.now.size from result }
        ensures left { IfSome result (λ e. AreLeftOf self.now shift own.new e.0) }
    {
        if self.small.size() == 0 {
            own.large.next_entry(from)
        } else {
            self.next_shared(shift, own, from)
        }
    }

    /// The same where the smaller variant is not empty. Each turn but the last two passes a byte in which the
    /// larger leaves bits free.
    fn next_shared(&self, shift: u64, own: &mut OwnBits<'_>, from: u64) -> Option<(u64, u8)>
        requires some { 0 < self.now.small.size }
        requires left { AreLeftOf self.now shift own.old from }
        ensures next { IsNextBelow (spare_of self.now shift) self.now.size from result }
        ensures left { IfSome result (λ e. AreLeftOf self.now shift own.new e.0) }
    {
        let large = self.placed_large();
        let small = self.placed_small(shift);
        let mut at = from;
        while let Some((next, byte)) = large.next_free(&mut own.large, at) {
            let (beside, other) = small.next_free(&mut own.small, next)?;
            let both = byte & other;
            if beside == next && both != 0 {
                return Some((next, both));
            }
            at = beside.max(next + 1);
        }
        None
    }
}
