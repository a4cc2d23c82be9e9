//! Counts of steps, for contracts alone.
ghost use Rattle.std.specs.Prelude.{◌≡◌, ◌<◌, ◌+◌, ℕ};

use std::marker::Model;
use std::sync::ledger::{Blank, Book, Ledger, Share};

/// The number of steps taken so far, kept in the ledger `L`. It takes no bytes when the program runs, and
/// whoever borrows it can only add to it.
#[derive(Drop)]
pub struct Steps<L: Ledger> {
    taken: Book<L>,
    share: Share<L>,
}

impl<L: Ledger> Model for Steps<L> {
    ghost use Rattle.std.specs.Prelude.{ℕ, ◌<◌};

    ghost Value = { ℕ };

    ghost view = { λ s. s.taken.total };

    ghost invariant = { λ s. 0 < s.share.parts };
}

impl<L: Ledger> Steps<L> {
    /// No step yet, in a new ledger of one part or more.
    pub fn new(blank: Blank) -> Steps<L>
        requires name { blank.name ≡ L.name }
        requires parts { blank.parts ≡ L.parts }
        requires some { 0 < blank.parts }
        ensures { result ≡ 0 }
    {
        let (taken, share) = blank.open::<L>();
        Steps { taken, share }
    }

    /// Takes one step.
    pub(crate) fn step(&mut self)
        ensures { self.new ≡ self.old + 1 }
    {
        let Steps { taken, share } = self;
        taken.add(share, 1);
    }
}
