ghost use Rattle.std.specs.Prelude.{◌<◌, List, ℕ, Option, IfOk, length};
ghost use Rattle.std.specs.Io.{WritesAtMost};
ghost use Rattle.std.specs.Io.KnownBytes.{WriteAppends};
ghost use Rattle.abi_tool.specs.Causes.{HasCause};

use crate::failed::Failed;

/// Where a text goes.
pub trait Sink {
    /// The bytes written so far, where the sink tells them.
    ghost got: { Self → Option (List ℕ) };

    /// How often a write failed; it never falls.
    ghost faults: { Self → ℕ };

    /// Takes bytes from the front of `piece` and answers how many: at least one, unless `piece` is empty.
    /// A write that failed took nothing.
    fn write(&mut self, piece: &[u8]) -> Result<usize, Failed>
        ensures bound { WritesAtMost result piece.now }
        ensures progress { IfOk result (λ count. 0 < length piece.now → 0 < count) }
        ensures bytes { WriteAppends (got self.old) (got self.new) result piece.now }
        ensures cause { HasCause (faults self.old) (faults self.new) result };
}
