ghost use Rattle.std.specs.Prelude.{◌≡◌, ◌↔◌, Some, IsErr, IfOk, Contains, length, min};
ghost use Rattle.std.specs.Io.{ReadsAtMost};
ghost use Rattle.std.specs.Io.KnownBytes.{ReadConsumes};
ghost use Rattle.abi_tool.specs.Causes.{Counts, HasCause, raised};

use crate::failed::Failed;
use crate::source::Source;
use std::marker::Model;

/// A source over bytes in memory, of which chosen reads fail.
#[derive(Drop)]
pub struct MemSource<'a> {
    rest: &'a [u8],
    fails: &'a [u64],
    calls: u64,
    faults: u64,
}

impl<'a> Model for MemSource<'a> {
    ghost use Rattle.abi_tool.specs.Memory.{SourceState};

    ghost Value = { SourceState };

    ghost view = { λ s. record {
      left = s.rest.now;
      fails = s.fails.now;
      calls = s.calls;
      faults = s.faults;
    } };
}

impl<'a> MemSource<'a> {
    /// A source of `bytes`; the reads whose numbers, from 0, stand in `fails` fail.
    pub fn new(bytes: &'a [u8], fails: &'a [u64]) -> MemSource<'a>
        ensures { result ≡ record { left = bytes.now; fails = fails.now; calls = 0; faults = 0 } }
    {
        MemSource {
            rest: bytes,
            fails,
            calls: 0,
            faults: 0,
        }
    }
}

impl<'a> Source for MemSource<'a> {
    ghost left = { λ s. Some s.left };

    ghost faults = { λ s. s.faults };

    fn read(&mut self, buf: &mut [u8]) -> Result<usize, Failed>
        ensures bound { ReadsAtMost result buf.new }
        ensures bytes { ReadConsumes (Some self.old.left) (Some self.new.left) result buf.new }
        ensures cause { HasCause self.old.faults self.new.faults result }

        ensures listed { IsErr result ↔ Contains self.old.fails self.old.calls }
        ensures count { IfOk result (λ count. count ≡ min (length buf.new) (length self.old.left)) }
        ensures calls { self.new.calls ≡ raised self.old.calls }
        ensures faults { Counts self.old.faults self.new.faults result }
        ensures fails { self.new.fails ≡ self.old.fails }
    {
        let call = self.calls;
        self.calls = call.saturating_add(1);
        if self.fails.contains(&call) {
            self.faults = self.faults.saturating_add(1);
            return Err(Failed);
        }
        let count = buf.len().min(self.rest.len());
        let (piece, rest) = self.rest.split_at(count);
        buf[..count].copy_from_slice(piece);
        self.rest = rest;
        Ok(count)
    }
}
