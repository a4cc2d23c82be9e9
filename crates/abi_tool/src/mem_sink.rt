ghost use Rattle.std.specs.Prelude.{◌≡◌, ◌↔◌, ◌<◌, Some, IsErr, IfOk, length, min};
ghost use Rattle.std.specs.Io.{WritesAtMost};
ghost use Rattle.std.specs.Io.KnownBytes.{WriteAppends};
ghost use Rattle.abi_tool.specs.Causes.{Counts, HasCause, raised};
ghost use Rattle.abi_tool.specs.Memory.{empty_sink, CannotTake, LeavesRoom};

use crate::failed::Failed;
use crate::sink::Sink;
use abi_num::OutOfMemory;
use std::alloc::Global;
use std::marker::Model;

/// A sink with room for so many bytes in memory, of which chosen writes fail.
#[derive(Drop)]
pub struct MemSink<'a> {
    bytes: Vec<u8>,
    room: usize,
    fails: &'a [u64],
    calls: u64,
    faults: u64,
}

impl<'a> Model for MemSink<'a> {
    ghost use Rattle.std.specs.Prelude.{◌+◌, ◌≤◌, vec_len, vec_capacity};
    ghost use Rattle.abi_tool.specs.Memory.{SinkState};

    ghost Value = { SinkState };

    ghost view = { λ s. record {
      got = s.bytes.items;
      room = s.room;
      fails = s.fails.now;
      calls = s.calls;
      faults = s.faults;
    } };

    // The room was taken when the sink was made, so a write takes no memory.
    ghost invariant = { λ s. vec_len s.bytes + s.room ≤ vec_capacity s.bytes };
}

impl<'a> MemSink<'a> {
    /// An empty sink with room for `room` bytes; the writes whose numbers, from 0, stand in `fails` fail.
    pub fn new(alloc: Global, room: usize, fails: &'a [u64]) -> Result<MemSink<'a>, OutOfMemory>
        ensures { IfOk result (λ sink. sink ≡ empty_sink room fails.now) }
    {
        Ok(MemSink {
            bytes: Vec::with_capacity(alloc, room)?,
            room,
            fails,
            calls: 0,
            faults: 0,
        })
    }

    /// The bytes written so far.
    pub fn got(&self) -> &[u8]
        ensures { result.now ≡ self.now.got }
    {
        self.bytes.as_slice()
    }
}

impl<'a> Sink for MemSink<'a> {
    ghost got = { λ s. Some s.got };

    ghost faults = { λ s. s.faults };

    fn write(&mut self, piece: &[u8]) -> Result<usize, Failed>
        ensures bound { WritesAtMost result piece.now }
        ensures progress { IfOk result (λ count. 0 < length piece.now → 0 < count) }
        ensures bytes { WriteAppends (Some self.old.got) (Some self.new.got) result piece.now }
        ensures cause { HasCause self.old.faults self.new.faults result }

        ensures listed { IsErr result ↔ CannotTake self.old piece.now }
        ensures count { IfOk result (λ count. count ≡ min (length piece.now) self.old.room) }
        ensures room { LeavesRoom self.old.room self.new.room result }
        ensures calls { self.new.calls ≡ raised self.old.calls }
        ensures faults { Counts self.old.faults self.new.faults result }
        ensures fails { self.new.fails ≡ self.old.fails }
    {
        let call = self.calls;
        self.calls = call.saturating_add(1);
        let is_full = self.room == 0 && !piece.is_empty();
        if is_full || self.fails.contains(&call) {
            self.faults = self.faults.saturating_add(1);
            return Err(Failed);
        }
        let count = piece.len().min(self.room);
        self.room -= count;
        self.bytes.extend_from_slice(&piece[..count]).unwrap();
        Ok(count)
    }
}
