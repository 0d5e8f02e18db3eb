//! A sink in memory.

ghost use Rattle.std.specs.Prelude.{◌≡◌, ◌<◌, IfOk};
ghost use Rattle.hs_edge.specs.MemSink.{new_sink, Writes};

use crate::{Failed, OutOfMemory, Sink, Writing};
use std::alloc::Global;
use std::marker::Model;

/// Takes bytes into memory. It takes them in steps, up to its room, and fails at calls that are
/// chosen beforehand: a sink for tests and for callers that keep the bytes.
///
/// A call fails where its number, counted from 1, is among those that fail, or where a piece that
/// isn't empty finds no room left.
#[derive(Debug, Drop)]
pub struct MemSink {
    taken: Vec<u8>,
    writing: Writing,
    room: usize,
    step: usize,
    failing: Vec<u64>,
    calls: u64,
    faults: u64,
}

impl Model for MemSink {
    ghost use Rattle.std.specs.Prelude.{◌≡◌, ◌≤◌, ◌<◌, vec_len, vec_capacity};
    ghost use Rattle.hs_edge.specs.MemSink.{SinkState};

    ghost Value = { SinkState };

    ghost view = { λ s. record {
      writing = s.writing;
      room = s.room;
      step = s.step;
      failing = s.failing.items;
      calls = s.calls;
      faults = s.faults;
    } };

    ghost invariant = { λ s. record {
      is_noted : s.taken.items ≡ s.writing.taken;
      takes_some : 0 < s.step;
      within : vec_len s.taken ≤ s.room;
      has_room : s.room ≤ vec_capacity s.taken;
    } };
}

impl MemSink {
    /// A sink that takes `room` bytes in all and `step` bytes at a write, at most; `step` is 1 or
    /// more. `failing` has the numbers of the calls that fail. Each call looks through all of them.
    /// The memory for all of `room` is taken here.
    pub fn new(
        alloc: Global,
        room: usize,
        step: usize,
        failing: &[u64],
    ) -> Result<MemSink, OutOfMemory>
        requires { 0 < step }
        ensures { IfOk result (λ sink. sink ≡ new_sink room step failing.now) }
    {
        Ok(MemSink {
            taken: Vec::with_capacity(alloc, room)?,
            writing: Writing::new(),
            room,
            step,
            failing: Vec::from_slice(alloc, failing)?,
            calls: 0,
            faults: 0,
        })
    }

    /// What it took.
    pub fn bytes(&self) -> &[u8]
        ensures { result.now ≡ self.now.writing.taken }
    {
        self.taken.as_slice()
    }
}

impl Sink for MemSink {
    ghost writing = { λ sink. sink.writing };

    ghost faults = { λ sink. sink.faults };

    ghost write_gives = { Writes };

    fn write(&mut self, piece: &[u8]) -> Result<usize, Failed> {
        self.calls = self.calls.saturating_add(1);
        let room = self.room - self.taken.len();
        if self.failing.contains(&self.calls) || (room == 0 && !piece.is_empty()) {
            self.faults = self.faults.saturating_add(1);
            return Err(Failed);
        }
        let count = self.step.min(piece.len()).min(room);
        // There is room for them since `new`.
        self.taken.extend_from_slice(&piece[..count]).unwrap();
        self.writing.note_write(piece, count);
        Ok(count)
    }
}
