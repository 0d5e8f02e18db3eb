//! A source in memory.

ghost use Rattle.std.specs.Prelude.{◌≡◌, ◌<◌, ◌≤◌, ◌++◌, length, drop, Some, IfOk};
ghost use Rattle.hs_edge.specs.MemSource.{new_source, file_of, faults_of, Starts, ReadsMemory};

use crate::{Failed, OutOfMemory, Reading, Source};
use std::alloc::Global;
use std::marker::Model;

/// One named file in memory. It gives its bytes in steps, and fails at calls that are chosen
/// beforehand: a source for tests and for callers that have their bytes already.
///
/// A `start` with another name always fails. Each other call fails where its number, counted from 1
/// over all calls, is among those that fail; but a `read` before the first `start` that answered
/// `Ok` gives nothing and doesn't fail.
#[derive(Debug, Drop)]
pub struct MemSource {
    name: String,
    bytes: Vec<u8>,
    step: usize,
    failing: Vec<u64>,
    calls: u64,
    reading: Reading,
    begun: bool,
    // The next byte, or the end where nothing is begun.
    place: usize,
    own_faults: u64,
    other_faults: u64,
}

impl Model for MemSource {
    ghost use Rattle.std.specs.Prelude.{◌≡◌, ◌≤◌, ◌<◌, if◌then◌else◌, false, Some, None, drop, vec_len, string_bytes};
    ghost use Rattle.hs_edge.specs.MemSource.{SourceState};

    ghost Value = { SourceState };

    ghost view = { λ s. record {
      name = string_bytes s.name;
      bytes = s.bytes.items;
      step = s.step;
      failing = s.failing.items;
      calls = s.calls;
      reading = s.reading;
      left = drop s.place s.bytes.items;
      own_faults = s.own_faults;
      other_faults = s.other_faults;
    } };

    ghost invariant = { λ s. record {
      gives_some : 0 < s.step;
      within : s.place ≤ vec_len s.bytes;
      is_noted : s.reading.begun ≡ (if s.begun then Some (string_bytes s.name) else None);
      not_begun : s.begun ≡ false → s.place ≡ vec_len s.bytes;
    } };
}

impl MemSource {
    /// A file with this name and these bytes, of which one read gives `step` at most, 1 or more.
    /// `failing` has the numbers of the calls that fail. Each call looks through all of them.
    pub fn new(
        alloc: Global,
        name: &str,
        bytes: &[u8],
        step: usize,
        failing: &[u64],
    ) -> Result<MemSource, OutOfMemory>
        requires { 0 < step }
        ensures { IfOk result (λ source. source ≡ new_source name.now bytes.now step failing.now) }
    {
        Ok(MemSource {
            name: String::from_str(alloc, name)?,
            bytes: Vec::from_slice(alloc, bytes)?,
            step,
            failing: Vec::from_slice(alloc, failing)?,
            calls: 0,
            reading: Reading::new(),
            begun: false,
            place: bytes.len(),
            own_faults: 0,
            other_faults: 0,
        })
    }
}

impl Source for MemSource {
    ghost file = { file_of };

    ghost left = { λ source. Some source.left };

    ghost reading = { λ source. source.reading };

    ghost faults = { faults_of };

    ghost start_gives = { Starts };

    ghost read_gives = { ReadsMemory };

    fn start(&mut self, name: &str) -> Result<(), Failed> {
        self.calls = self.calls.saturating_add(1);
        if name != self.name.as_str() {
            self.other_faults = self.other_faults.saturating_add(1);
            return Err(Failed);
        }
        if self.failing.contains(&self.calls) {
            self.own_faults = self.own_faults.saturating_add(1);
            return Err(Failed);
        }
        self.begun = true;
        self.place = 0;
        self.reading.note_start(name);
        Ok(())
    }

    fn read(&mut self, buf: &mut [u8]) -> Result<usize, Failed> {
        self.calls = self.calls.saturating_add(1);
        if self.begun && self.failing.contains(&self.calls) {
            self.own_faults = self.own_faults.saturating_add(1);
            return Err(Failed);
        }
        let left = &self.bytes[self.place..];
        let count = self.step.min(buf.len()).min(left.len());
        copy_to_front(buf, &left[..count]);
        self.place += count;
        self.reading.note_read(buf, count);
        Ok(count)
    }
}

fn copy_to_front(buf: &mut [u8], bytes: &[u8])
    requires { length bytes.now ≤ length buf.old }
    ensures { buf.new ≡ bytes.now ++ drop (length bytes.now) buf.old }
{
    buf[..bytes.len()].copy_from_slice(bytes);
}
