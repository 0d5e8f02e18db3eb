//! Sources in memory, and one without an end, read to the end or up to a limit.

ghost use Rattle.std.specs.Prelude.{◌<◌};

use crate::seeing::{see, see_refused};
use hs_edge::{Failed, MemSource, ReadAll, Reading, Source, read_all};
use std::alloc::Global;
use std::marker::Model;
use std::mem::forget;
use std::process::Abort;
use std::test::Fail;

/// Looks at a read of at most eight bytes, and at what it leaves in them.
fn see_read(
    rt: &impl Abort,
    source: &mut MemSource,
    expected: Result<usize, Failed>,
    left: &[u8],
    note: &str,
) {
    let mut buf = [b'-'; 8];
    see(rt, source.read(&mut buf), expected, note);
    see(rt, buf.as_slice(), left, note);
}

/// Looks at a source of the letters a to f, in pieces of at most four, whose first and fourth call
/// fail.
fn see_calls(rt: &impl Abort, source: &mut MemSource) {
    see_read(rt, source, Ok(0), b"--------", "nothing is begun");
    see(rt, source.start("g"), Err(Failed), "another name");
    see(rt, source.start("f"), Ok(()), "its name");
    see_read(rt, source, Err(Failed), b"--------", "the fourth call");
    see_read(rt, source, Ok(4), b"abcd----", "the first piece");
    let mut one = [b'-'];
    see(rt, source.read(&mut one), Ok(1), "one byte");
    see_read(rt, source, Ok(1), b"f-------", "the last one");
    see_read(rt, source, Ok(0), b"--------", "the end");
    see(rt, source.start("f"), Ok(()), "anew");
    see_read(rt, source, Ok(4), b"abcd----", "anew");
}

#[test]
fn a_source_in_memory_fails_at_its_calls_alone(rt: HostRuntime) -> Result<(), Fail> {
    let mut source = MemSource::new(rt.alloc(), "f", b"abcdef", 4, &[1, 4])?;
    see_calls(&rt, &mut source);
    forget(source);
    Ok(())
}

/// Looks at reads of these 20,000 bytes, whole and with a lower limit.
fn see_limits(
    rt: &impl Abort,
    alloc: Global,
    source: &mut MemSource,
    bytes: &[u8],
) -> Result<(), Fail> {
    see(rt, source.start("f"), Ok(()), "its name");
    see_refused(rt, alloc, source, 19_999, ReadAll::TooLong);
    see(rt, source.start("f"), Ok(()), "anew");
    let read = read_all(alloc, source, 20_000)?;
    see(rt, read.as_slice() == bytes, true, "all bytes");
    forget(read);
    Ok(())
}

/// Looks at such reads in pieces of at most `step` bytes.
fn see_steps(rt: &impl Abort, alloc: Global, bytes: &[u8], step: usize) -> Result<(), Fail>
    requires { 0 < step }
{
    let mut source = MemSource::new(alloc, "f", bytes, step, &[])?;
    let seen = see_limits(rt, alloc, &mut source, bytes);
    forget(source);
    seen
}

/// Looks at them in pieces of three lengths.
fn see_pieces(rt: &impl Abort, alloc: Global, bytes: &[u8]) -> Result<(), Fail> {
    see_steps(rt, alloc, bytes, 1)?;
    see_steps(rt, alloc, bytes, 4096)?;
    see_steps(rt, alloc, bytes, 100_000)
}

#[test]
fn all_is_read_within_the_limit(rt: HostRuntime) -> Result<(), Fail> {
    let bytes = vec![in rt.alloc(); b'x'; 20_000]?;
    let seen = see_pieces(&rt, rt.alloc(), bytes.as_slice());
    forget(bytes);
    seen
}

/// Looks at a source of the same letters whose third call fails: at reads up to the fault, and then of
/// the rest.
fn see_fault(rt: &impl Abort, alloc: Global, source: &mut MemSource) -> Result<(), Fail> {
    see(rt, source.start("f"), Ok(()), "its name");
    see_refused(rt, alloc, source, 1_000, ReadAll::ReadFault);
    let rest = read_all(alloc, source, 1_000)?;
    see(rt, rest.as_slice(), b"ef".as_slice(), "the rest");
    forget(rest);
    Ok(())
}

#[test]
fn after_a_read_fault_the_rest_can_be_read(rt: HostRuntime) -> Result<(), Fail> {
    let mut source = MemSource::new(rt.alloc(), "f", b"abcdef", 4, &[3])?;
    let seen = see_fault(&rt, rt.alloc(), &mut source);
    forget(source);
    seen
}

/// Gives as many bytes as it is asked for, for ever, once it is started.
#[derive(Drop)]
struct Endless {
    begun: bool,
    reading: Reading,
}

impl Model for Endless {
    ghost use Rattle.std.specs.Prelude.{◌≡◌, is_some};
    ghost use Rattle.hs_edge.specs.Reading.{Reading};

    ghost Value = { Reading };

    ghost view = { λ s. s.reading };

    ghost invariant = { λ s. s.begun ≡ is_some s.reading.begun };
}

impl Source for Endless {
    ghost use Rattle.std.specs.Prelude.{◌-◌, ◌^◌, None};

    ghost file = { λ _ _. None };

    ghost left = { λ _. None };

    ghost reading = { λ reading. reading };

    ghost faults = { λ _ _. 2 ^ 64 - 1 };

    fn start(&mut self, name: &str) -> Result<(), Failed> {
        self.begun = true;
        self.reading.note_start(name);
        Ok(())
    }

    fn read(&mut self, buf: &mut [u8]) -> Result<usize, Failed> {
        let count = if self.begun { buf.len() } else { 0 };
        self.reading.note_read(buf, count);
        Ok(count)
    }
}

#[test]
fn a_source_without_an_end_is_too_long(rt: HostRuntime) {
    let mut source = Endless {
        begun: false,
        reading: Reading::new(),
    };
    see(&rt, source.start("f"), Ok(()), "start");
    see_refused(&rt, rt.alloc(), &mut source, 100, ReadAll::TooLong);
}
