//! The system's files and standard streams. Of them no contract can tell more than what the system
//! answers, which these lines record; what fails they count.

ghost use Rattle.std.specs.Prelude.{◌≡◌, ◌≢◌, ◌<◌, ◌≤◌, ◌⊎◌, [], Ok, length, take, None, IsOk, IsErr, IfOk, OnOk, OnErr, codes};
ghost use Rattle.hs_edge.specs.Count.{one_more};
ghost use Rattle.hs_edge.specs.Reading.{started, handed};
ghost use Rattle.hs_edge.specs.Writing.{written};
ghost use Rattle.hs_edge.specs.FileSource.{new_reader};
ghost use Rattle.hs_edge.specs.StdSink.{new_stream};

use crate::{Failed, Reading, Sink, Source, Writing};
use std::fmt;
use std::fs::File;
use std::io::{self, Read, Stderr, Stdin, Stdout, Write};
use std::marker::Model;

#[derive(Drop)]
enum Opened {
    Input(Stdin),
    File(File),
}

/// Files of the system by path. The name `-` is standard input, which a second `start` goes on
/// reading where it was.
///
/// A missing file, a folder and whatever else can't be opened or read is `Failed`. All names have one
/// count of failures.
#[derive(Drop)]
pub struct FileSource {
    rt: HostRuntime,
    opened: Option<Opened>,
    reading: Reading,
    failures: u64,
}

impl Model for FileSource {
    ghost use Rattle.std.specs.Prelude.{◌≡◌, is_some};
    ghost use Rattle.hs_edge.specs.FileSource.{ReaderState};

    ghost Value = { ReaderState };

    ghost view = { λ s. record { reading = s.reading; failures = s.failures } };

    ghost invariant = { λ s. is_some s.reading.begun ≡ is_some s.opened };
}

impl FileSource {
    /// A source that has nothing begun.
    pub fn new(rt: &HostRuntime) -> FileSource
        ensures { result ≡ new_reader }
    {
        FileSource {
            rt: *rt,
            opened: None,
            reading: Reading::new(),
            failures: 0,
        }
    }

    /// What `start` answers where the system opens a file, or gives an error.
    fn begin(&mut self, name: &str, outcome: io::Result<Opened>) -> Result<(), Failed>
        ensures ok { OnOk outcome (IsOk result) }
        ensures ok_state { OnOk outcome (
            self.new ≡ record self.old { reading = started name.now self.old.reading }) }
        ensures err { OnErr outcome (IsErr result) }
        ensures err_state { OnErr outcome (
            self.new ≡ record self.old { failures = one_more self.old.failures }) }
    {
        match outcome {
            Ok(opened) => {
                self.opened = Some(opened);
                self.reading.note_start(name);
                Ok(())
            }
            Err(_) => {
                self.failures = self.failures.saturating_add(1);
                Err(Failed)
            }
        }
    }

    /// What `read` answers where the system gives this outcome.
    fn answer(&mut self, buf: &[u8], outcome: io::Result<usize>) -> Result<usize, Failed>
        ensures ok { IfOk outcome (λ n. result ≡ Ok n) }
        ensures ok_state { IfOk outcome (λ n.
            self.new ≡ record self.old {
              reading = handed (length buf.now)
                  (take n buf.now) self.old.reading;
            }) }
        ensures err { OnErr outcome (IsErr result) }
        ensures err_state { OnErr outcome (
            self.new ≡ record self.old { failures = one_more self.old.failures }) }
    {
        match outcome {
            Ok(count) => {
                self.reading.note_read(buf, count);
                Ok(count)
            }
            Err(_) => {
                self.failures = self.failures.saturating_add(1);
                Err(Failed)
            }
        }
    }
}

impl Source for FileSource {
    ghost file = { λ _ _. None };

    ghost left = { λ _. None };

    ghost reading = { λ reader. reader.reading };

    ghost faults = { λ reader _. reader.failures };

    ghost start_gives = { λ old name result new. record {
      standard_input : name ≡ codes "-" → IsOk result;
      counts : OnErr result (new.failures ≡ one_more old.failures);
    } };

    ghost read_gives = { λ old _ result _ new. OnErr result (new.failures ≡ one_more old.failures) };

    fn start(&mut self, name: &str) -> Result<(), Failed> {
        let outcome = open(&self.rt, name);
        self.begin(name, outcome)
    }

    fn read(&mut self, buf: &mut [u8]) -> Result<usize, Failed> {
        let outcome = match &mut self.opened {
            None => Ok(0),
            Some(Opened::Input(input)) => input.read(buf),
            Some(Opened::File(file)) => file.read(buf),
        };
        self.answer(buf, outcome)
    }
}

impl fmt::Debug for FileSource {
    fn fmt<W: fmt::Write>(&self, f: &mut fmt::Formatter<W>) -> fmt::Result {
        f.debug_struct("FileSource")
            .field("failures", &self.failures)
            .finish_non_exhaustive()
    }
}

/// Standard input, or what the system opens under this name.
fn open(rt: &HostRuntime, name: &str) -> io::Result<Opened>
    ensures standard_input { name.now ≡ codes "-" → IsOk result }
{
    if name == "-" {
        return Ok(Opened::Input(rt.stdin()));
    }
    Ok(Opened::File(File::open(rt, name)?))
}

#[derive(Clone, Copy, Debug)]
enum Stream {
    Output(Stdout),
    Error(Stderr),
}

/// One of the two standard outputs.
///
/// A write that the system refuses, or of which it takes nothing, is `Failed`.
#[derive(Debug, Drop)]
pub struct StdSink {
    stream: Stream,
    writing: Writing,
    failures: u64,
}

impl Model for StdSink {
    ghost use Rattle.hs_edge.specs.StdSink.{StreamState};

    ghost Value = { StreamState };

    ghost view = { λ s. record { writing = s.writing; failures = s.failures } };
}

impl StdSink {
    /// Standard output.
    pub fn out(rt: &HostRuntime) -> StdSink
        ensures { result ≡ new_stream }
    {
        StdSink {
            stream: Stream::Output(rt.stdout()),
            writing: Writing::new(),
            failures: 0,
        }
    }

    /// Standard error.
    pub fn err(rt: &HostRuntime) -> StdSink
        ensures { result ≡ new_stream }
    {
        StdSink {
            stream: Stream::Error(rt.stderr()),
            writing: Writing::new(),
            failures: 0,
        }
    }

    /// What `write` answers where the system gives this outcome.
    fn answer(&mut self, piece: &[u8], outcome: io::Result<usize>) -> Result<usize, Failed>
        ensures ok { IfOk outcome (λ n. (0 < n ⊎ piece.now ≡ []) → result ≡ Ok n) }
        ensures ok_state { IfOk result
            (λ n. self.new ≡ record self.old { writing = written piece.now n self.old.writing }) }
        ensures took_nothing { IfOk outcome (λ n. n ≡ 0 → piece.now ≢ [] → IsErr result) }
        ensures err { OnErr outcome (IsErr result) }
        ensures err_state { OnErr result (
            self.new ≡ record self.old { failures = one_more self.old.failures }) }
        ensures never_falls { self.old.failures ≤ self.new.failures }
    {
        match outcome {
            Ok(count) if count > 0 || piece.is_empty() => {
                self.writing.note_write(piece, count);
                Ok(count)
            }
            _ => {
                self.failures = self.failures.saturating_add(1);
                Err(Failed)
            }
        }
    }
}

impl Sink for StdSink {
    ghost writing = { λ stream. stream.writing };

    ghost faults = { λ stream. stream.failures };

    ghost write_gives = { λ old _ result new. OnErr result (new.failures ≡ one_more old.failures) };

    fn write(&mut self, piece: &[u8]) -> Result<usize, Failed> {
        let outcome = match self.stream {
            Stream::Output(mut output) => output.write(piece),
            Stream::Error(mut error) => error.write(piece),
        };
        self.answer(piece, outcome)
    }
}
