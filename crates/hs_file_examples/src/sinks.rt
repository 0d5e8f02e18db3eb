//! Sinks in memory, and one that takes two bytes at a time.

ghost use Rattle.std.specs.Prelude.{◌-◌, ◌^◌};

use crate::seeing::see;
use hs_edge::{Failed, MemSink, Reading, Sink, WriteFault, Writing, write_all};
use std::mem::{forget, size_of};
use std::process::Abort;
use std::test::Fail;

/// What is handed to a sink with room for seven bytes, which takes five at a time and fails at its second
/// call; what it answers, and which call it is.
const CALLS: [(&[u8], Result<usize, Failed>, &str); 5] = [
    (b"accepted\n", Ok(5), "the first call"),
    (b"ted\n", Err(Failed), "the second call"),
    (b"ted\n", Ok(2), "the third call"),
    (b"d\n", Err(Failed), "no room"),
    (b"", Ok(0), "nothing"),
];

/// Looks at such a sink.
fn see_room(rt: &impl Abort, sink: &mut MemSink) {
    for (piece, expected, note) in &CALLS {
        see(rt, sink.write(piece), *expected, note);
    }
    see(rt, sink.bytes(), b"accepte".as_slice(), "bytes");
}

/// Looks at what is written of these bytes.
fn see_written(
    rt: &impl Abort,
    sink: &mut MemSink,
    expected: Result<(), WriteFault>,
    written: &[u8],
) {
    see(rt, write_all(sink, b"accepted\n"), expected, "write_all");
    see(rt, sink.bytes(), written, "bytes");
}

#[test]
fn sinks_in_memory_take_up_to_their_room_and_calls(rt: HostRuntime) -> Result<(), Fail> {
    let mut sink = MemSink::new(rt.alloc(), 7, 5, &[2])?;
    see_room(&rt, &mut sink);
    forget(sink);
    let mut whole = MemSink::new(rt.alloc(), 9, 1, &[])?;
    see_written(&rt, &mut whole, Ok(()), b"accepted\n");
    forget(whole);
    let mut failing = MemSink::new(rt.alloc(), 100, 5, &[2])?;
    see_written(&rt, &mut failing, Err(WriteFault), b"accep");
    forget(failing);
    Ok(())
}

/// Takes two bytes at a time, and keeps how many it was handed.
#[derive(Drop)]
struct Recorder {
    lengths: Vec<usize>,
    writing: Writing,
}

impl Sink for Recorder {
    ghost writing = { λ sink. sink.writing };

    ghost faults = { λ _. 2 ^ 64 - 1 };

    fn write(&mut self, piece: &[u8]) -> Result<usize, Failed> {
        let count = piece.len().min(2);
        match self.lengths.push(piece.len()) {
            Ok(()) => {
                self.writing.note_write(piece, count);
                Ok(count)
            }
            Err(_) => Err(Failed),
        }
    }
}

#[test]
fn each_write_is_handed_all_that_is_not_taken_yet(rt: HostRuntime) {
    let mut sink = Recorder {
        lengths: Vec::new(rt.alloc()),
        writing: Writing::new(),
    };
    see(&rt, write_all(&mut sink, b"12345"), Ok(()), "write_all");
    see(
        &rt,
        sink.lengths.as_slice(),
        [5, 3, 1].as_slice(),
        "lengths",
    );
    forget(sink);
}

#[test]
fn the_records_take_no_memory(rt: HostRuntime) {
    let sizes = (size_of::<Reading>(), size_of::<Writing>());
    see(&rt, sizes, (0, 0), "sizes");
}
