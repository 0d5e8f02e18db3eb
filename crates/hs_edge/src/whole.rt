//! Reading all that is left, and writing all of some bytes.

ghost use Rattle.std.specs.Prelude.{◌≡◌, ◌≢◌, ◌≤◌, ◌<◌, ℕ, List, [], ◌++◌, true, length, replicate, Some, Err, OnOk, OnErr, IfOk, IfSome, IsSomeAnd, IsErrOf, vec_len};
ghost use Rattle.hs_edge.specs.Count.{Rose};
ghost use Rattle.hs_edge.specs.Reading.{ReadsOn, ReadsMore, ReadsWithin};
ghost use Rattle.hs_edge.specs.Writing.{AddsPart};

use crate::{Failed, ReadAll, Sink, Source, WriteFault};
use std::alloc::Global;

/// How many bytes one read asks for.
const PIECE: usize = 8192;

/// Reads all that is left of a started source, up to a read that gives nothing. `limit` is the most
/// that it may be, in bytes. After an error the source has lost what was read of it, and can be read
/// on or started anew. Of the sources of this crate, one that was never started gives no bytes.
///
/// The cost is linear in the bytes that are read.
pub fn read_all<S: Source>(alloc: Global, source: &mut S, limit: usize) -> Result<Vec<u8>, ReadAll>
    // All that was handed out, up to the first end.
    ensures all { IfOk result (λ bytes. ReadsOn
        (S.reading source.old) (S.left source.old) bytes.items true (S.reading source.new)
        (S.left source.new)) }
    ensures within { IfOk result (λ bytes. vec_len bytes ≤ limit) }
    ensures emptied { OnOk result (IfSome (S.left source.new) (λ left. left ≡ [])) }

    // More than `limit` bytes were read at `TooLong`, and at no other error.
    ensures too_long { IsErrOf result ReadAll.TooLong → ReadsMore limit
        (S.reading source.old) (S.left source.old) (S.reading source.new) (S.left source.new) }
    ensures fault { IsErrOf result ReadAll.ReadFault → ReadsWithin limit
        (S.reading source.old) (S.left source.old) (S.reading source.new) (S.left source.new) }
    ensures memory { IsErrOf result ReadAll.OutOfMemory → ReadsWithin limit
        (S.reading source.old) (S.left source.old) (S.reading source.new) (S.left source.new) }
    ensures cause { IsErrOf result ReadAll.ReadFault →
        IsSomeAnd (S.reading source.old).begun
        (λ name. Rose (S.faults source.old name) (S.faults source.new name)) }

    // Nothing failed but at `ReadFault`.
    ensures same_faults { result ≢ Err ReadAll.ReadFault →
        (any : List ℕ) → S.faults source.new any ≡ S.faults source.old any }
    ensures never_falls { (any : List ℕ) → S.faults source.old any ≤ S.faults source.new any }
    ensures same_files { (any : List ℕ) → S.file source.new any ≡ S.file source.old any }
{
    let mut bytes = Vec::new(alloc);
    let mut buffer = [0; PIECE];
    'pieces: loop {
        let count = match source.read(&mut buffer) {
            Ok(count) => count,
            Err(Failed) => return Err(ReadAll::ReadFault),
        };
        if count == 0 {
            return Ok(bytes);
        }
        if count > limit - bytes.len() {
            return Err(ReadAll::TooLong);
        }
        bytes.extend_from_slice(&buffer[..count])?;
    }
}

/// Writes all of `bytes`. Each write is handed all that isn't taken yet.
///
/// The cost is that of the writes, of which each takes a byte at least.
pub fn write_all<O: Sink>(sink: &mut O, bytes: &[u8]) -> Result<(), WriteFault>
    ensures all { OnOk result ((O.writing sink.new).taken ≡ (O.writing sink.old).taken ++ bytes.now) }
    ensures part { OnErr result (AddsPart (O.writing sink.old).taken (O.writing sink.new).taken bytes.now) }
    // Each write would have taken all, had it taken what it was handed.
    ensures each { (writes : ℕ) × ((O.writing sink.new).aims ≡
        (O.writing sink.old).aims ++ replicate writes ((O.writing sink.old).taken ++ bytes.now)) }
    ensures cause { OnErr result (Rose (O.faults sink.old) (O.faults sink.new)) }

    ensures same_faults { OnOk result (O.faults sink.new ≡ O.faults sink.old) }
    ensures never_falls { O.faults sink.old ≤ O.faults sink.new }
{
    let mut done = 0;
    while done < bytes.len() {
        match sink.write(&bytes[done..]) {
            Ok(count) => done += count,
            Err(Failed) => return Err(WriteFault),
        }
    }
    Ok(())
}
