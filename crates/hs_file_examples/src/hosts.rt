//! The system's files and standard streams.

use crate::seeing::{see, see_refused};
use hs_edge::{Failed, FileSource, ReadAll, Source, StdSink, read_all, write_all};
use std::alloc::Global;
use std::fs;
use std::mem::forget;
use std::process::Abort;
use std::test::Fail;

/// Looks at a read of at most two bytes.
fn see_read(rt: &impl Abort, source: &mut FileSource, expected: Result<usize, Failed>, note: &str) {
    let mut buf = [0; 2];
    see(rt, source.read(&mut buf), expected, note);
}

/// Looks at the file.
fn see_file(rt: &impl Abort, alloc: Global, source: &mut FileSource) -> Result<(), Fail> {
    see_read(rt, source, Ok(0), "nothing is begun");
    see(rt, source.start("here.txt"), Ok(()), "its name");
    see(rt, source.start("missing.txt"), Err(Failed), "another name");
    see_read(rt, source, Ok(2), "still begun");
    let rest = read_all(alloc, source, 1_000)?;
    see(rt, rest.as_slice(), b"c\n".as_slice(), "the rest");
    forget(rest);
    see(rt, source.start("here.txt"), Ok(()), "anew");
    see_refused(rt, alloc, source, 3, ReadAll::TooLong);
    Ok(())
}

/// Looks at a folder.
fn see_folder(rt: &impl Abort, alloc: Global, source: &mut FileSource) {
    if source.start(".") == Ok(()) {
        see_refused(rt, alloc, source, 1_000, ReadAll::ReadFault);
    }
}

#[test]
fn a_file_of_the_system_is_read_and_a_folder_is_a_fault(rt: HostRuntime) -> Result<(), Fail> {
    fs::write(&rt, "here.txt", "abc\n")?;
    let mut source = FileSource::new(&rt);
    let seen = see_file(&rt, rt.alloc(), &mut source);
    see_folder(&rt, rt.alloc(), &mut source);
    forget(source);
    seen?;
    fs::remove_file(&rt, "here.txt")?;
    Ok(())
}

#[test]
fn the_standard_streams_take_all(rt: HostRuntime) -> Result<(), Fail> {
    write_all(&mut StdSink::out(&rt), b"to standard output\n")?;
    write_all(&mut StdSink::err(&rt), b"to standard error\n")?;
    Ok(())
}
