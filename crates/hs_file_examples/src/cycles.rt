//! Generated files, byte for byte for the shortest cycles, and the number of lines of the longest.

use crate::seeing::see;
use hs_gen::{MAX_CYCLE, cycle_file};
use std::mem::forget;
use std::test::Fail;

/// How many lines there are.
fn lines_of(bytes: &[u8]) -> u32 {
    let mut lines = 0u32;
    for byte in bytes {
        if *byte == b'\n' {
            lines = lines.wrapping_add(1);
        }
    }
    lines
}

#[test]
fn files_of_the_shortest_cycles_and_lines_of_the_longest(rt: HostRuntime) -> Result<(), Fail> {
    let one = cycle_file(rt.alloc(), 1)?;
    see(
        &rt,
        one.as_slice(),
        b"%BEGING\nS -> F c.\nF x -> br x (F (a x)).\n%ENDG\n%BEGINA\ns0 br -> s0 s0.\ns0 a -> s0.\n%ENDA\n",
        "the first file",
    );
    forget(one);
    let two = cycle_file(rt.alloc(), 2)?;
    see(
        &rt,
        two.as_slice(),
        b"%BEGING\nS -> F c.\nF x -> br x (F (a x)).\n%ENDG\n%BEGINA\ns0 br -> s0 s0.\ns0 a -> s1.\ns0 c -> .\ns1 br -> s1 s1.\ns1 a -> s0.\n%ENDA\n",
        "the second file",
    );
    forget(two);
    let longest = cycle_file(rt.alloc(), MAX_CYCLE)?;
    let end = b"s299 br -> s299 s299.\ns299 a -> s0.\n%ENDA\n";
    let found = (
        lines_of(longest.as_slice()),
        longest.as_slice().ends_with(end),
    );
    forget(longest);
    see(&rt, found, (905, true), "lines and the end");
    Ok(())
}
