//! The scheme whose automaton goes round a cycle of states.

ghost use Rattle.std.specs.Prelude.{◌≡◌, ◌≤◌, ◌++◌, ℕ, length, IfOk, OnOk};
ghost use Rattle.std.specs.List.{flat_map, range_with_len};
ghost use Rattle.hs_gen.specs.Cycle as cycle;
ghost use Rattle.hs_gen.specs.Cycle.{cycle_file_text};

use hs_scheme::OutOfMemory;
use itoa::Buffer;
use std::alloc::Global;

/// The longest cycle that a file is made for.
pub const MAX_CYCLE: u32 = 300;

/// Puts the name of the state with this number at the end.
fn push_name(state: u32, text: &mut Vec<u8>) -> Result<(), OutOfMemory>
    ensures { OnOk result (text.new.items ≡ text.old.items ++ cycle.state_name state) }
{
    let mut buffer = Buffer::new();
    text.extend_from_slice(b"s")?;
    text.extend_from_slice(buffer.format(state).as_bytes())?;
    Ok(())
}

/// Puts the line of a state at `br` at the end: both children have the state.
fn push_branch(state: u32, text: &mut Vec<u8>) -> Result<(), OutOfMemory>
    ensures { OnOk result (text.new.items ≡ text.old.items ++ cycle.branch_line state) }
{
    push_name(state, text)?;
    text.extend_from_slice(b" br -> ")?;
    push_name(state, text)?;
    text.extend_from_slice(b" ")?;
    push_name(state, text)?;
    text.extend_from_slice(b".\n")?;
    Ok(())
}

/// Puts the line of a state at `a` at the end: the child has the other state.
fn push_step(state: u32, next: u32, text: &mut Vec<u8>) -> Result<(), OutOfMemory>
    ensures { OnOk result (text.new.items ≡ text.old.items ++ cycle.step_line state next) }
{
    push_name(state, text)?;
    text.extend_from_slice(b" a -> ")?;
    push_name(next, text)?;
    text.extend_from_slice(b".\n")?;
    Ok(())
}

/// Puts the line of a state at `c` at the end.
fn push_end(state: u32, text: &mut Vec<u8>) -> Result<(), OutOfMemory>
    ensures { OnOk result (text.new.items ≡ text.old.items ++ cycle.end_line state) }
{
    push_name(state, text)?;
    text.extend_from_slice(b" c -> .\n")?;
    Ok(())
}

/// Puts the lines of the states before the last at the end.
fn push_states(last: u32, text: &mut Vec<u8>) -> Result<(), OutOfMemory>
    ensures { OnOk result (text.new.items ≡ text.old.items ++ flat_map cycle.inner_lines
        (range_with_len 0 last)) }
{
    for state in 0..last {
        push_branch(state, text)?;
        push_step(state, state + 1, text)?;
        push_end(state, text)?;
    }
    Ok(())
}

/// A file whose automaton goes round a cycle of `k` states, for measurements: it is short, and its
/// table and the work on it grow with the square of `k`.
///
/// The scheme is `S -> F c. F x -> br x (F (a x)).`, whose value tree has every `a (.. (a c))`
/// along a spine of `br`. The states are `s0` to those of number `k - 1`, and `s0` is initial. A
/// `br` hands its state to both children, an `a` hands the next one to its child, and the state
/// behind the last is `s0`. Every state but the last may meet `c`. So the scheme is rejected: `c`
/// is met in the last state behind `k - 1` times `a`, by a path of `2 * k` terminals. The least
/// table has `2 * k * k + 4 * k + 1` entries.
///
/// `k` is from 1 to `MAX_CYCLE`. The file has `3 * k + 5` lines. Time and memory are in proportion
/// to the text.
pub fn cycle_file(alloc: Global, k: u32) -> Result<Vec<u8>, OutOfMemory>
    requires least { 1 ≤ k }
    requires most { k ≤ MAX_CYCLE }
    ensures { IfOk result (λ bytes. bytes.items ≡ cycle_file_text k) }
{
    let last = k - 1;
    let mut text = Vec::from_slice(
        alloc,
        b"%BEGING\nS -> F c.\nF x -> br x (F (a x)).\n%ENDG\n%BEGINA\n",
    )?;
    push_states(last, &mut text)?;
    push_branch(last, &mut text)?;
    push_step(last, 0, &mut text)?;
    text.extend_from_slice(b"%ENDA\n")?;
    Ok(text)
}

/// A generated file is far within the limits on a file: it has at most 65,536 bytes.
pub fn cycle_files_are_short()
    ensures { (k : ℕ) → 1 ≤ k → k ≤ 300 → length (cycle_file_text k) ≤ 65536 }
{}
