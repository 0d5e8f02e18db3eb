//! What is read by name.

ghost use Rattle.std.specs.Prelude.{◌≡◌, ◌≤◌, ◌<◌, ◌↔◌, ⊤, ℕ, Option, Result, List, [], length, take, Ok, OnOk, OnErr, IfOk, IfSome, IsNone, IsSomeAnd};
ghost use Rattle.std.specs.Io.KnownBytes.{prepend_known};
ghost use Rattle.hs_edge.specs.declared.errors.Failed.{Failed};
ghost use Rattle.hs_edge.specs.Count.{Rose};
ghost use Rattle.hs_edge.specs.Reading.{Reading, started, handed};

use crate::Failed;

/// Files by name, of which one at a time is read from its front to its end. In contracts a name is
/// the list of its bytes.
pub trait Source {
    /// The bytes of the file with a name, where they are told.
    ghost file: { Self → List ℕ → Option (List ℕ) };

    /// The bytes that aren't read yet, where they are told.
    ghost left: { Self → Option (List ℕ) };

    /// What its calls have answered: which file was begun last, and what was read of it. It is always
    /// told. An implementation keeps it as a `crate::Reading`.
    ghost reading: { Self → Reading };

    /// For each name, how many calls have failed, counted in a `u64` that stands still at its end.
    ghost faults: { Self → List ℕ → ℕ };

    /// What more `start` does with a name, where a type says more.
    ghost start_gives: { Self → List ℕ → Result Unit Failed → Self → Type 0 } = { λ _ _ _ _. ⊤ };

    /// What more `read` does with a buffer, where a type says more.
    ghost read_gives: { Self → List ℕ → Result ℕ Failed → List ℕ → Self → Type 0 } = { λ _ _ _ _ _. ⊤ };

    /// Begins the file with this name, from its first byte on. After `Failed`, the file that was begun
    /// before can be read on.
    fn start(&mut self, name: &str) -> Result<(), Failed>
        ensures ok_left { OnOk result (left self.new ≡ file self.old name.now) }
        ensures ok_reading { OnOk result (reading self.new ≡ started name.now (reading self.old)) }
        ensures ok_faults { OnOk result ((any : List ℕ) → faults self.new any ≡ faults self.old any) }
        ensures err_left { OnErr result (left self.new ≡ left self.old) }
        ensures err_reading { OnErr result (reading self.new ≡ reading self.old) }
        ensures cause { OnErr result (Rose (faults self.old name.now) (faults self.new name.now)) }

        ensures never_falls { (any : List ℕ) → faults self.old any ≤ faults self.new any }
        ensures same_files { (any : List ℕ) → file self.new any ≡ file self.old any }
        ensures more { start_gives self.old name.now result self.new };

    /// Reads the next bytes into the front of `buf`, and answers how many. What `buf` has behind them,
    /// and after `Failed`, isn't said. A read that failed can be tried again.
    fn read(&mut self, buf: &mut [u8]) -> Result<usize, Failed>
        ensures fits { IfOk result (λ n. n ≤ length buf.old) }
        ensures ok_left { IfOk result (λ n.
            left self.old ≡ prepend_known (take n buf.new) (left self.new)) }
        ensures ok_reading { IfOk result (λ n.
            reading self.new ≡ handed (length buf.old) (take n buf.new) (reading self.old)) }
        ensures ok_faults { OnOk result ((any : List ℕ) → faults self.new any ≡ faults self.old any) }
        ensures at_end { IfOk result (λ n. IfSome (left self.old) (λ bytes.
            0 < length buf.old → ((n ≡ 0) ↔ (bytes ≡ [])))) }
        ensures err_left { OnErr result (left self.new ≡ left self.old) }
        ensures err_reading { OnErr result (reading self.new ≡ reading self.old) }

        // Before the first `start` there is nothing to read, and nothing fails.
        ensures never_begun { IsNone (reading self.old).begun → result ≡ Ok 0 }
        ensures cause { OnErr result (IsSomeAnd (reading self.old).begun (λ name.
            Rose (faults self.old name) (faults self.new name))) }

        ensures never_falls { (any : List ℕ) → faults self.old any ≤ faults self.new any }
        ensures same_files { (any : List ℕ) → file self.new any ≡ file self.old any }
        ensures more { read_gives self.old buf.old result buf.new self.new };
}
