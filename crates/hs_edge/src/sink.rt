//! What is written to.

ghost use Rattle.std.specs.Prelude.{◌≡◌, ◌≤◌, ◌<◌, ⊤, ℕ, Result, List, length, OnOk, OnErr, IfOk};
ghost use Rattle.hs_edge.specs.declared.errors.Failed.{Failed};
ghost use Rattle.hs_edge.specs.Count.{Rose};
ghost use Rattle.hs_edge.specs.Writing.{Writing, written};

use crate::Failed;

/// A place that takes bytes in order.
pub trait Sink {
    /// What its calls have answered: the bytes taken so far, and how they were handed over. It is always
    /// told. An implementation keeps it as a `crate::Writing`.
    ghost writing: { Self → Writing };

    /// How many calls have failed, counted in a `u64` that stands still at its end.
    ghost faults: { Self → ℕ };

    /// What more `write` does with a piece, where a type says more.
    ghost write_gives: { Self → List ℕ → Result ℕ Failed → Self → Type 0 } = { λ _ _ _ _. ⊤ };

    /// Takes bytes from the front of `piece`, and answers how many. After `Failed` none was taken, and
    /// the write can be tried again.
    fn write(&mut self, piece: &[u8]) -> Result<usize, Failed>
        ensures fits { IfOk result (λ n. n ≤ length piece.now) }
        ensures takes_some { IfOk result (λ n. 0 < length piece.now → 0 < n) }
        ensures ok_writing { IfOk result (λ n.
            writing self.new ≡ written piece.now n (writing self.old)) }
        ensures ok_faults { OnOk result (faults self.new ≡ faults self.old) }
        ensures err_writing { OnErr result (writing self.new ≡ writing self.old) }
        ensures cause { OnErr result (Rose (faults self.old) (faults self.new)) }

        ensures never_falls { faults self.old ≤ faults self.new }
        ensures more { write_gives self.old piece.now result self.new };
}
