//! Laws of histories.

ghost use Rattle.std.specs.Prelude.{◌≡◌, ◌≢◌, ◌≤◌, ◌++◌, ◌∷◌, ◌↔◌, [], ℕ, Bool, List, length, All, Some};
ghost use Rattle.hs_scheme.specs.Problem.{ProblemData};
ghost use Rattle.hs_table.specs.Entries.{EntryData};
ghost use Rattle.hs_table.specs.Follows.{Support};
ghost use Rattle.hs_table.specs.Tables.{IsLeastTable, Exceeds, HasSupports, HasStart};
ghost use Rattle.hs_history.specs.declared.step.Work.{Work};
ghost use Rattle.hs_history.specs.Story.{Base, Deduction, CoreStep, Story};
ghost use Rattle.hs_history.specs.CoreStep.{IsClosedWork, CanStep, after};
ghost use Rattle.hs_history.specs.History.{state_after, IsLegal, IsWork, IsInState, IsJustOnce, HasClosed, IsPast, IsAtRest};

/// Every history of any workers leads to a log in which each entry follows from those before it by
/// its support, of at most as many entries as the budget. Each work is just one of pending, in
/// flight and closed, and closed works have left nothing out. So where nothing is pending, in
/// flight or kept, the log is the least table. An entry is kept only where the least table has more
/// entries than the budget.
pub fn every_history_supported()
    ensures supported { (base : Base) (story : Story) → IsLegal base story →
        HasSupports base.problem (state_after base story).log (state_after base story).supports }
    ensures within { (base : Base) (story : Story) → IsLegal base story
        → length (state_after base story).log ≤ base.budget }
    ensures works { (base : Base) (story : Story) → IsLegal base story →
        (work : Work) → IsInState (state_after base story) work
        ↔ IsWork base.problem (state_after base story).log work }
    ensures just_once { (base : Base) (story : Story) → IsLegal base story
        → IsJustOnce (state_after base story) }
    ensures closed { (base : Base) (story : Story) → IsLegal base story
        → HasClosed base.problem (state_after base story) }
    ensures least { (base : Base) (story : Story) → IsLegal base story → IsAtRest (state_after base story) →
        IsLeastTable base.problem (state_after base story).log }
    ensures kept { (base : Base) (story : Story) → IsLegal base story →
        (d : Deduction) → (state_after base story).kept ≡ Some d
        → IsPast base (state_after base story).log d }
{}

/// A history goes on by each step that may come next, and what it begins with is a history. The log
/// only grows at its end, a work that is closed by the log stays closed, and a ticket stays with its
/// worker while others act.
pub fn histories_go_on()
    ensures legal { (base : Base) (story : Story) (step : CoreStep) →
        IsLegal base story → CanStep base (state_after base story) step → IsLegal base (story ++ step ∷ []) }
    ensures leads { (base : Base) (story : Story) (step : CoreStep) →
        state_after base (story ++ step ∷ []) ≡ after (state_after base story) step }
    ensures begins { (base : Base) (story more : Story) → IsLegal base (story ++ more) → IsLegal base story }
    ensures log { (base : Base) (story more : Story) →
        (entries : List EntryData) × ((state_after base (story ++ more)).log ≡
        (state_after base story).log ++ entries) }
    ensures supports { (base : Base) (story more : Story) →
        (others : List Support) × ((state_after base (story ++ more)).supports ≡
        (state_after base story).supports ++ others) }
    ensures closed { (base : Base) (story more : Story) (work : Work)
        → IsWork base.problem (state_after base story).log work →
        IsClosedWork base.problem (state_after base story).log work
        → IsClosedWork base.problem (state_after base (story ++ more)).log work }
    ensures tickets { (base : Base) (story more : Story) (worker ticket : ℕ) (work : Work) →
        IsLegal base (story ++ more) → All (λ (step : CoreStep). step.worker ≢ worker) more →
        (state_after base story).flight ticket ≡ Some (record { worker = worker; work = work }) →
        (state_after base (story ++ more)).flight ticket ≡ Some (record { worker = worker; work = work }) }
{}

/// Two histories over one problem and one budget don't come to different ends: where one is at rest,
/// none keeps an entry past the budget. A start entry in a log is in each least table.
pub fn answers_exclude_one_another()
    ensures rest_or_past { (p : ProblemData) (budget : ℕ) (one other : Bool) (story more : Story)
        (d : Deduction) →
        let base : Base = record { problem = p; budget = budget; first = one } in
        let second : Base = record { problem = p; budget = budget; first = other } in
        IsLegal base story → IsAtRest (state_after base story) →
        IsLegal second more → (state_after second more).kept ≡ Some d → ⊥ }
    ensures fits { (base : Base) (story : Story) → IsLegal base story → IsAtRest (state_after base story) →
        Exceeds base.problem base.budget → ⊥ }
    ensures start { (base : Base) (story : Story) (T : List EntryData) → IsLegal base story
        → IsLeastTable base.problem T →
        HasStart base.problem (state_after base story).log → HasStart base.problem T }
{}
