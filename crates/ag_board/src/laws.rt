//! Laws of the store: functions that do nothing.
ghost use Rattle.std.specs.Prelude.{◌≡◌, ◌↔◌, ℕ, List, true};
ghost use Rattle.ag_stream.specs.declared.problem.ProblemDraft.{ProblemDraft};
ghost use Rattle.ag_board.specs.Tickets.{Handed};
ghost use Rattle.ag_board.specs.Entries.{PlainCall, PlainEntry};
ghost use Rattle.ag_board.specs.Machine.{State, same_problem, start, after, IsLegal, state_after};
ghost use Rattle.ag_board.specs.Store.{IsOut};
ghost use Rattle.ag_board.specs.Laws.{AreTrue, EqualsAgree, DoRise, Ends};

/// The store takes two problems for the same exactly where they are equal.
pub fn problems_are_compared()
    ensures { (p q : ProblemDraft) → (same_problem p q ≡ true) ↔ (p ≡ q) }
{}

/// Where a legal history leads, each verdict is true of the problem beside it.
pub fn verdicts_are_true()
    ensures { (history : List PlainEntry) → IsLegal history → AreTrue (state_after start history) }
{}

/// Where a legal history leads, equal problems have the same verdict, in whatever revisions they are.
pub fn equal_problems_agree()
    ensures { (history : List PlainEntry) → IsLegal history → EqualsAgree (state_after start history) }
{}

/// Where a legal history leads, the claim numbers of the tickets that are out rise strictly, from 1 to at most
/// the number of claims handed out.
pub fn tickets_rise()
    ensures { (history : List PlainEntry) → IsLegal history → DoRise (state_after start history) }
{}

/// A ticket that is out stays out, whatever call comes, unless it is the post or the give_back of its claim.
pub fn tickets_stay()
    ensures { (s : State) (t : Handed) (seat : ℕ) (call : PlainCall)
        → IsOut s t → (Ends t call → ⊥) → IsOut (after s seat call) t }
{}
