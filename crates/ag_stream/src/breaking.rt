//! Whether a run keeps a problem's premises, and whether it breaks the problem.
ghost use Rattle.std.specs.Prelude.{◌≡◌, ◌↔◌, ◌<◌, IsTrue, All, length};
ghost use Rattle.ag_stream.specs.Forms.{IsPlain};
ghost use Rattle.ag_stream.specs.Runs.{IsRun, IsInstant, IsPremisesRun, Breaks, AllHold, ClaimIs, KeepsEquations};
ghost use Rattle.ag_stream.specs.Work.{IsPlainForm, KeepsPremisesAt, AllHoldAt, ClaimFailsAt};

use crate::problem::{Instant, Problem, ProblemDraft, Run};
use crate::truth::{all_hold, keeps_equations, truth};

/// Whether the run keeps the equations and what holds so far at every instant.
pub fn keeps_premises(problem: &Problem, run: &Run) -> bool
    requires plain { IsPlain problem.now }
    requires fits { IsRun problem.now run.now }
    ensures { IsTrue result ↔ IsPremisesRun problem.now run.now }
{
    problem.know();
    let draft = problem.draft();
    for instant in run.instants.as_slice() {
        if !keeps_premises_at(draft, instant) {
            return false;
        }
    }
    true
}

/// Whether the instant keeps the equations and what holds so far.
fn keeps_premises_at(draft: &ProblemDraft, instant: &Instant) -> bool
    requires form { IsPlainForm draft.now }
    requires instant { IsInstant draft.now instant.now }
    ensures { IsTrue result ↔ KeepsPremisesAt draft.now instant.now }
{
    let flags = instant.flags.as_slice();
    if !keeps_equations(draft, flags) {
        return false;
    }
    all_hold(draft, flags, draft.so_far.as_slice())
}

/// Whether the run keeps the premises, what holds earlier holds before its last instant, and the
/// claim fails at the last.
pub fn breaks(problem: &Problem, run: &Run) -> bool
    requires plain { IsPlain problem.now }
    requires fits { IsRun problem.now run.now }
    ensures { IsTrue result ↔ Breaks problem.now run.now }
{
    if !keeps_premises(problem, run) {
        return false;
    }
    problem.know();
    let draft = problem.draft();
    let instants = run.instants.as_slice();
    let last = instants.len() - 1;
    if !each_holds(draft, &instants[..last], draft.earlier.as_slice()) {
        return false;
    }
    claim_fails(draft, &instants[last])
}

/// Whether all these parts hold at each of the instants.
fn each_holds(draft: &ProblemDraft, instants: &[Instant], parts: &[u16]) -> bool
    requires form { IsPlainForm draft.now }
    requires instants { All (IsInstant draft.now) instants.now }
    requires parts { All (λ p. p < length draft.now.parts) parts.now }
    ensures { IsTrue result ↔ All (AllHoldAt draft.now parts.now) instants.now }
{
    for instant in instants {
        if !all_hold(draft, instant.flags.as_slice(), parts) {
            return false;
        }
    }
    true
}

/// Whether there is a claim, and it fails at the instant.
fn claim_fails(draft: &ProblemDraft, instant: &Instant) -> bool
    requires form { IsPlainForm draft.now }
    requires instant { IsInstant draft.now instant.now }
    ensures { IsTrue result ↔ ClaimFailsAt draft.now instant.now }
{
    match draft.claim {
        None => false,
        Some(part) => !truth(draft, instant.flags.as_slice(), part),
    }
}
