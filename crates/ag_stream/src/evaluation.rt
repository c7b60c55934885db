//! The run that follows from the values of the streams without an equation.
ghost use Rattle.std.specs.Prelude.{◌≡◌, IfOk, IfErr};
ghost use Rattle.ag_stream.specs.declared.problem.Run.{Run};
ghost use Rattle.ag_stream.specs.Forms.{IsPlain};
ghost use Rattle.ag_stream.specs.Runs.{IsRun, IsInstant};
ghost use Rattle.ag_stream.specs.Evaluation.{IsEvaluation};
ghost use Rattle.ag_stream.specs.Work.{IsPlainForm, IsOrder, IsEvaluationAt};

use crate::problem::{Instant, Problem, ProblemDraft, Run};
use crate::truth::{flag_equation, truth};
use ag_base::{List, OutOfMemory};
use std::alloc::Global;

/// Why a run isn't computed.
#[derive(Clone, Copy)]
pub enum EvalFault {
    /// The magnitude of a computed value reaches 2^62: the stream, and the instant counted from 1.
    Wide { stream: u16, instant: u32 },
    OutOfMemory,
}

impl From<OutOfMemory> for EvalFault {
    ghost use Rattle.ag_stream.specs.declared.evaluation.EvalFault.{EvalFault};
    ghost use Rattle.ag_stream.specs.declared.evaluation.EvalFault.TheVariants as faults;

    ghost from_gives = { λ _ fault. fault ≡ faults.OutOfMemory };

    fn from(_e: OutOfMemory) -> EvalFault {
        EvalFault::OutOfMemory
    }
}

/// The run that keeps the equations and has the values of `free` for streams without one. What
/// `free` has for the others counts for nothing.
pub fn eval(alloc: Global, problem: &Problem, free: &Run) -> Result<Run, EvalFault>
    requires plain { IsPlain problem.now }
    requires fits { IsRun problem.now free.now }
    ensures run { IfOk result (IsEvaluation problem.now free.now) }
    ensures only { IfOk result (λ run. (other : Run) → IsEvaluation problem.now free.now other → other ≡ run) }
    // a plain problem computes no whole number
    ensures never_wide { IfErr result (λ fault. fault ≡ EvalFault.OutOfMemory) }
{
    problem.know();
    let draft = problem.draft();
    let order = problem.order();
    let mut instants = List::new(alloc);
    for instant in free.instants.as_slice() {
        instants.push(evaluated(alloc, draft, order, instant)?)?;
    }
    Ok(Run { instants })
}

/// One instant of the run.
fn evaluated(
    alloc: Global,
    draft: &ProblemDraft,
    order: &[usize],
    free: &Instant,
) -> Result<Instant, OutOfMemory>
    requires form { IsPlainForm draft.now }
    requires order { IsOrder draft.now order.now }
    requires instant { IsInstant draft.now free.now }
    ensures { IfOk result (IsEvaluationAt draft.now free.now) }
{
    let mut flags = Vec::from_slice(alloc, free.flags.as_slice())?;
    for k in order {
        let (stream, part) = flag_equation(draft, *k);
        flags[stream as usize] = truth(draft, &flags, part);
    }
    Ok(Instant {
        whole: List::new(alloc),
        flags: List::from_vec(flags),
    })
}
