//! Deciding a plain problem by trying every valuation of its free streams at one instant.
ghost use Rattle.std.specs.Prelude.{◌≡◌, ◌+◌, ◌<◌, ◌↔◌, [], ℕ, false, length, IsTrue, All, Contains, IfOk, IfSome, IfNone, slice_index_or, MatchOption};
ghost use Rattle.ag_verdict.specs.declared.verdict.Verdict.TheVariants.{Consistent, Inconsistent};
ghost use Rattle.ag_stream.specs.declared.problem.Instant.{Instant as InstantValue};
ghost use Rattle.ag_stream.specs.Forms.{IsPlain, targets};
ghost use Rattle.ag_stream.specs.Runs.{IsRun};
ghost use Rattle.ag_verdict.specs.Plain.{single, staying};
ghost use Rattle.ag_verdict.specs.Verdicts.{IsTrueOf};
ghost use Rattle.ag_verdict.specs.Within.{IsWithin};
ghost use Rattle.ag_top.specs.Trying.{IsSought, AgreesOutside, claim_verdict_of};

use ag_base::{Limits, List, OutOfMemory};
use ag_stream::{Equation, EvalFault, Instant, Problem, Run, breaks, eval, keeps_premises};
use ag_verdict::Verdict;
use ag_verdict::plain::instants_decide;
use std::alloc::Global;

/// Whether an equation is for the stream.
fn has_equation(problem: &Problem, stream: u16) -> bool
    ensures { IsTrue result → Contains (targets problem.now) (problem.now.ints + stream) }
{
    let draft = problem.draft();
    for equation in draft.equations.as_slice() {
        if let Equation::Flag { stream: own, .. } = equation {
            if *own == stream {
                return true;
            }
        }
    }
    false
}

/// The Boolean streams without an equation.
fn free_streams(alloc: Global, problem: &Problem) -> Result<Vec<u16>, OutOfMemory>
    ensures all { IfOk result (λ free. (s : ℕ) → s < problem.now.flags
        → (Contains (targets problem.now) (problem.now.ints + s) → ⊥) → Contains free.items s) }
    ensures below { IfOk result (λ free. All (λ s. s < problem.now.flags) free.items) }
{
    let mut free = Vec::new(alloc);
    for stream in 0..problem.draft().flags {
        if !has_equation(problem, stream) {
            free.push(stream)?;
        }
    }
    Ok(free)
}

/// Whether the run is one that is looked for.
fn is_sought(problem: &Problem, run: &Run) -> bool
    requires plain { IsPlain problem.now }
    requires fits { IsRun problem.now run.now }
    ensures { IsTrue result ↔ IsSought problem.now run.now }
{
    match problem.draft().claim {
        None => keeps_premises(problem, run),
        Some(_) => breaks(problem, run),
    }
}

/// The run of one instant with these truths.
fn instant_of(alloc: Global, flags: &[bool]) -> Result<Run, OutOfMemory>
    ensures { IfOk result (λ run. run ≡ single record { whole = []; flags = flags.now }) }
{
    let mut instants = List::new(alloc);
    instants.push(Instant {
        whole: List::new(alloc),
        flags: List::from_vec(Vec::from_slice(alloc, flags)?),
    })?;
    Ok(Run { instants })
}

/// The one instant that has these truths for the streams without an equation, where it is sought.
fn try_one(alloc: Global, problem: &Problem, flags: &[bool]) -> Result<Option<Run>, OutOfMemory>
    requires plain { IsPlain problem.now }
    requires fits { length flags.now ≡ problem.now.flags }
    ensures found { IfOk result (λ found. IfSome found (λ run.
        (i : InstantValue) × (run ≡ single i) × IsSought problem.now run)) }
    ensures none { IfOk result (λ found. IfNone found ((i : InstantValue)
        → IsSought problem.now (single i) → AgreesOutside problem.now [] flags.now i → ⊥)) }
{
    let given = instant_of(alloc, flags)?;
    match eval(alloc, problem, &given) {
        Err(EvalFault::Wide { .. }) => unreachable!(),
        Err(EvalFault::OutOfMemory) => Err(OutOfMemory),
        Ok(run) => {
            if is_sought(problem, &run) {
                Ok(Some(run))
            } else {
                Ok(None)
            }
        }
    }
}

/// An instant that is sought, whatever the free streams are. The others have the given truths.
fn try_free(
    alloc: Global,
    problem: &Problem,
    free: &[u16],
    flags: &mut [bool],
) -> Result<Option<Run>, OutOfMemory>
    requires plain { IsPlain problem.now }
    requires fits { length flags.old ≡ problem.now.flags }
    requires below { All (λ s. s < problem.now.flags) free.now }
    ensures kept { (s : ℕ) → (Contains free.now s → ⊥)
        → slice_index_or flags.new s false ≡ slice_index_or flags.old s false }
    ensures found { IfOk result (λ found. IfSome found (λ run.
        (i : InstantValue) × (run ≡ single i) × IsSought problem.now run)) }
    ensures none { IfOk result (λ found. IfNone found ((i : InstantValue)
        → IsSought problem.now (single i) → AgreesOutside problem.now free.now flags.old i → ⊥)) }
{
    let Some((stream, others)) = free.split_first() else {
        return try_one(alloc, problem, flags);
    };
    flags[*stream as usize] = false;
    if let Some(run) = try_free(alloc, problem, others, flags)? {
        return Ok(Some(run));
    }
    flags[*stream as usize] = true;
    try_free(alloc, problem, others, flags)
}

/// The run that stays at the one instant of a run.
fn stay(alloc: Global, run: &Run, length: u32) -> Result<Run, OutOfMemory>
    requires { (i : InstantValue) × (run.now ≡ single i) × (i.whole ≡ []) }
    ensures { IfOk result (λ long. (i : InstantValue) → run.now ≡ single i → long ≡ staying length i) }
{
    let flags = run.instants.as_slice()[0].flags.as_slice();
    let mut instants = List::new(alloc);
    for n in 0..length {
        let _ = n;
        instants.push(Instant {
            whole: List::new(alloc),
            flags: List::from_vec(Vec::from_slice(alloc, flags)?),
        })?;
    }
    Ok(Run { instants })
}

/// An instant that is sought, or none where there is none.
fn find_sought(alloc: Global, problem: &Problem) -> Result<Option<Run>, OutOfMemory>
    requires plain { IsPlain problem.now }
    ensures found { IfOk result (λ found. IfSome found (λ run.
        (i : InstantValue) × (run ≡ single i) × IsSought problem.now run)) }
    ensures none { IfOk result (λ found. IfNone found
        ((i : InstantValue) → IsSought problem.now (single i) → ⊥)) }
{
    let free = free_streams(alloc, problem)?;
    let mut flags = vec![in alloc; false; problem.draft().flags as usize]?;
    try_free(alloc, problem, &free, &mut flags)
}

/// The verdict of a plain problem, which single instants decide.
pub fn try_all(alloc: Global, limits: &Limits, problem: &Problem) -> Result<Verdict, OutOfMemory>
    requires plain { IsPlain problem.now }
    ensures true_verdict { IfOk result (IsTrueOf problem.now) }
    ensures within { IfOk result (IsWithin limits.now problem.now) }
{
    let _ = limits;
    instants_decide();
    problem.know();
    let found = find_sought(alloc, problem)?;
    match problem.draft().claim {
        Some(_) => Ok(claim_verdict(found)),
        None => premises_verdict(alloc, problem.draft().length, found),
    }
}

/// The verdict of a claim, by an instant that breaks it.
fn claim_verdict(found: Option<Run>) -> Verdict
    ensures { result ≡ claim_verdict_of found }
{
    match found {
        None => Verdict::Proved { k: 1 },
        Some(run) => Verdict::Refuted { run },
    }
}

/// The verdict of premises, by an instant that keeps them.
fn premises_verdict(alloc: Global, length: u32, found: Option<Run>) -> Result<Verdict, OutOfMemory>
    requires { IfSome found (λ run. (i : InstantValue) × (run ≡ single i) × (i.whole ≡ [])) }
    ensures { IfOk result (λ v. MatchOption found
        (v ≡ Inconsistent)
        (λ run. (i : InstantValue) → run ≡ single i → v ≡ Consistent (staying length i))) }
{
    match found {
        None => Ok(Verdict::Inconsistent),
        Some(run) => Ok(Verdict::Consistent {
            run: stay(alloc, &run, length)?,
        }),
    }
}
