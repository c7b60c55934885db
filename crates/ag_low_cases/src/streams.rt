//! Each public call once, on two small problems.
ghost use Rattle.std.specs.Prelude.{◌≡◌, IfOk, [], ◌∷◌};
ghost use Rattle.ag_stream.specs.Forms.{IsWellFormed, IsPlain};

use ag_base::List;
use ag_stream::{
    Equation, Instant, Part, Problem, ProblemDraft, ProblemFault, Run, breaks, eval,
    keeps_premises, same_problem,
};
use std::alloc::{AllocError, Global};
use std::process::Abort;
use std::test::Fail;

/// Stream 1 is not stream 2, stream 2 is stream 0, and the claim is stream 1.
fn chain(alloc: Global) -> Result<ProblemDraft, AllocError>
    ensures formed { IfOk result IsWellFormed }
    ensures plain { IfOk result IsPlain }
    ensures sizes { IfOk result (λ d. (d.ints ≡ 0) × (d.flags ≡ 3)) }
{
    let parts = vec![in alloc;
        Part::Flag {
            stream: 2,
            before: false
        },
        Part::Not(0),
        Part::Flag {
            stream: 0,
            before: false
        },
        Part::Flag {
            stream: 1,
            before: false
        },
    ]?;
    let equations = vec![in alloc;
        Equation::Flag { stream: 1, part: 1 },
        Equation::Flag { stream: 2, part: 2 },
    ]?;
    Ok(ProblemDraft {
        ints: 0,
        flags: 3,
        parts: List::from_vec(parts),
        equations: List::from_vec(equations),
        so_far: List::new(alloc),
        earlier: List::new(alloc),
        claim: Some(3),
        length: 0,
    })
}

/// Stream 1 is itself.
fn looped(alloc: Global) -> Result<ProblemDraft, AllocError>
    ensures formed { IfOk result IsWellFormed }
    ensures plain { IfOk result IsPlain }
{
    let parts = vec![in alloc;
        Part::Flag {
            stream: 1,
            before: false
        },
    ]?;
    let equations = vec![in alloc; Equation::Flag { stream: 1, part: 0 }]?;
    Ok(ProblemDraft {
        ints: 0,
        flags: 2,
        parts: List::from_vec(parts),
        equations: List::from_vec(equations),
        so_far: List::new(alloc),
        earlier: List::new(alloc),
        claim: None,
        length: 1,
    })
}

/// A run of one instant.
fn run_of(alloc: Global, flags: &[bool]) -> Result<Run, AllocError>
    ensures { IfOk result (λ run. run ≡ record { instants = record { whole = []; flags = flags.now } ∷ [] }) }
{
    let flags = List::from_vec(Vec::from_slice(alloc, flags)?);
    let instants = vec![in alloc;
        Instant {
            whole: List::new(alloc),
            flags
        },
    ]?;
    Ok(Run {
        instants: List::from_vec(instants),
    })
}

/// The problem of the chain.
fn chained(alloc: Global) -> Result<Problem, Fail>
    ensures plain { IfOk result IsPlain }
    ensures sizes { IfOk result (λ p. (p.ints ≡ 0) × (p.flags ≡ 3)) }
{
    match Problem::make(alloc, chain(alloc)?) {
        Ok(problem) => Ok(problem),
        Err(_) => Err(Fail::from("the chain has no cycle")),
    }
}

/// Expects of the run that begins so whether it breaks, and that the streams behind the first are as
/// the equations say.
fn expect<R: Abort>(
    rt: &R,
    alloc: Global,
    problem: &Problem,
    first: bool,
    broken: bool,
) -> Result<(), Fail>
    requires plain { IsPlain problem.now }
    requires ints { problem.now.ints ≡ 0 }
    requires flags { problem.now.flags ≡ 3 }
{
    let free = run_of(alloc, &[first, false, false])?;
    assert!(rt; !keeps_premises(problem, &free));
    let Ok(run) = eval(alloc, problem, &free) else {
        return Err(Fail::from("there is memory"));
    };
    assert_eq!(rt; breaks(problem, &run), broken);
    assert!(rt; keeps_premises(problem, &run));
    let [instant] = run.instants.as_slice() else {
        return Err(Fail::from("there is one instant"));
    };
    assert!(rt; instant.whole.as_slice().is_empty());
    assert_eq!(rt; instant.flags.as_slice(), [first, !first, first].as_slice());
    Ok(())
}

#[test]
fn evaluates_and_breaks(rt: HostRuntime) -> Result<(), Fail> {
    let problem = chained(rt.alloc())?;
    for (first, broken) in [(true, true), (false, false)] {
        expect(&rt, rt.alloc(), &problem, first, broken)?;
    }
    Ok(())
}

#[test]
fn finds_a_cycle(rt: HostRuntime) -> Result<(), Fail> {
    let draft = looped(rt.alloc())?;
    let made = Problem::make(rt.alloc(), draft);
    assert!(rt; matches!(made, Err(ProblemFault::Cycle(1))));
    Ok(())
}

#[test]
fn compares_by_content(rt: HostRuntime) -> Result<(), Fail> {
    let one = chained(rt.alloc())?;
    let other = chained(rt.alloc())?;
    assert!(rt; same_problem(&one, &other) && one == other);
    assert_eq!(rt; one.draft().flags, 3);
    Ok(())
}
