//! What the solver answers.
use crate::made::{A, B, C, LESS_X, LESS_Y, NOT_A, NOT_B, NOT_C, Row, X, Y, query};
use ag_base::{AfterPolls, Halt, Halted, Limits, Never};
use ag_diff::is_difference_query;
use ag_query::{Lit, Query};
use ag_solve::{Solved, solve};
use ag_tree::has_plain_clauses;
use std::alloc::Global;
use std::test::Fail;

/// Three free atoms.
const FREE: [Option<Row<'static>>; 3] = [None, None, None];

/// The eight clauses over three atoms.
const CUBE: [&[Lit]; 8] = [
    &[A, B, C],
    &[NOT_A, B, C],
    &[A, NOT_B, C],
    &[NOT_A, NOT_B, C],
    &[A, B, NOT_C],
    &[NOT_A, B, NOT_C],
    &[A, NOT_B, NOT_C],
    &[NOT_A, NOT_B, NOT_C],
];

/// x - y <= -1 and -x + y <= 0.
const ORDERS: [Option<Row<'static>>; 2] = [Some((&[X, LESS_Y], -1)), Some((&[LESS_X, Y], 0))];

#[derive(Clone, Copy, Debug, PartialEq, Eq)]
enum Answer {
    Met,
    NotMet,
    Unsat,
    Facts(usize),
    Leaf,
    Stopped,
    OutOfMemory,
    Refused,
}

fn answered<H: Halt>(alloc: Global, query: &Query, work: u32, halt: &mut H) -> Answer {
    let Some(limits) = Limits::make(1, work, 100, 1, 0) else {
        return Answer::Refused;
    };
    if !is_difference_query(query) {
        return Answer::Refused;
    }
    let Ok(plain) = has_plain_clauses(alloc, query) else {
        return Answer::OutOfMemory;
    };
    if !plain {
        return Answer::Refused;
    }
    match solve(alloc, query, &limits, halt) {
        Ok(Solved::Sat(v)) => {
            if query.met(&v) {
                Answer::Met
            } else {
                Answer::NotMet
            }
        }
        Ok(Solved::Unsat) => Answer::Unsat,
        Ok(Solved::Work(facts)) => Answer::Facts(facts.len()),
        Ok(Solved::Leaf(_)) => Answer::Leaf,
        Err(Halted::Stopped) => Answer::Stopped,
        Err(Halted::OutOfMemory) => Answer::OutOfMemory,
    }
}

/// The answer on clauses over three free atoms, where the halt says yes from that poll on, or never.
fn over_atoms(
    alloc: Global,
    clauses: &[&[Lit]],
    work: u32,
    poll: Option<u32>,
) -> Result<Answer, Fail> {
    let query = query(alloc, 0, &FREE, clauses)?;
    match poll {
        None => Ok(answered(alloc, &query, work, &mut Never)),
        Some(poll) => Ok(answered(alloc, &query, work, &mut AfterPolls::make(poll))),
    }
}

#[test]
fn solves_clauses_over_three_atoms(rt: HostRuntime) -> Result<(), Fail> {
    for (count, work, poll, want) in [
        (8, 1, None, Answer::Facts(1)),
        (8, 27, None, Answer::Unsat),
        (7, 27, None, Answer::Met),
        (0, 1, None, Answer::Met),
        (8, 27, Some(2), Answer::Stopped),
    ] {
        let answer = over_atoms(rt.alloc(), &CUBE[..count], work, poll)?;
        assert_eq!(rt; answer, want, "{count} clauses");
    }
    Ok(())
}

/// The first row holds; where it does, the second one may, or does too.
const CHAINS: [([&[Lit]; 3], Answer); 2] = [
    ([&[A, B], &[A, NOT_B], &[A, B]], Answer::Met),
    ([&[A, B], &[A, NOT_B], &[NOT_A, B]], Answer::Unsat),
];

#[test]
fn solves_clauses_over_rows(rt: HostRuntime) -> Result<(), Fail> {
    for (clauses, want) in &CHAINS {
        let query = query(rt.alloc(), 2, &ORDERS, clauses)?;
        assert_eq!(rt; answered(rt.alloc(), &query, 9, &mut Never), *want);
    }
    Ok(())
}

/// The first atom, the second, and the first again, as one that holds or doesn't.
const TWICE: [([Lit; 3], Answer); 2] = [([A, B, A], Answer::Met), ([A, B, NOT_A], Answer::Refused)];

#[test]
fn takes_no_clause_with_an_atom_both_ways(rt: HostRuntime) -> Result<(), Fail> {
    for (lits, want) in &TWICE {
        let answer = over_atoms(rt.alloc(), &[lits.as_slice()], 9, None)?;
        assert_eq!(rt; answer, *want);
    }
    Ok(())
}
