//! What the theory of differences finds.
use crate::made::{
    A, B, C, D, E, F, G, H, I, LESS_X, LESS_Y, LESS_Z, NOT_A, NOT_B, NOT_D, NOT_E, NOT_G, NOT_H,
    Row, X, Y, Z, are_of, query,
};
use ag_base::{AfterPolls, Halted};
use ag_diff::{DiffEngine, is_difference_query};
use ag_kernel::{Found, Kernel, Line, Theory};
use ag_query::Lit;
use std::alloc::Global;
use std::test::Fail;

/// The atoms, of which the last is free; `truth` says the same once more.
const ROWS: [Option<Row<'static>>; 9] = [
    Some((&[X, LESS_Y], -1)),
    Some((&[LESS_X, Y], 0)),
    Some((&[LESS_X, Y], 1)),
    Some((&[X], -5)),
    Some((&[LESS_X], 4)),
    Some((&[Y, LESS_Z], -3)),
    Some((&[LESS_X, Z], 3)),
    Some((&[], -1)),
    None,
];

fn truth(atom: u32, x: i64, y: i64, z: i64) -> bool {
    let (x, y, z) = (i128::from(x), i128::from(y), i128::from(z));
    match atom {
        0 => x - y <= -1,
        1 => y - x <= 0,
        2 => y - x <= 1,
        3 => x <= -5,
        4 => -x <= 4,
        5 => y - z <= -3,
        6 => z - x <= 3,
        7 => false,
        _ => true,
    }
}

/// Whether the rows are as the literals say.
fn are_met(lits: &[Lit], numbers: &[i64]) -> bool {
    let [x, y, z] = numbers else {
        return false;
    };
    lits.iter().all(|l| truth(l.atom, *x, *y, *z) == l.holds)
}

/// How many literals the line has, all of them contraries of these; 0 if not so.
fn contraries(line: &Line, lits: &[Lit]) -> usize {
    let found = line.lits.as_slice();
    if line.row.is_some() || !found.iter().all(|l| lits.contains(&l.contrary())) {
        return 0;
    }
    found.len()
}

/// What the engine finds: nothing where its numbers meet all literals, the number of literals where
/// its line has no row and contraries of these alone.
fn refuting(
    alloc: Global,
    kernel: &mut Kernel,
    lits: &[Lit],
    polls: u32,
) -> Result<Option<usize>, Halted> {
    let query = kernel.query();
    if !is_difference_query(query) || !are_of(lits, query.atoms.len()) {
        return Ok(Some(0));
    }
    let mut halt = AfterPolls::make(polls);
    match DiffEngine::make(alloc).decide(alloc, kernel, lits, &mut halt)? {
        Found::Model(numbers) if are_met(lits, numbers.as_slice()) => Ok(None),
        Found::Line(n) => Ok(Some(contraries(kernel.line(n), lits))),
        _ => Ok(Some(0)),
    }
}

/// A kernel of the atoms.
fn kernel_of(alloc: Global) -> Result<Kernel, Fail> {
    let query = query(alloc, 3, &ROWS, &[])?;
    Ok(Kernel::new(alloc, &query)?)
}

/// Literals, and how many of them a line refutes that the engine finds; no number where it finds a model.
const CASES: [([Lit; 3], Option<usize>); 12] = [
    ([A, B, I], Some(2)),
    ([A, C, I], None),
    ([D, E, I], Some(2)),
    ([NOT_D, E, I], None),
    ([D, NOT_E, I], None),
    ([NOT_A, NOT_B, I], Some(2)),
    ([NOT_A, B, I], None),
    ([A, F, G], Some(3)),
    ([A, F, NOT_G], None),
    ([A, NOT_A, I], Some(2)),
    ([H, A, I], Some(1)),
    ([NOT_H, A, I], None),
];

#[test]
fn decides(rt: HostRuntime) -> Result<(), Fail> {
    for (lits, want) in &CASES {
        let mut kernel = kernel_of(rt.alloc())?;
        assert_eq!(rt; refuting(rt.alloc(), &mut kernel, lits, 99)?, *want);
    }
    Ok(())
}

#[test]
fn stops(rt: HostRuntime) -> Result<(), Fail> {
    let mut kernel = kernel_of(rt.alloc())?;
    let found = refuting(rt.alloc(), &mut kernel, &[A, C], 1);
    assert_eq!(rt; found, Err(Halted::Stopped));
    Ok(())
}

/// Whether a query of so many variables about one row is about differences.
fn is_about_differences(alloc: Global, vars: u32, row: Row) -> Result<bool, Fail> {
    let query = query(alloc, vars, &[Some(row)], &[])?;
    Ok(is_difference_query(&query))
}

#[test]
fn says_which_queries_are_about_differences(rt: HostRuntime) -> Result<(), Fail> {
    let bound = 1 << 48;
    let rows: [(u32, Row, bool); 4] = [
        (8192, (&[X, LESS_Y], bound), true),
        (8192, (&[LESS_X, Y], -bound), true),
        (8193, (&[X, LESS_Y], 0), false),
        (3, (&[X], bound + 1), false),
    ];
    for (vars, row, want) in &rows {
        let found = is_about_differences(rt.alloc(), *vars, *row)?;
        assert_eq!(rt; found, *want, "{vars} variables");
    }
    Ok(())
}
