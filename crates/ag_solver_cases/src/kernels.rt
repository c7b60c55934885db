//! The rules of the kernel, step by step.
ghost use Rattle.std.specs.Prelude.{◌<◌, IfOk, length};

use crate::made::{A, B, C, D, LESS_X, LESS_Y, NOT_A, NOT_B, NOT_C, NOT_D, Row, X, Y, query};
use ag_kernel::{Kernel, KernelFault, Line};
use ag_query::{LRow, LTerm, Lit, Terms};
use std::alloc::Global;
use std::process::Abort;
use std::test::Fail;

/// A rule, and what it is given.
enum Step<'a> {
    Unfold(Lit),
    Resolve(u32, u32, u32),
    Units(&'a [Lit], &'a [u32]),
    Combine(&'a [(u32, i128)]),
    Divide(u32, i128),
    Cases(Row<'a>),
}

use Step::{Cases, Combine, Divide, Resolve, Unfold, Units};

/// What a rule gives: the number of a line with its literals and its row, or a fault.
enum Gives<'a> {
    Adds(u32, &'a [Lit], Option<Row<'a>>),
    Refuses(KernelFault),
}

use Gives::{Adds, Refuses};

const TWO_X: LTerm = LTerm { var: 0, factor: 2 };

const LESS_TWO_X: LTerm = LTerm { var: 0, factor: -2 };

const HALF_OF_THE_MOST: i128 = 85070591730234615865843651857942052863;

/// x - y <= -1, y - x <= 0 and 2x <= 5.
const ROWS: [Option<Row<'static>>; 3] = [
    Some((&[X, LESS_Y], -1)),
    Some((&[LESS_X, Y], 0)),
    Some((&[TWO_X], 5)),
];

/// The first two rows hold.
const BOTH: [&[Lit]; 2] = [&[A], &[B]];

/// a, not a or b, not b.
const CHAIN: [&[Lit]; 3] = [&[A], &[NOT_A, B], &[NOT_B]];

/// Both rows unfolded, each joined with its clause, and added.
const REFUTATION: [(Step<'static>, Gives<'static>); 5] = [
    (Unfold(A), Adds(2, &[NOT_A], Some((&[X, LESS_Y], -1)))),
    (Resolve(2, 0, 0), Adds(3, &[], Some((&[X, LESS_Y], -1)))),
    (Unfold(B), Adds(4, &[NOT_B], Some((&[LESS_X, Y], 0)))),
    (Resolve(1, 4, 1), Adds(5, &[], Some((&[LESS_X, Y], 0)))),
    (Combine(&[(3, 1), (5, 1)]), Adds(6, &[], None)),
];

/// Rows and their contraries divided by 2.
const ROUNDING: [(Step<'static>, Gives<'static>); 7] = [
    (Cases((&[TWO_X], 4)), Adds(2, &[D, NOT_D], None)),
    (Unfold(C), Adds(3, &[NOT_C], Some((&[TWO_X], 5)))),
    (Divide(3, 2), Adds(4, &[NOT_C], Some((&[X], 2)))),
    (Unfold(NOT_C), Adds(5, &[C], Some((&[LESS_TWO_X], -6)))),
    (Divide(5, 2), Adds(6, &[C], Some((&[LESS_X], -3)))),
    (Unfold(NOT_D), Adds(7, &[D], Some((&[LESS_TWO_X], -5)))),
    (Divide(7, 2), Adds(8, &[D], Some((&[LESS_X], -3)))),
];

const REFUSALS: [(Step<'static>, Gives<'static>); 5] = [
    (Resolve(99, 98, 0), Refuses(KernelFault::NotThere(99))),
    (Resolve(0, 99, 0), Refuses(KernelFault::NotThere(99))),
    (Unfold(C), Adds(2, &[NOT_C], Some((&[TWO_X], 5)))),
    (Divide(2, 3), Refuses(KernelFault::NotImplied)),
    (Combine(&[(2, -1)]), Refuses(KernelFault::NotImplied)),
];

/// Up to the greatest number of 128 bits, but for one, and past it.
const WIDTH: [(Step<'static>, Gives<'static>); 4] = [
    (Unfold(C), Adds(2, &[NOT_C], Some((&[TWO_X], 5)))),
    (Divide(2, 2), Adds(3, &[NOT_C], Some((&[X], 2)))),
    (
        Combine(&[(3, HALF_OF_THE_MOST)]),
        Adds(
            4,
            &[NOT_C],
            Some((
                &[LTerm {
                    var: 0,
                    factor: HALF_OF_THE_MOST,
                }],
                170141183460469231731687303715884105726,
            )),
        ),
    ),
    (Combine(&[(4, 8)]), Refuses(KernelFault::Wide)),
];

const UNITS: [(Step<'static>, Gives<'static>); 2] = [
    (Units(&[], &[0, 1]), Refuses(KernelFault::NotImplied)),
    (Units(&[], &[0, 1, 2]), Adds(3, &[], None)),
];

const SPLIT: [(Step<'static>, Gives<'static>); 1] = [(
    Cases((&[TWO_X], 5)),
    Adds(2, &[D, NOT_D], None),
)];

/// What the kernel answers.
fn answer(alloc: Global, kernel: &mut Kernel, step: &Step) -> Result<u32, KernelFault>
    ensures { IfOk result (λ n. n < length kernel.new.lines) }
{
    match step {
        Unfold(lit) => kernel.unfold(*lit),
        Resolve(a, b, atom) => kernel.resolve(*a, *b, *atom),
        Units(clause, lines) => kernel.by_units(clause, lines),
        Combine(lines) => kernel.combine(lines),
        Divide(line, by) => kernel.divide(*line, *by),
        Cases((terms, bound)) => {
            let terms = Terms::make(alloc, terms)?;
            kernel.cases(LRow {
                terms,
                bound: *bound,
            })
        }
    }
}

/// Whether this is the line's row.
fn is_row(made: Option<&LRow>, row: Option<Row>) -> bool {
    match (made, row) {
        (None, None) => true,
        (Some(made), Some((terms, bound))) => {
            made.terms.as_slice() == terms && made.bound == bound
        }
        (None, Some(_)) | (Some(_), None) => false,
    }
}

/// Whether the line has these literals and this row.
fn is_line(line: &Line, lits: &[Lit], row: Option<Row>) -> bool {
    line.lits.as_slice() == lits && is_row(line.row.as_ref(), row)
}

/// Whether the kernel gives this.
fn is_given(alloc: Global, kernel: &mut Kernel, step: &Step, wanted: &Gives) -> bool {
    match (answer(alloc, kernel, step), wanted) {
        (Ok(n), Adds(number, lits, row)) => n == *number && is_line(kernel.line(n), lits, *row),
        (Err(fault), Refuses(wanted)) => fault == *wanted,
        (Ok(_), Refuses(_)) | (Err(_), Adds(..)) => false,
    }
}

/// A kernel of these rows and clauses, after these steps.
fn follow<R: Abort>(
    rt: &R,
    alloc: Global,
    rows: &[Option<Row>],
    clauses: &[&[Lit]],
    steps: &[(Step, Gives)],
) -> Result<Kernel, Fail> {
    let query = query(alloc, 2, rows, clauses)?;
    let mut kernel = Kernel::new(alloc, &query)?;
    for (index, (step, wanted)) in steps.iter().enumerate() {
        assert!(rt; is_given(alloc, &mut kernel, step, wanted), "step {index}");
    }
    Ok(kernel)
}

#[test]
fn refutes_two_rows(rt: HostRuntime) -> Result<(), Fail> {
    let kernel = follow(&rt, rt.alloc(), &ROWS, &BOTH, &REFUTATION)?;
    assert!(rt; kernel.is_empty_clause(6) && !kernel.is_empty_clause(2));
    assert_eq!(rt; kernel.query().vars, 2);
    Ok(())
}

#[test]
fn rounds_down(rt: HostRuntime) -> Result<(), Fail> {
    let _ = follow(&rt, rt.alloc(), &ROWS, &BOTH, &ROUNDING)?;
    Ok(())
}

#[test]
fn refuses(rt: HostRuntime) -> Result<(), Fail> {
    let _ = follow(&rt, rt.alloc(), &ROWS, &BOTH, &REFUSALS)?;
    Ok(())
}

#[test]
fn stays_in_128_bits(rt: HostRuntime) -> Result<(), Fail> {
    let _ = follow(&rt, rt.alloc(), &ROWS, &BOTH, &WIDTH)?;
    Ok(())
}

#[test]
fn splits_into_cases(rt: HostRuntime) -> Result<(), Fail> {
    let _ = follow(&rt, rt.alloc(), &ROWS, &BOTH, &SPLIT)?;
    Ok(())
}

#[test]
fn goes_by_units(rt: HostRuntime) -> Result<(), Fail> {
    let kernel = follow(&rt, rt.alloc(), &[None, None], &CHAIN, &UNITS)?;
    assert!(rt; kernel.is_empty_clause(3));
    Ok(())
}
