//! Which valuations meet a query, and that lists of any length are kept.
ghost use Rattle.std.specs.Prelude.{◌≡◌, IfOk, length};

use crate::made::{A, B, H, LESS_Y, NOT_B, Row, X, query};
use ag_base::{List, OutOfMemory};
use ag_query::{LRow, LTerm, Lit, Lits, Query, Terms, Valuation};
use std::alloc::Global;
use std::test::Fail;

/// x - y <= -1, and a free atom.
const ROWS: [Option<Row<'static>>; 2] = [Some((&[X, LESS_Y], -1)), None];

/// x is below y, or the free atom holds; and the free atom doesn't hold.
const CLAUSES: [&[Lit]; 2] = [&[A, B], &[NOT_B]];

fn valuation(alloc: Global, numbers: [i64; 2], free: bool) -> Result<Valuation, OutOfMemory>
    ensures whole { IfOk result (λ v. length v.whole ≡ 2) }
    ensures flags { IfOk result (λ v. length v.flags ≡ 2) }
{
    let whole = List::from_vec(Vec::from_slice(alloc, &numbers)?);
    let flags = List::from_vec(Vec::from_slice(alloc, &[true, free])?);
    Ok(Valuation { whole, flags })
}

/// A copy of the query.
fn copied(alloc: Global) -> Result<Query, Fail>
    ensures vars { IfOk result (λ q. q.vars ≡ 2) }
    ensures atoms { IfOk result (λ q. length q.atoms ≡ 2) }
{
    let query = query(alloc, 2, &ROWS, &CLAUSES)?;
    Ok(query.copy(alloc)?)
}

#[test]
fn says_which_valuations_meet_a_query(rt: HostRuntime) -> Result<(), Fail> {
    let alloc = rt.alloc();
    let query = copied(alloc)?;
    for (x, y, free, want) in [
        (3, 4, false, true),
        (4, 4, false, false),
        (3, 4, true, false),
        (i64::MIN, i64::MAX, false, true),
        (i64::MAX, i64::MIN, false, false),
    ] {
        let v = valuation(alloc, [x, y], free)?;
        assert_eq!(rt; query.met(&v), want, "at {x} and {y}");
    }
    Ok(())
}

/// Whether the terms are kept, so many of them.
fn keeps_terms(alloc: Global, count: usize) -> Result<bool, Fail> {
    let terms = vec![in alloc; LTerm { var: 7, factor: 1 }; count]?;
    let copy = Terms::make(alloc, &terms)?.clone()?;
    Ok(copy.as_slice() == terms.as_slice())
}

/// Whether the literals are kept, so many of them.
fn keeps_literals(alloc: Global, count: usize) -> Result<bool, Fail> {
    let lits = vec![in alloc; H; count]?;
    let copy = Lits::make(alloc, &lits)?.clone()?;
    Ok(copy.as_slice() == lits.as_slice())
}

#[test]
fn keeps_lists_of_any_length(rt: HostRuntime) -> Result<(), Fail> {
    for count in [0, 2, 3, 40] {
        assert!(rt; keeps_terms(rt.alloc(), count)?, "{count} terms");
        assert!(rt; keeps_literals(rt.alloc(), count)?, "{count} literals");
    }
    let terms = Terms::make(rt.alloc(), &[X, LESS_Y])?;
    let row = LRow { terms, bound: -1 };
    assert!(rt; row.is_in_order(2) && !row.is_in_order(1));
    Ok(())
}
