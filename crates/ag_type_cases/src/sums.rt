//! Expressions: their types, whether they are sums, and the rows of sums.
use crate::scopes::{ports, streams_and_sum};
use ag_annex::{Clause, Site, Ty};
use ag_base::{Place, Refusal, Refused, Rule};
use ag_case_texts::annexes::clauses_of;
use ag_case_texts::{field, is_case, marked};
use ag_stream::problem::{Row, RowTerm};
use ag_types::{Scope, is_sum, linear, type_of};
use std::alloc::Global;
use std::process::Abort;
use std::test::Fail;

// What the expressions see besides ports: streams, constants and nodes of a package, a type and an implementation.
const LIBRARY: &str = "const large : int = 140737488355328 * 4;";

const FRAME: &str =
    "eq x : int, y : int = pair(1); eq b : bool; const n : int = 3; const t : bool = true; node inc(i : int) returns (o : int); let o = i + 1; tel; node flag(i : bool, j : int) returns (o : bool); let o = i; tel; node pair(i : int) returns (o : int, p : int); let o = i; p = i; tel;";

const BODY: &str = "eq w : int;";

// The type of an expression, and its row where it is a sum.
type Answered = (Result<Ty, Refusal>, Option<Result<Row, Refused>>);

// What is answered for an expression that stands behind `assume "" : `, its first byte in column 16.
fn answered(alloc: Global, expression: &str) -> Result<Answered, Fail> {
    answered_in(alloc, FRAME, expression)
}

// The same where a type has these clauses.
fn answered_in(alloc: Global, frame: &str, expression: &str) -> Result<Answered, Fail> {
    let library = clauses_of(alloc, 0, Site::Library, LIBRARY)?;
    let frame = clauses_of(alloc, 0, Site::Frame, frame)?;
    let body = clauses_of(alloc, 0, Site::Body, BODY)?;
    let text = format!(in alloc; "assume \"\" : {expression};")?;
    let clauses = clauses_of(alloc, 0, Site::Frame, text.as_str())?;
    let ports = ports(alloc).ok().ok_or("ports")?;
    let scope = Scope::make(
        alloc,
        library.as_slice(),
        frame.as_slice(),
        body.as_slice(),
        ports.as_slice(),
    )
    .ok()
    .ok_or("scope")?;
    match clauses.as_slice() {
        [Clause::Assume(assume)] => {
            let claim = &assume.claim;
            let row = if is_sum(&scope, claim) && scope.integer_streams() <= 65536 {
                Some(linear(alloc, &scope, claim))
            } else {
                None
            };
            Ok((type_of(&scope, claim), row))
        }
        _ => Err("one claim".into()),
    }
}

const TYPES: &str = "
Int | 1
Bool | true
Int | x
Int | X
Bool | b
Int | n
Bool | t
Int | i
Int | c.x
Bool | C.Q
Int | -x
Bool | not b
Int | pre(x)
Bool | pre(b)
Int | x -> y
Bool | b -> t
Int | prev(x, 1)
Bool | x = y
Bool | b <> t
Bool | x < 1 and b
Bool | b => b <=> b or b
Int | x + y * 2 div 3 mod 4 - 1
Int | if b then x else y
Bool | if x >= y then b else t
Int | inc(x)
Bool | FLAG(b, inc(1))
";

const ILL_TYPED: &str = "
Unknown | ^z
Unknown | ^p::x
Unknown | ^c.z
Unknown | ^c
Unknown | ^inc
Unknown | ^none(1)
Unknown | ^x(1)
Mismatch | -^b
Mismatch | not ^x
Mismatch | not (^x + 1)
Mismatch | ^b + x
Mismatch | x * ^b
Mismatch | 3 * ^b
Mismatch | x < ^b
Mismatch | ^x and b
Mismatch | b <=> ^x
Mismatch | x -> ^b
Mismatch | b = ^x
Mismatch | x <> ^b
Mismatch | 1 + ^prev(b, t)
Mismatch | if ^x then 1 else 2
Mismatch | if b then 1 else ^b
Mismatch | inc(^b)
Mismatch | flag(b, ^t)
Arity | ^inc()
Arity | ^inc(1, 2)
Arity | 1 + ^pair(2)
-- Of two faults the first one.
Unknown | ^z + b
Mismatch | ^b + z
Mismatch | x -> ^b and z
Arity | ^inc(b, z)
Mismatch | flag(^1, z)
-- At one place the first in the order of the rules.
Mismatch | not ^inc(1, 2)
-- A term without a type breaks no rule elsewhere, and an operator fixes its type whatever its operands.
Arity | inc(^pair(1))
Unknown | not (^z -> z)
Mismatch | not (^1 + z)
";

#[test]
fn types_expressions(rt: HostRuntime) -> Result<(), Fail> {
    for line in TYPES.lines() {
        if is_case(line) {
            let (name, expression) = field(line)?;
            let ty = if name == "Int" { Ty::Int } else { Ty::Bool };
            let (answer, _) = answered(rt.alloc(), expression)?;
            assert_eq!(rt; answer, Ok(ty), "{line}");
        }
    }
    Ok(())
}

// Checks that the rule is broken where the expression of the case has its `^`.
fn expect_refusal<R: Abort>(
    rt: &R,
    alloc: Global,
    case: &str,
    place: Option<Place>,
    refusal: Refusal,
) -> Result<(), Fail> {
    let (rule, _) = field(case)?;
    let place = place.ok_or("a place")?;
    assert_eq!(rt; refusal.place.file, 0, "{case}");
    assert_eq!(rt; refusal.place.line, 1, "{case}");
    assert_eq!(rt;
        refusal.place.column,
        place.column.wrapping_add(15),
        "{case}"
    );
    let told = format!(in alloc; "{:?}", refusal.rule)?;
    assert_eq!(rt; told.as_str(), rule, "{case}");
    Ok(())
}

#[test]
fn refuses_expressions(rt: HostRuntime) -> Result<(), Fail> {
    for line in ILL_TYPED.lines() {
        if is_case(line) {
            let (_, expression) = field(line)?;
            let (expression, place) = marked(rt.alloc(), 0, expression)?;
            match answered(rt.alloc(), expression.as_str())? {
                (Err(refusal), _) => expect_refusal(&rt, rt.alloc(), line, place, refusal)?,
                _ => assert!(rt; false, "{line}"),
            }
        }
    }
    Ok(())
}

fn expect_row<R: Abort>(rt: &R, alloc: Global, row: (&str, &[RowTerm], i64)) -> Result<(), Fail> {
    let (expression, terms, constant) = row;
    match answered(alloc, expression)? {
        (_, Some(Ok(answer))) => {
            assert!(rt; answer.terms.as_slice() == terms, "{expression}");
            assert_eq!(rt; answer.constant, constant, "{expression}");
            Ok(())
        }
        _ => Err("a row".into()),
    }
}

const fn term(stream: u16, before: bool, factor: i64) -> RowTerm {
    RowTerm {
        stream,
        before,
        factor,
    }
}

// The integer streams are `i`, `c.x`, `x`, `y` and `w`, from 0 on.
#[test]
fn writes_rows(rt: HostRuntime) -> Result<(), Fail> {
    let rows: [(&str, &[RowTerm], i64); 19] = [
        ("3", &[], 3),
        ("N", &[], 3),
        ("i", &[term(0, false, 1)], 0),
        ("x - C.X", &[term(1, false, -1), term(2, false, 1)], 0),
        (
            "pre(y) + y - 4 * pre(c.x)",
            &[term(1, true, -4), term(3, false, 1), term(3, true, 1)],
            0,
        ),
        (
            "-(x + n * i) - 140737488355328",
            &[term(0, false, -3), term(2, false, -1)],
            -140737488355328,
        ),
        ("x - x + 7", &[], 7),
        ("0 * x", &[], 0),
        (
            "(if t then 2 else 5) * x + 7 mod 4",
            &[term(2, false, 2)],
            3,
        ),
        ("(-7) div 2 + (-7) mod 2 * x", &[term(2, false, 1)], -4),
        ("2147483648 * x", &[term(2, false, 2147483648)], 0),
        ("-2147483648 * x", &[term(2, false, -2147483648)], 0),
        ("x * 3 + w", &[term(2, false, 3), term(4, false, 1)], 0),
        (
            "140737488355328 + 140737488355328 - x",
            &[term(2, false, -1)],
            281474976710656,
        ),
        ("0 * x - 140737488355328 * 2", &[], -281474976710656),
        // A constant keeps the limit of constants alone.
        ("140737488355328 * 2 + 1", &[], 281474976710657),
        ("large", &[], 562949953421312),
        ("140737488355328 * 32768", &[], 4611686018427387904),
        ("-(140737488355328 * 32768)", &[], -4611686018427387904),
    ];
    for row in &rows {
        expect_row(&rt, rt.alloc(), *row)?;
    }
    Ok(())
}

const WITHOUT_ROW: &str = "
Unknown | ^z + x
Mismatch | ^b
Mismatch | ^pre(b)
Mismatch | ^x < y
Mismatch | ^not x
Mismatch | ^b and x
Unknown | ^z and b
Mismatch | x + ^b
-- A sum with a truth has no row.
Mismatch | 140737488355328 * 4 + ^b
NotLinear | x ^* y
BadDivisor | x + 7 div ^0
Coefficient | ^2147483649 * x
Coefficient | ^-2147483649 * x
Coefficient | ^140737488355328 * 2 + 1 - x
-- What names a stream keeps the limits of rows, also where the stream falls away; a constant keeps that of constants.
Coefficient | ^0 * x + 140737488355328 * 2 + 1
Coefficient | ^0 * x - 140737488355328 * 2 - 1
Coefficient | ^large + x
Coefficient | ^large * x
Coefficient | ^140737488355328 * 32768 + 1
Coefficient | ^-(140737488355328 * 32768 + 1)
-- Each level keeps its own limit, whatever stands over it.
Coefficient | y + (^2147483649 * x - 2147483648 * x)
Coefficient | 1 - (^140737488355328 * 32768 + 1)
Coefficient | ^1024 * 1024 * 1024 * 1024 * 1024 * 1024 * 1024 * x
";

#[test]
fn refuses_rows(rt: HostRuntime) -> Result<(), Fail> {
    for line in WITHOUT_ROW.lines() {
        if is_case(line) {
            let (_, expression) = field(line)?;
            let (expression, place) = marked(rt.alloc(), 0, expression)?;
            match answered(rt.alloc(), expression.as_str())? {
                (_, Some(Err(Refused::Model(refusal)))) => {
                    expect_refusal(&rt, rt.alloc(), line, place, refusal)?;
                }
                _ => assert!(rt; false, "{line}"),
            }
        }
    }
    Ok(())
}

#[test]
fn counts_terms_of_rows(rt: HostRuntime) -> Result<(), Fail> {
    for terms in [1024, 1025] {
        let (streams, sum) = streams_and_sum(rt.alloc(), terms)?;
        match answered_in(rt.alloc(), streams.as_str(), sum.as_str())? {
            (_, Some(Ok(row))) => {
                assert_eq!(rt; terms, 1024);
                assert_eq!(rt; row.terms.as_slice().len(), 1024);
            }
            (_, Some(Err(Refused::Model(refusal)))) => {
                assert_eq!(rt; terms, 1025);
                assert_eq!(rt; refusal.rule, Rule::Coefficient);
                // The first stream, in brackets.
                assert_eq!(rt; refusal.place.column, 17);
            }
            _ => assert!(rt; false),
        }
    }
    Ok(())
}

const NO_SUMS: &str = "
inc(x)
x -> y
1 + (1 -> 2)
if b then x else y
if b then 1 else 2
x div 2
1 + x mod 2
7 div x
if t then 1 else x
pre(x + 1)
pre(n)
pre(z)
-pre(inc(x))
";

#[test]
fn tells_sums(rt: HostRuntime) -> Result<(), Fail> {
    for line in NO_SUMS.lines() {
        if is_case(line) {
            let (_, row) = answered(rt.alloc(), line)?;
            assert!(rt; row.is_none(), "{line}");
        }
    }
    Ok(())
}
