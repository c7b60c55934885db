//! Each rule on types and numbers, at its place.
use crate::scopes::fault_of;
use ag_annex::Site;
use ag_case_texts::annexes::clauses_of;
use ag_case_texts::{field, is_case, marked};
use std::alloc::Global;
use std::process::Abort;
use std::test::Fail;

// A case is a rule and the clauses of a package, a type and an implementation, which break it where they have their `^`.
// With the rule `none` they have no `^`, and break none.
const RULES: &str = "
-- Scopes: names and types.
none | const n : int = 3; | eq x : int = i + n; guarantee \"\" : x > n; | lemma \"\" : c.q; assign i = 1;
-- Names are declared once, whatever they name and wherever they are seen together.
Twice | node f(x : int) returns (y : int); var ^x : int; let y = x; x = 1; tel; | |
Twice | const n : int = 3; const ^N : int = 4; | |
Twice | const n : int = 3; | eq ^n : bool; |
Twice | | eq x : int; | node ^x(a : int) returns (r : int); let r = a; tel;
Twice | | eq ^i : int; |
Twice | | eq ^I : int, x : int; |
Twice | | node f(a : int) returns (^A : int); let a = 1; tel; |
Twice | const n : int = 3; node f(^n : int) returns (r : int); let r = 1; tel; | |
Twice | node f(n : int) returns (r : int); let r = n; tel; const ^n : int = 3; | |
Twice | node f(^f : int) returns (r : int); let r = 1; tel; | |
none | node f(i : int, x : int) returns (r : int); let r = i; tel; | eq x : int; |
Twice | node f(a : int) returns (r : int); let r = a; ^R = a; tel; | |
-- One source.
TwoSources | | eq x : int = 1; | assign ^x = 1;
TwoSources | | | assign i = 1; assign ^I = 2;
none | | eq x : int; | assign x = 1;
Twice | | eq x : int, ^x : int; |
-- Names are in scope.
Unknown | const n : int = ^m; | const m : int = 1; |
Unknown | | guarantee \"\" : ^c.q; |
Unknown | | guarantee \"\" : ^x > 0; | eq x : int;
Unknown | | | assign ^y = 1;
Unknown | | | assign ^n = 1; const n : int = 1;
Unknown | node f(a : int) returns (r : int); let r = ^i; tel; | |
Unknown | | eq x : int; node f(a : int) returns (r : int); let r = ^x; tel; |
Unknown | node f(a : int) returns (^r : int); let tel; | |
Unknown | node f(a : int) returns (r : int); var ^v : int; let r = a; tel; | |
Unknown | node f(a : int) returns (r : int); let ^a = 1; r = a; tel; | |
-- Types.
Mismatch | | | lemma \"\" : ^1;
Mismatch | | guarantee \"\" : ^i + 1; |
Mismatch | | eq x : int = ^true; |
Mismatch | | eq x : bool; | assign x = ^1;
Mismatch | const n : int = ^true; | |
Mismatch | node f(a : int) returns (r : int); let r = ^a > 1; tel; | |
Mismatch | | const k : int = ^i; |
Mismatch | const k : int = ^pre(3); | |
Mismatch | const k : int = ^3 -> 4; | |
Mismatch | const k : int = ^f(1); node f(x : int) returns (y : int); let y = x; tel; | |
Mismatch | | eq b : bool; guarantee \"\" : 3 * ^b > 0; |
-- Several names.
Arity | | eq x : int, y : int = ^1; |
Arity | node f(a : int) returns (r : int); let r = a; tel; | eq x : int, y : int = ^f(1); |
none | node f(a : int) returns (r : int, s : int); let r = a; s = a; tel; | eq x : int, y : int = f(1); |
Mismatch | node f(a : int) returns (r : int, s : int); let r = a; s = a; tel; | eq x : int, y : bool = ^f(1); |
Arity | node f(a : int) returns (r : int, s : int); let r = a; s = a; tel; | eq x : int, y : int, z : int = ^f(1); |
Arity | node f(a : int) returns (r : int, s : int); let r = a; s = a; tel; | eq x : int = ^f(1); |
Arity | node f(a : int) returns (r : int); let r = a; tel; | eq x : int = ^f(1, 2); |
-- Of several the first in the text, and at one place the first in the order of the rules.
Mismatch | const n : int = ^true; | guarantee \"\" : 1; |
TwoSources | | eq e : int = 0; | assign ^e = 1; eq e : int;
Twice | node f(a : int) returns (r : int); let r = a; tel; node ^F(a : int) returns (r : int); let r = a; tel; | |
TwoSources | | | assign ^x = 1; eq x : int = 2;
TwoSources | node g(a : int) returns (r : int, s : int); let r = a; s = a; tel; | eq x : int, y : int = g(1); | assign ^Y = 1;
Unknown | | eq x : int, y : int = ^f(1); |
Unknown | node g(a : int) returns (r : int, s : int); let r = a; s = a; tel; | eq x : int, y : int = g(^z); |
Unknown | | guarantee \"\" : ^n > 0; | const n : int = 1;
Unknown | | guarantee \"\" : ^g(1) > 0; | node g(a : int) returns (r : int); let r = a; tel;
Unknown | node f(a : int) returns (r : int); let r = ^h(a); tel; | node h(a : int) returns (r : int); let r = a; tel; |
Unknown | | | node g(a : int) returns (r : int); let r = ^c.x; tel;
Unknown | | guarantee \"\" : not (if true then ^z else 1); |
Mismatch | | const k : int = ^1 + i; |
Mismatch | | eq b : bool = ^prev(i, true); |
Mismatch | | assume \"\" : ^1; |
Mismatch | node g(a : int) returns (r : int, s : int); let r = a; s = a; tel; | eq x : int, y : int = g(^true); |
Arity | node g(a : int) returns (r : int, s : int); let r = a; s = a; tel; | eq x : int, y : int = ^g(); |
Arity | node g(a : int) returns (r : int, s : int); let r = a; s = a; tel; | eq x : int, y : int = ^if true then g(1) else g(2); |
Arity | node g(a : int) returns (r : int, s : int); let r = a; s = a; tel; | guarantee \"\" : not ^g(1); |

-- Circles and numbers.
-- No constant and no node uses itself.
NodeRecursion | const ^a : int = a + 1; | |
NodeRecursion | const ^a : int = b; const b : int = a; | |
NodeRecursion | const a : int = b; const ^b : int = c; const c : int = b; | |
NodeRecursion | node ^f(x : int) returns (y : int); let y = f(x); tel; | |
NodeRecursion | node ^f(x : int) returns (y : int); let y = g(x); tel; node g(x : int) returns (y : int); let y = f(x); tel; | |
NodeRecursion | const ^k : int = f(1); node f(x : int) returns (y : int); let y = x + k; tel; | |
BadDivisor | const a : int = b + c; const b : int = c; const c : int = 7; | guarantee \"\" : i div (^a - 14) = 0; |
-- Products and divisors.
NotLinear | | guarantee \"\" : i ^* i > 0; |
NotLinear | | eq b : bool; guarantee \"\" : i ^* b > 0; |
NotLinear | node f(x : int) returns (y : int); let y = x ^* x; tel; | |
BadDivisor | node f(x : int) returns (y : int); let y = 3 mod ^x; tel; | |
BadDivisor | | guarantee \"\" : i div ^0 = 1; |
BadDivisor | | guarantee \"\" : 7 mod ^i = 1; |
BadDivisor | const z : int = 3 - 3; | guarantee \"\" : i div ^z = 1; |
NodeRecursion | const ^z : int = z; | guarantee \"\" : i div z = 1; |
-- Limits of constants, at each level and by exact values.
none | const c : int = 2147483648 * 2147483648; | |
Coefficient | const c : int = ^2147483648 * 2147483648 + 1; | |
Coefficient | const c : int = ^1 + 140737488355328 * 140737488355328; | |
Coefficient | const c : int = if true then 1 else ^140737488355328 * 140737488355328; | |
Coefficient | const c : int = ^if true then 140737488355328 * 140737488355328 else 0; | |
-- An `if` has the value of the branch that is taken, whatever the other one is.
Coefficient | const c : int = ^if true then 140737488355328 * 140737488355328 else 1 div 0; | |
Coefficient | const c : int = ^if false then z else 140737488355328 * 140737488355328; | |
BadDivisor | | guarantee \"\" : i div (^if true then 0 else 1 div 0) = 1; |
BadDivisor | | guarantee \"\" : i div (if false then 0 else 1 div ^0) = 1; |
Unknown | const c : int = if ^z then 140737488355328 * 140737488355328 else 0; | |
none | const b : bool = 140737488355328 * 4 < 0; | |
-- Limits of rows: the comparison's own row passes too.
none | | eq x : int; guarantee \"\" : i > 2147483648 * x; |
Coefficient | | eq x : int; guarantee \"\" : ^i > 2147483649 * x; |
Coefficient | | guarantee \"\" : ^140737488355328 * 4 < 0; |
none | | eq x : int = 140737488355328 + 140737488355328; |
Coefficient | | eq x : int = ^140737488355328 + 140737488355328 + 1; |
Coefficient | | eq x : int = pre(^140737488355328 * 4); |
Coefficient | | | assign i = 0 -> ^140737488355328 * 4;
Coefficient | | eq b : bool; eq x : int = if b then 1 else ^140737488355328 * 4; |
Coefficient | node f(x : int) returns (y : int); let y = x; tel; | eq x : int = f(^140737488355328 * 4); |
Coefficient | node f(x : int) returns (y : int); let y = ^140737488355328 * 4; tel; | |
-- A constant stands for its value alone, also as a quotient.
none | | guarantee \"\" : (140737488355328 * 4) div 4 > i; |
NodeRecursion | node ^f(x : int) returns (y : int); let y = k; tel; const k : int = f(1); | |
NotLinear | | guarantee \"\" : i ^* pre(i) > 0; |
BadDivisor | | guarantee \"\" : 7 div ^i = 1; |
BadDivisor | | guarantee \"\" : i mod ^0 = 1; |
BadDivisor | const c : int = 7 mod -3; | guarantee \"\" : i div (^c - 1) > 0; |
none | | guarantee \"\" : i >= 140737488355328 + 140737488355328; |
Coefficient | | guarantee \"\" : ^i > 140737488355328 + 140737488355328; |
Coefficient | | guarantee \"\" : ^140737488355328 + 140737488355328 < i; |
Coefficient | | guarantee \"\" : ^i <= 140737488355328 * 4; |
Coefficient | | guarantee \"\" : ^i <> 140737488355328 * 4; |
Coefficient | | guarantee \"\" : ^140737488355328 * 4 div i > 0; |
Coefficient | | eq x : int = ^140737488355328 * 4 -> 0; |
Coefficient | | eq b : bool; eq x : int = if b then ^140737488355328 * 4 else 1; |
Coefficient | | | assign i = ^140737488355328 * 4;
Coefficient | | | lemma \"\" : ^i > 140737488355328 * 4;
Coefficient | const b : bool = ^140737488355328 * 32768 * 2 > 0; | |
-- A constant whose value is refused adds nothing at its uses.
Coefficient | | guarantee \"\" : i > n; const n : int = ^140737488355328 * 140737488355328; |
";

// Checks the case of a rule on types.
fn expect_fault<R: Abort>(rt: &R, alloc: Global, case: &str) -> Result<(), Fail> {
    let (rule, rest) = field(case)?;
    let (library, rest) = field(rest)?;
    let (frame, body) = field(rest)?;
    let (library, in_library) = marked(alloc, 0, library)?;
    let (frame, in_frame) = marked(alloc, 1, frame)?;
    let (body, in_body) = marked(alloc, 2, body)?;
    let library = clauses_of(alloc, 0, Site::Library, library.as_str())?;
    let frame = clauses_of(alloc, 1, Site::Frame, frame.as_str())?;
    let body = clauses_of(alloc, 2, Site::Body, body.as_str())?;
    let answer = fault_of(alloc, library.as_slice(), frame.as_slice(), body.as_slice())?;
    match (in_library.or(in_frame).or(in_body), answer) {
        (None, None) => assert_eq!(rt; rule, "none", "{case}"),
        (Some(place), Some(refusal)) => {
            assert_eq!(rt; refusal.place.file, place.file, "{case}");
            assert_eq!(rt; refusal.place.line, 1, "{case}");
            // The first clause stands in column 4.
            let column = place.column.wrapping_add(3);
            assert_eq!(rt; refusal.place.column, column, "{case}");
            let told = format!(in alloc; "{:?}", refusal.rule)?;
            assert_eq!(rt; told.as_str(), rule, "{case}");
        }
        _ => assert!(rt; false, "{case}"),
    }
    Ok(())
}

#[test]
fn each_rule_has_its_place(rt: HostRuntime) -> Result<(), Fail> {
    for line in RULES.lines() {
        if is_case(line) {
            expect_fault(&rt, rt.alloc(), line)?;
        }
    }
    Ok(())
}
