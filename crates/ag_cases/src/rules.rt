//! Each rule on the tokens and the clauses of annexes, at its place.
use crate::refusals::expect_refused;
use ag_case_texts::{field, is_case};
use std::alloc::Global;
use std::process::Abort;
use std::sync::Wait;
use std::test::Fail;
use std::thread::Threads;

// A case is a rule and the clauses of a package, a type and an implementation, which break it where they have their `^`.
const RULES: &str = "
-- Tokens and clauses: what no annex may hold.
-- Rules of tokens.
BadByte | | eq x :^\u{1} int; |
OpenString | | assume ^\"a : true; |
OpenAnnex | const ^{** ** | |
WideNumber | const n : int = ^140737488355329; | |
WideNumber | | guarantee \"g\" : x <= ^140737488355329; |
-- What the grammar expects, at a token and at the annex's end.
Expected | | assume \"a\" ^true; |
Expected | | ^x |
Expected | | assume \"a\" : ^1.5; |
Expected | | assume \"a\" : private ^x; |
Expected | | assume \"a\" : x^..y; |
Expected | | eq ^assume : int; |
Expected | | assume \"a\" : true^ |
Expected | | | eq^
Expected | node f() returns (^); let tel; | |
Expected | node f() returns (x : int); let x = 1; tel^ | |
Expected | | assume ^: x; |
Expected | | assume a ^b \"c\" : x; |
Expected | | assume \"a\" ^x; |
Expected | | assume \"a\" : ^; |
Expected | | guarantee ^assume \"a\" : x; |
Expected | | eq ^= x; |
Expected | | eq x ^; |
Expected | | eq x : int,^; |
Expected | | eq x : int = ^; |
Expected | | | assign x ^: int = y;
Expected | | | assign a^.b = y;
Expected | | const n : int^; |
Expected | | const n : int^, m : int = 1; |
Expected | | node f ^returns (y : int); let tel; |
Expected | | node f(x : int,^) returns (y : int); let tel; |
Expected | | node f() returns (y : int) ^let tel; |
Expected | | node f() returns (y : int); var v : int ^let tel; |
Expected | | node f() returns (y : int); ^y = 1; tel; |
Expected | | node f() returns (y : int); let y = 1 ^tel; |
Expected | | node f() returns (y : int); let tel^ |
Expected | | ^tel; |
-- No comparison behind a comparison.
Expected | | assume \"a\" : x < y ^< z; |
Expected | | assume \"a\" : x = - y + 1 ^<> z; |
Expected | | assume \"a\" : f((x < y) < z, p >= q ^!= r); |
-- Clauses that have no place at the site.
Misplaced | ^assume \"a\" : true; | |
Misplaced | ^guarantee \"a\" : true; | |
Misplaced | ^lemma \"a\" : true; | |
Misplaced | ^eq x : int; | |
Misplaced | ^assign x = 1; | |
Misplaced | | ^lemma \"a\" : true; |
Misplaced | | eq x : int; ^ASSIGN x = 1; |
Misplaced | | | ^Assume \"a\" : true;
-- The first of two.
BadByte | | | assume ; ^\u{7f}
Misplaced | | | ^assume ;
Expected | | | eq ^; assume
Expected | | assume \"a\" : x < y ^< z / 2; |
Unsupported / | | assume \"a\" : x ^/ y; lemma |
-- Words that the contract language has elsewhere.
Unsupported real | | eq x : ^real; |
Unsupported real | | eq x : ^REAL; |
Unsupported event | | assume \"a\" : ^event(x); |
Unsupported assert | | ^assert \"a\" : x; |
Unsupported property | | ^property p = x; |
Unsupported fun | | ^fun f(x : int) : int = x; |
Unsupported enum | | eq x : ^enum {a, b}; |
Unsupported struct | | eq x : ^struct {a : int}; |
Unsupported calendar | | ^calendar c = (x, y); |
Unsupported synchrony | | ^synchrony : 1; |
Unsupported linearization | | ^linearization f(x : int) : int; |
Unsupported forall | | assume \"a\" : ^forall x; |
Unsupported exists | | assume \"a\" : ^exists x; |
Unsupported foreach | | assume \"a\" : ^foreach x; |
Unsupported / | | assume \"a\" : x ^/ y > 0; |
Unsupported [ | | assume \"a\" : x^[0]; |
Unsupported { | | assume \"a\" : s^{a := 1}; |
-- Expressions.
Expected | | | assign x = ^;
Expected | | | assign x = a ^b;
Expected | | | assign x = a +^;
Expected | | | assign x = a ^not b;
Expected | | | assign x = ^* a;
Expected | | | assign x = if a ^else b;
Expected | | | assign x = if a then b^;
Expected | | | assign x = if a then b else^;
Expected | | | assign x = (a^;
Expected | | | assign x = (^);
Expected | | | assign x = (a^, b);
Expected | | | assign x = a^);
Expected | | | assign x = pre ^x;
Expected | | | assign x = pre(^);
Expected | | | assign x = pre(x^, y);
Expected | | | assign x = prev(x^);
Expected | | | assign x = prev(x, y^, z);
Expected | | | assign x = f(^, x);
Expected | | | assign x = f(x,^);
Expected | | | assign x = f(x^;
Expected | | | assign x = f(x)^(y);
Expected | | | assign x = a < if b then c else d < e ^< f;
Expected | | | assign x = f(x)^.y;
Expected | | | assign x = a.b^.c;
Expected | | | assign x = a.b^::c;
Expected | | | assign x = a::^;
Expected | | | assign x = a.^;
Expected | | | assign x = 1^(x);
Expected | | | assign x = 1 ^2;
Expected | | | assign x = ^1.5;
Expected | | | assign x = ^\"a\";
Unsupported / | | | assign x = x ^/ y;
Unsupported [ | | | assign x = x^[1];
Expected | | | assign x = x ^.. y;
Expected | | | assign x = a ^<-> b;
Expected | | | assign x = ^let;
Expected | | | assign x = ^int;
-- Too wide a number behind a fault of the grammar: tokens come first.
WideNumber | | lemma ; ^140737488355329 |
-- The 201st level, and a name of 256 bytes.
TooDeep | | assume \"\" : ((((((((((((((((((((((((((((((((((((((((((((((((((((((((((((((((((((((((((((((((((((((((((((((((((((((((((((((((((((((((((((((((((((((((((((((((((((((((((((((((((((((((((((((((((((((((((((((((((((((((^(x |
LongName | | eq ^nnnnnnnnnnnnnnnnnnnnnnnnnnnnnnnnnnnnnnnnnnnnnnnnnnnnnnnnnnnnnnnnnnnnnnnnnnnnnnnnnnnnnnnnnnnnnnnnnnnnnnnnnnnnnnnnnnnnnnnnnnnnnnnnnnnnnnnnnnnnnnnnnnnnnnnnnnnnnnnnnnnnnnnnnnnnnnnnnnnnnnnnnnnnnnnnnnnnnnnnnnnnnnnnnnnnnnnnnnnnnnnnnnnnnnnnnnnnnnnnnnnnnnnnnnnnnnnn : int; |
";

// A file whose package, type and implementation have these clauses.
fn file_of(alloc: Global, library: &str, frame: &str, body: &str) -> Result<String, Fail> {
    let ends = "end S.i; end P;";
    let frame = format!(in alloc; "system S annex agree {{**{frame}**}}; end S;")?;
    let body = format!(in alloc; "system implementation S.i annex agree {{**{body}**}}; {ends}")?;
    Ok(format!(in alloc; "package P public annex agree {{**{library}**}}; {frame} {body}")?)
}

fn expect_rule<R: Threads + Wait + Abort + Sync>(
    rt: &R,
    alloc: Global,
    case: &str,
) -> Result<(), Fail> {
    let (rule, rest) = field(case)?;
    let (library, rest) = field(rest)?;
    let (frame, body) = field(rest)?;
    let text = file_of(alloc, library, frame, body)?;
    expect_refused(rt, alloc, rule, text.as_str())
}

#[test]
fn each_rule_has_its_place(rt: HostRuntime) -> Result<(), Fail> {
    for line in RULES.lines() {
        if is_case(line) {
            expect_rule(&rt, rt.alloc(), line)?;
        }
    }
    Ok(())
}
