//! Canonical text: what `print -` writes of packages and clauses.
use crate::refusals::{expect_refused, in_annex};
use crate::runs::{MODEL, PACKAGE, expect_run};
use ag_base::Status;
use ag_case_texts::{field, is_case, marked};
use std::alloc::Global;
use std::process::Abort;
use std::sync::Wait;
use std::test::Fail;
use std::thread::Threads;

// Checks that of a text this is printed, and of this the same.
fn expect_printed<R: Threads + Wait + Abort + Sync>(
    rt: &R,
    alloc: Global,
    text: &str,
    printed: &str,
) -> Result<(), Fail> {
    let wanted = (printed, Status::AllGood, 0);
    expect_run(rt, alloc, &["print", "-"], text.as_bytes(), wanted)?;
    expect_run(rt, alloc, &["print", "-"], printed.as_bytes(), wanted)
}

const DEVICE: &str = "package Q
public
with Base_Types; -- c
device D features p : out event data port Base_Types::Integer; properties Period => 10 ms; end D;
end Q;
";

const PRINTED_DEVICE: &str = "package Q
public
with Base_Types;
device D
features
p : out event data port Base_Types::Integer;
end D;
end Q;
";

const PARTS: &str = "PACKAGE A::B public with C, D :: E; data Whole end Whole; SYSTEM s end S;
thread T features f : requires bus access X; i : in event port; flows none; annex emv2 {** x **}; end T;
device implementation D.i subcomponents t : thread A::B::T.i {p => (1);}; m : memory M; n : abstract; connections
c : port t.i -> o {Timing => immediate;}; d : port q -> t . r; e : parameter f -> g; end d.I; end a::b; package E public end E;";

const PRINTED_PARTS: &str = "package A::B
public
with C;
with D::E;
system s
end s;
thread T
features
i : in event port;
end T;
device implementation D.i
subcomponents
t : thread A::B::T.i;
n : abstract;
connections
c : port t.i -> o;
d : port q -> t.r;
end D.i;
end A::B;
package E
public
end E;
";

const PRINTED_MODEL: &str = "package P
public
with Base_Types;
system S
features
a : in data port Base_Types::Boolean;
b : in data port Base_Types::Boolean;
o : out data port Base_Types::Boolean;
annex agree {**
guarantee \"g\" : (o => a);
**};
end S;
system implementation S.i
annex agree {**
assign o = (a and b);
**};
end S.i;
end P;
";

const COUNTER: &str = "package P
public
with Base_Types;
system S
features

annex agree {**
eq n : int = 0 -> prev(n, 1) + 1; guarantee \"g\" : n >= 0 and not (n < 0);
**};
end S;
system implementation S.i
annex agree {**

**};
end S.i;
end P;
";

const PRINTED_COUNTER: &str = "package P
public
with Base_Types;
system S
annex agree {**
eq n : int = (0 -> ((1 -> pre(n)) + 1));
guarantee \"g\" : ((n >= 0) and (not (n < 0)));
**};
end S;
system implementation S.i
annex agree {**
**};
end S.i;
end P;
";

// Annexes of all sites, some in several parts, some of other languages, one with a byte that no text has.
const SEVERAL: &str = "package A::B public
annex agree {** const n : int = 1; -- one
**}; annex other {** \u{1} **}; ANNEX Agree {** **};
system S annex agree {** assume \"a\" : true; **}; annex emv2 {** use types; **}; features x : in data port;
annex AGREE {** **}; annex agree {** guarantee g \"b\" : x >= A::B::n; eq y : int; **}; end S;
system T annex emv2 {** **}; end T;
system implementation S.i annex agree {** lemma \"l\" : true; **}; connections none;
annex agree {** assign o = x; **}; end S.i; end A::B;
package C public annex agree {** const c : bool = A::B::n = 1; **}; end C;";

const PRINTED_SEVERAL: &str = "package A::B
public
annex agree {**
const n : int = 1;
**};
annex agree {**
**};
system S
features
x : in data port;
annex agree {**
assume \"a\" : true;
guarantee \"b\" : (x >= A::B::n);
eq y : int;
**};
end S;
system T
end T;
system implementation S.i
annex agree {**
lemma \"l\" : true;
assign o = x;
**};
end S.i;
end A::B;
package C
public
annex agree {**
const c : bool = (A::B::n = 1);
**};
end C;
";

#[test]
fn prints_packages(rt: HostRuntime) -> Result<(), Fail> {
    let rows = [
        ("", ""),
        (" -- nothing\n", ""),
        (DEVICE, PRINTED_DEVICE),
        (PARTS, PRINTED_PARTS),
        (PACKAGE, PACKAGE),
        (MODEL, PRINTED_MODEL),
        (COUNTER, PRINTED_COUNTER),
        (SEVERAL, PRINTED_SEVERAL),
    ];
    for (text, printed) in &rows {
        expect_printed(&rt, rt.alloc(), *text, *printed)?;
    }
    Ok(())
}

// The text whose only clauses are these, in canonical form.
fn printed_in_annex(alloc: Global, site: &str, clauses: &str) -> Result<String, Fail> {
    let (head, end) = match site {
        "package" => ("", ""),
        "type" => ("system S\n", "end S;\n"),
        _ => ("system implementation S.i\n", "end S.i;\n"),
    };
    Ok(format!(in alloc;
        "package P\npublic\n{head}annex agree {{**\n{clauses}\n**}};\n{end}end P;\n"
    )?)
}

// Sites, clauses of an annex there, and what is printed of these.
const CLAUSES: &[(&str, &str, &str)] = &[
    (
        "type",
        "ASSUME name \"a -- \u{e9} \" : TRUE; Guarantee \"\" : False;",
        "assume \"a -- \u{e9} \" : true;\nguarantee \"\" : false;",
    ),
    ("implementation", "lemma\"l\":x;", "lemma \"l\" : x;"),
    ("implementation", "assign o=X;", "assign o = X;"),
    (
        "type",
        "eq a:int; eq b : Bool = c; eq d : INT,e:bool;",
        "eq a : int;\neq b : bool = c;\neq d : int, e : bool;",
    ),
    (
        "implementation",
        "eq a : int, b : bool = f(x);",
        "eq a : int, b : bool = f(x);",
    ),
    (
        "package",
        "const n : int = 007; const m : bool = not true;",
        "const n : int = 7;\nconst m : bool = (not true);",
    ),
    (
        "package",
        "node f() returns(y:int); let tel;",
        "node f () returns (y : int); let tel;",
    ),
    (
        "package",
        "node F(x:int,z:bool)\nreturns(y:int,w:bool);\nvar u:int;\nv:bool;\nlet y=u+x; -- first\nw = v; tel;",
        "node F (x : int, z : bool) returns (y : int, w : bool); var u : int; v : bool; let y = (u + x); w = v; tel;",
    ),
    (
        "type",
        "node f(x : int) returns (y : int); var let y = x; tel; const c : int = 2;",
        "node f (x : int) returns (y : int); let y = x; tel;\nconst c : int = 2;",
    ),
    (
        "implementation",
        "const c : int = 140737488355328; node f() returns (y : int); let tel;",
        "const c : int = 140737488355328;\nnode f () returns (y : int); let tel;",
    ),
    ("type", "eq set : int;", "eq set : int;"),
];

#[test]
fn prints_clauses(rt: HostRuntime) -> Result<(), Fail> {
    for (site, clauses, printed) in CLAUSES {
        let text = in_annex(rt.alloc(), *site, *clauses)?;
        let printed = printed_in_annex(rt.alloc(), *site, *printed)?;
        expect_printed(&rt, rt.alloc(), text.as_str(), printed.as_str())?;
    }
    Ok(())
}

// Expressions, and what is printed of them.
const EXPRESSIONS: &str = "
-- Each operator by itself.
a->b | (a -> b)
a=>b | (a => b)
a<=>b | (a <=> b)
a OR b | (a or b)
a and b | (a and b)
a<b | (a < b)
a<=b | (a <= b)
a>b | (a > b)
a>=b | (a >= b)
a=b | (a = b)
a<>b | (a <> b)
a!=b | (a <> b)
a+b | (a + b)
a-b | (a - b)
a*b | (a * b)
a div b | (a div b)
a Mod b | (a mod b)
-a | (- a)
not a | (not a)
pre (a) | pre(a)
prev(a, b) | (b -> pre(a))
if a then b else c | (if a then b else c)
-- Operands.
(((a))) | a
a :: b :: c . d | a::b::c.d
f ( ) | f()
a::b.f(x,1+2 , g(y)) | a::b.f(x, (1 + 2), g(y))
000 | 0
-- Which of two operators has the operand between them.
a -> b => c <=> d or e and f < g + h * - i | (a -> (b => (c <=> (d or (e and (f < (g + (h * (- i)))))))))
- i * h + g < f and e or d <=> c => b -> a | (((((((((- i) * h) + g) < f) and e) or d) <=> c) => b) -> a)
a -> b -> c | (a -> (b -> c))
a => b => c | (a => (b => c))
a <=> b <=> c | (a <=> (b <=> c))
a or b or c | ((a or b) or c)
a and b and c | ((a and b) and c)
a - b + c | ((a - b) + c)
a div b * c mod d | (((a div b) * c) mod d)
not a < - b | ((not a) < (- b))
- - a - - b | ((- (- a)) - (- b))
(a < b) = (c < d) | ((a < b) = (c < d))
a <- b | (a < (- b))
a < not b + 1 | (a < ((not b) + 1))
a = b <=> c = d | ((a = b) <=> (c = d))
f(g(), (x)) | f(g(), x)
prev(x, y -> z) | ((y -> z) -> pre(x))
-- Choices.
if a then b else c + d | (if a then b else (c + d))
a + if b then c else d -> e | (a + (if b then c else (d -> e)))
if if a then b else c then d else if e then f else g | (if (if a then b else c) then d else (if e then f else g))
a < if b then c else d < e | (a < (if b then c else (d < e)))
if b then c else d < e < f | ((if b then c else (d < e)) < f)
- if x then 1 else 2 + 3 | (- (if x then 1 else (2 + 3)))
a < if b then c else d and e < f | (a < (if b then c else (d and (e < f))))
(if a then b else c < d) = e | ((if a then b else (c < d)) = e)
";

#[test]
fn prints_expressions(rt: HostRuntime) -> Result<(), Fail> {
    for line in EXPRESSIONS.lines() {
        if is_case(line) {
            let (expression, printed) = field(line)?;
            let clause = format!(in rt.alloc(); "assign o = {expression};")?;
            let text = in_annex(rt.alloc(), "implementation", clause.as_str())?;
            let clause = format!(in rt.alloc(); "assign o = {printed};")?;
            let printed = printed_in_annex(rt.alloc(), "implementation", clause.as_str())?;
            expect_printed(&rt, rt.alloc(), text.as_str(), printed.as_str())?;
        }
    }
    Ok(())
}

// What opens a level before an expression, a name, what opens one behind it, each with `^` at the token that does; and
// what is printed before and behind it.
const LEVELS: &[[&str; 5]] = &[
    ["^(", "x", ")", "", ""],
    ["", "0", " ^+ 1", "(", " + 1)"],
    ["", "y", " ^div 2", "(", " div 2)"],
    ["", "y", " ^and z", "(", " and z)"],
    ["", "y", " ^or z", "(", " or z)"],
    ["^not ", "x", "", "(not ", ")"],
    ["^- ", "x", "", "(- ", ")"],
    ["pre^(", "x", ")", "pre(", ")"],
    ["prev^(", "x", ", 0)", "(0 -> pre(", "))"],
    ["f^(", "x", ")", "f(", ")"],
    ["^if a then b else ", "c", "", "(if a then b else ", ")"],
    ["", "y", " ^-> y", "(y -> ", ")"],
    ["", "y", " ^=> y", "(y => ", ")"],
    ["", "y", " ^<=> y", "(y <=> ", ")"],
];

// Levels 200 deep are printed, and one more is refused where it is opened.
#[test]
fn counts_levels(rt: HostRuntime) -> Result<(), Fail> {
    let alloc = rt.alloc();
    for [before, inner, behind, printed_before, printed_behind] in LEVELS {
        let (front, _) = marked(alloc, 0, *before)?;
        let (back, _) = marked(alloc, 0, *behind)?;
        let (front, back) = (
            front.as_str().repeat(alloc, 200)?,
            back.as_str().repeat(alloc, 200)?,
        );
        let clause = format!(in alloc; "assume \"a\" : {front}{inner}{back};")?;
        let text = in_annex(alloc, "type", clause.as_str())?;
        let deeper = format!(in alloc; "assume \"a\" : {front}{before}{inner}{back}{behind};")?;
        let too_deep = in_annex(alloc, "type", deeper.as_str())?;
        let front = printed_before.repeat(alloc, 200)?;
        let back = printed_behind.repeat(alloc, 200)?;
        let clause = format!(in alloc; "assume \"a\" : {front}{inner}{back};")?;
        let printed = printed_in_annex(alloc, "type", clause.as_str())?;
        let wanted = (printed.as_str(), Status::AllGood, 0);
        expect_run(&rt, alloc, &["print", "-"], text.as_bytes(), wanted)?;
        expect_refused(&rt, alloc, "TooDeep", too_deep.as_str())?;
    }
    Ok(())
}

// A text in which `@` stands for 199 opening parentheses, and `#` for `x` between as many pairs.
fn deepened(alloc: Global, text: &str) -> Result<String, Fail> {
    let (open, close) = ("(".repeat(alloc, 199)?, ")".repeat(alloc, 199)?);
    let mut deep = String::new(alloc);
    for byte in text.chars() {
        match byte {
            '@' => deep.push_str(open.as_str())?,
            '#' => {
                let nested = format!(in alloc; "{open}x{close}")?;
                deep.push_str(nested.as_str())?;
            }
            other => deep.push(other)?,
        }
    }
    Ok(deep)
}

// Clauses of which no level passes 200, and what is printed of them.
const DEEP: &str = "
(#) + # | (x + x)
y * z + # | ((y * z) + x)
# < # | (x < x)
f(#, #) | f(x, x)
if # then # else # | (if x then x else x)
";

#[test]
fn gives_levels_back(rt: HostRuntime) -> Result<(), Fail> {
    for line in DEEP.lines() {
        if is_case(line) {
            let (expression, printed) = field(line)?;
            let deep = deepened(rt.alloc(), expression)?;
            let clause = format!(in rt.alloc(); "assume \"a\" : {deep};")?;
            let text = in_annex(rt.alloc(), "type", clause.as_str())?;
            let clause = format!(in rt.alloc(); "assume \"a\" : {printed};")?;
            let printed = printed_in_annex(rt.alloc(), "type", clause.as_str())?;
            expect_printed(&rt, rt.alloc(), text.as_str(), printed.as_str())?;
        }
    }
    Ok(())
}

// Clauses with `^` at the token that opens level 201. Levels end with their parentheses, chains, arguments and clauses.
const TOO_DEEP: &str = "
assume \"a\" : @(^(x
assume \"a\" : @(x ^< y
assume \"a\" : @x + y ^* z
assume \"a\" : # < @^(x
assume \"a\" : (#) + @^(x
assume \"a\" : y * z + @^(x
assume \"a\" : f(#, @^(x
assume \"a\" : if # then # else @^(x
assume \"a\" : (#); assume \"b\" : @(^(x
node f() returns (y : int, z : int); let y = (#); z = @(^(x
";

#[test]
fn refuses_one_level_more(rt: HostRuntime) -> Result<(), Fail> {
    for line in TOO_DEEP.lines() {
        if is_case(line) {
            let clauses = deepened(rt.alloc(), line)?;
            let text = in_annex(rt.alloc(), "type", clauses.as_str())?;
            expect_refused(&rt, rt.alloc(), "TooDeep", text.as_str())?;
        }
    }
    Ok(())
}

// What is printed of 101 times `not`: each has a parenthesis more there, which opens a level of its own.
#[test]
fn refuses_deep_canonical_text(rt: HostRuntime) -> Result<(), Fail> {
    let front = "(not ".repeat(rt.alloc(), 100)?;
    let clause = format!(in rt.alloc(); "assume \"a\" : {front}^(not x")?;
    let text = in_annex(rt.alloc(), "type", clause.as_str())?;
    expect_refused(&rt, rt.alloc(), "TooDeep", text.as_str())
}
