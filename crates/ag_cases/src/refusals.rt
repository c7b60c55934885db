//! Refusals: which rule of tokens and packages a text breaks first, and where, as `print -` tells it.
use crate::runs::expect_run;
use ag_base::Status;
use ag_case_texts::{field, is_case, marked};
use std::alloc::Global;
use std::process::Abort;
use std::sync::Wait;
use std::test::Fail;
use std::thread::Threads;

/// Checks that a text is refused by the rule at its `^`.
pub fn expect_refused<R: Threads + Wait + Abort + Sync>(
    rt: &R,
    alloc: Global,
    rule: &str,
    text: &str,
) -> Result<(), Fail> {
    let (text, place) = marked(alloc, 0, text)?;
    let place = place.ok_or("a place")?;
    let output = format!(in alloc; "refused -:{}:{} {rule}\n", place.line, place.column)?;
    let wanted = (output.as_str(), Status::ModelRefused, 0);
    expect_run(rt, alloc, &["print", "-"], text.as_bytes(), wanted)
}

/// A text whose only clauses are these, in the annex of a package, of a component type or of an implementation.
pub fn in_annex(alloc: Global, site: &str, clauses: &str) -> Result<String, Fail> {
    let (head, end) = match site {
        "package" => ("", ""),
        "type" => ("system S ", "end S; "),
        _ => ("system implementation S.i ", "end S.i; "),
    };
    Ok(format!(in alloc; "package P public {head}annex agree {{**{clauses}**}}; {end}end P;")?)
}

// A case is a rule and a text that breaks it.
const PACKAGES: &str = "
-- Rules of tokens, which come before those of the grammar.
BadByte | package P private ^\u{1}
OpenString | package P public ^\"abc
OpenAnnex | package P public annex agree ^{** x
-- Rules of the grammar.
Expected | package P public end P^
EndName | package P public end ^Q;
EndName | package P public end ^Q
EndName | package A::B public end ^A;
EndName | package A::B public end ^A::C;
Expected | package A public end A::^;
EndName | package P public system S end ^T; end P;
EndName | package P public system S end ^T end P;
Expected | package P public system S end S ^end P;
Expected | package P public system implementation S.i end S^; end P;
EndName | package P public system implementation S.i end ^S.j; end P;
EndName | package P public system implementation S.i end ^T.i; end P;
Unsupported private | package P ^private
Unsupported renames | package P ^renames
Unsupported extends | package P public system S ^extends T end S;
Unsupported prototypes | package P public system S ^Prototypes x; end S;
Unsupported modes | package P public system S ^modes m : mode; end S;
Unsupported mode | package P public system S features a : ^mode
Unsupported calls | package P public system S ^calls c; end S;
Unsupported refined | package P public system S features a : ^refined to
Unsupported feature | package P public system S features a : ^feature group;
Unsupported out | package P public system S features a : in ^out data port;
Unsupported virtual | package P public ^virtual bus B end B;
Unsupported property | ^property set Q is end Q;
Unsupported set | package P public system S features a : ^set
Unsupported <-> | package P public system implementation S.i connections c : port a ^<-> b;
Unsupported [ | package P public system implementation S.i subcomponents s : system T^[2];
Unsupported in | package P public system S features a : out data port ^in
Expected | package P public system S features a ^b
Expected | package ^system
Expected | package P public system S features a : in ^port;
Expected | package P public device D flows f : ( ^] );
Expected | package P public device D flows f : { ( ; ) ;^
Expected | package P public thread T end T; ^features
Expected | package P public bus B end ; x^
Twice | package P public system S features none; ^features none; end S;
Twice | package P public system S properties none; annex a {**x**}; ^properties none; end T;
Unsupported delayed | package P public system implementation S.i connections c : port a -> b {X => 1; Communication_Properties::Timing => (1, ^Delayed);}; end T.i;
Unsupported delayed | package P public system implementation S.i properties timing => ^delayed applies to c; end S.i;
Expected | package P public properties none; ^properties none; end P;
";

#[test]
fn refuses_packages(rt: HostRuntime) -> Result<(), Fail> {
    for line in PACKAGES.lines() {
        if is_case(line) {
            let (rule, text) = field(line)?;
            expect_refused(&rt, rt.alloc(), rule, text)?;
        }
    }
    Ok(())
}

// Texts of several lines, with their rules.
const SEVERAL_LINES: &[(&str, &str)] = &[
    // Tokens of the file, its packages, tokens of all annexes, their clauses.
    (
        "BadByte",
        "package P\npublic\nannex agree {** x **};\nannex agree {** \u{1} **};\nend Q;\n^\u{1}",
    ),
    (
        "EndName",
        "package P\npublic\nannex agree {** x **};\nannex agree {** \u{1} **};\nend ^Q;\n",
    ),
    (
        "BadByte",
        "package P\npublic\nannex agree {** x **};\nannex agree {** ^\u{1} **};\nend P;\n",
    ),
    (
        "Expected",
        "package P\npublic\nannex agree {** ^x **};\nannex agree {** y **};\nend P;\n",
    ),
    // Of one phase, by the order of the text.
    (
        "BadByte",
        "package P\npublic\nsystem S\nannex agree {** **};\nannex agree {** ^\u{1} **};\nend S;\n\
system implementation S.i\nannex agree {** \"a **};\nend S.i;\nend P;\n",
    ),
    (
        "Misplaced",
        "package P\npublic\nsystem implementation S.i\nannex agree {** **}; annex agree {** ^assume **};\nend S.i;\n\
annex agree {** eq **};\nend P;\n",
    ),
    (
        "Expected",
        "package P public end P;\npackage Q public annex agree {** const ^**}; end Q;",
    ),
    // An annex of another language has no tokens, and none of an annex reaches past its end.
    (
        "Unsupported real",
        "package P\npublic\nannex other {** \u{1} \" **};\nannex agree {** ^real **};\nend P;",
    ),
    (
        "OpenString",
        "package P\npublic\nannex agree {** ^\"a**};\nend P;",
    ),
    // A comment ends with its line, and may hold what no token has.
    (
        "BadByte",
        "package P public annex agree {**-- \u{1}\n ^\u{e9}**}; end P;",
    ),
    (
        "Expected",
        "package P public system S annex agree {**assume \"a\" : true -- ;\n\n ^**}; end S; end P;",
    ),
    (
        "Misplaced",
        "package P public\nsystem implementation S.i annex agree {**\nconst c : int = 1;\n ^guarantee \"a\" : true;**}; end S.i; end P;",
    ),
    (
        "Unsupported modes",
        "package Q\npublic\ndevice D ^modes m : mode; end D;\nend Q;",
    ),
    ("EndName", "package Q\npublic\ndevice D end ^E;\nend Q;"),
    ("Expected", "package P\npublic\n^"),
    (
        "Twice",
        "package P\npublic\nsystem S\nfeatures none;\n^features none;\nend S;\nend P;",
    ),
    (
        "WideNumber",
        "package P\npublic\nwith Base_Types;\nsystem S\nfeatures\nx : in data port Base_Types::Integer;\nannex agree {**\nguarantee \"g\" : x < ^140737488355329;\n**};\nend S;\n\
system implementation S.i\nannex agree {**\n\n**};\nend S.i;\nend P;\n",
    ),
];

#[test]
fn refuses_in_the_order_of_its_phases(rt: HostRuntime) -> Result<(), Fail> {
    for (rule, text) in SEVERAL_LINES {
        expect_refused(&rt, rt.alloc(), *rule, *text)?;
    }
    Ok(())
}

#[test]
fn refuses_long_names_and_bad_text(rt: HostRuntime) -> Result<(), Fail> {
    let name = "n".repeat(rt.alloc(), 256)?;
    let text = format!(in rt.alloc(); "package ^{name}")?;
    expect_refused(&rt, rt.alloc(), "LongName", text.as_str())?;
    let clause = format!(in rt.alloc(); "eq x : int; eq ^{name} : int;")?;
    let text = in_annex(rt.alloc(), "type", clause.as_str())?;
    expect_refused(&rt, rt.alloc(), "LongName", text.as_str())?;
    let print = ["print", "-"];
    let wanted = ("refused -:2:11 NotUtf8\n", Status::ModelRefused, 0);
    expect_run(
        &rt,
        rt.alloc(),
        &print,
        b"package P\npublic -- \xff\nend P;",
        wanted,
    )?;
    let wanted = ("refused -:3:22 NotUtf8\n", Status::ModelRefused, 0);
    expect_run(
        &rt,
        rt.alloc(),
        &print,
        b"package P\npublic\nannex agree {** real \xff **};\nend Q;",
        wanted,
    )
}
