//! Texts of runs that were worked out by hand.
use ag_base::{Bytes, List, Text};
use ag_report::{closed_line, published_line, report_text, settled_line};
use ag_stream::{Instant, Run, Window};
use ag_verdict::{Key, KeyKind, Verdict, Which, Why};
use std::alloc::Global;
use std::sync::Arc;
use std::test::Fail;

const PACKAGE: &str =
    "package P\npublic\nwith Base_Types;\nsystem S\nfeatures\na : in data port Base_Types::Boolean;\n\
b : in data port Base_Types::Boolean;\no : out data port Base_Types::Boolean;\nannex agree {**\n\
assume \"sure\" : true;\nguarantee \"g\" : true;\nguarantee \"h\" : o;\n**};\nend S;\n\
system implementation S.i\nannex agree {**\nassign o = a;\n**};\nend S.i;\nend P;\n";

const REPORT: &str = "report 7
P::S.i guarantee 1 \"g\": proved k=1
P::S.i guarantee 1 \"g\": refuted at 1
  instant     1
  a       false
  b        true
  o        true
P::S.i guarantee 2 \"h\": unknown depth=1 limit=depth
  instant     0    1     2
  a       false true false
  b        true true false
  o        true true  true
P::S.i guarantee 3 \"\": unknown depth=2 limit=work
P::S.i x assume 1 \"\": unknown depth=3 limit=leaf
P::S.i assume 1 \"sure\": open
P::S.i lemma 4 \"\": open
P::S.i consistent: consistent 2
P::S.i consistent: inconsistent 5
end report
";

fn key(alloc: Global, member: Option<&str>, kind: KeyKind, number: u32) -> Result<Key, Fail> {
    let layer = Text::make(alloc, "P::S.i")?;
    let member = match member {
        None => None,
        Some(name) => Some(Text::make(alloc, name)?),
    };
    Ok(Key {
        layer,
        member,
        kind,
        number,
    })
}

fn instant(alloc: Global, flags: &[bool]) -> Result<Instant, Fail> {
    Ok(Instant {
        whole: List::new(alloc),
        flags: List::from_vec(Vec::from_slice(alloc, flags)?),
    })
}

fn run(alloc: Global, rows: &[[bool; 3]]) -> Result<Run, Fail> {
    let mut instants = List::new(alloc);
    for row in rows {
        instants.push(instant(alloc, row)?)?;
    }
    Ok(Run { instants })
}

fn window(alloc: Global) -> Result<Window, Fail> {
    let prior = Some(instant(alloc, &[false, true, true])?);
    let run = run(alloc, &[[true, true, true], [false, false, true]])?;
    Ok(Window { prior, run })
}

type Line = (Key, Option<Arc<Verdict>>);

fn guarantee(alloc: Global, number: u32, verdict: Verdict) -> Result<Line, Fail> {
    let key = key(alloc, None, KeyKind::Guarantee, number)?;
    Ok((key, Some(Arc::new(alloc, verdict)?)))
}

fn consistent(alloc: Global, verdict: Verdict) -> Result<Line, Fail> {
    let key = key(alloc, None, KeyKind::Consistent, 1)?;
    Ok((key, Some(Arc::new(alloc, verdict)?)))
}

fn guarantees(alloc: Global, lines: &mut Vec<Line>) -> Result<(), Fail> {
    let run = run(alloc, &[[false, true, true]])?;
    lines.push(guarantee(alloc, 1, Verdict::Proved { k: 1 })?)?;
    lines.push(guarantee(alloc, 1, Verdict::Refuted { run })?)?;
    let window = window(alloc)?;
    let (depth, why) = (1, Why::Depth { window });
    lines.push(guarantee(alloc, 2, Verdict::Unknown { depth, why })?)?;
    let (which, facts) = (Which::Base(2), List::new(alloc));
    let (depth, why) = (2, Why::Work { which, facts });
    lines.push(guarantee(alloc, 3, Verdict::Unknown { depth, why })?)?;
    Ok(())
}

fn others(alloc: Global, lines: &mut Vec<Line>) -> Result<(), Fail> {
    let (which, literals) = (Which::Base(2), List::new(alloc));
    let (depth, why) = (3, Why::Leaf { which, literals });
    let leaf = Arc::new(alloc, Verdict::Unknown { depth, why })?;
    lines.push((key(alloc, Some("x"), KeyKind::Assume, 1)?, Some(leaf)))?;
    lines.push((key(alloc, None, KeyKind::Assume, 1)?, None))?;
    lines.push((key(alloc, None, KeyKind::Lemma, 4)?, None))?;
    let run = run(alloc, &[[true; 3], [true; 3]])?;
    lines.push(consistent(alloc, Verdict::Consistent { run })?)?;
    lines.push(consistent(alloc, Verdict::Inconsistent)?)?;
    Ok(())
}

#[test]
fn a_report_of_each_answer(rt: HostRuntime) -> Result<(), Fail> {
    let alloc = rt.alloc();
    let package = ag_small::read(alloc, PACKAGE.as_bytes())
        .ok()
        .ok_or("the text is a package")?;
    let mut lines = Vec::new(alloc);
    guarantees(alloc, &mut lines)?;
    others(alloc, &mut lines)?;
    let text = report_text(alloc, &package, 7, 5, lines.as_slice())?;
    assert_eq!(rt; text.as_slice(), REPORT.as_bytes());
    Ok(())
}

#[test]
fn replies_of_one_line(rt: HostRuntime) -> Result<(), Fail> {
    let alloc = rt.alloc();
    let rows: [(Bytes, &str); 3] = [
        (
            published_line(alloc, 2, 12, 3, 1)?,
            "revision 2: 12 obligations, 3 carried, 1 cancelled\n",
        ),
        (settled_line(alloc, 10)?, "settled 10\n"),
        (
            closed_line(alloc, 1, 2, 3, 4, 5, 6)?,
            "closed 1: 2 proved, 3 refuted, 4 consistent, 5 inconsistent, 6 unknown\n",
        ),
    ];
    for (text, want) in &rows {
        assert_eq!(rt; text.as_slice(), want.as_bytes());
    }
    Ok(())
}
