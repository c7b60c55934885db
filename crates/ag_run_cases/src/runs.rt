//! Whole runs in memory: what is written, to the byte, and how the run ends.
use ag_base::{List, MemFolder, MemSink, MemSource, Status, Text};
use ag_top::agree;
use std::alloc::Global;
use std::process::Abort;
use std::sync::Wait;
use std::test::Fail;
use std::thread::Threads;

/// A package in canonical form, which may be checked.
pub const PACKAGE: &str =
    "package P\npublic\nwith Base_Types;\nsystem S\nfeatures\na : in data port Base_Types::Boolean;\n\
b : in data port Base_Types::Boolean;\no : out data port Base_Types::Boolean;\nannex agree {**\n\
guarantee \"g\" : true;\n**};\nend S;\nsystem implementation S.i\nannex agree {**\nassign o = a;\n**};\nend S.i;\nend P;\n";

pub const PROVED: &str = "revision 1: 2 obligations, 0 carried, 0 cancelled
settled 1
report 1
P::S.i guarantee 1 \"g\": proved k=1
P::S.i consistent: consistent 1
end report
closed 1: 1 proved, 0 refuted, 1 consistent, 0 inconsistent, 0 unknown
";

const REFUTED: &str = "revision 1: 2 obligations, 0 carried, 0 cancelled
settled 1
report 1
P::S.i guarantee 1 \"g\": refuted at 1
  instant     1
  a       false
  b       false
  o       false
P::S.i consistent: consistent 1
end report
closed 1: 0 proved, 1 refuted, 1 consistent, 0 inconsistent, 0 unknown
";

const VOID: &str = "revision 1: 2 obligations, 0 carried, 0 cancelled
settled 1
report 1
P::S.i guarantee 1 \"g\": proved k=1
P::S.i consistent: inconsistent 1
end report
closed 1: 1 proved, 0 refuted, 0 consistent, 1 inconsistent, 0 unknown
";

/// A run on these words and bytes, in which no read and no write fails.
fn expect_run<R: Threads + Wait + Abort + Sync>(
    rt: &R,
    alloc: Global,
    words: &[&str],
    bytes: &[u8],
    wanted: (&str, Status, u32),
) -> Result<(), Fail> {
    expect(rt, alloc, words, bytes, (0, 0), 65536, wanted)
}

/// A run on these words and bytes, of which one is read at a time. The read and the write of the numbers fail, none where
/// the number is 0, and the sink has that room.
fn expect<R: Threads + Wait + Abort + Sync>(
    rt: &R,
    alloc: Global,
    words: &[&str],
    text: &[u8],
    failing: (u32, u32),
    room: u32,
    wanted: (&str, Status, u32),
) -> Result<(), Fail> {
    let mut given = Vec::new(alloc);
    for word in words {
        given.push(Text::make(alloc, *word)?)?;
    }
    let (mut reads, mut writes) = (List::new(alloc), List::new(alloc));
    reads.push(failing.0)?;
    writes.push(failing.1)?;
    let bytes = List::from_vec(Vec::from_slice(alloc, text)?);
    let mut source = MemSource::make(bytes, 1, reads);
    let mut sink = MemSink::make(alloc, room, writes)?;
    let mut folder = MemFolder::make(alloc, List::new(alloc), List::new(alloc));
    let done = agree(rt, alloc, &given, &mut source, &mut sink, &mut folder);
    let (output, status, entries) = wanted;
    let written = str::from_utf8(sink.bytes())
        .ok()
        .ok_or("a text is written")?;
    assert_eq!(rt; written, output);
    assert_eq!(rt; done.status, status);
    assert_eq!(rt; done.history.len(), entries);
    Ok(())
}

#[test]
fn checks_what_it_reads(rt: HostRuntime) -> Result<(), Fail> {
    let rows = [
        ("a", "a", PROVED, Status::AllGood),
        (
            "true;\n**};\nend S;",
            "o;\n**};\nend S;",
            REFUTED,
            Status::Refuted,
        ),
        (
            "guarantee",
            "assume \"no\" : false; guarantee",
            VOID,
            Status::Refuted,
        ),
        (
            "S.i;",
            "S.j;",
            "refused -:17:7 NotBuilt\n",
            Status::ModelRefused,
        ),
    ];
    for (old, new, output, status) in &rows {
        let (front, rest) = PACKAGE.split_once(*old).ok_or("the package has the text")?;
        let text = format!(in rt.alloc(); "{front}{new}{rest}")?;
        let entries = if *status == Status::ModelRefused {
            0
        } else {
            9
        };
        expect(
            &rt,
            rt.alloc(),
            &["check", "-"],
            text.as_bytes(),
            (0, 0),
            4096,
            (*output, *status, entries),
        )?;
    }
    Ok(())
}

/// Another one with formulas.
pub const MODEL: &str = "package P
public
with Base_Types;
system S
features
a : in data port Base_Types::Boolean; b : in data port Base_Types::Boolean; o : out data port Base_Types::Boolean;
annex agree {**
guarantee \"g\" : o => a;
**};
end S;
system implementation S.i
annex agree {**
assign o = a and b;
**};
end S.i;
end P;
";

const SEPARATED: &str = "revision 1: 2 obligations, 0 carried, 0 cancelled
settled 1
report 1
P::S.i guarantee 1 \"g\": refuted at 1
  instant     1
  a       false
  b        true
  o        true
P::S.i consistent: consistent 1
end report
closed 1: 0 proved, 1 refuted, 1 consistent, 0 inconsistent, 0 unknown
";

#[test]
fn checks_formulas(rt: HostRuntime) -> Result<(), Fail> {
    let ports =
        "a : in data port Base_Types::Boolean; b : in data port Base_Types::Boolean; o : out data port Base_Types::Boolean;";
    let rows = [
        ("a and b", "a and b", PROVED, Status::AllGood),
        ("a and b", "a or b", SEPARATED, Status::Refuted),
        (
            "end P;\n",
            "",
            "refused -:16:1 NotBuilt\n",
            Status::ModelRefused,
        ),
        (
            ports,
            "x : in data port Base_Types::Integer;",
            "refused -:6:30 NotBuilt\n",
            Status::ModelRefused,
        ),
    ];
    for (old, new, output, status) in &rows {
        let (front, rest) = MODEL.split_once(*old).ok_or("the model has the text")?;
        let text = format!(in rt.alloc(); "{front}{new}{rest}")?;
        let entries = if *status == Status::ModelRefused {
            0
        } else {
            9
        };
        expect(
            &rt,
            rt.alloc(),
            &["check", "-"],
            text.as_bytes(),
            (0, 0),
            4096,
            (*output, *status, entries),
        )?;
    }
    Ok(())
}

/// A layer of twelve ports.
const TWELVE: &str = "package P
public
with Base_Types;
system S
features
a : in data port Base_Types::Boolean; b : in data port Base_Types::Boolean; c : in data port Base_Types::Boolean;
d : in data port Base_Types::Boolean; e : in data port Base_Types::Boolean; f : in data port Base_Types::Boolean;
g : in data port Base_Types::Boolean; h : in data port Base_Types::Boolean; i : in data port Base_Types::Boolean;
j : in data port Base_Types::Boolean; k : in data port Base_Types::Boolean; o : out data port Base_Types::Boolean;
annex agree {**
guarantee \"g\" : o => a;
**};
end S;
system implementation S.i
annex agree {**
assign o = a and b and c and d and e and f and g and h and i and j and k;
**};
end S.i;
end P;
";

// The claim fails where all inputs are true, and nowhere else.
const ALL_TRUE: &str = "revision 1: 2 obligations, 0 carried, 0 cancelled
settled 1
report 1
P::S.i guarantee 1 \"g\": refuted at 1
  instant    1
  a       true
  b       true
  c       true
  d       true
  e       true
  f       true
  g       true
  h       true
  i       true
  j       true
  k       true
  o       true
P::S.i consistent: consistent 1
end report
closed 1: 0 proved, 1 refuted, 1 consistent, 0 inconsistent, 0 unknown
";

#[test]
fn decides_twelve_ports(rt: HostRuntime) -> Result<(), Fail> {
    let rows = [
        ("o => a", PROVED, Status::AllGood),
        ("not o", ALL_TRUE, Status::Refuted),
    ];
    for (claim, output, status) in &rows {
        let (front, rest) = TWELVE.split_once("o => a").ok_or("there is a claim")?;
        let text = format!(in rt.alloc(); "{front}{claim}{rest}")?;
        let wanted = (*output, *status, 9);
        expect_run(&rt, rt.alloc(), &["check", "-"], text.as_bytes(), wanted)?;
    }
    Ok(())
}

#[test]
fn ends_where_the_outside_fails(rt: HostRuntime) -> Result<(), Fail> {
    let check = ["check", "-"];
    let first = "revision 1: 2 obligations, 0 carried, 0 cancelled\n";
    expect(
        &rt,
        rt.alloc(),
        &check,
        PACKAGE.as_bytes(),
        (3, 0),
        4096,
        ("", Status::ReadFault, 0),
    )?;
    expect(
        &rt,
        rt.alloc(),
        &check,
        PACKAGE.as_bytes(),
        (0, 1),
        4096,
        ("", Status::WriteFault, 1),
    )?;
    expect(
        &rt,
        rt.alloc(),
        &check,
        PACKAGE.as_bytes(),
        (0, 2),
        4096,
        (first, Status::WriteFault, 6),
    )?;
    expect(
        &rt,
        rt.alloc(),
        &check,
        PACKAGE.as_bytes(),
        (0, 0),
        50,
        (first, Status::WriteFault, 6),
    )
}

#[test]
fn each_read_may_fail(rt: HostRuntime) -> Result<(), Fail> {
    let check = ["check", "-"];
    let last = u32::try_from(MODEL.len()).unwrap_or(0).saturating_add(1);
    for n in 1..=last {
        let wanted = ("", Status::ReadFault, 0);
        expect(
            &rt,
            rt.alloc(),
            &check,
            MODEL.as_bytes(),
            (n, 0),
            4096,
            wanted,
        )?;
    }
    let wanted = (PROVED, Status::AllGood, 9);
    expect(
        &rt,
        rt.alloc(),
        &check,
        MODEL.as_bytes(),
        (last.saturating_add(1), 5),
        4096,
        wanted,
    )
}

#[test]
fn each_write_may_fail(rt: HostRuntime) -> Result<(), Fail> {
    let check = ["check", "-"];
    let rows = [
        (1, "revision", 1),
        (2, "settled", 6),
        (3, "report", 7),
        (4, "closed", 9),
    ];
    for (n, reply, entries) in &rows {
        let (before, _) = PROVED.split_once(*reply).ok_or("there is such a reply")?;
        let wanted = (before, Status::WriteFault, *entries);
        expect(
            &rt,
            rt.alloc(),
            &check,
            MODEL.as_bytes(),
            (0, *n),
            4096,
            wanted,
        )?;
    }
    Ok(())
}

fn refuses_what_is_too_long_for<R: Threads + Wait + Abort + Sync>(
    rt: &R,
    alloc: Global,
    words: &[&str],
) -> Result<(), Fail> {
    let text = " ".repeat(alloc, 4_194_305)?;
    let wanted = ("refused - TooLong\n", Status::ModelRefused, 0);
    expect(rt, alloc, words, text.as_bytes(), (0, 0), 64, wanted)
}

#[test]
fn checks_nothing_too_long(rt: HostRuntime) -> Result<(), Fail> {
    refuses_what_is_too_long_for(&rt, rt.alloc(), &["check", "-"])
}

#[test]
fn prints_nothing_too_long(rt: HostRuntime) -> Result<(), Fail> {
    refuses_what_is_too_long_for(&rt, rt.alloc(), &["print", "-"])
}

/// A package in canonical form that declares a device.
const DEVICE: &str = "package Q
public
with Base_Types;
device D
features
p : out event data port Base_Types::Integer;
end D;
end Q;
";

#[test]
fn a_print_ends_where_the_outside_fails(rt: HostRuntime) -> Result<(), Fail> {
    let print = ["print", "-"];
    let front = "package Q\npub";
    let rows = [
        (DEVICE, (3, 0), 4096, ("", Status::ReadFault, 0)),
        (DEVICE, (0, 1), 4096, ("", Status::WriteFault, 0)),
        (DEVICE, (0, 2), 13, (front, Status::WriteFault, 0)),
        (DEVICE, (0, 2), 4096, (DEVICE, Status::AllGood, 0)),
        ("x", (0, 1), 4096, ("", Status::WriteFault, 0)),
        ("x", (0, 0), 9, ("refused -", Status::WriteFault, 0)),
        (PACKAGE, (0, 1), 4096, ("", Status::WriteFault, 0)),
        (PACKAGE, (0, 0), 9, ("package P", Status::WriteFault, 0)),
        ("", (0, 1), 4096, ("", Status::AllGood, 0)),
        ("", (1, 0), 4096, ("", Status::ReadFault, 0)),
    ];
    for (text, failing, room, wanted) in &rows {
        expect(
            &rt,
            rt.alloc(),
            &print,
            text.as_bytes(),
            *failing,
            *room,
            *wanted,
        )?;
    }
    Ok(())
}
