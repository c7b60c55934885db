//! Runs over a folder: which file the words name, and what is told of one that isn't read.
use crate::runs::{PACKAGE, PROVED};
use ag_base::{File, List, MemFolder, MemSink, MemSource, Status, Text};
use ag_top::agree;
use std::alloc::Global;
use std::process::Abort;
use std::sync::Wait;
use std::test::Fail;
use std::thread::Threads;

/// The text of the program's usage.
pub const USAGE: &str = "usage: agreec check [--top NAME] [LIMITS] FILE [FILE ...]
       agreec print FILE
       agreec serve [--workers N] [LIMITS]
       agreec gen N [--workers N] [LIMITS]
limits: --depth N --work N --leaf N --consistency N
";

fn file(alloc: Global, name: &str, text: &str) -> Result<File, Fail> {
    let name = Text::make(alloc, name)?;
    let bytes = List::from_vec(Vec::from_slice(alloc, text.as_bytes())?);
    Ok(File { name, bytes })
}

/// A folder with a package under three names, two texts that are none, and a file of so many spaces. The read of that number
/// fails.
fn folder(alloc: Global, failing: u32, spaces: usize) -> Result<MemFolder, Fail> {
    let mut files = List::new(alloc);
    for name in ["p.aadl", "-p.aadl", "--"] {
        files.push(file(alloc, name, PACKAGE)?)?;
    }
    files.push(file(alloc, "short.aadl", "package P\npublic")?)?;
    files.push(file(alloc, "-", "a file of the source's name")?)?;
    let long = " ".repeat(alloc, spaces)?;
    files.push(file(alloc, "long.aadl", long.as_str())?)?;
    let mut calls = List::new(alloc);
    calls.push(failing)?;
    Ok(MemFolder::make(alloc, files, calls))
}

/// A run on these words over the folder. The source has the package with a line feed in front.
fn expect<R: Threads + Wait + Abort + Sync>(
    rt: &R,
    alloc: Global,
    words: &[&str],
    failing: u32,
    spaces: usize,
    wanted: (&str, Status),
) -> Result<(), Fail> {
    let mut given = Vec::new(alloc);
    for word in words {
        given.push(Text::make(alloc, *word)?)?;
    }
    let text = format!(in alloc; "\n{PACKAGE}")?;
    let bytes = List::from_vec(Vec::from_slice(alloc, text.as_bytes())?);
    let mut source = MemSource::make(bytes, 4096, List::new(alloc));
    let mut sink = MemSink::make(alloc, 4096, List::new(alloc))?;
    let mut folder = folder(alloc, failing, spaces)?;
    let done = agree(rt, alloc, &given, &mut source, &mut sink, &mut folder);
    let (output, status) = wanted;
    let written = str::from_utf8(sink.bytes())
        .ok()
        .ok_or("a text is written")?;
    assert_eq!(rt; written, output);
    assert_eq!(rt; done.status, status);
    Ok(())
}

#[test]
fn reads_the_file_of_the_words(rt: HostRuntime) -> Result<(), Fail> {
    let rows: [(&[&str], &str, Status); 13] = [
        (&["check", "p.aadl"], PROVED, Status::AllGood),
        (&["check", "p.aadl", "--"], PROVED, Status::AllGood),
        (&["check", "--", "p.aadl"], PROVED, Status::AllGood),
        (&["check", "--", "-p.aadl"], PROVED, Status::AllGood),
        (&["check", "--", "--"], PROVED, Status::AllGood),
        (&["check", "-"], PROVED, Status::AllGood),
        (&["check", "--", "-"], PROVED, Status::AllGood),
        (&["print", "p.aadl"], PACKAGE, Status::AllGood),
        (&["print", "--", "-p.aadl"], PACKAGE, Status::AllGood),
        (
            &["check", "q.aadl"],
            "refused q.aadl NotThere\n",
            Status::ModelRefused,
        ),
        (
            &["print", "q.aadl"],
            "refused q.aadl NotThere\n",
            Status::ModelRefused,
        ),
        (
            &["check", "short.aadl"],
            "refused short.aadl:2:7 NotBuilt\n",
            Status::ModelRefused,
        ),
        (
            &["print", "short.aadl"],
            "refused short.aadl:2:7 Expected\n",
            Status::ModelRefused,
        ),
    ];
    for (words, output, status) in &rows {
        expect(&rt, rt.alloc(), *words, 0, 1, (*output, *status))?;
    }
    Ok(())
}

#[test]
fn reads_nothing_too_long(rt: HostRuntime) -> Result<(), Fail> {
    let wanted = ("refused long.aadl TooLong\n", Status::ModelRefused);
    expect(
        &rt,
        rt.alloc(),
        &["check", "long.aadl"],
        0,
        4_194_305,
        wanted,
    )
}

#[test]
fn ends_where_the_folder_fails(rt: HostRuntime) -> Result<(), Fail> {
    for command in ["check", "print"] {
        let words = [command, "p.aadl"];
        expect(&rt, rt.alloc(), &words, 1, 1, ("", Status::ReadFault))?;
    }
    expect(
        &rt,
        rt.alloc(),
        &["check", "-"],
        1,
        1,
        (PROVED, Status::AllGood),
    )
}

#[test]
fn tells_its_usage(rt: HostRuntime) -> Result<(), Fail> {
    let rows: [&[&str]; 16] = [
        &[],
        &[""],
        &["check"],
        &["check", ""],
        &["check", "--"],
        &["check", "--", ""],
        &["check", "-x"],
        &["check", "--x", "p.aadl"],
        &["check", "-", "-"],
        &["check", "-", "x"],
        &["check", "--", "x", "y"],
        &["Check", "-"],
        &["print"],
        &["print", "--", "-", "-"],
        &["print", "-", "-"],
        &["prove", "p.aadl"],
    ];
    for words in &rows {
        expect(&rt, rt.alloc(), *words, 1, 1, (USAGE, Status::Usage))?;
    }
    Ok(())
}
