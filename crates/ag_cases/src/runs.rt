//! Runs of the program over memory, for the tables of what `print -` writes and refuses.
use ag_base::{List, MemFolder, MemSink, MemSource, Status, Text};
use ag_top::agree;
use std::alloc::Global;
use std::process::Abort;
use std::sync::Wait;
use std::test::Fail;
use std::thread::Threads;

/// A package in canonical form, which is its own print.
pub const PACKAGE: &str =
    "package P\npublic\nwith Base_Types;\nsystem S\nfeatures\na : in data port Base_Types::Boolean;\n\
b : in data port Base_Types::Boolean;\no : out data port Base_Types::Boolean;\nannex agree {**\n\
guarantee \"g\" : true;\n**};\nend S;\nsystem implementation S.i\nannex agree {**\nassign o = a;\n**};\nend S.i;\nend P;\n";

/// One with formulas.
pub const MODEL: &str = "package P
public
with Base_Types;
system S
features
a : in data port Base_Types::Boolean; b : in data port Base_Types::Boolean; o : out data port Base_Types::Boolean;
annex agree {**
guarantee \"g\" : o => a;
**};
end S;
system implementation S.i
annex agree {**
assign o = a and b;
**};
end S.i;
end P;
";

/// A run on these words and bytes, in which no read and no write fails.
pub fn expect_run<R: Threads + Wait + Abort + Sync>(
    rt: &R,
    alloc: Global,
    words: &[&str],
    text: &[u8],
    wanted: (&str, Status, u32),
) -> Result<(), Fail> {
    let mut given = Vec::new(alloc);
    for word in words {
        given.push(Text::make(alloc, *word)?)?;
    }
    let bytes = List::from_vec(Vec::from_slice(alloc, text)?);
    let mut source = MemSource::make(bytes, 4096, List::new(alloc));
    let mut sink = MemSink::make(alloc, 65536, List::new(alloc))?;
    let mut folder = MemFolder::make(alloc, List::new(alloc), List::new(alloc));
    let done = agree(rt, alloc, &given, &mut source, &mut sink, &mut folder);
    let (output, status, entries) = wanted;
    assert!(rt; sink.bytes() == output.as_bytes());
    assert_eq!(rt; done.status, status);
    assert_eq!(rt; done.history.len(), entries);
    Ok(())
}
