//! The history of a check, entry by entry.
use crate::runs::MODEL;
use ag_base::{List, MemFolder, MemSink, MemSource, Text};
use ag_board::{Call, Reply};
use ag_top::agree;
use std::test::Fail;

fn call_word(call: &Call) -> &'static str {
    match call {
        Call::Publish(_) => "publish",
        Call::Claim => "claim",
        Call::Post { .. } => "post",
        Call::GiveBack { .. } => "give back",
        Call::Report => "report",
        Call::Close => "close",
        Call::Stop => "stop",
    }
}

/// The word of a reply, and the number that tells most of it.
fn reply_word(reply: &Reply) -> (&'static str, u64) {
    match reply {
        Reply::Published(accepted) => ("accepted", accepted.count as u64),
        Reply::Work { claim, .. } => ("work", *claim),
        Reply::Settled => ("settled", 0),
        Reply::Report(report) => ("told", report.lines.len() as u64),
        Reply::Closed(tally) => ("closed", tally.proved as u64),
        _ => ("another", 0),
    }
}

const ENTRIES: [(&str, &str, u64); 9] = [
    ("publish", "accepted", 2),
    ("claim", "work", 1),
    ("post", "another", 0),
    ("claim", "work", 2),
    ("post", "another", 0),
    ("claim", "settled", 0),
    ("report", "told", 2),
    ("claim", "settled", 0),
    ("close", "closed", 1),
];

#[test]
fn a_check_has_these_entries(rt: HostRuntime) -> Result<(), Fail> {
    let alloc = rt.alloc();
    let mut words = Vec::new(alloc);
    words.push(Text::make(alloc, "check")?)?;
    words.push(Text::make(alloc, "-")?)?;
    let bytes = List::from_vec(Vec::from_slice(alloc, MODEL.as_bytes())?);
    let mut source = MemSource::make(bytes, 4096, List::new(alloc));
    let mut sink = MemSink::make(alloc, 4096, List::new(alloc))?;
    let mut folder = MemFolder::make(alloc, List::new(alloc), List::new(alloc));
    let done = agree(&rt, alloc, &words, &mut source, &mut sink, &mut folder);
    assert_eq!(&rt; done.history.len(), 9);
    for n in 0..done.history.len() {
        let entry = done.history.entry(n)?;
        let (call, reply, number) = ENTRIES[n as usize];
        assert_eq!(&rt; entry.seat, 0);
        assert_eq!(&rt; call_word(&entry.call), call);
        assert_eq!(&rt; reply_word(&entry.reply), (reply, number));
    }
    Ok(())
}
