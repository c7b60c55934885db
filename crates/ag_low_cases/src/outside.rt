//! What no contract can say: that memory suffices for small things.
use ag_base::{
    AfterPolls, Bytes, File, Folder, FolderFault, Halt, Limits, List, MemFolder, MemSink,
    MemSource, Never, Sink, Source, Status, Text,
};
use std::alloc::Global;
use std::test::Fail;

fn bytes(alloc: Global, text: &str) -> Result<Bytes, Fail> {
    Ok(List::from_vec(Vec::from_slice(alloc, text.as_bytes())?))
}

fn one(alloc: Global, n: u32) -> Result<List<u32>, Fail> {
    let mut list = List::new(alloc);
    list.push(n)?;
    Ok(list)
}

#[test]
fn a_source_gives_pieces_and_fails_when_asked(rt: HostRuntime) -> Result<(), Fail> {
    let alloc = rt.alloc();
    let mut source = MemSource::make(bytes(alloc, "abcde")?, 2, one(alloc, 2)?);
    let mut buffer = [0u8; 4];
    for want in [Some(2), None, Some(2), Some(1), Some(0)] {
        assert_eq!(rt; source.read(&mut buffer).ok(), want);
    }
    Ok(())
}

#[test]
fn a_sink_takes_what_it_has_room_for(rt: HostRuntime) -> Result<(), Fail> {
    let alloc = rt.alloc();
    let mut sink = MemSink::make(alloc, 5, one(alloc, 2)?)?;
    for want in [Some(3), None, Some(2), None] {
        assert_eq!(rt; sink.write(b"xyz").ok(), want);
    }
    assert_eq!(rt; sink.write(b"").ok(), Some(0));
    assert_eq!(rt; sink.bytes(), b"xyzxy".as_slice());
    Ok(())
}

#[test]
fn a_folder_gives_the_first_file(rt: HostRuntime) -> Result<(), Fail> {
    let alloc = rt.alloc();
    let mut files = List::new(alloc);
    for text in ["one", "two"] {
        let name = Text::make(alloc, "a")?.share()?;
        let bytes = bytes(alloc, text)?;
        files.push(File { name, bytes })?;
    }
    let mut folder = MemFolder::make(alloc, files, one(alloc, 2)?);
    let Ok(first) = folder.read("a") else {
        return Err(Fail::from("no first file"));
    };
    assert_eq!(rt; first.as_slice(), b"one".as_slice());
    assert_eq!(rt; folder.read("a").err(), Some(FolderFault::Failed));
    assert_eq!(rt; folder.read("b").err(), Some(FolderFault::NotThere));
    Ok(())
}

#[test]
fn limits_and_statuses(rt: HostRuntime) {
    assert!(rt; Limits::make(30, 1, 100, 1, 0).is_some());
    assert!(rt; Limits::make(31, 1, 100, 1, 0).is_none());
    assert_eq!(rt; Limits::usual().depth, 10);
    assert_eq!(rt; Status::SessionRefused.code(), 8);
}

#[test]
fn halts_say_yes_when_asked(rt: HostRuntime) {
    for (n, first) in [(0, 1), (1, 1), (3, 3)] {
        let mut halt = AfterPolls::make(n);
        for poll in 1..6 {
            assert_eq!(rt; halt.poll(), first <= poll);
        }
    }
    assert!(rt; !Never.poll());
}
