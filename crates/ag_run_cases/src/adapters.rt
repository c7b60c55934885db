//! The real outside: files and streams of the system, and sources that are read whole.
use ag_base::{Bytes, Failed, Folder, FolderFault, List, MemSource, Sink, Source};
use ag_io::{FileFolder, StdSink, StdSource, read_all};
use std::alloc::Global;
use std::fs;
use std::test::Fail;

/// Three bytes, given two at a call; the call of that number fails.
fn three(alloc: Global, failing: u32) -> Result<MemSource, Fail> {
    let mut calls = List::new(alloc);
    calls.push(failing)?;
    let bytes = List::from_vec(Vec::from_slice(alloc, b"abc")?);
    Ok(MemSource::make(bytes, 2, calls))
}

fn is(answer: &Result<Bytes, FolderFault>, want: &[u8]) -> bool {
    match answer {
        Ok(bytes) => bytes.as_slice() == want,
        Err(_) => false,
    }
}

#[test]
fn a_source_is_read_whole_or_not_at_all(rt: HostRuntime) -> Result<(), Fail> {
    let alloc = rt.alloc();
    for failing in 1..4u32 {
        let answer = read_all(alloc, &mut three(alloc, failing)?);
        assert!(rt; matches!(answer, Err(FolderFault::Failed)));
    }
    assert!(rt; is(&read_all(alloc, &mut three(alloc, 4)?), b"abc"));
    for (len, fits) in [(4_194_304, true), (4_194_305, false)] {
        let bytes = List::from_vec(vec![in alloc; 0u8; len]?);
        let mut source = MemSource::make(bytes, 5_000, List::new(alloc));
        let answer = read_all(alloc, &mut source);
        assert_eq!(rt; answer.is_ok(), fits);
        assert_eq!(rt; matches!(answer, Err(FolderFault::TooLong)), !fits);
    }
    Ok(())
}

#[test]
fn streams_of_the_system_give_and_take(rt: HostRuntime) -> Result<(), Fail> {
    let path = "streams_of_the_system";
    let mut sink = StdSink::new(fs::create(&rt, path)?);
    assert_eq!(rt; sink.write(b"abc"), Ok(3));
    let mut source = StdSource::new(fs::open(&rt, path)?);
    let mut buffer = [0u8; 8];
    assert_eq!(rt; source.read(&mut buffer), Ok(3));
    assert_eq!(rt; &buffer[..3], b"abc".as_slice());
    assert_eq!(rt; source.read(&mut buffer), Ok(0));
    let mut unwritable = StdSink::new(fs::open(&rt, path)?);
    assert_eq!(rt; unwritable.write(b"abc"), Err(Failed));
    let mut unreadable = StdSource::new(fs::open(&rt, ".")?);
    assert_eq!(rt; unreadable.read(&mut buffer), Err(Failed));
    fs::remove_file(&rt, path)?;
    Ok(())
}

#[test]
fn files_are_given_by_their_paths(rt: HostRuntime) -> Result<(), Fail> {
    let alloc = rt.alloc();
    let mut folder = FileFolder::new(&rt, alloc);
    let path = "file_by_its_path";
    fs::write(&rt, path, "abc")?;
    assert!(rt; is(&folder.read(path), b"abc"));
    for absent in ["no_such_file", "file_by_its_path/under_a_file"] {
        assert!(rt; matches!(folder.read(absent), Err(FolderFault::NotThere)));
    }
    assert!(rt; matches!(folder.read("."), Err(FolderFault::Failed)));
    let long = vec![in alloc; 0u8; 4_194_305]?;
    fs::write(&rt, path, long.as_slice())?;
    assert!(rt; matches!(folder.read(path), Err(FolderFault::TooLong)));
    fs::remove_file(&rt, path)?;
    Ok(())
}
