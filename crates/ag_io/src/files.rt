//! The files of the system as a folder.
ghost use Rattle.std.specs.Prelude.{◌≡◌, ◌≤◌, ◌⊎◌, length, IfOk, IsErrOf};
ghost use Rattle.ag_base.specs.Outside.{Rose};
ghost use Rattle.ag_base.specs.declared.outside.FolderFault.TheVariants as folder;

use crate::reading::read_all;
use crate::streams::StdSource;
use ag_base::{Bytes, Folder, FolderFault};
use std::alloc::Global;
use std::fs;
use std::io::ErrorKind;
use std::rt::Files;

/// The files of the system, by their paths. It tells nothing of their content, and counts the errors of opening
/// and reading, but for a file that isn't there and for want of memory.
#[derive(Drop)]
pub struct FileFolder<'a, R> {
    rt: &'a R,
    alloc: Global,
    faults: u64,
}

impl<'a, R> FileFolder<'a, R> {
    pub fn new(rt: &'a R, alloc: Global) -> FileFolder<'a, R> {
        FileFolder {
            rt,
            alloc,
            faults: 0,
        }
    }

    // Counts a fault where the answer is one.
    fn counted(&mut self, answer: Result<Bytes, FolderFault>) -> Result<Bytes, FolderFault>
        ensures same { result ≡ answer }
        ensures never_falls { self.old.faults ≤ self.new.faults }
        ensures failed { IsErrOf result folder.Failed → Rose self.old.faults self.new.faults }
        ensures unfaulted { IsErrOf result folder.Failed ⊎ (self.new.faults ≡ self.old.faults) }
    {
        if matches!(&answer, Err(FolderFault::Failed)) {
            self.faults = self.faults.saturating_add(1);
        }
        answer
    }
}

// The whole file of that name.
fn read_file<R: Files>(rt: &R, alloc: Global, name: &str) -> Result<Bytes, FolderFault>
    ensures short { IfOk result (λ bytes. length bytes ≤ 4194304) }
{
    match fs::open(rt, name) {
        Ok(file) => read_all(alloc, &mut StdSource::new(file)),
        Err(error) => match error.kind() {
            ErrorKind::NotFound | ErrorKind::NotADirectory => Err(FolderFault::NotThere),
            ErrorKind::OutOfMemory => Err(FolderFault::OutOfMemory),
            _ => Err(FolderFault::Failed),
        },
    }
}

impl<R: Files> Folder for FileFolder<'_, R> {
    ghost use Rattle.std.specs.Prelude.{None};

    ghost files = { λ _. None };

    ghost faults = { λ s. s.faults };

    fn read(&mut self, name: &str) -> Result<Bytes, FolderFault> {
        let answer = read_file(self.rt, self.alloc, name);
        self.counted(answer)
    }
}
