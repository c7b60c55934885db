//! The outside in memory, whose calls fail where it was asked that they do.
ghost use Rattle.std.specs.Prelude.{◌≡◌, ◌<◌, ◌≤◌, ◌++◌, ◌==◌, [], true, Some, length, take, min, max, IfOk, OnOk, OnErr, IsErrOf, ◌⊎◌, is_ok, not, if◌then◌else◌, ◌↔◌, ◌+◌};
ghost use Rattle.std.specs.Option.{option_copied};
ghost use Rattle.std.specs.List.{list_any};
ghost use Rattle.ag_base.specs.Outside.{Rose, Takes, AnswersFile};
ghost use Rattle.ag_base.specs.Memory.{next_call, fails_next, one_more, given, refuses, file_at};
ghost use Rattle.ag_base.specs.declared.outside.FolderFault.TheVariants.{Failed as FailedFolder};

use crate::OutOfMemory;
use crate::list::{Bytes, List};
use crate::outside::{Failed, File, Folder, FolderFault, MOST_FILE_BYTES, Sink, Source};
use std::alloc::Global;
use std::marker::Model;

/// Bytes in memory, given in pieces.
#[derive(Drop)]
pub struct MemSource {
    bytes: Bytes,
    at: usize,
    piece: usize,
    failing: List<u32>,
    calls: u64,
    faults: u64,
}

impl Model for MemSource {
    ghost use Rattle.std.specs.Prelude.{◌≤◌, drop, length};
    ghost use Rattle.ag_base.specs.Memory.{Supply};

    ghost Value = { Supply };

    ghost view = { λ s. record { left = drop s.at s.bytes; piece = s.piece; failing = s.failing; calls = s.calls; faults = s.faults } };

    ghost invariant = { λ s. (s.at ≤ length s.bytes) × (1 ≤ s.piece) };
}

impl MemSource {
    /// Gives these bytes, at most `piece` of them at a call and at least one. The calls whose
    /// numbers, from 1, are in `failing` fail.
    pub fn make(bytes: Bytes, piece: u32, failing: List<u32>) -> MemSource
        ensures { result ≡ record { left = bytes; piece = max piece 1; failing = failing; calls = 0; faults = 0 } }
    {
        MemSource {
            bytes,
            at: 0,
            piece: piece.max(1) as usize,
            failing,
            calls: 0,
            faults: 0,
        }
    }
}

/// Whether the next call is one of those that fail.
fn is_failing(failing: &List<u32>, number: u64) -> bool
    ensures { result ≡ list_any (λ n. n == number) failing.now }
{
    failing.as_slice().iter().any(|n| u64::from(*n) == number)
}

/// One fault more, up to the last count.
fn count_fault(faults: u64) -> u64
    ensures { result ≡ one_more faults }
{
    faults.saturating_add(1)
}

/// Copies the first `n` bytes to the front of a buffer.
fn copy_front(into: &mut [u8], from: &[u8], n: usize)
    requires room { n ≤ length into.old }
    requires bytes { n ≤ length from.now }
    ensures { take n into.new ≡ take n from.now }
{
    into[..n].copy_from_slice(&from[..n]);
}

impl Source for MemSource {
    ghost left = { λ s. Some s.left };

    ghost faults = { λ s. s.faults };

    fn read(&mut self, into: &mut [u8]) -> Result<usize, Failed>
        ensures count { IfOk result (λ n. n ≤ length into.new) }
        ensures bytes { IfOk result (λ n. Takes self.old.left (take n into.new) (Some self.new.left)) }
        ensures end { IfOk result (λ n. 0 < length into.new → n ≡ 0 → self.old.left ≡ []) }
        ensures never_falls { self.old.faults ≤ self.new.faults }
        ensures failed { OnErr result (Rose self.old.faults self.new.faults × (Some self.new.left ≡ Some self.old.left)) }
        ensures unfaulted { OnOk result (self.new.faults ≡ self.old.faults) }
        // The numbered calls fail, and no others; the others give as much as they may.
        ensures exactly { is_ok result ≡ not (fails_next self.old.failing self.old.calls) }
        ensures given { IfOk result (λ n. n ≡ given self.old (length into.old)) }
        ensures calls { self.new.calls ≡ next_call self.old.calls }
        ensures kept { (self.new.piece ≡ self.old.piece) × (self.new.failing ≡ self.old.failing) }
        ensures counted { self.new.faults ≡ (if is_ok result then self.old.faults else one_more self.old.faults) }
    {
        self.calls = self.calls.saturating_add(1);
        if is_failing(&self.failing, self.calls) {
            self.faults = count_fault(self.faults);
            return Err(Failed);
        }
        let left = &self.bytes.as_slice()[self.at..];
        let n = self.piece.min(into.len()).min(left.len());
        copy_front(into, left, n);
        self.at += n;
        Ok(n)
    }
}

/// Bytes written to memory, for which room was made at the start.
#[derive(Drop)]
pub struct MemSink {
    bytes: Vec<u8>,
    room: usize,
    failing: List<u32>,
    calls: u64,
    faults: u64,
}

impl Model for MemSink {
    ghost use Rattle.std.specs.Prelude.{◌+◌, ◌≤◌, vec_len, vec_capacity};
    ghost use Rattle.ag_base.specs.Memory.{Store};

    ghost Value = { Store };

    ghost view = { λ s. record { written = s.bytes.items; room = s.room; failing = s.failing; calls = s.calls; faults = s.faults } };

    ghost invariant = { λ s. vec_len s.bytes + s.room ≤ vec_capacity s.bytes };
}

impl MemSink {
    /// Has room for that many bytes. The calls whose numbers, from 1, are in `failing` fail.
    pub fn make(alloc: Global, room: u32, failing: List<u32>) -> Result<MemSink, OutOfMemory>
        ensures { IfOk result (λ s. s ≡ record { written = []; room = room; failing = failing; calls = 0; faults = 0 }) }
    {
        let bytes = Vec::with_capacity(alloc, room as usize)?;
        Ok(MemSink {
            bytes,
            room: room as usize,
            failing,
            calls: 0,
            faults: 0,
        })
    }

    /// The bytes written so far.
    pub fn bytes(&self) -> &[u8]
        ensures { result.now ≡ self.now.written }
    {
        self.bytes.as_slice()
    }
}

impl Sink for MemSink {
    ghost written = { λ s. Some s.written };

    ghost faults = { λ s. s.faults };

    fn write(&mut self, from: &[u8]) -> Result<usize, Failed>
        ensures count { IfOk result (λ n. n ≤ length from.now) }
        ensures some { IfOk result (λ n. 0 < length from.now → 0 < n) }
        ensures bytes { IfOk result (λ n. Some self.new.written ≡ Some (self.old.written ++ take n from.now)) }
        ensures never_falls { self.old.faults ≤ self.new.faults }
        ensures failed { OnErr result (Rose self.old.faults self.new.faults × (Some self.new.written ≡ Some self.old.written)) }
        ensures unfaulted { OnOk result (self.new.faults ≡ self.old.faults) }
        // It takes all that there is room for, and fails where there is none or the call is numbered.
        ensures exactly { is_ok result ≡ not (refuses self.old from.now) }
        ensures taken { IfOk result (λ n. (n ≡ min self.old.room (length from.now)) × (self.new.room + n ≡ self.old.room)) }
        ensures room { OnErr result (self.new.room ≡ self.old.room) }
        ensures calls { (self.new.calls ≡ next_call self.old.calls) × (self.new.failing ≡ self.old.failing) }
        ensures counted { self.new.faults ≡ (if is_ok result then self.old.faults else one_more self.old.faults) }
    {
        self.calls = self.calls.saturating_add(1);
        let n = self.room.min(from.len());
        let refused = n == 0 && !from.is_empty();
        if is_failing(&self.failing, self.calls) || refused {
            self.faults = count_fault(self.faults);
            return Err(Failed);
        }
        if self.bytes.extend_from_slice(&from[..n]).is_err() {
            unreachable!();
        }
        self.room -= n;
        Ok(n)
    }
}

/// Files in memory. Of several files of one name the first counts.
#[derive(Drop)]
pub struct MemFolder {
    alloc: Global,
    files: List<File>,
    failing: List<u32>,
    calls: u64,
    faults: u64,
}

impl Model for MemFolder {
    ghost use Rattle.ag_base.specs.Memory.{Shelf};

    ghost Value = { Shelf };

    ghost view = { λ s. record { files = s.files; failing = s.failing; calls = s.calls; faults = s.faults } };
}

impl MemFolder {
    /// Has these files. The calls whose numbers, from 1, are in `failing` fail.
    pub fn make(alloc: Global, files: List<File>, failing: List<u32>) -> MemFolder
        ensures { result ≡ record { files = files; failing = failing; calls = 0; faults = 0 } }
    {
        MemFolder {
            alloc,
            files,
            failing,
            calls: 0,
            faults: 0,
        }
    }
}

/// The bytes of the first file of that name.
fn find_file<'a>(files: &'a [File], name: &str) -> Option<&'a [u8]>
    ensures { option_copied result ≡ file_at files.now name.now }
{
    for file in files {
        if file.name.as_str() == name {
            return Some(file.bytes.as_slice());
        }
    }
    None
}

impl Folder for MemFolder {
    ghost files = { λ s. Some (file_at s.files) };

    ghost faults = { λ s. s.faults };

    fn read(&mut self, name: &str) -> Result<Bytes, FolderFault>
        ensures same { Some (file_at self.new.files) ≡ Some (file_at self.old.files) }
        ensures file { AnswersFile (file_at self.old.files name.now) result }
        ensures short { IfOk result (λ bytes. length bytes ≤ 4194304) }
        ensures never_falls { self.old.faults ≤ self.new.faults }
        ensures failed { IsErrOf result FailedFolder → Rose self.old.faults self.new.faults }
        ensures unfaulted { IsErrOf result FailedFolder ⊎ (self.new.faults ≡ self.old.faults) }
        // The numbered calls fail, and no others.
        ensures exactly { IsErrOf result FailedFolder ↔ (fails_next self.old.failing self.old.calls ≡ true) }
        ensures calls { self.new.calls ≡ next_call self.old.calls }
        ensures kept { (self.new.files ≡ self.old.files) × (self.new.failing ≡ self.old.failing) }
        ensures counted { self.new.faults ≡ (if fails_next self.old.failing self.old.calls then one_more self.old.faults else self.old.faults) }
    {
        self.calls = self.calls.saturating_add(1);
        if is_failing(&self.failing, self.calls) {
            self.faults = count_fault(self.faults);
            return Err(FolderFault::Failed);
        }
        file_of(self.alloc, find_file(self.files.as_slice(), name))
    }
}

/// A copy of a file's bytes, where there are some and they aren't too many.
fn file_of(alloc: Global, found: Option<&[u8]>) -> Result<Bytes, FolderFault>
    ensures answer { AnswersFile (option_copied found.entry) result }
    ensures short { IfOk result (λ bytes. length bytes ≤ 4194304) }
    ensures not_failed { IsErrOf result FailedFolder → ⊥ }
{
    let Some(bytes) = found else {
        return Err(FolderFault::NotThere);
    };
    if bytes.len() > MOST_FILE_BYTES {
        return Err(FolderFault::TooLong);
    }
    match Vec::from_slice(alloc, bytes) {
        Ok(copy) => Ok(List::from_vec(copy)),
        Err(_) => Err(FolderFault::OutOfMemory),
    }
}
