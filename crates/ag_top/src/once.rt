//! A check and a print of one file, on one thread: the file is read, and the replies are written.
ghost use Rattle.std.specs.Prelude.{◌≡◌, ◌≢◌, ◌⊎◌, ◌≤◌, [], List, ℕ};
ghost use Rattle.ag_base.specs.Outside.{Rose};
ghost use Rattle.ag_base.specs.declared.outside.FolderFault.TheVariants as faults;
ghost use Rattle.ag_base.specs.declared.status.Status.TheVariants as statuses;
ghost use Rattle.ag_top.specs.Commands.{Grows};
ghost use Rattle.ag_top.specs.Files.{outside, IsLineOf, unread_text};
ghost use Rattle.ag_top.specs.Outcome.{IsFileAnswer, IsFileBroken, IsFileCut, IsFileRefused, IsNothing};
ghost use Rattle.ag_top.specs.Printing.{IsFilePartlyPrinted, IsFilePrinted, IsFileUnprinted};
ghost use Rattle.ag_top.specs.Stages.{EndsByVerdicts, IsEndOfFile, IsEndOfPrint, IsEndOfPrintedFile, IsEndUnread, Partly};
ghost use Rattle.ag_top.specs.Words.{source_name};

use crate::check::{Done, ended};
use crate::print::print_text;
use crate::read::read_text;
use crate::refusal::unread_line;
use crate::tell::tell;
use crate::text::check_text;
use ag_base::{Folder, FolderFault, Limits, Sink, Source, Status};
use std::alloc::Global;

/// Tells on a line why a file isn't read.
fn tell_cause<K: Sink>(alloc: Global, name: &str, cause: &str, sink: &mut K) -> Done
    ensures only { IsEndOfPrint result.status × (result.status ≢ statuses.AllGood) }
    ensures history { result.history.entries ≡ [] }
    ensures written { result.status ≡ statuses.ModelRefused
        → Grows (K.written sink.old) (K.written sink.new) (unread_text name.now cause.now) }
    ensures partly { result.status ≡ statuses.WriteFault
        → Partly (unread_text name.now cause.now) (K.written sink.old) (K.written sink.new) }
    ensures memory { result.status ≡ statuses.OutOfMemory
        → IsNothing result.history.entries (K.written sink.old) (K.written sink.new) }
    ensures write { result.status ≡ statuses.WriteFault → Rose (K.faults sink.old) (K.faults sink.new) }
    ensures unfaulted { result.status ≢ statuses.WriteFault → K.faults sink.new ≡ K.faults sink.old }
    ensures never_falls { K.faults sink.old ≤ K.faults sink.new }
{
    match unread_line(alloc, name, cause) {
        Ok(line) => tell(alloc, sink, line.as_slice(), Status::ModelRefused),
        Err(_) => ended(alloc, Status::OutOfMemory),
    }
}

/// Tells why a file isn't read, where that is the model's fault.
fn tell_unread<K: Sink>(alloc: Global, name: &str, fault: FolderFault, sink: &mut K) -> Done
    ensures only { IsEndUnread result.status }
    ensures history { result.history.entries ≡ [] }
    ensures written { result.status ≡ statuses.ModelRefused → (line : List ℕ) × IsLineOf name.now fault line
        × Grows (K.written sink.old) (K.written sink.new) line }
    ensures partly { result.status ≡ statuses.WriteFault → (line : List ℕ) × IsLineOf name.now fault line
        × Partly line (K.written sink.old) (K.written sink.new) }
    ensures failed { result.status ≡ statuses.ReadFault → (fault ≡ faults.Failed)
        × IsNothing result.history.entries (K.written sink.old) (K.written sink.new) }
    ensures memory { result.status ≡ statuses.OutOfMemory
        → IsNothing result.history.entries (K.written sink.old) (K.written sink.new) }
    ensures write { result.status ≡ statuses.WriteFault → Rose (K.faults sink.old) (K.faults sink.new) }
    ensures unfaulted { result.status ≢ statuses.WriteFault → K.faults sink.new ≡ K.faults sink.old }
    ensures never_falls { K.faults sink.old ≤ K.faults sink.new }
    ensures told { fault ≡ faults.Failed → result.status ≡ statuses.ReadFault }
{
    match fault {
        FolderFault::NotThere => tell_cause(alloc, name, "NotThere", sink),
        FolderFault::TooLong => tell_cause(alloc, name, "TooLong", sink),
        FolderFault::Failed => ended(alloc, Status::ReadFault),
        FolderFault::OutOfMemory => ended(alloc, Status::OutOfMemory),
    }
}

/// Checks the package that a file spells, and writes the replies.
///
/// The file is the source where its name is `-`, and else the folder's. It is a package of the small
/// grammar so far. Nothing is written behind a fault or want of memory.
pub fn check_once<S: Source, K: Sink, F: Folder>(
    alloc: Global,
    limits: Limits,
    name: &str,
    source: &mut S,
    sink: &mut K,
    folder: &mut F,
) -> Done
    // It was answered by its verdicts.
    ensures answer { EndsByVerdicts result.status
        → IsFileAnswer limits (outside (S.left source.old) (F.files folder.old)) name.now result.history.entries
        result.status (K.written sink.old) (K.written sink.new) }
    ensures refused { result.status ≡ statuses.ModelRefused
        → IsFileRefused (outside (S.left source.old) (F.files folder.old)) name.now result.history.entries
        (K.written sink.old) (K.written sink.new) }
    ensures read_fault { result.status ≡ statuses.ReadFault
        → (Rose (S.faults source.old) (S.faults source.new) ⊎ Rose (F.faults folder.old) (F.faults folder.new))
        × IsNothing result.history.entries (K.written sink.old) (K.written sink.new) }
    ensures write_fault { result.status ≡ statuses.WriteFault → Rose (K.faults sink.old) (K.faults sink.new) }
    ensures broken { result.status ≡ statuses.WriteFault
        → IsFileBroken limits (outside (S.left source.old) (F.files folder.old)) name.now result.history.entries
        (K.written sink.old) (K.written sink.new) }
    ensures memory { result.status ≡ statuses.OutOfMemory
        → IsNothing result.history.entries (K.written sink.old) (K.written sink.new)
        ⊎ IsFileCut limits (outside (S.left source.old) (F.files folder.old)) name.now result.history.entries
        (K.written sink.old) (K.written sink.new) }
    ensures only { IsEndOfFile result.status }

    // Where no fault is told, no count moved; and none ever falls.
    ensures source_unfaulted { result.status ≢ statuses.ReadFault → S.faults source.new ≡ S.faults source.old }
    ensures folder_unfaulted { result.status ≢ statuses.ReadFault → F.faults folder.new ≡ F.faults folder.old }
    ensures sink_unfaulted { result.status ≢ statuses.WriteFault → K.faults sink.new ≡ K.faults sink.old }
    ensures source_never_falls { S.faults source.old ≤ S.faults source.new }
    ensures folder_never_falls { F.faults folder.old ≤ F.faults folder.new }
    ensures sink_never_falls { K.faults sink.old ≤ K.faults sink.new }

    // Of source and folder only the one that has the file is read.
    ensures source_unread { name.now ≢ source_name → source.new ≡ source.old }
    ensures folder_unread { name.now ≡ source_name → folder.new ≡ folder.old }
    ensures files { F.files folder.new ≡ F.files folder.old }
{
    match read_text(alloc, name, source, folder) {
        Ok(text) => check_text(alloc, limits, name, text.as_slice(), sink),
        Err(fault) => tell_unread(alloc, name, fault, sink),
    }
}

/// Prints the packages that a file declares in canonical form.
///
/// The file is the source where its name is `-`, and else the folder's. The history is empty.
pub fn print_once<S: Source, K: Sink, F: Folder>(
    alloc: Global,
    name: &str,
    source: &mut S,
    sink: &mut K,
    folder: &mut F,
) -> Done
    ensures printed { result.status ≡ statuses.AllGood
        → IsFilePrinted (outside (S.left source.old) (F.files folder.old)) name.now result.history.entries
        (K.written sink.old) (K.written sink.new) }
    ensures refused { result.status ≡ statuses.ModelRefused
        → IsFileUnprinted (outside (S.left source.old) (F.files folder.old)) name.now result.history.entries
        (K.written sink.old) (K.written sink.new) }
    ensures read_fault { result.status ≡ statuses.ReadFault
        → (Rose (S.faults source.old) (S.faults source.new) ⊎ Rose (F.faults folder.old) (F.faults folder.new))
        × IsNothing result.history.entries (K.written sink.old) (K.written sink.new) }
    ensures write_fault { result.status ≡ statuses.WriteFault → Rose (K.faults sink.old) (K.faults sink.new) }
    ensures broken { result.status ≡ statuses.WriteFault
        → IsFilePartlyPrinted (outside (S.left source.old) (F.files folder.old)) name.now (K.written sink.old)
        (K.written sink.new) }
    ensures memory { result.status ≡ statuses.OutOfMemory
        → IsNothing result.history.entries (K.written sink.old) (K.written sink.new) }
    ensures history { result.history.entries ≡ [] }
    ensures only { IsEndOfPrintedFile result.status }

    // Where no fault is told, no count moved; and none ever falls.
    ensures source_unfaulted { result.status ≢ statuses.ReadFault → S.faults source.new ≡ S.faults source.old }
    ensures folder_unfaulted { result.status ≢ statuses.ReadFault → F.faults folder.new ≡ F.faults folder.old }
    ensures sink_unfaulted { result.status ≢ statuses.WriteFault → K.faults sink.new ≡ K.faults sink.old }
    ensures source_never_falls { S.faults source.old ≤ S.faults source.new }
    ensures folder_never_falls { F.faults folder.old ≤ F.faults folder.new }
    ensures sink_never_falls { K.faults sink.old ≤ K.faults sink.new }

    // Of source and folder only the one that has the file is read.
    ensures source_unread { name.now ≢ source_name → source.new ≡ source.old }
    ensures folder_unread { name.now ≡ source_name → folder.new ≡ folder.old }
    ensures files { F.files folder.new ≡ F.files folder.old }
{
    match read_text(alloc, name, source, folder) {
        Ok(text) => print_text(alloc, name, text.as_slice(), sink),
        Err(fault) => tell_unread(alloc, name, fault, sink),
    }
}
