//! The top call.
ghost use Rattle.std.specs.Prelude.{◌≡◌, ◌≢◌, ◌⊎◌, ◌≤◌};
ghost use Rattle.ag_base.specs.Outside.{Rose};
ghost use Rattle.ag_base.specs.declared.status.Status.TheVariants as statuses;
ghost use Rattle.ag_top.specs.Files.{outside};
ghost use Rattle.ag_top.specs.Outcome.{IsAnswer, IsBroken, IsNothing, IsRefusal, IsUnfinished, IsUsage};
ghost use Rattle.ag_top.specs.Printing.{IsPrintAnswer, IsPrintRefusal};
ghost use Rattle.ag_top.specs.Stages.{EndsByVerdicts};
ghost use Rattle.ag_top.specs.Words.{AsksFolder, AsksSource, IsCommand};

use crate::check::Done;
use crate::once::{check_once, print_once};
use crate::tell::tell;
use crate::words::{Order, order_of};
use ag_base::{Folder, Limits, Sink, Source, Status, Text};
use std::alloc::Global;
use std::sync::Wait;
use std::thread::Threads;

/// What is written where the words are no command.
const USAGE: &str = "usage: agreec check [--top NAME] [LIMITS] FILE [FILE ...]
       agreec print FILE
       agreec serve [--workers N] [LIMITS]
       agreec gen N [--workers N] [LIMITS]
limits: --depth N --work N --leaf N --consistency N
";

/// Runs the program: reads what the words ask for, and writes the replies.
///
/// The words are those after the program's name: `check` or `print`, and one file, where `-` is the
/// source. Each reply is handed to the sink as one piece. In this version no thread is started.
pub fn agree<R: Threads + Wait + Sync, S: Source, K: Sink, F: Folder>(
    _rt: &R,
    alloc: Global,
    words: &[Text],
    source: &mut S,
    sink: &mut K,
    folder: &mut F,
) -> Done
    // The words are no command.
    ensures usage { result.status ≡ statuses.Usage
        → IsUsage words.now result.history.entries (K.written sink.old) (K.written sink.new) }

    // The file isn't there, is too long, or is no package of the check's grammar, or its print is refused.
    ensures refused { result.status ≡ statuses.ModelRefused
        → IsRefusal words.now (outside (S.left source.old) (F.files folder.old)) result.history.entries
        (K.written sink.old) (K.written sink.new)
        ⊎ IsPrintRefusal words.now (outside (S.left source.old) (F.files folder.old)) result.history.entries
        (K.written sink.old) (K.written sink.new) }

    // A check was answered by its verdicts, or a print by the canonical text.
    ensures answer { EndsByVerdicts result.status
        → IsAnswer words.now (outside (S.left source.old) (F.files folder.old)) result.history.entries
        result.status (K.written sink.old) (K.written sink.new)
        ⊎ IsPrintAnswer words.now (outside (S.left source.old) (F.files folder.old)) result.history.entries
        result.status (K.written sink.old) (K.written sink.new) }

    // A fault is told only where its count rose.
    ensures read_fault { result.status ≡ statuses.ReadFault → IsCommand words.now
        × (Rose (S.faults source.old) (S.faults source.new) ⊎ Rose (F.faults folder.old) (F.faults folder.new))
        × IsNothing result.history.entries (K.written sink.old) (K.written sink.new) }
    ensures write_fault { result.status ≡ statuses.WriteFault → Rose (K.faults sink.old) (K.faults sink.new) }

    // Where no fault is told, no count moved; and none ever falls.
    ensures source_unfaulted { result.status ≢ statuses.ReadFault → S.faults source.new ≡ S.faults source.old }
    ensures folder_unfaulted { result.status ≢ statuses.ReadFault → F.faults folder.new ≡ F.faults folder.old }
    ensures sink_unfaulted { result.status ≢ statuses.WriteFault → K.faults sink.new ≡ K.faults sink.old }
    ensures source_never_falls { S.faults source.old ≤ S.faults source.new }
    ensures folder_never_falls { F.faults folder.old ≤ F.faults folder.new }
    ensures sink_never_falls { K.faults sink.old ≤ K.faults sink.new }

    // What the words don't ask for is left as it was. No file ever changes.
    ensures source_unread { (AsksSource words.now → ⊥) → source.new ≡ source.old }
    ensures folder_unread { (AsksFolder words.now → ⊥) → folder.new ≡ folder.old }
    ensures files { F.files folder.new ≡ F.files folder.old }

    // Of what would have been written the first bytes were.
    ensures broken { result.status ≡ statuses.WriteFault
        → IsBroken words.now (outside (S.left source.old) (F.files folder.old)) result.history.entries
        (K.written sink.old) (K.written sink.new) }

    // For want of memory nothing was written, or, of a check, the replies to the first commands.
    ensures memory { result.status ≡ statuses.OutOfMemory
        → IsNothing result.history.entries (K.written sink.old) (K.written sink.new)
        ⊎ IsUnfinished words.now (outside (S.left source.old) (F.files folder.old)) result.history.entries
        (K.written sink.old) (K.written sink.new) }

    ensures no_session { result.status ≢ statuses.SessionRefused }
{
    let Some((order, name)) = order_of(words) else {
        return tell(alloc, sink, USAGE.as_bytes(), Status::Usage);
    };
    let name = name.as_str();
    match order {
        Order::Check => check_once(alloc, Limits::usual(), name, source, sink, folder),
        Order::Print => print_once(alloc, name, source, sink, folder),
    }
}
