//! The check of one text: of the package that it spells, or its refusal.
ghost use Rattle.std.specs.Prelude.{◌≡◌, ◌≢◌, ◌⊎◌, ◌≤◌, IfOk, length};
ghost use Rattle.ag_base.specs.declared.limits.Limits.{Limits as LimitsValue};
ghost use Rattle.ag_base.specs.declared.place.Place.{Place};
ghost use Rattle.ag_base.specs.declared.status.Status.TheVariants as statuses;
ghost use Rattle.ag_base.specs.Outside.{Rose};
ghost use Rattle.ag_small.specs.declared.package.Package.{Package};
ghost use Rattle.ag_small.specs.Reads.{Reads};
ghost use Rattle.ag_small.specs.Places.{IsPlaceIn};
ghost use Rattle.ag_top.specs.Refusals.{not_built};
ghost use Rattle.ag_top.specs.Stages.{EndsByVerdicts, IsEndOfText};
ghost use Rattle.ag_top.specs.Outcome.{IsNothing, IsTextAnswer, IsTextBroken, IsTextCut, IsTextRefused};

use crate::check::{Done, check, ended};
use crate::refusal::refusal_line;
use crate::say::say;
use ag_base::{Bytes, Failed, Limits, OutOfMemory, Refusal, Rule, Sink, Status};
use ag_small::{ReadFault, place_of_refusal, read};
use std::alloc::Global;

/// The line that tells where a text departs from the grammar.
fn departure(alloc: Global, name: &str, text: &[u8]) -> Result<Bytes, OutOfMemory>
    requires { length text.now ≤ 4194304 }
    ensures { IfOk result (λ line. (place : Place) × IsPlaceIn text.now place × (line ≡ not_built name.now place)) }
{
    let place = place_of_refusal(alloc, text)?;
    let rule = Rule::NotBuilt;
    refusal_line(alloc, name, Refusal { place, rule })
}

/// Refuses a text that spells no package.
fn refuse_text<K: Sink>(alloc: Global, name: &str, text: &[u8], sink: &mut K) -> Done
    requires few { length text.now ≤ 4194304 }
    requires none { (p : Package) → Reads text.now p → ⊥ }
    ensures refused { result.status ≡ statuses.ModelRefused
        → IsTextRefused name.now text.now result.history.entries (K.written sink.old) (K.written sink.new) }
    ensures memory { result.status ≡ statuses.OutOfMemory
        → IsNothing result.history.entries (K.written sink.old) (K.written sink.new) }
    ensures broken { result.status ≡ statuses.WriteFault → (l : LimitsValue)
        → IsTextBroken l name.now text.now result.history.entries (K.written sink.old) (K.written sink.new) }
    ensures write { result.status ≡ statuses.WriteFault → Rose (K.faults sink.old) (K.faults sink.new) }
    ensures unfaulted { result.status ≢ statuses.WriteFault → K.faults sink.new ≡ K.faults sink.old }
    ensures never_falls { K.faults sink.old ≤ K.faults sink.new }
    ensures only { IsEndOfText result.status }
    ensures unanswered { EndsByVerdicts result.status → ⊥ }
{
    let Ok(line) = departure(alloc, name, text) else {
        return ended(alloc, Status::OutOfMemory);
    };
    match say(sink, line.as_slice()) {
        Ok(()) => ended(alloc, Status::ModelRefused),
        Err(Failed) => ended(alloc, Status::WriteFault),
    }
}

/// Checks the package that a text spells, if it spells one. The name is that of the file.
pub fn check_text<K: Sink>(
    alloc: Global,
    limits: Limits,
    name: &str,
    text: &[u8],
    sink: &mut K,
) -> Done
    requires { length text.now ≤ 4194304 }
    ensures answer { EndsByVerdicts result.status
        → IsTextAnswer limits text.now result.history.entries result.status (K.written sink.old) (K.written sink.new) }
    ensures refused { result.status ≡ statuses.ModelRefused
        → IsTextRefused name.now text.now result.history.entries (K.written sink.old) (K.written sink.new) }
    ensures memory { result.status ≡ statuses.OutOfMemory
        → IsNothing result.history.entries (K.written sink.old) (K.written sink.new)
        ⊎ IsTextCut limits text.now result.history.entries (K.written sink.old) (K.written sink.new) }
    ensures broken { result.status ≡ statuses.WriteFault
        → IsTextBroken limits name.now text.now result.history.entries (K.written sink.old) (K.written sink.new) }
    ensures write { result.status ≡ statuses.WriteFault → Rose (K.faults sink.old) (K.faults sink.new) }
    ensures unfaulted { result.status ≢ statuses.WriteFault → K.faults sink.new ≡ K.faults sink.old }
    ensures never_falls { K.faults sink.old ≤ K.faults sink.new }
    ensures only { IsEndOfText result.status }
{
    match read(alloc, text) {
        Err(ReadFault::OutOfMemory) => ended(alloc, Status::OutOfMemory),
        Err(ReadFault::NotBuilt) => refuse_text(alloc, name, text, sink),
        Ok(package) => check(alloc, limits, package, sink),
    }
}
