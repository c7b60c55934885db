//! An end with one text.
ghost use Rattle.std.specs.Prelude.{◌≡◌, ◌≢◌, ◌⊎◌, ◌≤◌, []};
ghost use Rattle.ag_base.specs.Outside.{Rose};
ghost use Rattle.ag_base.specs.declared.status.Status.TheVariants as statuses;
ghost use Rattle.ag_top.specs.Commands.{Grows};
ghost use Rattle.ag_top.specs.Stages.{Partly};

use crate::check::{Done, ended};
use crate::say::say;
use ag_base::{Sink, Status};
use std::alloc::Global;

/// Writes one text, and ends without an entry.
pub fn tell<K: Sink>(alloc: Global, sink: &mut K, text: &[u8], status: Status) -> Done
    ensures ends { (result.status ≡ status) ⊎ (result.status ≡ statuses.WriteFault) }
    ensures written { result.status ≢ statuses.WriteFault → Grows (K.written sink.old) (K.written sink.new) text.now }
    ensures partly { (status ≡ statuses.WriteFault → ⊥) → result.status ≡ statuses.WriteFault
        → Partly text.now (K.written sink.old) (K.written sink.new) }
    ensures write { (status ≡ statuses.WriteFault → ⊥) → result.status ≡ statuses.WriteFault
        → Rose (K.faults sink.old) (K.faults sink.new) }
    ensures unfaulted { result.status ≢ statuses.WriteFault → K.faults sink.new ≡ K.faults sink.old }
    ensures never_falls { K.faults sink.old ≤ K.faults sink.new }
    ensures history { result.history.entries ≡ [] }
{
    match say(sink, text) {
        Ok(()) => ended(alloc, status),
        Err(_) => ended(alloc, Status::WriteFault),
    }
}
