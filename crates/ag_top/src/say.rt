//! Handing a text over to a sink.
ghost use Rattle.std.specs.Prelude.{◌≡◌, ◌≤◌, OnOk, OnErr};
ghost use Rattle.ag_base.specs.Outside.{Rose};
ghost use Rattle.ag_top.specs.Commands.{Grows};
ghost use Rattle.ag_top.specs.Stages.{Partly};

use ag_base::{Failed, Sink};

/// Hands the whole text over, piece by piece, until it is taken or the sink fails.
pub fn say<K: Sink>(sink: &mut K, text: &[u8]) -> Result<(), Failed>
    ensures taken { OnOk result (Grows (K.written sink.old) (K.written sink.new) text.now) }
    ensures partly { OnErr result (Partly text.now (K.written sink.old) (K.written sink.new)) }
    ensures failed { OnErr result (Rose (K.faults sink.old) (K.faults sink.new)) }
    ensures unfaulted { OnOk result (K.faults sink.new ≡ K.faults sink.old) }
    ensures never_falls { K.faults sink.old ≤ K.faults sink.new }
{
    let mut at = 0;
    while at < text.len() {
        at += sink.write(&text[at..])?;
    }
    Ok(())
}
