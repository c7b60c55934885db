//! The check of one package, from its obligations to the status.
ghost use Rattle.std.specs.Prelude.{◌≡◌, ◌≢◌, ◌⊎◌, ◌≤◌, []};
ghost use Rattle.ag_base.specs.Outside.{Rose};
ghost use Rattle.ag_base.specs.declared.status.Status.TheVariants as statuses;
ghost use Rattle.ag_small.specs.Rules.{IsWellFormed};
ghost use Rattle.ag_top.specs.Stages.{status_at, EndsByVerdicts, IsEndOfCheck};
ghost use Rattle.ag_top.specs.Outcome.{IsCheckAnswer, IsCheckCut, IsCheckBroken, IsNothing};

use crate::cut::Cut;
use crate::serve::serve_check;
use crate::session::Session;
use ag_base::{Limits, Sink, Status};
use ag_board::{Board, History, Tally};
use ag_small::{Package, verdicts_carry_over};
use std::alloc::Global;

/// How a run ended.
fn status_of(end: Result<Tally, Cut>) -> Status
    ensures { result ≡ status_at end }
{
    match end {
        Err(Cut::Write) => Status::WriteFault,
        Err(Cut::Memory) => Status::OutOfMemory,
        Ok(tally) => {
            if tally.refuted != 0 || tally.inconsistent != 0 {
                Status::Refuted
            } else if tally.unknown != 0 {
                Status::Unknown
            } else {
                Status::AllGood
            }
        }
    }
}

/// How a run ended, and the history of its store.
#[derive(Drop)]
pub struct Done {
    pub status: Status,
    pub history: History,
}

/// A run that made no entry.
pub fn ended(alloc: Global, status: Status) -> Done
    ensures status { result.status ≡ status }
    ensures history { result.history.entries ≡ [] }
{
    Done {
        status,
        history: History::new(alloc),
    }
}

/// Checks a package: its revision is published, settled, reported and closed.
pub fn check<K: Sink>(alloc: Global, limits: Limits, model: Package, sink: &mut K) -> Done
    requires { IsWellFormed model }
    ensures checked { EndsByVerdicts result.status
        → IsCheckAnswer limits model result.history.entries result.status (K.written sink.old) (K.written sink.new) }
    ensures memory { result.status ≡ statuses.OutOfMemory
        → IsNothing result.history.entries (K.written sink.old) (K.written sink.new)
        ⊎ IsCheckCut limits model result.history.entries (K.written sink.old) (K.written sink.new) }
    ensures broken { result.status ≡ statuses.WriteFault
        → IsCheckBroken limits model result.history.entries (K.written sink.old) (K.written sink.new) }
    ensures write { result.status ≡ statuses.WriteFault → Rose (K.faults sink.old) (K.faults sink.new) }
    ensures unfaulted { result.status ≢ statuses.WriteFault → K.faults sink.new ≡ K.faults sink.old }
    ensures only { IsEndOfCheck result.status }
    ensures never_falls { K.faults sink.old ≤ K.faults sink.new }
{
    verdicts_carry_over();
    let Ok(board) = Board::new(alloc) else {
        return ended(alloc, Status::OutOfMemory);
    };
    let mut session = Session {
        model,
        limits,
        board,
    };
    let end = serve_check(alloc, &mut session, sink);
    session.board.know();
    Done {
        status: status_of(end),
        history: session.board.into_history(),
    }
}
