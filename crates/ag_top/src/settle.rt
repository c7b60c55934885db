//! Deciding every key of the store, one after another.
ghost use Rattle.std.specs.Prelude.{◌≡◌, ◌+◌, ◌<◌, ◌≤◌, ◌++◌, ◌∷◌, [], length, All, IfOk, OnOk, OnErr, MatchBool};
ghost use Rattle.ag_stream.specs.Forms.{IsPlain};
ghost use Rattle.ag_verdict.specs.Verdicts.{IsTrueOf};
ghost use Rattle.ag_verdict.specs.Within.{IsWithin};
ghost use Rattle.ag_board.specs.Entries.{claim, settled};
ghost use Rattle.ag_board.specs.Machine.{undecided};
ghost use Rattle.ag_board.specs.Store.{IsOut, entry};
ghost use Rattle.ag_top.specs.Commands.{editor, editing};
ghost use Rattle.ag_top.specs.Keeping.{IsIdle, KeepsKeys, Posts, Returns, listed, weight};
ghost use Rattle.ag_top.specs.Stages.{DecidesOne, GivesUp, Settles, SettlesPartly};

use crate::prover::try_all;
use ag_base::{Limits, OutOfMemory};
use ag_board::{Board, Claimed, ReserveFault, Ticket, equal_problems_agree, problems_are_compared};
use ag_stream::Problem;
use ag_verdict::Verdict;
use std::alloc::Global;
use std::sync::Arc;

/// The seat of whoever gives the commands of a check.
pub const EDITOR: u32 = 0;

/// Promises the two places of a claim or of a close, for which a check always has room.
pub fn reserve(board: &mut Board) -> Result<(), OutOfMemory>
    requires room { length board.old.history + board.old.spare ≤ 4000000000 }
    ensures ok { OnOk result (board.new ≡ record board.old { spare = board.old.spare + 2 }) }
    ensures err { OnErr result (board.new ≡ board.old) }
{
    match board.reserve() {
        Ok(()) => Ok(()),
        Err(ReserveFault::OutOfMemory) => Err(OutOfMemory),
        Err(ReserveFault::HistoryFull) => unreachable!(),
    }
}

/// The verdict of a plain problem, to be shared.
fn shared_verdict(
    alloc: Global,
    limits: &Limits,
    problem: &Problem,
) -> Result<Arc<Verdict>, OutOfMemory>
    requires plain { IsPlain problem.now }
    ensures true_verdict { IfOk result (λ v. IsTrueOf problem.now v.value) }
    ensures within { IfOk result (λ v. IsWithin limits.now problem.now v.value) }
{
    let verdict = try_all(alloc, limits, problem)?;
    Ok(Arc::new(alloc, verdict)?)
}

/// Decides the problem of a ticket and posts its verdict, or gives the ticket back for want of memory.
fn decide(
    alloc: Global,
    limits: &Limits,
    board: &mut Board,
    ticket: Ticket,
) -> Result<(), OutOfMemory>
    requires out { IsOut board.old.state ticket }
    requires plain { IsPlain ticket.problem }
    requires seat { ticket.seat ≡ editor }
    ensures posted { OnOk result (Posts limits.now ticket board.old board.new) }
    ensures returned { OnErr result (Returns ticket board.old board.new) }
    ensures spare { board.new.spare + 1 ≡ board.old.spare }
{
    match shared_verdict(alloc, limits, ticket.problem()) {
        Ok(verdict) => {
            board.post(ticket, verdict);
            Ok(())
        }
        Err(OutOfMemory) => {
            board.give_back(ticket);
            Err(OutOfMemory)
        }
    }
}

/// Decides the next key, if there is one. Whether there was.
fn decide_next(alloc: Global, limits: &Limits, board: &mut Board) -> Result<bool, OutOfMemory>
    requires idle { IsIdle board.old }
    requires plain { All (λ k. IsPlain k.1) (listed board.old.state) }
    requires room { weight board.old ≤ 3999999999 }
    ensures decided { IfOk result (λ more. MatchBool more
        (DecidesOne (editing limits.now) board.old.history board.new.history)
        (board.new.history ≡ board.old.history ++ entry editor claim settled ∷ [])) }
    ensures left { IfOk result (λ more. MatchBool more
        (undecided board.new.state < undecided board.old.state)
        (undecided board.new.state ≡ 0)) }
    ensures grown { weight board.new ≤ weight board.old + 2 }
    ensures no_heavier { IfOk result (λ more. MatchBool more
        (weight board.new ≤ weight board.old)
        (weight board.new ≡ weight board.old + 1)) }
    ensures idle { IsIdle board.new }
    ensures same { KeepsKeys board.old.state board.new.state }
    ensures begun { OnErr result (GivesUp (editing limits.now) board.old.history board.new.history) }
{
    problems_are_compared();
    equal_problems_agree();
    board.know();
    reserve(board)?;
    match board.claim(EDITOR) {
        Claimed::Work(ticket) => {
            decide(alloc, limits, board, ticket)?;
            Ok(true)
        }
        Claimed::Settled => Ok(false),
        Claimed::Busy(_) => unreachable!(),
        Claimed::Over => unreachable!(),
    }
}

/// Decides every key, and finds that each is.
pub fn settle(alloc: Global, limits: &Limits, board: &mut Board) -> Result<(), OutOfMemory>
    requires idle { IsIdle board.old }
    requires plain { All (λ k. IsPlain k.1) (listed board.old.state) }
    requires room { weight board.old ≤ 3999999999 }
    ensures settled { OnOk result (Settles (editing limits.now) board.old.history board.new.history) }
    ensures none { OnOk result (undecided board.new.state ≡ 0) }
    ensures grown { weight board.new ≤ weight board.old + 2 }
    ensures idle { IsIdle board.new }
    ensures same { KeepsKeys board.old.state board.new.state }
    ensures begun { OnErr result (SettlesPartly (editing limits.now) board.old.history board.new.history) }
{
    while decide_next(alloc, limits, board)? {}
    Ok(())
}
