//! The commands of a session: each is answered, and its reply written before the next command.
ghost use Rattle.std.specs.Prelude.{◌≡◌, ◌+◌, ◌≤◌, None, IfOk, OnOk, All, length};
ghost use Rattle.ag_small.specs.Rules.{IsWellFormed};
ghost use Rattle.ag_small.specs.Numbered.{obligations_of};
ghost use Rattle.ag_board.specs.Entries.{plain_list};
ghost use Rattle.ag_board.specs.Store.{empty};
ghost use Rattle.ag_top.specs.declared.command.Command.TheVariants.{Publish, Settle, Report, Close};
ghost use Rattle.ag_top.specs.Commands.{check, closed_text, pairs_of, starting, progress_after};
ghost use Rattle.ag_top.specs.Keeping.{weight};
ghost use Rattle.ag_top.specs.Stages.{Served, ServedAll, Writes, CountsFault};
ghost use Rattle.ag_top.specs.Sessions.{IsAfter, IsDue, IsOpen, IsSameModel, IsShut, output, progress_of, setting_of};

use crate::command::{CHECK, Command};
use crate::cut::Cut;
use crate::say::say;
use crate::session::Session;
use crate::settle::{EDITOR, reserve, settle};
use ag_base::{Bytes, List, OutOfMemory, Sink};
use ag_board::{PublishFault, ReserveFault, Tally, verdicts_are_true};
use ag_report::{closed_line, published_line, report_text, settled_line};
use ag_small::{Package, obligations, obligations_are_fit};
use ag_stream::Problem;
use ag_verdict::{Key, Obligation};
use std::alloc::Global;
use std::sync::Arc;

/// The obligations of a package as a list of keys and shared problems.
fn shared_list(
    alloc: Global,
    package: &Package,
    consistency: u32,
) -> Result<List<(Key, Arc<Problem>)>, OutOfMemory>
    requires kept { IsWellFormed «package».now }
    requires some { 1 ≤ consistency }
    requires few { consistency ≤ 30 }
    ensures listed { IfOk result (λ list. plain_list list ≡ pairs_of (obligations_of «package».now consistency)) }
    ensures few_parts { IfOk result (λ list. All (λ k. length k.1.parts ≤ 16384) (plain_list list)) }
{
    let mut list = List::new(alloc);
    for obligation in obligations(alloc, package, consistency)?.into_vec() {
        let Obligation { key, problem, .. } = obligation;
        problem.know();
        list.push((key, Arc::new(alloc, problem)?))?;
    }
    Ok(list)
}

/// Writes a reply.
fn reply<K: Sink>(sink: &mut K, text: &[u8]) -> Result<(), Cut>
    ensures handed { Writes text.now result (K.written sink.old) (K.written sink.new) }
    ensures counts { CountsFault result (K.faults sink.old) (K.faults sink.new) }
{
    match say(sink, text) {
        Ok(()) => Ok(()),
        Err(_) => Err(Cut::Write),
    }
}

/// The package's obligations become the first revision, which no limit of the store refuses.
fn publish<K: Sink>(alloc: Global, session: &mut Session, sink: &mut K) -> Result<(), Cut>
    requires first { session.old.board ≡ empty }
    ensures served { Served (setting_of session.old) (progress_of session.old) Publish result
        (output session.old (K.written sink.old)) (output session.new (K.written sink.new)) }
    ensures counts { CountsFault result (K.faults sink.old) (K.faults sink.new) }
    ensures open { OnOk result (IsOpen session.new) }
    ensures went { OnOk result (progress_of session.new ≡ progress_after (progress_of session.old) Publish) }
    ensures grown { weight session.new.board ≤ 2049 }
    ensures same { IsSameModel session.old session.new }
{
    obligations_are_fit();
    let Ok(list) = shared_list(alloc, &session.model, session.limits.consistency) else {
        return Err(Cut::Memory);
    };
    let accepted = match session.board.publish(EDITOR, list) {
        Ok(accepted) => accepted,
        Err(PublishFault::OutOfMemory) => return Err(Cut::Memory),
        Err(PublishFault::Closed) => unreachable!(),
        Err(PublishFault::TooManyRevisions) => unreachable!(),
        Err(PublishFault::StoreFull) => unreachable!(),
        Err(PublishFault::HistoryFull) => unreachable!(),
    };
    let cancelled = accepted.cancelled.len() as u32;
    let Ok(text) = published_line(
        alloc,
        accepted.revision,
        accepted.count,
        accepted.carried,
        cancelled,
    ) else {
        return Err(Cut::Memory);
    };
    reply(sink, text.as_slice())
}

/// Decides every key, and says so.
fn settle_all<K: Sink>(alloc: Global, session: &mut Session, sink: &mut K) -> Result<(), Cut>
    requires due { IsOpen session.old }
    requires room { weight session.old.board ≤ 3999999990 }
    ensures served { Served (setting_of session.old) (progress_of session.old) Settle result
        (output session.old (K.written sink.old)) (output session.new (K.written sink.new)) }
    ensures counts { CountsFault result (K.faults sink.old) (K.faults sink.new) }
    ensures open { OnOk result (IsOpen session.new) }
    ensures went { OnOk result (progress_of session.new ≡ progress_of session.old) }
    ensures grown { weight session.new.board ≤ weight session.old.board + 2 }
    ensures same { IsSameModel session.old session.new }
{
    obligations_are_fit();
    let Ok(()) = settle(alloc, &session.limits, &mut session.board) else {
        return Err(Cut::Memory);
    };
    let Ok(text) = settled_line(alloc, session.board.revision()) else {
        return Err(Cut::Memory);
    };
    reply(sink, text.as_slice())
}

/// Tells each key with its verdict or none.
fn tell_report<K: Sink>(alloc: Global, session: &mut Session, sink: &mut K) -> Result<(), Cut>
    requires due { IsOpen session.old }
    requires room { weight session.old.board ≤ 3999999990 }
    ensures served { Served (setting_of session.old) (progress_of session.old) Report result
        (output session.old (K.written sink.old)) (output session.new (K.written sink.new)) }
    ensures counts { CountsFault result (K.faults sink.old) (K.faults sink.new) }
    ensures open { OnOk result (IsOpen session.new) }
    ensures went { OnOk result (progress_of session.new ≡ progress_of session.old) }
    ensures grown { weight session.new.board ≤ weight session.old.board + 1 }
    ensures same { IsSameModel session.old session.new }
{
    verdicts_are_true();
    session.board.know();
    let report = match session.board.report(EDITOR) {
        Ok(report) => report,
        Err(ReserveFault::OutOfMemory) => return Err(Cut::Memory),
        Err(ReserveFault::HistoryFull) => unreachable!(),
    };
    let sought = session.limits.consistency;
    let lines = report.lines.as_slice();
    let Ok(text) = report_text(alloc, &session.model, report.revision, sought, lines) else {
        return Err(Cut::Memory);
    };
    reply(sink, text.as_slice())
}

/// Decides what is undecided, and closes the board.
fn close<K: Sink>(alloc: Global, session: &mut Session, sink: &mut K) -> Result<Tally, Cut>
    requires due { IsOpen session.old }
    requires room { weight session.old.board ≤ 3999999990 }
    ensures served { Served (setting_of session.old) (progress_of session.old) Close result
        (output session.old (K.written sink.old)) (output session.new (K.written sink.new)) }
    ensures counts { CountsFault result (K.faults sink.old) (K.faults sink.new) }
    ensures shut { IfOk result (IsShut session.new) }
    ensures grown { weight session.new.board ≤ weight session.old.board + 3 }
    ensures same { IsSameModel session.old session.new }
{
    obligations_are_fit();
    let Ok(()) = settle(alloc, &session.limits, &mut session.board) else {
        return Err(Cut::Memory);
    };
    let Ok(()) = reserve(&mut session.board) else {
        return Err(Cut::Memory);
    };
    let Ok(tally) = session.board.close(EDITOR) else {
        unreachable!()
    };
    let Ok(text) = tally_line(alloc, tally) else {
        return Err(Cut::Memory);
    };
    match reply(sink, text.as_slice()) {
        Ok(()) => Ok(tally),
        Err(cut) => Err(cut),
    }
}

/// The line of a close.
fn tally_line(alloc: Global, tally: Tally) -> Result<Bytes, OutOfMemory>
    ensures { IfOk result (λ text. text ≡ closed_text tally) }
{
    closed_line(
        alloc,
        tally.revision,
        tally.proved,
        tally.refuted,
        tally.consistent,
        tally.inconsistent,
        tally.unknown,
    )
}

/// Answers a command. The tally is that of a close.
fn serve<K: Sink>(
    alloc: Global,
    session: &mut Session,
    command: Command,
    sink: &mut K,
) -> Result<Option<Tally>, Cut>
    requires due { IsDue command session.old }
    requires room { weight session.old.board ≤ 3999999990 }
    ensures served { Served (setting_of session.old) (progress_of session.old) command result
        (output session.old (K.written sink.old)) (output session.new (K.written sink.new)) }
    ensures counts { CountsFault result (K.faults sink.old) (K.faults sink.new) }
    ensures after { IfOk result (IsAfter command session.new) }
    ensures went { IfOk result (λ t.
        t ≡ None → progress_of session.new ≡ progress_after (progress_of session.old) command) }
    ensures grown { weight session.new.board ≤ weight session.old.board + 2049 }
    ensures same { IsSameModel session.old session.new }
{
    match command {
        Command::Publish => publish(alloc, session, sink)?,
        Command::Settle => settle_all(alloc, session, sink)?,
        Command::Report => tell_report(alloc, session, sink)?,
        Command::Close => return Ok(Some(close(alloc, session, sink)?)),
    }
    Ok(None)
}

/// Answers the commands of a check.
pub fn serve_check<K: Sink>(
    alloc: Global,
    session: &mut Session,
    sink: &mut K,
) -> Result<Tally, Cut>
    requires first { session.old.board ≡ empty }
    ensures served { ServedAll (setting_of session.old) (starting session.old.model) check result
        (output session.old (K.written sink.old)) (output session.new (K.written sink.new)) }
    ensures counts { CountsFault result (K.faults sink.old) (K.faults sink.new) }
    ensures shut { IfOk result (IsShut session.new) }
    ensures same { IsSameModel session.old session.new }
{
    for command in CHECK {
        match serve(alloc, session, command, sink) {
            Ok(None) => {}
            Ok(Some(tally)) => return Ok(tally),
            Err(cut) => return Err(cut),
        }
    }
    unreachable!()
}
