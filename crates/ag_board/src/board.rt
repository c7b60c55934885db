//! The store itself.
//!
//! A table has each different problem once, with the entry that posted its verdict, if it has one. A
//! problem's position in the table is its number. Of the last revision the numbers of its keys are kept;
//! every revision's list stands in the history, in the entry that published it.
ghost use Rattle.std.specs.Prelude.{◌≡◌, ◌+◌, ◌≤◌, ◌≢◌, false, IfOk, IfErr, OnOk, OnErr, Some, None, AllPairs, length};
ghost use Rattle.ag_verdict.specs.Verdicts.{IsTrueOf};
ghost use Rattle.ag_board.specs.Entries.{publish as publish_call, claim as claim_call, post as post_call, give_back as give_back_call, report as report_call, close as close_call, stop as stop_call, published, posted, given_back, reported, closed, still_open, stopped, plain_list, plain_lines};
ghost use Rattle.ag_board.specs.Machine.{claim_reply, reply_of, is_over, IsLegal};
ghost use Rattle.ag_board.specs.Store.{IsKept, Enters, HasTwo, IsFull, IsOut, empty, refusal_of};
ghost use Rattle.ag_board.specs.Inside.{find_place};
ghost use Rattle.ag_board.specs.Planned.{IsPlan};
ghost use Rattle.ag_board.specs.Answers.{claimed_reply, places_used, IsHanded, Tells};
ghost use Rattle.ag_board.specs.declared.ticket.Claimed.TheVariants.{Work};
ghost use Rattle.ag_board.specs.declared.entry.ReserveFault.TheVariants as reserve_faults;
ghost use Rattle.ag_board.specs.declared.entry.PublishFault.TheVariants as publish_faults;

use crate::entry::{
    Call, GivenBack, Look, Posted, PublishFault, Published, Reply, Report, ReserveFault, StillOpen,
    Tally,
};
use crate::history::History;
use crate::plan::{Plan, plan_of, retire};
use crate::slot::{Out, Slot};
use crate::table::{
    free_place, has_number, keep_verdict, lend_handle, take_back, take_out, tally_of, undecided,
    verdict_of,
};
use crate::ticket::{Claimed, Ticket};
use ag_base::{List, OutOfMemory};
use ag_stream::Problem;
use ag_verdict::{Key, Verdict};
use indexmap::IndexMap;
use std::alloc::Global;
use std::marker::Model;
use std::sync::Arc;

/// The most revisions.
pub const MOST_REVISIONS: u32 = 10_000;

/// The most pairs of a revision and a key.
pub const MOST_PAIRS: u32 = 1_000_000;

/// The most parts of different problems.
pub const MOST_PARTS: u32 = 16_777_216;

/// Revisions, claims that are out, verdicts, and the history of all that came.
#[derive(Drop)]
pub struct Board {
    alloc: Global,
    table: IndexMap<Arc<Problem>, Slot>,
    // of the last revision's keys, in order
    numbers: Vec<u32>,
    // the position of the entry that published the last revision
    last: u32,
    // none of the last revision's keys in front of it is free
    next: usize,
    revisions: u32,
    pairs: u32,
    parts: u32,
    out: Vec<Out>,
    claims: u64,
    is_closed: bool,
    is_stopped: bool,
    history: History,
}

impl Model for Board {
    ghost use Rattle.std.specs.Prelude.{vec_capacity};
    ghost use Rattle.ag_board.specs.Machine.{start, state_after};
    ghost use Rattle.ag_board.specs.Store.{BoardState};
    ghost use Rattle.ag_board.specs.Inside.{IsPast, IsMarked, IsSized, IsTable, AreOut, IsLast};

    ghost Value = { BoardState };

    ghost view = { λ b. record {
      state = state_after start b.history.entries;
      history = b.history.entries;
      spare = b.history.spare;
    } };

    ghost invariant = { λ b. IsPast b.history (vec_capacity b.out) b.claims
        × IsMarked (state_after start b.history.entries) b.claims b.is_closed b.is_stopped
        × IsSized (state_after start b.history.entries) b.revisions b.pairs b.parts
        × IsTable (state_after start b.history.entries) b.history.entries b.table.entries
        × AreOut (state_after start b.history.entries) b.table.entries b.out.items
        × IsLast (state_after start b.history.entries) b.history.entries b.table.entries
        b.numbers.items b.last b.next };
}

impl Board {
    /// An empty store. One place is promised, the one for a stop.
    pub fn new(alloc: Global) -> Result<Board, OutOfMemory>
        ensures { IfOk result (λ b. b ≡ empty) }
    {
        let mut history = History::new(alloc);
        history.promise(1)?;
        Ok(Board {
            alloc,
            table: IndexMap::new(alloc),
            numbers: Vec::new(alloc),
            last: 0,
            next: 0,
            revisions: 0,
            pairs: 0,
            parts: 0,
            out: Vec::new(alloc),
            claims: 0,
            is_closed: false,
            is_stopped: false,
            history,
        })
    }

    /// The state is the replay of the history, which is legal; the places promised are there; no limit is passed.
    pub fn know(&self)
        ensures { IsKept self.now }
    {
        let _ = &self.history;
    }

    /// Promises two places, for a claim or a close.
    pub fn reserve(&mut self) -> Result<(), ReserveFault>
        ensures ok { OnOk result (self.new ≡ record self.old { spare = self.old.spare + 2 }) }
        ensures room { OnOk result (IsFull self.old 2 → ⊥) }
        ensures full { result ≡ Err reserve_faults.HistoryFull → IsFull self.old 2 }
        ensures err { OnErr result (self.new ≡ self.old) }
    {
        if self.history.is_full(2) {
            return Err(ReserveFault::HistoryFull);
        }
        let tickets = self.history.spare() as usize + 2 - self.out.len();
        self.out.reserve(tickets)?;
        self.history.promise(2)?;
        Ok(())
    }

    /// Accepts a list as the next revision. Where an earlier revision has an equal problem with a verdict,
    /// the new key starts with that verdict, and live claims on problems that the list lacks are
    /// cancelled. A list has at most 1,024 keys, all different. All memory is taken before anything
    /// changes.
    pub fn publish(
        &mut self,
        seat: u32,
        list: List<(Key, Arc<Problem>)>,
    ) -> Result<Published, PublishFault>
        requires few { length list ≤ 1024 }
        requires different { AllPairs (λ a b. a.0 ≢ b.0) list }
        ensures entry { IfOk result (λ r.
            Enters self.old self.new seat (publish_call (plain_list list)) (published r)) }
        ensures accepted { OnOk result (refusal_of self.old (plain_list list) ≡ None) }
        ensures refused { IfErr result (λ fault.
            fault ≢ publish_faults.OutOfMemory → refusal_of self.old (plain_list list) ≡ Some fault) }
        ensures spare { OnOk result (self.new.spare ≡ self.old.spare) }
        ensures err { OnErr result (self.new ≡ self.old) }
    {
        let plan = self.plan(&list)?;
        self.enter_list(seat, plan)
    }

    /// Hands out the first key of the last revision that has no verdict and no live claim on its problem.
    pub fn claim(&mut self, seat: u32) -> Claimed
        requires two { HasTwo self.old }
        ensures entry { Enters self.old self.new seat claim_call (claimed_reply result) }
        ensures handed { IsHanded self.new.state seat result }
        ensures spare { self.new.spare + places_used result ≡ self.old.spare }
    {
        if self.is_closed || self.is_stopped {
            self.history.put_for(2, seat, Call::Claim, Reply::Over);
            return Claimed::Over;
        }
        match free_place(&self.table, self.numbers.as_slice(), self.next) {
            Some(place) => Claimed::Work(self.hand_out(seat, place)),
            None => self.claim_none(seat),
        }
    }

    /// What a claim would be answered now. The history stays as it is.
    pub fn look(&self) -> Look
        ensures { Tells result (claim_reply self.now.state) }
    {
        if self.is_closed || self.is_stopped {
            return Look::Over;
        }
        match free_place(&self.table, self.numbers.as_slice(), self.next) {
            Some(_) => Look::Work,
            None => self.look_none(),
        }
    }

    /// Ends the claim. Where its problem had no verdict, this one goes to every revision and key with an
    /// equal problem.
    pub fn post(&mut self, ticket: Ticket, verdict: Arc<Verdict>) -> Posted
        requires out { IsOut self.old.state ticket }
        requires true_verdict { IsTrueOf ticket.problem verdict.value }
        ensures entry { Enters self.old self.new ticket.seat (post_call ticket.claim verdict.value) (posted result) }
        ensures spare { self.new.spare + 1 ≡ self.old.spare }
    {
        let claim = ticket.claim();
        let seat = ticket.seat();
        let entry = self.history.len();
        let out = take_out(&mut self.out, claim);
        take_back(&mut self.table, out, ticket.into_problem());
        let answer = keep_verdict(&mut self.table, out.problem, entry);
        self.history
            .put(seat, Call::Post { claim, verdict }, Reply::Posted(answer));
        answer
    }

    /// Ends the claim without a verdict, and tells whether the last revision lacks its problem.
    pub fn give_back(&mut self, ticket: Ticket) -> GivenBack
        requires { IsOut self.old.state ticket }
        ensures entry { Enters self.old self.new ticket.seat (give_back_call ticket.claim) (given_back result) }
        ensures spare { self.new.spare + 1 ≡ self.old.spare }
    {
        let claim = ticket.claim();
        let seat = ticket.seat();
        let out = take_out(&mut self.out, claim);
        take_back(&mut self.table, out, ticket.into_problem());
        self.next = 0;
        let answer = if has_number(self.numbers.as_slice(), out.problem) {
            GivenBack::Alive
        } else {
            GivenBack::Dead(self.revisions)
        };
        self.history
            .put(seat, Call::GiveBack { claim }, Reply::GivenBack(answer));
        answer
    }

    /// Tells what is known of each key of the last revision, in its list's order.
    pub fn report(&mut self, seat: u32) -> Result<Report, ReserveFault>
        ensures entry { IfOk result (λ r.
            Enters self.old self.new seat report_call (reported r.revision (plain_lines r.lines))) }
        ensures spare { OnOk result (self.new.spare ≡ self.old.spare) }
        ensures room { OnOk result (IsFull self.old 1 → ⊥) }
        ensures full { result ≡ Err reserve_faults.HistoryFull → IsFull self.old 1 }
        ensures err { OnErr result (self.new ≡ self.old) }
    {
        if self.history.is_full(1) {
            return Err(ReserveFault::HistoryFull);
        }
        let told = self.told()?;
        let entered = told.share(self.alloc)?;
        self.history.promise(1)?;
        self.history.put(seat, Call::Report, Reply::Report(entered));
        Ok(told)
    }

    /// Closes the store where each key of the last revision has its verdict, and counts the verdicts.
    pub fn close(&mut self, seat: u32) -> Result<Tally, StillOpen>
        requires two { HasTwo self.old }
        requires open { is_over self.old.state ≡ false }
        ensures closed { IfOk result (λ t. Enters self.old self.new seat close_call (closed t)) }
        ensures still_open { IfErr result (λ e. Enters self.old self.new seat close_call (still_open e.0)) }
        ensures spare { self.new.spare + 2 ≡ self.old.spare }
    {
        let undecided = undecided(&self.table, self.numbers.as_slice()) as u32;
        if undecided > 0 {
            self.history
                .put_for(2, seat, Call::Close, Reply::StillOpen(undecided));
            return Err(StillOpen(undecided));
        }
        let tally = tally_of(
            &self.table,
            &self.history,
            self.numbers.as_slice(),
            self.revisions,
        );
        self.is_closed = true;
        self.history
            .put_for(2, seat, Call::Close, Reply::Closed(tally));
        Ok(tally)
    }

    /// Stops the store, on the place that was promised for it.
    pub fn stop(&mut self, seat: u32)
        requires { is_over self.old.state ≡ false }
        ensures entry { Enters self.old self.new seat stop_call stopped }
        ensures spare { self.new.spare + 1 ≡ self.old.spare }
    {
        self.is_stopped = true;
        self.history.put(seat, Call::Stop, Reply::Stopped);
    }

    /// How many revisions there are.
    pub fn revision(&self) -> u32
        ensures { result ≡ length self.now.state.revisions }
    {
        self.revisions
    }

    /// The history so far, which is legal.
    pub fn history(&self) -> &History
        ensures entries { result.now.entries ≡ self.now.history }
        ensures legal { IsLegal result.now.entries }
    {
        &self.history
    }

    /// The history of all that came, which is legal, once the store isn't needed any more.
    pub fn into_history(self) -> History
        ensures entries { result.entries ≡ self.history }
        ensures legal { IsLegal result.entries }
    {
        let Board { history, .. } = self;
        history
    }
}

impl Board {
    /// Hands out the problem of the key at a place.
    fn hand_out(&mut self, seat: u32, place: usize) -> Ticket
        requires two { HasTwo self.old }
        requires open { is_over self.old.state ≡ false }
        requires free { find_place self.old.state ≡ Some place }
        ensures entry { Enters self.old self.new seat claim_call (claimed_reply (Work result)) }
        ensures handed { IsHanded self.new.state seat (Work result) }
        ensures spare { self.new.spare + 1 ≡ self.old.spare }
    {
        let problem = self.numbers.as_slice()[place];
        let handle = lend_handle(&mut self.table, problem);
        let claim = self.claims + 1;
        self.claims = claim;
        self.next = place + 1;
        self.history.put_work(
            seat,
            claim,
            self.revisions,
            self.last,
            place as u32,
            &handle,
        );
        self.out.push_reserved(Out {
            claim,
            seat,
            revision: self.revisions,
            problem,
            is_live: true,
        });
        Ticket::make(claim, seat, self.revisions, handle)
    }

    /// Answers a claim for which no key is free.
    fn claim_none(&mut self, seat: u32) -> Claimed
        requires two { HasTwo self.old }
        requires open { is_over self.old.state ≡ false }
        requires none { find_place self.old.state ≡ None }
        ensures entry { Enters self.old self.new seat claim_call (claimed_reply result) }
        ensures handed { IsHanded self.new.state seat result }
        ensures spare { self.new.spare + 2 ≡ self.old.spare }
        ensures used { places_used result ≡ 2 }
    {
        let undecided = undecided(&self.table, self.numbers.as_slice()) as u32;
        if undecided == 0 {
            self.history.put_for(2, seat, Call::Claim, Reply::Settled);
            Claimed::Settled
        } else {
            self.history
                .put_for(2, seat, Call::Claim, Reply::Busy(undecided));
            Claimed::Busy(undecided)
        }
    }

    /// What a claim would be answered, where no key is free.
    fn look_none(&self) -> Look
        requires open { is_over self.now.state ≡ false }
        requires none { find_place self.now.state ≡ None }
        ensures { Tells result (claim_reply self.now.state) }
    {
        let undecided = undecided(&self.table, self.numbers.as_slice()) as u32;
        if undecided == 0 {
            Look::Settled
        } else {
            Look::Busy(undecided)
        }
    }

    /// What is known of each key of the last revision.
    fn told(&self) -> Result<Report, OutOfMemory>
        ensures { IfOk result (λ r. reported r.revision (plain_lines r.lines) ≡ reply_of self.now.state report_call) }
    {
        let mut lines = List::new(self.alloc);
        let keys = self.history.list_at(self.last);
        for place in 0..self.numbers.len() {
            let (key, _) = &keys[place];
            let number = self.numbers.as_slice()[place];
            let verdict = match verdict_of(&self.table, &self.history, number) {
                None => None,
                Some(verdict) => Some(Arc::try_clone(verdict)?),
            };
            lines.push((key.share()?, verdict))?;
        }
        Ok(Report {
            revision: self.revisions,
            lines,
        })
    }

    /// Looks whether a list is refused, and plans it.
    fn plan(&self, list: &List<(Key, Arc<Problem>)>) -> Result<Plan, PublishFault>
        requires few { length list.now ≤ 1024 }
        ensures plan { IfOk result (λ p. IsPlan self.now.state (plain_list list.now) p) }
        ensures accepted { OnOk result (refusal_of self.now (plain_list list.now) ≡ None) }
        ensures refused { IfErr result (λ fault.
            fault ≢ publish_faults.OutOfMemory → refusal_of self.now (plain_list list.now) ≡ Some fault) }
    {
        if self.is_closed || self.is_stopped {
            return Err(PublishFault::Closed);
        }
        if self.revisions >= MOST_REVISIONS {
            return Err(PublishFault::TooManyRevisions);
        }
        if self.pairs + list.len() as u32 > MOST_PAIRS {
            return Err(PublishFault::StoreFull);
        }
        let plan = plan_of(
            self.alloc,
            &self.table,
            self.out.as_slice(),
            list,
            self.revisions + 1,
        )?;
        if plan.parts > MOST_PARTS - self.parts {
            return Err(PublishFault::StoreFull);
        }
        if self.history.is_full(1) {
            return Err(PublishFault::HistoryFull);
        }
        Ok(plan)
    }

    /// Enters a list as it was planned, after the last of its memory is taken.
    fn enter_list(&mut self, seat: u32, plan: Plan) -> Result<Published, PublishFault>
        requires few { length (plain_list plan.shared) ≤ 1024 }
        requires different { AllPairs (λ a b. a.0 ≢ b.0) (plain_list plan.shared) }
        requires planned { IsPlan self.old.state (plain_list plan.shared) plan }
        requires accepted { refusal_of self.old (plain_list plan.shared) ≡ None }
        ensures entry { IfOk result (λ r.
            Enters self.old self.new seat (publish_call (plain_list plan.shared)) (published r)) }
        ensures spare { OnOk result (self.new.spare ≡ self.old.spare) }
        ensures refused { IfErr result (λ fault. fault ≡ publish_faults.OutOfMemory) }
        ensures err { OnErr result (self.new ≡ self.old) }
    {
        self.table.reserve(plan.fresh.len())?;
        self.history.promise(1)?;
        let Plan {
            mut fresh,
            numbers,
            shared,
            handles,
            parts,
            answer,
            entered,
        } = plan;
        self.table.append(&mut fresh).unwrap();
        retire(&mut self.table, &mut self.out, handles);
        self.last = self.history.len();
        self.next = 0;
        self.pairs += numbers.len() as u32;
        self.numbers = numbers;
        self.revisions += 1;
        self.parts += parts;
        self.history
            .put(seat, Call::Publish(shared), Reply::Published(entered));
        Ok(answer)
    }
}
