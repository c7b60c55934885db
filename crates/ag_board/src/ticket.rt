//! Tickets: what a claim hands out, and what a post or a give_back takes back.
ghost use Rattle.std.specs.Prelude.{◌≡◌};

use ag_stream::Problem;
use std::marker::Model;
use std::sync::Arc;

/// A claim that is out: its number from 1, the seat that made it, and the problem with the revision
/// under which it was handed out.
#[derive(Drop)]
pub struct Ticket {
    claim: u64,
    seat: u32,
    revision: u32,
    problem: Arc<Problem>,
}

impl Model for Ticket {
    ghost use Rattle.ag_board.specs.Tickets.{Handed};

    ghost Value = { Handed };

    ghost view = { λ t. record { claim = t.claim; seat = t.seat; revision = t.revision; problem = t.problem.value } };

    ghost invariant = { λ t. Unit {0} };
}

impl Ticket {
    pub(crate) fn make(claim: u64, seat: u32, revision: u32, problem: Arc<Problem>) -> Ticket
        ensures { result ≡ record { claim = claim; seat = seat; revision = revision; problem = problem.value } }
    {
        Ticket {
            claim,
            seat,
            revision,
            problem,
        }
    }

    /// The claim's number.
    pub fn claim(&self) -> u64
        ensures { result ≡ self.now.claim }
    {
        self.claim
    }

    /// The seat that made the claim.
    pub fn seat(&self) -> u32
        ensures { result ≡ self.now.seat }
    {
        self.seat
    }

    /// The revision under which the problem was handed out.
    pub fn revision(&self) -> u32
        ensures { result ≡ self.now.revision }
    {
        self.revision
    }

    /// The problem, which the ticket shares with the store.
    pub fn problem(&self) -> &Arc<Problem>
        ensures { result.now.value ≡ self.now.problem }
    {
        &self.problem
    }

    /// The problem's handle, which the store takes back.
    pub(crate) fn into_problem(self) -> Arc<Problem>
        ensures { result.value ≡ self.problem }
    {
        let Ticket { problem, .. } = self;
        problem
    }
}

/// What a claim is answered.
#[derive(Drop)]
pub enum Claimed {
    /// A problem to work on.
    Work(Ticket),
    /// So many keys are undecided, and all of them are being worked on.
    Busy(u32),
    /// No key is undecided.
    Settled,
    /// The store is closed or stopped.
    Over,
}
