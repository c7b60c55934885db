//! The parts of a numbered problem.
//!
//! Integer streams are numbered from 0, and Boolean streams from 0 by themselves. Parts are
//! numbered by their position.

ghost use Rattle.std.specs.Prelude.{◌≡◌, ◌↔◌, IsTrue};

use crate::dependence::{Plan, plan_of};
use ag_base::{List, OutOfMemory};
use std::alloc::Global;
use std::hash::{Hash, Hasher};
use std::marker::Model;

/// A stream times a factor that isn't 0. `before` asks for the stream's value of one instant
/// earlier, which is 0 at the first instant.
#[derive(Clone, Copy, PartialEq, Eq, Hash)]
pub struct RowTerm {
    pub stream: u16,
    pub before: bool,
    pub factor: i64,
}

/// A sum of terms and a constant. The terms rise by stream, and of one stream the one of now
/// stands before the earlier one.
#[derive(PartialEq, Eq, Hash, Drop)]
pub struct Row {
    pub terms: List<RowTerm>,
    pub constant: i64,
}

/// A Boolean term. Operands are the numbers of earlier parts. `Compare` is true where its row is
/// at most 0. `Choice` has the test, the part where it is true, and the part where it isn't.
/// `Arrow` is its first part at the first instant, and its second part from then on.
#[derive(PartialEq, Eq, Hash, Drop)]
pub enum Part {
    Truth(bool),
    Flag { stream: u16, before: bool },
    Compare(Row),
    Not(u16),
    And(u16, u16),
    Or(u16, u16),
    Same(u16, u16),
    Choice(u16, u16, u16),
    Arrow(u16, u16),
}

/// What a stream equals at every instant. `Flag` is for a Boolean stream, the others for integer
/// ones: `Div` and `Mod` are the quotient and the remainder, 0 or more, of the row by `by`.
#[derive(PartialEq, Eq, Hash, Drop)]
pub enum Equation {
    Flag {
        stream: u16,
        part: u16,
    },
    Whole {
        stream: u16,
        row: Row,
    },
    Choice {
        stream: u16,
        part: u16,
        yes: Row,
        no: Row,
    },
    First {
        stream: u16,
        first: Row,
        later: Row,
    },
    Div {
        stream: u16,
        row: Row,
        by: i64,
    },
    Mod {
        stream: u16,
        row: Row,
        by: i64,
    },
}

/// A problem before it is looked at: the equations, the parts that hold so far, those that hold
/// before the last instant, and the claim. Without a claim, runs of `length` instants are sought;
/// with one, `length` is 0.
#[derive(PartialEq, Eq, Hash, Drop)]
pub struct ProblemDraft {
    pub ints: u16,
    pub flags: u16,
    pub parts: List<Part>,
    pub equations: List<Equation>,
    pub so_far: List<u16>,
    pub earlier: List<u16>,
    pub claim: Option<u16>,
    pub length: u32,
}

/// Why a draft is no problem.
#[derive(Clone, Copy)]
pub enum ProblemFault {
    /// The first stream that depends on itself at one instant. A Boolean stream's number counts on
    /// from the integer ones.
    Cycle(u16),
    OutOfMemory,
}

impl From<OutOfMemory> for ProblemFault {
    ghost use Rattle.ag_stream.specs.declared.problem.ProblemFault.{ProblemFault};
    ghost use Rattle.ag_stream.specs.declared.problem.ProblemFault.TheVariants as faults;

    ghost from_gives = { λ _ fault. fault ≡ faults.OutOfMemory };

    fn from(_e: OutOfMemory) -> ProblemFault {
        ProblemFault::OutOfMemory
    }
}

/// A problem that is well formed and in which no stream depends on itself at one instant.
#[derive(Drop)]
pub struct Problem {
    draft: ProblemDraft,
    // the equations by number, none of which names a stream of itself or of one behind it
    order: Vec<usize>,
}

impl Model for Problem {
    ghost use Rattle.ag_stream.specs.declared.problem.ProblemDraft.{ProblemDraft};
    ghost use Rattle.ag_stream.specs.Work.{IsMade};

    ghost Value = { ProblemDraft };

    ghost view = { λ p. p.draft };

    ghost invariant = { λ p. IsMade p.draft p.order.items };
}

impl Problem {
    ghost use Rattle.std.specs.Prelude.{IfOk, OnOk, ℕ};
    ghost use Rattle.ag_stream.specs.Forms.{IsWellFormed, IsPlain};
    ghost use Rattle.ag_stream.specs.Dependence.{HasNoCycle, IsFirstOnCycle};
    ghost use Rattle.ag_stream.specs.Work.{IsOrder};

    /// Looks for streams that depend on themselves, in one pass over the parts where the equations
    /// stand in order of dependence.
    pub fn make(alloc: Global, draft: ProblemDraft) -> Result<Problem, ProblemFault>
        requires formed { IsWellFormed draft }
        requires plain { IsPlain draft }
        ensures ok { IfOk result (λ p. p ≡ draft) }
        ensures acyclic { OnOk result (HasNoCycle draft) }
        ensures cycle { (s : ℕ) → result ≡ Err (ProblemFault.Cycle s) → IsFirstOnCycle draft s }
    {
        match plan_of(alloc, &draft)? {
            Plan::Order(order) => Ok(Problem { draft, order }),
            Plan::Cycle(flag) => Err(ProblemFault::Cycle(draft.ints + flag)),
        }
    }

    /// The problem's streams, parts and equations.
    pub fn draft(&self) -> &ProblemDraft
        ensures { result.now ≡ self.now }
    {
        &self.draft
    }

    /// Tells what holds of every problem.
    pub fn know(&self)
        ensures formed { IsWellFormed self.now }
        ensures acyclic { HasNoCycle self.now }
    {
        let _ = &self.draft;
    }

    /// The equations by number, in an order of dependence.
    pub(crate) fn order(&self) -> &[usize]
        ensures { IsOrder self.now result.now }
    {
        self.order.as_slice()
    }
}

/// What the streams are at one instant.
#[derive(Drop)]
pub struct Instant {
    pub whole: List<i64>,
    pub flags: List<bool>,
}

/// Instants one after another, from the first one on.
#[derive(Drop)]
pub struct Run {
    pub instants: List<Instant>,
}

/// Instants one after another, behind a prior one or from the first one on.
#[derive(Drop)]
pub struct Window {
    pub prior: Option<Instant>,
    pub run: Run,
}

impl PartialEq for Problem {
    ghost use Rattle.ag_stream.specs.contracts.problem.ProblemDraftPartialEq.TheImpl as drafts;
    ghost use Rattle.ag_stream.specs.contracts.problem.ProblemDraftPartialEq.TheImpl.Laws as draft_laws;

    ghost eq = { drafts.eq-value.it };

    ghost laws = { draft_laws.laws-law };

    fn eq(&self, other: &Problem) -> bool {
        self.draft() == other.draft()
    }
}

impl Eq for Problem {
    ghost use Rattle.ag_stream.specs.contracts.problem.ProblemDraftEq.TheImpl.Laws as draft_laws;

    ghost laws = { draft_laws.laws-law };
}

impl Hash for Problem {
    ghost use Rattle.ag_stream.specs.contracts.problem.ProblemDraftHash.TheImpl as drafts;
    ghost use Rattle.ag_stream.specs.contracts.problem.ProblemDraftHash.TheImpl.Laws as draft_laws;

    ghost hash_input = { drafts.hash_input-value.it };

    ghost respects_eq = { draft_laws.respects_eq-law };

    fn hash<H: Hasher>(&self, state: &mut H) {
        self.draft().hash(state)
    }
}

/// Whether two problems are the same: what `==` of them tells, as a fact about their content.
pub fn same_problem(a: &Problem, b: &Problem) -> bool
    ensures { IsTrue result ↔ (a.now ≡ b.now) }
{
    a.draft() == b.draft()
}
