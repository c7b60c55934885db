//! What is answered of a problem.

use ag_base::List;
use ag_stream::{Run, Window};

/// A query that a proof by induction asks: a run of so many instants that breaks the problem, a
/// forbidden window of so many and one, or a run of the premises.
#[derive(Clone, Copy)]
pub enum Which {
    Base(u32),
    Step(u32),
    Premises(u32),
}

/// A name of a query, at an instant, with its truth. Instant 0 is a window's prior one.
#[derive(Clone, Copy)]
pub struct Literal {
    pub what: u16,
    pub instant: u8,
    pub holds: bool,
}

/// One of the literals holds.
#[derive(Drop)]
pub struct Fact {
    pub literals: List<Literal>,
}

/// Which limit was spent, and what it was spent on.
#[derive(Drop)]
pub enum Why {
    /// The depth: this window of one instant more is still forbidden.
    Depth {
        window: Window,
    },
    /// The facts that were kept while searching.
    Work {
        which: Which,
        facts: List<Fact>,
    },
    /// The truths under which the rows were tried.
    Leaf {
        which: Which,
        literals: List<Literal>,
    },
}

/// An answer to a problem.
#[derive(Drop)]
pub enum Verdict {
    /// The claim holds in every run, by induction over `k` instants and no fewer.
    Proved { k: u32 },
    /// A shortest run in which the claim fails at the last instant.
    Refuted { run: Run },
    /// A run of the premises.
    Consistent { run: Run },
    /// There is no run of the premises.
    Inconsistent,
    /// No run of at most `depth` instants breaks the claim, and a limit was spent.
    Unknown { depth: u32, why: Why },
}
