//! Calls of the verdict store, their replies, and the entries that they make.
ghost use Rattle.std.specs.Prelude.{◌≡◌, IfOk};
ghost use Rattle.std.specs.Option.{option_map};
ghost use Rattle.ag_board.specs.Entries.{plain_call, plain_reply, plain_list, plain_lines};

use ag_base::{List, OutOfMemory};
use ag_stream::Problem;
use ag_verdict::{Key, Verdict};
use std::alloc::{AllocError, Global};
use std::sync::Arc;
use thiserror::Error;

/// A call of the store. A claim is named by its number, from 1 in the order of the history.
#[derive(Drop)]
pub enum Call {
    Publish(List<(Key, Arc<Problem>)>),
    Claim,
    Post { claim: u64, verdict: Arc<Verdict> },
    GiveBack { claim: u64 },
    Report,
    Close,
    Stop,
}

impl Call {
    /// The same call once more. The texts, problems and verdicts in it aren't copied.
    pub(crate) fn share(&self, alloc: Global) -> Result<Call, OutOfMemory>
        ensures { IfOk result (λ call. plain_call call ≡ plain_call self.now) }
    {
        match self {
            Call::Publish(list) => Ok(Call::Publish(share_list(alloc, list)?)),
            Call::Claim => Ok(Call::Claim),
            Call::Post { claim, verdict } => Ok(Call::Post {
                claim: *claim,
                verdict: Arc::try_clone(verdict)?,
            }),
            Call::GiveBack { claim } => Ok(Call::GiveBack { claim: *claim }),
            Call::Report => Ok(Call::Report),
            Call::Close => Ok(Call::Close),
            Call::Stop => Ok(Call::Stop),
        }
    }
}

/// What the store answered.
#[derive(Drop)]
pub enum Reply {
    Published(Published),
    /// A problem to work on.
    Work {
        claim: u64,
        revision: u32,
        problem: Arc<Problem>,
    },
    /// So many keys are undecided, and all of them are being worked on.
    Busy(u32),
    /// No key is undecided.
    Settled,
    /// The store is closed or stopped.
    Over,
    Posted(Posted),
    GivenBack(GivenBack),
    Report(Report),
    Closed(Tally),
    /// So many keys are undecided, and the store stays open.
    StillOpen(u32),
    Stopped,
}

/// A claim that a revision made needless, and its seat.
#[derive(Clone, Copy, Debug, PartialEq, Eq)]
pub struct Cancelled {
    pub claim: u64,
    pub seat: u32,
}

/// A revision that was accepted: its number from 1, how many keys it has, how many of them had a
/// verdict at once, and the claims that it cancelled.
#[derive(Drop)]
pub struct Published {
    pub revision: u32,
    pub count: u32,
    pub carried: u32,
    pub cancelled: List<Cancelled>,
}

impl Published {
    /// The same answer once more.
    pub(crate) fn share(&self, alloc: Global) -> Result<Published, OutOfMemory>
        ensures { IfOk result (λ p. p ≡ self.now) }
    {
        let mut cancelled = List::new(alloc);
        for claim in self.cancelled.as_slice() {
            cancelled.push(*claim)?;
        }
        Ok(Published {
            revision: self.revision,
            count: self.count,
            carried: self.carried,
            cancelled,
        })
    }
}

/// Whether a verdict was the first of its problem.
#[derive(Clone, Copy, Debug, PartialEq, Eq)]
pub enum Posted {
    Kept,
    Already,
}

/// Whether the last revision still has the problem. `Dead` names that revision.
#[derive(Clone, Copy, Debug, PartialEq, Eq)]
pub enum GivenBack {
    Alive,
    Dead(u32),
}

/// How many verdicts of each kind a revision has.
#[derive(Clone, Copy, Debug, PartialEq, Eq)]
pub struct Tally {
    pub revision: u32,
    pub proved: u32,
    pub refuted: u32,
    pub consistent: u32,
    pub inconsistent: u32,
    pub unknown: u32,
}

/// What is known of each key of a revision, in its list's order.
#[derive(Drop)]
pub struct Report {
    pub revision: u32,
    pub lines: List<(Key, Option<Arc<Verdict>>)>,
}

impl Report {
    /// The same report once more. The texts and verdicts in it aren't copied.
    pub(crate) fn share(&self, alloc: Global) -> Result<Report, OutOfMemory>
        ensures revision { IfOk result (λ r. r.revision ≡ self.now.revision) }
        ensures lines { IfOk result (λ r. plain_lines r.lines ≡ plain_lines self.now.lines) }
    {
        let mut lines = List::new(alloc);
        for (key, verdict) in self.lines.as_slice() {
            lines.push((key.share()?, share_verdict(verdict)?))?;
        }
        Ok(Report {
            revision: self.revision,
            lines,
        })
    }
}

/// A verdict or none once more. It isn't copied.
fn share_verdict(verdict: &Option<Arc<Verdict>>) -> Result<Option<Arc<Verdict>>, OutOfMemory>
    ensures { IfOk result (λ v. option_map (λ a. a.value) v ≡ option_map (λ a. a.value) verdict.now) }
{
    match verdict {
        None => Ok(None),
        Some(verdict) => Ok(Some(Arc::try_clone(verdict)?)),
    }
}

/// The same list once more. Its problems aren't copied.
fn share_list(
    alloc: Global,
    list: &List<(Key, Arc<Problem>)>,
) -> Result<List<(Key, Arc<Problem>)>, OutOfMemory>
    ensures { IfOk result (λ copy. plain_list copy ≡ plain_list list.now) }
{
    let mut copy = List::new(alloc);
    for (key, problem) in list.as_slice() {
        copy.push((key.share()?, Arc::try_clone(problem)?))?;
    }
    Ok(copy)
}

impl Reply {
    /// The same reply once more. The texts, problems and verdicts in it aren't copied.
    pub(crate) fn share(&self, alloc: Global) -> Result<Reply, OutOfMemory>
        ensures { IfOk result (λ reply. plain_reply reply ≡ plain_reply self.now) }
    {
        match self {
            Reply::Published(published) => Ok(Reply::Published(published.share(alloc)?)),
            Reply::Work {
                claim,
                revision,
                problem,
            } => Ok(Reply::Work {
                claim: *claim,
                revision: *revision,
                problem: Arc::try_clone(problem)?,
            }),
            Reply::Busy(undecided) => Ok(Reply::Busy(*undecided)),
            Reply::Settled => Ok(Reply::Settled),
            Reply::Over => Ok(Reply::Over),
            Reply::Posted(posted) => Ok(Reply::Posted(*posted)),
            Reply::GivenBack(given_back) => Ok(Reply::GivenBack(*given_back)),
            Reply::Report(report) => Ok(Reply::Report(report.share(alloc)?)),
            Reply::Closed(tally) => Ok(Reply::Closed(*tally)),
            Reply::StillOpen(undecided) => Ok(Reply::StillOpen(*undecided)),
            Reply::Stopped => Ok(Reply::Stopped),
        }
    }
}

/// A call from a seat, and its reply.
#[derive(Drop)]
pub struct Entry {
    pub seat: u32,
    pub call: Call,
    pub reply: Reply,
}

/// A close that closed nothing, since so many keys of the last revision are undecided.
#[derive(Clone, Copy, Debug, PartialEq, Eq)]
pub struct StillOpen(pub u32);

/// What a claim would be answered now.
#[derive(Clone, Copy, Debug, PartialEq, Eq)]
pub enum Look {
    Work,
    Busy(u32),
    Settled,
    Over,
}

/// Why no place was promised, or no report was made.
#[derive(Clone, Copy, Debug, PartialEq, Eq, Error)]
pub enum ReserveFault {
    /// The history would pass its limit, promised places counted.
    #[error("the history is full")]
    HistoryFull,
    #[error("out of memory")]
    OutOfMemory,
}

/// Why a list was refused.
#[derive(Clone, Copy, Debug, PartialEq, Eq)]
pub enum PublishFault {
    /// The store is closed or stopped.
    Closed,
    /// There are 10,000 revisions.
    TooManyRevisions,
    /// The keys of all revisions or the parts of all different problems would pass their limit.
    StoreFull,
    /// The history would pass its limit, promised places counted.
    HistoryFull,
    OutOfMemory,
}

impl From<OutOfMemory> for ReserveFault {
    ghost use Rattle.std.specs.Prelude.{◌≡◌};
    ghost use Rattle.ag_board.specs.declared.entry.ReserveFault.TheVariants.{OutOfMemory as Memory};

    ghost from_gives = { λ _ fault. fault ≡ Memory };

    fn from(_e: OutOfMemory) -> ReserveFault {
        ReserveFault::OutOfMemory
    }
}

impl From<AllocError> for ReserveFault {
    ghost use Rattle.std.specs.Prelude.{◌≡◌};
    ghost use Rattle.ag_board.specs.declared.entry.ReserveFault.TheVariants.{OutOfMemory as Memory};

    ghost from_gives = { λ _ fault. fault ≡ Memory };

    fn from(_e: AllocError) -> ReserveFault {
        ReserveFault::OutOfMemory
    }
}

impl From<OutOfMemory> for PublishFault {
    ghost use Rattle.std.specs.Prelude.{◌≡◌};
    ghost use Rattle.ag_board.specs.declared.entry.PublishFault.TheVariants.{OutOfMemory as Memory};

    ghost from_gives = { λ _ fault. fault ≡ Memory };

    fn from(_e: OutOfMemory) -> PublishFault {
        PublishFault::OutOfMemory
    }
}

impl From<AllocError> for PublishFault {
    ghost use Rattle.std.specs.Prelude.{◌≡◌};
    ghost use Rattle.ag_board.specs.declared.entry.PublishFault.TheVariants.{OutOfMemory as Memory};

    ghost from_gives = { λ _ fault. fault ≡ Memory };

    fn from(_e: AllocError) -> PublishFault {
        PublishFault::OutOfMemory
    }
}
