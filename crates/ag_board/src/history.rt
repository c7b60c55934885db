//! Entries in order, as they stand in memory: each problem and verdict once.
ghost use Rattle.std.specs.Prelude.{◌≡◌, ◌+◌, ◌-◌, ◌<◌, ◌≤◌, ◌++◌, ◌∷◌, [], IfOk, OnOk, OnErr, length, slice_get, Some, nat_lt};
ghost use Rattle.std.specs.Option.{option_map};
ghost use Rattle.ag_board.specs.Entries.{claim as claim_call, work, plain_call, plain_reply, plain_entry, plain_list};
ghost use Rattle.ag_board.specs.Notes.{list_of, noted_call, verdict_posted, listed_in, posted_in, problem_in, with_entry, with_spare};
ghost use Rattle.ag_board.specs.Store.{entry, most_places};

use crate::entry::{Call, Entry, Reply};
use crate::note::{Note, Noted};
use ag_base::OutOfMemory;
use ag_stream::Problem;
use ag_verdict::{Key, Verdict};
use std::alloc::Global;
use std::marker::Model;
use std::sync::Arc;

/// The most entries of a history, promised places counted.
pub const MOST_PLACES: u32 = 4_294_967_295;

/// Entries in order, and how many places are promised for further ones. An entry on a promised
/// place takes no memory.
#[derive(Drop)]
pub struct History {
    alloc: Global,
    notes: Vec<Note>,
    spare: u32,
}

impl Model for History {
    ghost use Rattle.std.specs.Prelude.{◌+◌, ◌≤◌, vec_len, vec_capacity};
    ghost use Rattle.ag_board.specs.Entries.{Past};
    ghost use Rattle.ag_board.specs.Notes.{IsNoted, plain_notes};

    ghost Value = { Past };

    ghost view = { λ h. record { entries = plain_notes h.notes.items; spare = h.spare } };

    ghost invariant = { λ h. IsNoted h.notes.items h.spare (vec_capacity h.notes) };
}

impl History {
    /// A history without entries, which takes no memory.
    pub fn new(alloc: Global) -> History
        ensures { result ≡ record { entries = []; spare = 0 } }
    {
        History {
            alloc,
            notes: Vec::new(alloc),
            spare: 0,
        }
    }

    /// How many entries there are.
    #[tactic(auto, using(crate::proofs::Rules::past_rules))]
    pub fn len(&self) -> u32
        ensures { result ≡ length self.now.entries }
    {
        self.notes.len() as u32
    }

    /// The entry at a position, counted from 0. Its problems, texts and verdicts aren't copied.
    pub fn entry(&self, n: u32) -> Result<Entry, OutOfMemory>
        requires { n < length self.now.entries }
        ensures { IfOk result (λ e. slice_get self.now.entries n ≡ Some (plain_entry e)) }
    {
        let note = &self.notes.as_slice()[n as usize];
        match &note.noted {
            Noted::Work {
                claim,
                revision,
                list,
                place,
            } => {
                let (_, problem) = &self.list_at(*list)[*place as usize];
                Ok(Entry {
                    seat: note.seat,
                    call: Call::Claim,
                    reply: Reply::Work {
                        claim: *claim,
                        revision: *revision,
                        problem: Arc::try_clone(problem)?,
                    },
                })
            }
            Noted::Whole(call, reply) => Ok(Entry {
                seat: note.seat,
                call: call.share(self.alloc)?,
                reply: reply.share(self.alloc)?,
            }),
        }
    }

    /// How many places are promised.
    pub(crate) fn spare(&self) -> u32
        ensures { result ≡ self.now.spare }
    {
        self.spare
    }

    /// Whether so many more places would pass the limit.
    #[tactic(auto, using(crate::proofs::Rules::past_rules))]
    pub(crate) fn is_full(&self, more: u32) -> bool
        requires { more ≤ 2 }
        ensures { result ≡ nat_lt most_places (length self.now.entries + self.now.spare + more) }
    {
        self.notes.len() as u64 + self.spare as u64 + more as u64 > MOST_PLACES as u64
    }

    /// Promises so many places, for which there is room.
    #[tactic(auto, using(crate::proofs::Rules::past_rules))]
    pub(crate) fn promise(&mut self, more: u32) -> Result<(), OutOfMemory>
        requires room { length self.old.entries + self.old.spare + more ≤ most_places }
        ensures ok { OnOk result (self.new ≡ with_spare self.old (self.old.spare + more)) }
        ensures err { OnErr result (self.new ≡ self.old) }
    {
        let spare = self.spare + more;
        self.notes.reserve(spare as usize)?;
        self.spare = spare;
        Ok(())
    }

    /// Puts an entry on a promised place.
    #[tactic(auto, using(crate::proofs::Rules::past_rules))]
    pub(crate) fn put(&mut self, seat: u32, call: Call, reply: Reply)
        requires { 0 < self.old.spare }
        ensures { self.new ≡ with_entry self.old (entry seat (plain_call call) (plain_reply reply)) }
    {
        self.notes.push_reserved(Note {
            seat,
            noted: Noted::Whole(call, reply),
        });
        self.spare -= 1;
    }

    /// Puts an entry on the first of so many promised places, and gives the others up.
    pub(crate) fn put_for(&mut self, places: u32, seat: u32, call: Call, reply: Reply)
        requires some { 0 < places }
        requires promised { places ≤ self.old.spare }
        ensures entries { self.new.entries ≡ self.old.entries ++ entry seat (plain_call call) (plain_reply reply) ∷ [] }
        ensures spare { self.new.spare ≡ self.old.spare - places }
    {
        self.put(seat, call, reply);
        self.spare -= places - 1;
    }

    /// Puts a claim that is answered by work on a promised place. The problem is the one at that place
    /// of the list that the entry at `list` published.
    #[tactic(auto, using(crate::proofs::Rules::past_rules))]
    pub(crate) fn put_work(
        &mut self,
        seat: u32,
        claim: u64,
        revision: u32,
        list: u32,
        place: u32,
        problem: &Arc<Problem>,
    )
        requires promised { 0 < self.old.spare }
        requires listed { problem_in self.old.entries list place ≡ Some problem.now.value }
        ensures { self.new ≡ with_entry self.old (entry seat claim_call (work claim revision problem.now.value)) }
    {
        let _ = problem;
        self.notes.push_reserved(Note {
            seat,
            noted: Noted::Work {
                claim,
                revision,
                list,
                place,
            },
        });
        self.spare -= 1;
    }

    /// The list that the entry at a position published. Any other entry has none.
    #[tactic(auto, using(crate::proofs::Rules::past_rules))]
    pub(crate) fn list_at(&self, n: u32) -> &[(Key, Arc<Problem>)]
        ensures { plain_list result.now ≡ listed_in self.now.entries n }
    {
        let notes = self.notes.as_slice();
        if (n as usize) < notes.len() {
            listed(&notes[n as usize].noted)
        } else {
            &[]
        }
    }

    /// The verdict that the entry at a position posted, if it is a post.
    #[tactic(auto, using(crate::proofs::Rules::past_rules))]
    pub(crate) fn verdict_at(&self, n: u32) -> Option<&Arc<Verdict>>
        ensures { option_map (λ v. v.now.value) result ≡ posted_in self.now.entries n }
    {
        let notes = self.notes.as_slice();
        if (n as usize) < notes.len() {
            posted(&notes[n as usize].noted)
        } else {
            None
        }
    }
}

/// The list that an entry published, or none.
fn listed(noted: &Noted) -> &[(Key, Arc<Problem>)]
    ensures { plain_list result.now ≡ list_of (noted_call noted.now) }
{
    match noted {
        Noted::Whole(Call::Publish(list), _) => list.as_slice(),
        Noted::Work { .. } | Noted::Whole(_, _) => &[],
    }
}

/// The verdict that an entry posted, if it is a post.
fn posted(noted: &Noted) -> Option<&Arc<Verdict>>
    ensures { option_map (λ v. v.now.value) result ≡ verdict_posted (noted_call noted.now) }
{
    match noted {
        Noted::Whole(Call::Post { verdict, .. }, _) => Some(verdict),
        Noted::Work { .. } | Noted::Whole(_, _) => None,
    }
}
