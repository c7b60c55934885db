//! Vertices that sank, and whose edges are to be looked at again.
ghost use Rattle.std.specs.Prelude.{◌≡◌, ◌+◌, ◌<◌, ◌≤◌, [], IfOk, IfSome, IfNone, length};

use ag_base::OutOfMemory;
use std::alloc::Global;
use std::collections::VecDeque;
use std::marker::Model;

/// How many times fewer vertices sink than there are until a cycle is looked for.
const SHARE: usize = 8;

/// Vertices in the order in which they sank, each once.
#[derive(Drop)]
pub struct Pending {
    queue: VecDeque<u32>,
    queued: Vec<bool>,
    /// How many vertices sank since a cycle was due to be looked for.
    since: usize,
}

impl Model for Pending {
    ghost use Rattle.std.specs.Prelude.{All, ◌<◌, length};
    ghost use Rattle.ag_diff.specs.Waiting.{Queue};

    ghost Value = { Queue };

    ghost view = { λ p. record { count = length p.queued.items; waiting = length p.queue.items } };

    ghost invariant = { λ p. All (λ v. v < length p.queued.items) p.queue.items };
}

impl Pending {
    /// None of so many vertices.
    pub fn new(alloc: Global, count: usize) -> Result<Pending, OutOfMemory>
        ensures { IfOk result (λ p. p ≡ record { count = count; waiting = 0 }) }
    {
        Ok(Pending {
            queue: VecDeque::new(alloc),
            queued: vec![in alloc; false; count]?,
            since: 0,
        })
    }

    /// Whether so many vertices sank that a cycle is to be looked for.
    pub fn is_due(&self) -> bool {
        self.since >= self.queued.len() / SHARE
    }

    /// Puts a vertex that sank at the end, unless it waits.
    pub fn add(&mut self, vertex: u32) -> Result<(), OutOfMemory>
        requires { vertex < self.old.count }
        ensures count { self.new.count ≡ self.old.count }
        ensures waiting { self.new.waiting ≤ self.old.waiting + 1 }
    {
        self.since = if self.is_due() {
            0
        } else {
            self.since.saturating_add(1)
        };
        if !self.queued[vertex as usize] {
            self.queue.push_back(vertex)?;
            self.queued[vertex as usize] = true;
        }
        Ok(())
    }

    /// Takes the vertex that waited longest.
    pub fn next(&mut self) -> Option<u32>
        ensures count { self.new.count ≡ self.old.count }
        ensures some { IfSome result (λ v. (v < self.old.count) × (self.new.waiting + 1 ≡ self.old.waiting)) }
        ensures none { IfNone result (self.new.waiting ≡ self.old.waiting) }
    {
        let vertex = self.queue.pop_front()?;
        self.queued[vertex as usize] = false;
        Some(vertex)
    }
}
