//! The search: a path of groups, each of vertices that lead to each other, grows along the edges.
//!
//! An edge back to the path makes one group of all groups from there on. A last group whose edges are
//! all gone through leads, apart from itself, only to vertices that are finished, and so is finished.
ghost use Rattle.std.specs.Prelude.{◌≡◌, ◌<◌, ◌≤◌, ◌+◌, ◌++◌, ◌∷◌, [], ◌↔◌, ◌⊎◌, ℕ, List, length, drop, IfOk, OnOk, IsTrue, slice_index, slice_index_or, slice_set};
ghost use Rattle.std.specs.List.{All};
ghost use Rattle.ag_graph.specs.declared.search.Group.{Group};
ghost use Rattle.ag_graph.specs.declared.search.Mark.TheVariants.{OnPath, Finished};
ghost use Rattle.ag_graph.specs.Circles.{IsGraph, AreCircles, Leads, Reaches, IsOnCircle};
ghost use Rattle.ag_graph.specs.Search.{IsSearch, IsSeen, IsLast, GoesOn, AreClosed, IsPath, is_unseen, mark_of};

use crate::answer::Circles;
use crate::graph::Graph;
use ag_base::{List, OutOfMemory};
use std::alloc::Global;

/// How far the search is with a vertex.
#[derive(Clone, Copy)]
enum Mark {
    Unseen,
    /// It stands at this place of the path.
    OnPath(usize),
    Finished,
}

/// Vertices of the path that lead to each other. They stand there up to the next group.
#[derive(Clone, Copy)]
struct Group {
    /// The place of its first vertex on the path.
    first: usize,
    /// The place of its first edge among those ahead.
    edges: usize,
}

#[derive(Drop)]
struct Search {
    marks: Vec<Mark>,
    path: Vec<usize>,
    groups: Vec<Group>,
    /// Where the edges of the path lead that are still to be gone through.
    ahead: Vec<usize>,
    on_circle: Vec<bool>,
    /// The finished vertices.
    order: Vec<usize>,
}

impl Search {
    fn new(alloc: Global, graph: &Graph) -> Result<Search, OutOfMemory>
        ensures search { IfOk result (IsSearch graph.now) }
        ensures groups { IfOk result (λ s. s.groups.items ≡ []) }
    {
        let vertices = graph.len();
        Ok(Search {
            marks: vec![in alloc; Mark::Unseen; vertices]?,
            path: Vec::new(alloc),
            groups: Vec::new(alloc),
            ahead: Vec::new(alloc),
            on_circle: vec![in alloc; false; vertices]?,
            order: Vec::new(alloc),
        })
    }

    // Puts a vertex at the end of the path, as a group of its own.
    fn open(&mut self, graph: &Graph, vertex: usize) -> Result<(), OutOfMemory>
        requires vertex { vertex < length graph.now }
        requires search { IsSearch graph.now self.old }
        requires unseen { IsTrue (is_unseen (mark_of self.old.marks.items vertex)) }
        requires reached { (i : ℕ) → i < length self.old.path.items → Reaches graph.now (slice_index self.old.path.items i) vertex }
        ensures goes_on { OnOk result (GoesOn graph.now self.old self.new) }
        ensures seen { OnOk result (IsSeen self.new vertex) }
    {
        let first = self.path.len();
        let edges = self.ahead.len();
        self.groups.push(Group { first, edges })?;
        self.path.push(vertex)?;
        self.ahead.extend_from_slice(graph.targets(vertex))?;
        self.marks[vertex] = Mark::OnPath(first);
        Ok(())
    }

    // Looks at the last edge ahead. One to an unseen vertex stays there, and is looked at once more.
    fn follow(&mut self, graph: &Graph) -> Result<(), OutOfMemory>
        requires graph { IsGraph graph.now }
        requires search { IsSearch graph.now self.old }
        requires some { 0 < length self.old.ahead.items }
        requires last { All (λ g. g.edges < length self.old.ahead.items) self.old.groups.items }
        ensures { OnOk result (GoesOn graph.now self.old self.new) }
    {
        let to = self.ahead[self.ahead.len() - 1];
        match self.marks[to] {
            Mark::Unseen => self.open(graph, to),
            Mark::OnPath(place) => {
                join_from(&mut self.groups, place);
                self.ahead.pop();
                Ok(())
            }
            Mark::Finished => {
                self.ahead.pop();
                Ok(())
            }
        }
    }

    // Whether the vertices of the last group are on a circle: one alone is where it leads to itself.
    fn is_circle(&self, graph: &Graph, first: usize) -> bool
        requires first { first < length self.now.path.items }
        requires vertex { slice_index self.now.path.items first < length graph.now }
        ensures { IsTrue result ↔ ((first + 1 < length self.now.path.items) ⊎ Leads graph.now (slice_index self.now.path.items first) (slice_index self.now.path.items first)) }
    {
        let vertex = self.path[first];
        first + 1 < self.path.len() || graph.targets(vertex).contains(&vertex)
    }

    // Finishes a vertex of the path.
    fn finish(&mut self, place: usize, on_circle: bool) -> Result<(), OutOfMemory>
        requires place { place < length self.old.path.items }
        requires marks { slice_index self.old.path.items place < length self.old.marks.items }
        requires flags { slice_index self.old.path.items place < length self.old.on_circle.items }
        ensures order { OnOk result (self.new.order.items ≡ self.old.order.items ++ slice_index self.old.path.items place ∷ []) }
        ensures marks { OnOk result (self.new.marks.items ≡ slice_set self.old.marks.items (slice_index self.old.path.items place) Finished) }
        ensures flags { OnOk result (self.new.on_circle.items ≡ slice_set self.old.on_circle.items (slice_index self.old.path.items place) on_circle) }
        ensures path { OnOk result (self.new.path.items ≡ self.old.path.items) }
        ensures groups { OnOk result (self.new.groups.items ≡ self.old.groups.items) }
        ensures ahead { OnOk result (self.new.ahead.items ≡ self.old.ahead.items) }
    {
        let vertex = self.path[place];
        self.order.push(vertex)?;
        self.marks[vertex] = Mark::Finished;
        self.on_circle[vertex] = on_circle;
        Ok(())
    }

    // Finishes the vertices of the path from a place on.
    fn finish_from(&mut self, first: usize, on_circle: bool) -> Result<(), OutOfMemory>
        requires first { first ≤ length self.old.path.items }
        requires path { IsPath self.old.marks.items self.old.path.items }
        requires flags { length self.old.on_circle.items ≡ length self.old.marks.items }
        ensures closed { OnOk result (AreClosed first (length self.old.path.items) on_circle self.old self.new) }
        ensures order { OnOk result (self.new.order.items ≡ self.old.order.items ++ drop first self.old.path.items) }
    {
        for place in first..self.path.len() {
            self.finish(place, on_circle)?;
        }
        Ok(())
    }

    // Finishes the last group, which has no edge ahead.
    fn close(&mut self, graph: &Graph, group: Group) -> Result<(), OutOfMemory>
        requires search { IsSearch graph.now self.old }
        requires last { IsLast self.old.groups.items group }
        requires done { length self.old.ahead.items ≤ group.edges }
        ensures { OnOk result (GoesOn graph.now self.old self.new) }
    {
        let on_circle = self.is_circle(graph, group.first);
        self.finish_from(group.first, on_circle)?;
        self.path.truncate(group.first);
        self.groups.pop();
        Ok(())
    }

    fn step(&mut self, graph: &Graph, group: Group) -> Result<(), OutOfMemory>
        requires graph { IsGraph graph.now }
        requires search { IsSearch graph.now self.old }
        requires last { IsLast self.old.groups.items group }
        ensures { OnOk result (GoesOn graph.now self.old self.new) }
    {
        if group.edges < self.ahead.len() {
            self.follow(graph)
        } else {
            self.close(graph, group)
        }
    }

    // Finishes a vertex and all that it reaches.
    fn search_from(&mut self, graph: &Graph, vertex: usize) -> Result<(), OutOfMemory>
        requires graph { IsGraph graph.now }
        requires vertex { vertex < length graph.now }
        requires search { IsSearch graph.now self.old }
        requires groups { self.old.groups.items ≡ [] }
        ensures search { OnOk result (IsSearch graph.now self.new) }
        ensures groups { OnOk result (self.new.groups.items ≡ []) }
        ensures seen { OnOk result (IsSeen self.new vertex) }
        ensures still_seen { OnOk result ((v : ℕ) → IsSeen self.old v → IsSeen self.new v) }
    {
        if !matches!(self.marks[vertex], Mark::Unseen) {
            return Ok(());
        }
        self.open(graph, vertex)?;
        while let Some(group) = self.groups.last().copied() {
            self.step(graph, group)?;
        }
        Ok(())
    }

    fn ended(self) -> Circles
        ensures on_circle { result.on_circle ≡ self.on_circle.items }
        ensures order { result.order ≡ self.order.items }
    {
        let Search {
            marks: _,
            path: _,
            groups: _,
            ahead: _,
            on_circle,
            order,
        } = self;
        Circles {
            on_circle: List::from_vec(on_circle),
            order: List::from_vec(order),
        }
    }
}

// Joins the group of a place with all behind it.
fn join_from(groups: &mut Vec<Group>, place: usize)
    ensures joined { (off : List Group) × (groups.old.items ≡ groups.new.items ++ off) × All (λ g. place < g.first) off }
    ensures last { (g : Group) → IsLast groups.new.items g → g.first ≤ place }
{
    while let Some(group) = groups.last() {
        if group.first <= place {
            return;
        }
        groups.pop();
    }
}

/// Which vertices lead back to themselves, in time and memory in proportion to vertices and edges.
pub fn circles(alloc: Global, graph: &Graph) -> Result<Circles, OutOfMemory>
    requires { IsGraph graph.now }
    ensures { IfOk result (λ c. AreCircles graph.now c.on_circle c.order) }
{
    let mut search = Search::new(alloc, graph)?;
    for vertex in 0..graph.len() {
        search.search_from(graph, vertex)?;
    }
    Ok(search.ended())
}
