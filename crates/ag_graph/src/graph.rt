//! A graph whose vertices are numbered from 0.
ghost use Rattle.std.specs.Prelude.{◌≡◌, ◌<◌, ◌++◌, ◌∷◌, [], length, slice_index_or, OnOk, OnErr, ◌==◌};
ghost use Rattle.ag_graph.specs.Edges.{with_edge};

use ag_base::OutOfMemory;
use std::alloc::Global;
use std::marker::Model;

/// A directed graph: for each vertex, in order, the vertices that it leads to.
#[derive(Drop)]
pub struct Graph {
    /// Those of all vertices, one vertex after another.
    targets: Vec<usize>,
    /// For each vertex the place where its own begin.
    starts: Vec<usize>,
}

impl Model for Graph {
    ghost use Rattle.std.specs.Prelude.{List, ℕ};
    ghost use Rattle.ag_graph.specs.Edges.{cut_at, AreStarts};

    ghost Value = { List (List ℕ) };

    ghost view = { λ g. cut_at g.targets.items g.starts.items };

    ghost invariant = { λ g. AreStarts g.targets.items g.starts.items };
}

impl Graph {
    /// The graph without vertices, which takes no memory.
    pub fn new(alloc: Global) -> Graph
        ensures { result ≡ [] }
    {
        Graph {
            targets: Vec::new(alloc),
            starts: Vec::new(alloc),
        }
    }

    /// Adds a vertex that leads nowhere.
    pub fn push_vertex(&mut self) -> Result<(), OutOfMemory>
        ensures ok { OnOk result (self.new ≡ self.old ++ [] ∷ []) }
        ensures err { OnErr result (self.new ≡ self.old) }
    {
        self.starts.push(self.targets.len())?;
        Ok(())
    }

    /// Lets the last vertex lead to one vertex more, which may be added later.
    pub fn push_edge(&mut self, to: usize) -> Result<(), OutOfMemory>
        requires { 0 < length self.old }
        ensures ok { OnOk result (self.new ≡ with_edge self.old to) }
        ensures err { OnErr result (self.new ≡ self.old) }
    {
        self.targets.push(to)?;
        Ok(())
    }

    /// How many vertices there are.
    pub fn len(&self) -> usize
        ensures { result ≡ length self.now }
    {
        self.starts.len()
    }

    /// Whether there are none.
    pub fn is_empty(&self) -> bool
        ensures { result ≡ (length self.now == 0) }
    {
        self.starts.is_empty()
    }

    /// The vertices that this one leads to.
    pub fn targets(&self, vertex: usize) -> &[usize]
        requires { vertex < length self.now }
        ensures { result.now ≡ slice_index_or self.now vertex [] }
    {
        let start = self.starts[vertex];
        let next = self.starts.get(vertex + 1).copied();
        &self.targets[start..next.unwrap_or(self.targets.len())]
    }
}
