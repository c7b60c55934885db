//! Edges by the vertex that they begin at.
ghost use Rattle.std.specs.Prelude.{◌≡◌, ◌<◌, ◌≤◌, All, IfOk, IfSome, length};
ghost use Rattle.ag_diff.specs.Edges.{IsWithin};

use crate::edges::Edge;
use ag_base::OutOfMemory;
use std::alloc::Global;
use std::marker::Model;

/// For each vertex the last edge that begins there, and for each edge the one before it that begins
/// at the same vertex. Edges are named by their places in a list.
#[derive(Drop)]
pub struct Fan {
    last: Vec<Option<usize>>,
    before: Vec<Option<usize>>,
}

impl Model for Fan {
    ghost use Rattle.std.specs.Prelude.{length};
    ghost use Rattle.ag_diff.specs.Fans.{Counts, AreBelow, AreBefore};

    ghost Value = { Counts };

    ghost view = { λ f. record { vertices = length f.last.items; edges = length f.before.items } };

    ghost invariant = { λ f. AreBelow (length f.before.items) f.last.items × AreBefore f.before.items };
}

impl Fan {
    /// The edges between so many vertices.
    pub fn group(alloc: Global, edges: &[Edge], vertices: usize) -> Result<Fan, OutOfMemory>
        requires { All (IsWithin vertices) edges.now }
        ensures { IfOk result (λ f. f ≡ record { vertices = vertices; edges = length edges.now }) }
    {
        let mut last = vec![in alloc; None; vertices]?;
        let mut before = Vec::new(alloc);
        for (place, edge) in edges.iter().enumerate() {
            before.push(last[edge.from as usize])?;
            last[edge.from as usize] = Some(place);
        }
        Ok(Fan { last, before })
    }

    /// The place of the last edge that begins at the vertex.
    pub fn last(&self, vertex: u32) -> Option<usize>
        requires { vertex < self.now.vertices }
        ensures { IfSome result (λ i. i < self.now.edges) }
    {
        self.last[vertex as usize]
    }

    /// The place of the edge before this one that begins at the same vertex.
    pub fn before(&self, place: usize) -> Option<usize>
        requires { place < self.now.edges }
        ensures { IfSome result (λ i. i < place) }
    {
        self.before[place]
    }
}
