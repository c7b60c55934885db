//! The way up from a vertex, along the edges that vertices sank by. It ends at a vertex that never
//! sank, or comes back to itself: then its edges make a negative cycle.
ghost use Rattle.std.specs.Prelude.{◌≡◌, ◌+◌, ◌<◌, ◌≤◌, ℕ, None, IfOk, drop, MatchOption, All, length};
ghost use Rattle.ag_diff.specs.Cycles.{IsNegativeCycle};
ghost use Rattle.ag_diff.specs.Vertices.{vertex_at, AreVertices};
ghost use Rattle.ag_diff.specs.Climbs.{IsLastCause, IsWayUp, IsClimb, SameButRanks};

use crate::edges::Edge;
use crate::vertices::Vertex;
use ag_base::OutOfMemory;
use std::alloc::Global;

/// What lies above a vertex.
#[derive(Drop)]
pub enum Climb {
    /// A vertex that never sank, and the way to it.
    Top(u32, Vec<Edge>),
    /// Edges that lead back to where they begin.
    Cycle(Vec<Edge>),
}

/// A negative cycle above the vertex. Without one its rank becomes less than the number of vertices.
pub fn find_cycle(
    alloc: Global,
    vertices: &mut [Vertex],
    at: u32,
) -> Result<Option<Vec<Edge>>, OutOfMemory>
    requires size { length vertices.old ≤ 8193 }
    requires there { at < length vertices.old }
    requires vertices { AreVertices vertices.old }
    ensures found { IfOk result (λ found. MatchOption found ((vertex_at vertices.new at).rank < length vertices.new) (λ cycle. IsNegativeCycle cycle.items × All (IsLastCause vertices.old) cycle.items)) }
    ensures vertices { AreVertices vertices.new }
    ensures same { SameButRanks vertices.old vertices.new }
{
    match go_up(alloc, vertices, at)? {
        Climb::Top(top, path) => {
            lower_ranks(vertices, top, path);
            Ok(None)
        }
        Climb::Cycle(cycle) => Ok(Some(cycle)),
    }
}

/// Goes up until a vertex that never sank, or one that the way passed before.
fn go_up(alloc: Global, vertices: &[Vertex], from: u32) -> Result<Climb, OutOfMemory>
    requires there { from < length vertices.now }
    requires vertices { AreVertices vertices.now }
    ensures { IfOk result (IsClimb vertices.now from) }
{
    let mut places = vec![in alloc; None; vertices.len()]?;
    let mut path = Vec::new(alloc);
    let mut at = from;
    while let Some(edge) = vertices[at as usize].cause {
        if let Some(place) = places[at as usize] {
            return Ok(Climb::Cycle(part_from(alloc, &path, place)?));
        }
        places[at as usize] = Some(path.len());
        path.push(edge)?;
        at = edge.from;
    }
    Ok(Climb::Top(at, path))
}

/// The edges from this place on.
fn part_from(alloc: Global, path: &[Edge], place: usize) -> Result<Vec<Edge>, OutOfMemory>
    requires { place ≤ length path.now }
    ensures { IfOk result (λ part. part.items ≡ drop place path.now) }
{
    Ok(Vec::from_slice(alloc, &path[place..])?)
}

/// Lowers the ranks on the way, from its top down.
fn lower_ranks(vertices: &mut [Vertex], top: u32, mut path: Vec<Edge>)
    requires size { length vertices.old ≤ 8193 }
    requires vertices { AreVertices vertices.old }
    requires way { (at : ℕ) × IsWayUp vertices.old at top path.items }
    ensures vertices { AreVertices vertices.new }
    ensures same { SameButRanks vertices.old vertices.new }
    ensures below { (at : ℕ) → IsWayUp vertices.old at top path.items → (vertex_at vertices.new at).rank < length vertices.new }
{
    vertices[top as usize].rank = 0;
    let mut rank = 0;
    while let Some(edge) = path.pop() {
        rank += 1;
        lower_rank(vertices, &edge, rank);
    }
}

/// Lowers the rank at the edge's end to this one.
fn lower_rank(vertices: &mut [Vertex], edge: &Edge, rank: u32)
    requires size { length vertices.old ≤ 8193 }
    requires vertices { AreVertices vertices.old }
    requires cause { IsLastCause vertices.old edge.now }
    requires begin { (vertex_at vertices.old edge.now.from).rank < rank }
    ensures vertices { AreVertices vertices.new }
    ensures same { SameButRanks vertices.old vertices.new }
    ensures below { (vertex_at vertices.new edge.now.to).rank ≤ rank }
{
    let vertex = &mut vertices[edge.to as usize];
    vertex.rank = vertex.rank.min(rank);
}
