//! Lowers vertices along the edges, until all edges hold or some make a negative cycle.
ghost use Rattle.std.specs.Prelude.{◌≡◌, ◌<◌, ◌≤◌, ◌+ℤ◌, ◌<ℤ◌, List, length, All, Contains, IfOk, IsErrOf, MatchOption, ◌⊎◌};
ghost use Rattle.ag_base.specs.Outside.{Rose};
ghost use Rattle.ag_base.specs.declared.Halted.TheVariants.{Stopped};
ghost use Rattle.ag_diff.specs.Cycles.{IsNegativeCycle};
ghost use Rattle.ag_diff.specs.Edges.{IsWithin, HoldsAt};
ghost use Rattle.ag_diff.specs.Vertices.{AreVertices, HaveCauses, value_at, room};
ghost use Rattle.ag_diff.specs.declared.edges.Edge.{Edge};
ghost use Rattle.ag_diff.specs.Climbs.{IsLastCause};
ghost use Rattle.ag_diff.specs.Sweeps.{IsVisited, IsSwept, work};

use crate::climb::find_cycle;
use crate::edges::Edge;
use crate::fan::Fan;
use crate::pending::Pending;
use crate::vertices::{Vertex, holds, lower};
use ag_base::{Halt, Halted, OutOfMemory};
use std::alloc::Global;

/// What a look at edges came to.
#[derive(Drop)]
pub enum Sweep {
    /// They hold.
    Still,
    /// A vertex sank.
    Lowered,
    /// Edges that make a negative cycle.
    Cycle(Vec<Edge>),
}

/// Lowers vertices until all edges hold, or finds a negative cycle.
///
/// A vertex that sinks waits until its edges are looked at. When none waits, all edges are gone along
/// once, and it ends where all of them hold. The halt is asked for each vertex that waited.
pub fn settle<H: Halt>(
    alloc: Global,
    vertices: &mut [Vertex],
    edges: &[Edge],
    halt: &mut H,
) -> Result<Option<Vec<Edge>>, Halted>
    requires size { length vertices.old ≤ 8193 }
    requires within { All (IsWithin (length vertices.old)) edges.now }
    requires vertices { AreVertices vertices.old }
    requires causes { HaveCauses edges.now vertices.old }
    ensures found { IfOk result (λ found. MatchOption found (All (HoldsAt (value_at vertices.new)) edges.now) (λ cycle. IsNegativeCycle cycle.items × All (Contains edges.now) cycle.items)) }
    ensures vertices { AreVertices vertices.new }
    ensures stopped { IsErrOf result Stopped → Rose (H.yeses halt.old) (H.yeses halt.new) }
    ensures never_falls { H.yeses halt.old ≤ H.yeses halt.new }
    ensures follows { H.follows halt.old halt.new }
    ensures unstopped { IsErrOf result Stopped ⊎ (H.yeses halt.new ≡ H.yeses halt.old) }
{
    let fan = Fan::group(alloc, edges, vertices.len())?;
    let mut pending = Pending::new(alloc, vertices.len())?;
    loop {
        if halt.poll() {
            return Err(Halted::Stopped);
        }
        match step(alloc, vertices, edges, &fan, &mut pending)? {
            Sweep::Still => return Ok(None),
            Sweep::Lowered => {}
            Sweep::Cycle(cycle) => return Ok(Some(cycle)),
        }
    }
}

/// Looks at the edges of the vertex that waited longest, or at all edges where none waits.
fn step(
    alloc: Global,
    vertices: &mut [Vertex],
    edges: &[Edge],
    fan: &Fan,
    pending: &mut Pending,
) -> Result<Sweep, OutOfMemory>
    requires size { length vertices.old ≤ 8193 }
    requires within { All (IsWithin (length vertices.old)) edges.now }
    requires fan { fan.now ≡ record { vertices = length vertices.old; edges = length edges.now } }
    requires pending { pending.old.count ≡ length vertices.old }
    requires vertices { AreVertices vertices.old }
    requires causes { HaveCauses edges.now vertices.old }
    ensures swept { IfOk result (IsSwept edges.now vertices.new (work vertices.old pending.old) (work vertices.new pending.new)) }
    ensures vertices { AreVertices vertices.new }
    ensures causes { HaveCauses edges.now vertices.new }
    ensures pending { pending.new.count ≡ pending.old.count }
{
    let Some(vertex) = pending.next() else {
        return sweep_once(alloc, vertices, edges, pending);
    };
    match spread(alloc, vertices, edges, fan, pending, vertex)? {
        Some(cycle) => Ok(Sweep::Cycle(cycle)),
        None => Ok(Sweep::Lowered),
    }
}

/// Goes once along all edges.
fn sweep_once(
    alloc: Global,
    vertices: &mut [Vertex],
    edges: &[Edge],
    pending: &mut Pending,
) -> Result<Sweep, OutOfMemory>
    requires size { length vertices.old ≤ 8193 }
    requires within { All (IsWithin (length vertices.old)) edges.now }
    requires pending { pending.old.count ≡ length vertices.old }
    requires vertices { AreVertices vertices.old }
    requires causes { HaveCauses edges.now vertices.old }
    ensures swept { IfOk result (IsSwept edges.now vertices.new (work vertices.old pending.old) (work vertices.new pending.new)) }
    ensures vertices { AreVertices vertices.new }
    ensures causes { HaveCauses edges.now vertices.new }
    ensures pending { pending.new.count ≡ pending.old.count }
{
    let mut sunk = false;
    for edge in edges {
        match visit(alloc, vertices, edge, pending)? {
            Sweep::Still => {}
            Sweep::Lowered => sunk = true,
            Sweep::Cycle(cycle) => return Ok(Sweep::Cycle(cycle)),
        }
    }
    Ok(if sunk { Sweep::Lowered } else { Sweep::Still })
}

/// Looks at the edges that begin at the vertex. A negative cycle, if one is found.
fn spread(
    alloc: Global,
    vertices: &mut [Vertex],
    edges: &[Edge],
    fan: &Fan,
    pending: &mut Pending,
    vertex: u32,
) -> Result<Option<Vec<Edge>>, OutOfMemory>
    requires size { length vertices.old ≤ 8193 }
    requires within { All (IsWithin (length vertices.old)) edges.now }
    requires fan { fan.now ≡ record { vertices = length vertices.old; edges = length edges.now } }
    requires pending { pending.old.count ≡ length vertices.old }
    requires there { vertex < length vertices.old }
    requires vertices { AreVertices vertices.old }
    requires causes { HaveCauses edges.now vertices.old }
    ensures found { IfOk result (λ found. MatchOption found (work vertices.new pending.new ≤ work vertices.old pending.old) (λ cycle. IsNegativeCycle cycle.items × All (Contains edges.now) cycle.items)) }
    ensures vertices { AreVertices vertices.new }
    ensures causes { HaveCauses edges.now vertices.new }
    ensures pending { pending.new.count ≡ pending.old.count }
{
    let mut at = fan.last(vertex);
    while let Some(place) = at {
        if let Sweep::Cycle(cycle) = visit(alloc, vertices, &edges[place], pending)? {
            return Ok(Some(cycle));
        }
        at = fan.before(place);
    }
    Ok(None)
}

/// Where the edge doesn't hold, lowers its end, which then waits.
fn visit(
    alloc: Global,
    vertices: &mut [Vertex],
    edge: &Edge,
    pending: &mut Pending,
) -> Result<Sweep, OutOfMemory>
    requires size { length vertices.old ≤ 8193 }
    requires within { IsWithin (length vertices.old) edge.now }
    requires pending { pending.old.count ≡ length vertices.old }
    requires vertices { AreVertices vertices.old }
    ensures visited { IfOk result (IsVisited edge.now vertices.old vertices.new (work vertices.old pending.old) (work vertices.new pending.new)) }
    ensures vertices { AreVertices vertices.new }
    ensures causes { (edges : List Edge) → Contains edges edge.now → HaveCauses edges vertices.old → HaveCauses edges vertices.new }
    ensures pending { pending.new.count ≡ pending.old.count }
{
    if holds(vertices, edge) {
        return Ok(Sweep::Still);
    }
    match sink(alloc, vertices, edge, pending.is_due())? {
        Some(cycle) => Ok(Sweep::Cycle(cycle)),
        None => {
            pending.add(edge.to)?;
            Ok(Sweep::Lowered)
        }
    }
}

/// Lowers the edge's end. Where it is due, or the rank at the edge's begin is too great, a negative
/// cycle above is looked for first.
fn sink(
    alloc: Global,
    vertices: &mut [Vertex],
    edge: &Edge,
    due: bool,
) -> Result<Option<Vec<Edge>>, OutOfMemory>
    requires size { length vertices.old ≤ 8193 }
    requires within { IsWithin (length vertices.old) edge.now }
    requires vertices { AreVertices vertices.old }
    requires above { (value_at vertices.old edge.now.from +ℤ edge.now.weight) <ℤ value_at vertices.old edge.now.to }
    ensures found { IfOk result (λ found. MatchOption found (room vertices.new < room vertices.old) (λ cycle. IsNegativeCycle cycle.items × All (IsLastCause vertices.old) cycle.items)) }
    ensures vertices { AreVertices vertices.new }
    ensures causes { (edges : List Edge) → Contains edges edge.now → HaveCauses edges vertices.old → HaveCauses edges vertices.new }
{
    let rank = vertices[edge.from as usize].rank as usize;
    if !due && rank < vertices.len() {
        lower(vertices, edge);
        return Ok(None);
    }
    match find_cycle(alloc, vertices, edge.from)? {
        None => {
            lower(vertices, edge);
            Ok(None)
        }
        Some(cycle) => Ok(Some(cycle)),
    }
}
