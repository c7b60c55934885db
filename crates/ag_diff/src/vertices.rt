//! Values of vertices, which sink until all edges hold.
ghost use Rattle.std.specs.Prelude.{◌≡◌, ◌↔◌, ◌+◌, ◌-◌, ◌<◌, ◌≤◌, ◌+ℤ◌, ◌-ℤ◌, ◌<ℤ◌, ℕ, pos, IsTrue, Some, All, map, length, IfOk, OnOk, slice_set, slice_index_or};
ghost use Rattle.ag_diff.specs.Edges.{IsWithin, HoldsAt};
ghost use Rattle.ag_diff.specs.Vertices.{vertex_at, value_at, IsStart, started, AreVertices, HaveCauses, room};

use crate::edges::Edge;
use ag_base::{List, OutOfMemory};
use std::alloc::Global;

/// A vertex of the edges.
#[derive(Clone, Copy)]
pub struct Vertex {
    /// It begins at 0 at most, and sinks.
    pub value: i64,
    /// How many edges at most lie between the value and one that never sank.
    pub rank: u32,
    /// The edge along which it sank last.
    pub cause: Option<Edge>,
}

/// The least value to start from.
const LEAST_START: i64 = -1 << 60;

/// Vertices that never sank: at these values if there are so many and none is too great or too
/// small, else at 0.
pub fn start(alloc: Global, count: usize, values: &[i64]) -> Result<Vec<Vertex>, OutOfMemory>
    requires { count ≤ 8193 }
    ensures count { IfOk result (λ vertices. length vertices.items ≡ count) }
    ensures values { length values.now ≡ count → All IsStart values.now → IfOk result (λ vertices. vertices.items ≡ map started values.now) }
    ensures vertices { IfOk result (λ vertices. AreVertices vertices.items) }
    ensures causes { IfOk result (λ vertices. (edges : List Edge) → HaveCauses edges vertices.items) }
{
    if values.len() != count || !are_starts(values) {
        return Ok(vec![in alloc; start_at(0); count]?);
    }
    let mut vertices = Vec::new(alloc);
    for value in values {
        vertices.push(start_at(*value))?;
    }
    Ok(vertices)
}

/// Whether each value is one to start from.
fn are_starts(values: &[i64]) -> bool
    ensures { IsTrue result ↔ All IsStart values.now }
{
    values.iter().all(|v| LEAST_START <= *v && *v <= 0)
}

/// A vertex that never sank.
fn start_at(value: i64) -> Vertex
    ensures { result ≡ started value }
{
    Vertex {
        value,
        rank: 0,
        cause: None,
    }
}

/// Keeps the values for a later start.
pub fn keep(values: &mut Vec<i64>, vertices: &[Vertex]) -> Result<(), OutOfMemory>
    ensures { OnOk result (values.new.items ≡ map (λ v. v.value) vertices.now) }
{
    values.clear();
    for vertex in vertices {
        values.push(vertex.value)?;
    }
    Ok(())
}

/// Whether the edge holds at the values.
pub fn holds(vertices: &[Vertex], edge: &Edge) -> bool
    requires size { length vertices.now ≤ 8193 }
    requires within { IsWithin (length vertices.now) edge.now }
    requires vertices { AreVertices vertices.now }
    ensures { IsTrue result ↔ HoldsAt (value_at vertices.now) edge.now }
{
    vertices[edge.to as usize].value <= vertices[edge.from as usize].value + edge.weight
}

/// Lowers the edge's end to where the edge holds.
pub fn lower(vertices: &mut [Vertex], edge: &Edge)
    requires size { length vertices.old ≤ 8193 }
    requires within { IsWithin (length vertices.old) edge.now }
    requires vertices { AreVertices vertices.old }
    requires above { (value_at vertices.old edge.now.from +ℤ edge.now.weight) <ℤ value_at vertices.old edge.now.to }
    requires rank { (vertex_at vertices.old edge.now.from).rank < length vertices.old }
    ensures set { vertices.new ≡ slice_set vertices.old edge.now.to (record { value = value_at vertices.old edge.now.from +ℤ edge.now.weight; rank = (vertex_at vertices.old edge.now.from).rank + 1; cause = Some edge.now }) }
    ensures vertices { AreVertices vertices.new }
    ensures sinks { room vertices.new < room vertices.old }
{
    let from = vertices[edge.from as usize];
    vertices[edge.to as usize] = Vertex {
        value: from.value + edge.weight,
        rank: from.rank + 1,
        cause: Some(*edge),
    };
}

/// The values of the variables, where the vertex behind them is worth 0.
pub fn numbers(alloc: Global, vertices: &[Vertex]) -> Result<List<i64>, OutOfMemory>
    requires some { 0 < length vertices.now }
    requires size { length vertices.now ≤ 8193 }
    requires vertices { AreVertices vertices.now }
    ensures count { IfOk result (λ numbers. length numbers + 1 ≡ length vertices.now) }
    ensures values { IfOk result (λ numbers. (n : ℕ) → n < length numbers → slice_index_or numbers n (pos 0) ≡ value_at vertices.now n -ℤ value_at vertices.now (length vertices.now - 1)) }
{
    let variables = vertices.len() - 1;
    let zero = vertices[variables].value;
    let mut numbers = List::new(alloc);
    for vertex in &vertices[..variables] {
        numbers.push(vertex.value - zero)?;
    }
    Ok(numbers)
}
