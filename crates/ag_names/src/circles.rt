//! Which implementations are inside themselves.
ghost use Rattle.std.specs.Prelude.{◌≡◌, ◌<◌, ◌++◌, ◌∷◌, [], length, IfOk, OnOk};
ghost use Rattle.ag_graph.specs.Circles.{IsGraph};
ghost use Rattle.ag_names.specs.Graph.{AreRecursive, graph_of, targets_of, with_target, sub_number};

use crate::index::{Index, TypeName};
use crate::placed::ImplementationAt;
use crate::subs::implementation_number;
use ag_aadl::packages::{Body, Sub};
use ag_base::{List, OutOfMemory};
use ag_graph::{Circles, Graph, circles};
use ag_terms::Path;
use std::alloc::Global;

/// For each implementation, in order, whether it is inside itself.
pub fn recursive_implementations(
    alloc: Global,
    index: &Index<'_>,
) -> Result<List<bool>, OutOfMemory>
    ensures { IfOk result (AreRecursive index.now) }
{
    let graph = graph_of(alloc, index)?;
    let Circles { on_circle, .. } = circles(alloc, &graph)?;
    Ok(on_circle)
}

// The graph of implementations, by their numbers: each leads to those of its subcomponents.
fn graph_of(alloc: Global, index: &Index<'_>) -> Result<Graph, OutOfMemory>
    ensures same { IfOk result (λ g. g ≡ graph_of index.now) }
    ensures graph { IfOk result IsGraph }
{
    let mut graph = Graph::new(alloc);
    for entry in index.implementations() {
        push_implementation(&mut graph, index, entry)?;
    }
    Ok(graph)
}

fn push_implementation<'a>(
    graph: &mut Graph,
    index: &Index<'a>,
    entry: &ImplementationAt<'a>,
) -> Result<(), OutOfMemory>
    ensures { OnOk result (graph.new ≡ graph.old ++ targets_of index.now entry.now ∷ []) }
{
    graph.push_vertex()?;
    let body: &'a Body = entry.body;
    for sub in body.subs.as_slice() {
        push_sub(graph, index, entry, sub)?;
    }
    Ok(())
}

fn push_sub<'a>(
    graph: &mut Graph,
    index: &Index<'a>,
    entry: &ImplementationAt<'a>,
    sub: &'a Sub,
) -> Result<(), OutOfMemory>
    requires { 0 < length graph.old }
    ensures { OnOk result (graph.new ≡ with_target graph.old (sub_number index.now entry.now.owner sub.now)) }
{
    let Some(path) = sub.of.as_ref() else {
        return Ok(());
    };
    let path: &'a Path = path;
    let name = TypeName::named(entry.owner, sub.category, path);
    match implementation_number(index, &name, path) {
        None => Ok(()),
        Some(number) => graph.push_edge(number),
    }
}
