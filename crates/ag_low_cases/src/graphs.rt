//! What no contract can say: that memory suffices, and graphs that were worked out by hand.
ghost use Rattle.std.specs.Prelude.{IfOk};
ghost use Rattle.ag_graph.specs.Circles.{IsGraph};

use ag_base::OutOfMemory;
use ag_graph::{Graph, circles};
use std::alloc::Global;
use std::process::Abort;

fn graph_of(rt: &impl Abort, alloc: Global, rows: &[&[usize]]) -> Result<Graph, OutOfMemory>
    ensures { IfOk result IsGraph }
{
    assert!(rt; rows.len() < 100);
    let mut graph = Graph::new(alloc);
    for targets in rows {
        graph.push_vertex()?;
        for to in *targets {
            assert!(rt; *to < rows.len());
            graph.push_edge(*to)?;
        }
    }
    Ok(graph)
}

// Graphs with the vertices on a circle, and the order.
#[test]
fn finds_circles(rt: HostRuntime) -> Result<(), OutOfMemory> {
    let rows: [(&[&[usize]], &[bool], &[usize]); 7] = [
        (&[], &[], &[]),
        // a chain
        (&[&[1], &[2], &[]], &[false, false, false], &[2, 1, 0]),
        // a circle of two, and one that leads to it
        (&[&[1], &[2], &[1]], &[false, true, true], &[1, 2, 0]),
        // one that leads to itself
        (&[&[], &[1, 0]], &[false, true], &[0, 1]),
        // one between two circles is on none
        (
            &[&[1], &[0, 2], &[3], &[4], &[3]],
            &[true, true, false, true, true],
            &[3, 4, 2, 0, 1],
        ),
        // a chain behind a circle of three
        (
            &[&[3, 1], &[2], &[0], &[4], &[]],
            &[true, true, true, false, false],
            &[4, 3, 0, 1, 2],
        ),
        // two ways to one vertex
        (&[&[1, 2], &[3], &[3], &[]], &[false; 4], &[3, 2, 1, 0]),
    ];
    for (rows, on_circle, order) in &rows {
        let found = circles(rt.alloc(), &graph_of(&rt, rt.alloc(), rows)?)?;
        assert_eq!(rt; found.on_circle.as_slice(), *on_circle);
        assert_eq!(rt; found.order.as_slice(), *order);
    }
    Ok(())
}
