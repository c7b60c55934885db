//! A line that refutes the literals of a negative cycle.
ghost use Rattle.std.specs.Prelude.{◌≡◌, ◌≤◌, ◌<◌, All, IfOk, OnErr, length, map};
ghost use Rattle.ag_kernel.specs.declared.line.KernelFault.TheVariants.{OutOfMemory as Memory};
ghost use Rattle.ag_kernel.specs.Rules.{Adds, unfolded};
ghost use Rattle.ag_kernel.specs.Theories.{RefutesLits, HasGrown};
ghost use Rattle.ag_diff.specs.Cycles.{IsNegativeCycle};
ghost use Rattle.ag_diff.specs.Edges.{IsSaid};
ghost use Rattle.ag_diff.specs.Unfolding.{named, unfolded_once};

use crate::edges::Edge;
use ag_base::OutOfMemory;
use ag_kernel::{Kernel, KernelFault};
use std::alloc::Global;

/// Unfolds the literals of the cycle and adds up their rows: no row is left.
pub fn refute(alloc: Global, kernel: &mut Kernel, cycle: &[Edge]) -> Result<u32, OutOfMemory>
    requires cycle { IsNegativeCycle cycle.now }
    requires said { All (IsSaid kernel.old.query.vars kernel.old.atoms) cycle.now }
    ensures refutes { IfOk result (RefutesLits kernel.new (map (λ e. e.lit) cycle.now)) }
    ensures grown { HasGrown kernel.old kernel.new }
{
    let parts = unfold_all(alloc, kernel, cycle)?;
    match kernel.combine(&parts) {
        Ok(line) => Ok(line),
        Err(fault) => Err(memory(fault)),
    }
}

/// The lines of the cycle's literals, once each.
fn unfold_all(
    alloc: Global,
    kernel: &mut Kernel,
    cycle: &[Edge],
) -> Result<Vec<(u32, i128)>, OutOfMemory>
    requires { All (IsSaid kernel.old.query.vars kernel.old.atoms) cycle.now }
    ensures there { IfOk result (λ parts. All (λ p. p.0 < length kernel.new.lines) parts.items) }
    ensures lines { IfOk result (λ parts. map (named kernel.new.lines) parts.items ≡ map (unfolded_once kernel.old.atoms) cycle.now) }
    ensures atoms { kernel.new.atoms ≡ kernel.old.atoms }
    ensures grown { HasGrown kernel.old kernel.new }
{
    let mut parts = Vec::new(alloc);
    for edge in cycle {
        let line = unfold(kernel, edge)?;
        parts.push((line, 1))?;
    }
    Ok(parts)
}

/// The line of the edge's literal.
fn unfold(kernel: &mut Kernel, edge: &Edge) -> Result<u32, OutOfMemory>
    requires { IsSaid kernel.old.query.vars kernel.old.atoms edge.now }
    ensures line { IfOk result (λ n. Adds kernel.old kernel.new n (unfolded kernel.old.atoms edge.now.lit)) }
    ensures err { OnErr result (kernel.new ≡ kernel.old) }
{
    match kernel.unfold(edge.lit) {
        Ok(line) => Ok(line),
        Err(fault) => Err(memory(fault)),
    }
}

/// The fault of a rule that is allowed.
fn memory(fault: KernelFault) -> OutOfMemory
    requires { fault ≡ Memory }
{
    match fault {
        KernelFault::OutOfMemory => OutOfMemory,
        _ => unreachable!(),
    }
}
