//! The lines on which a conflict stands. What is answered here is a guess that no proof rests on: the
//! kernel tests it.
ghost use Rattle.std.specs.Prelude.{◌<◌, length};
ghost use Rattle.ag_tree.specs.Trail.{AreSound};

use crate::trail::Trail;
use ag_base::OutOfMemory;
use ag_kernel::Kernel;
use ag_query::Lit;
use std::alloc::Global;

/// The lines from which the literals that deny this line were drawn, those from which their reasons
/// were, and so on, the oldest first, and then this line.
pub fn cone_of(
    alloc: Global,
    kernel: &Kernel,
    trail: &Trail,
    line: u32,
) -> Result<Vec<u32>, OutOfMemory>
    requires there { line < length kernel.now.lines }
    requires sound { AreSound kernel.now.lines trail.now.steps }
{
    let mut marks = vec![in alloc; false; kernel.query().atoms.len()]?;
    let mut lines = Vec::new(alloc);
    lines.push(line)?;
    mark(&mut marks, kernel.line(line).lits.as_slice());
    for place in (0..trail.len()).rev() {
        if let Some(reason) = trail.reason(place)
            && is_marked(&marks, trail.literal(place))
        {
            lines.push(reason)?;
            mark(&mut marks, kernel.line(reason).lits.as_slice());
        }
    }
    lines.reverse();
    Ok(lines)
}

/// Marks the atoms of the literals.
fn mark(marks: &mut Vec<bool>, lits: &[Lit]) {
    for lit in lits {
        let atom = lit.atom as usize;
        if atom < marks.len() {
            marks[atom] = true;
        }
    }
}

fn is_marked(marks: &[bool], lit: Lit) -> bool {
    match marks.get(lit.atom as usize) {
        Some(marked) => *marked,
        None => false,
    }
}
