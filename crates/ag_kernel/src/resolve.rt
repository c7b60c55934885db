//! Lines joined at an atom.
ghost use Rattle.std.specs.Prelude.{◌≡◌, ◌<◌, All, IfOk};
ghost use Rattle.ag_kernel.specs.Rules.{splits, either_row, resolvent, can_resolve, resolved};
ghost use Rattle.ag_kernel.specs.Sets.{has};

use crate::line::Line;
use crate::marks::Marked;
use crate::units::join_without;
use ag_base::OutOfMemory;
use ag_query::{LRow, Lit, Lits};
use std::alloc::Global;

/// Whether one line has the atom and the other its contrary, and one of them has no row.
pub fn is_resolvable(a: &Line, b: &Line, atom: u32) -> bool
    ensures { result ≡ can_resolve atom a.now b.now }
{
    (splits_at(a, b, atom) || splits_at(b, a, atom)) && (a.row.is_none() || b.row.is_none())
}

/// Whether the first line has the atom, and the second its contrary.
fn splits_at(a: &Line, b: &Line, atom: u32) -> bool
    ensures { result ≡ splits atom a.now b.now }
{
    let yes = Lit { atom, holds: true };
    contains(a.lits.as_slice(), yes) && contains(b.lits.as_slice(), yes.contrary())
}

fn contains(lits: &[Lit], lit: Lit) -> bool
    ensures { result ≡ has lits.now lit }
{
    for other in lits {
        if lit == *other {
            return true;
        }
    }
    false
}

pub fn resolve_lines(
    alloc: Global,
    list: &mut Marked,
    a: &Line,
    b: &Line,
    atom: u32,
) -> Result<Line, OutOfMemory>
    requires a { All (λ l. l.atom < list.old.atoms) a.now.lits }
    requires b { All (λ l. l.atom < list.old.atoms) b.now.lits }
    ensures ok { IfOk result (λ line. line ≡ resolved atom a.now b.now) }
    ensures atoms { list.new.atoms ≡ list.old.atoms }
{
    if splits_at(a, b, atom) {
        make_resolvent(alloc, list, a, b, atom)
    } else {
        make_resolvent(alloc, list, b, a, atom)
    }
}

fn make_resolvent(
    alloc: Global,
    list: &mut Marked,
    a: &Line,
    b: &Line,
    atom: u32,
) -> Result<Line, OutOfMemory>
    requires a { All (λ l. l.atom < list.old.atoms) a.now.lits }
    requires b { All (λ l. l.atom < list.old.atoms) b.now.lits }
    ensures ok { IfOk result (λ line. line ≡ resolvent atom a.now b.now) }
    ensures atoms { list.new.atoms ≡ list.old.atoms }
{
    let yes = Lit { atom, holds: true };
    list.clear();
    join_without(list, a.lits.as_slice(), yes)?;
    join_without(list, b.lits.as_slice(), yes.contrary())?;
    let lits = Lits::make(alloc, list.as_slice())?;
    let row = either_row(&a.row, &b.row)?;
    Ok(Line { lits, row })
}

fn either_row(a: &Option<LRow>, b: &Option<LRow>) -> Result<Option<LRow>, OutOfMemory>
    ensures { IfOk result (λ row. row ≡ either_row a.now b.now) }
{
    let row = if a.is_some() { a } else { b };
    Ok(match row {
        Some(row) => Some(row.clone()?),
        None => None,
    })
}
