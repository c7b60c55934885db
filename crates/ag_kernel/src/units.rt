//! Unit steps along lines, and lists of literals joined without repeats.
ghost use Rattle.std.specs.Prelude.{◌≡◌, ◌<◌, [], map, length, All, IfOk, OnOk};
ghost use Rattle.std.specs.List.{list_any, flat_map};
ghost use Rattle.ag_query.specs.Meaning.{contrary};
ghost use Rattle.ag_kernel.specs.Rules.{line_at};
ghost use Rattle.ag_kernel.specs.Sets.{joined, has, without};
ghost use Rattle.ag_kernel.specs.Units.{left_of, conflict_along, comes_to_conflict};
ghost use Rattle.ag_kernel.specs.Steps.{left_as};

use crate::line::Line;
use crate::marks::Marked;
use ag_base::OutOfMemory;
use ag_query::Lit;

/// Which literals of a line are left, where those are gone whose contraries a list has.
#[derive(Clone, Copy)]
pub enum Left {
    Nothing,
    One(Lit),
    More,
}

/// What is left of the line along the list.
pub fn what_is_left(list: &Marked, line: &[Lit]) -> Left
    requires { All (λ l. l.atom < list.now.atoms) line.now }
    ensures { result ≡ left_as (left_of list.now.lits line.now) }
{
    let mut one: Option<Lit> = None;
    for lit in line {
        if !list.has(lit.contrary()) {
            match one {
                None => one = Some(*lit),
                Some(other) => {
                    if other != *lit {
                        return Left::More;
                    }
                }
            }
        }
    }
    match one {
        None => Left::Nothing,
        Some(lit) => Left::One(lit),
    }
}

/// Puts the contraries of the clause into the empty list.
fn begin(list: &mut Marked, clause: &[Lit]) -> Result<(), OutOfMemory>
    requires { All (λ l. l.atom < list.old.atoms) clause.now }
    ensures ok { OnOk result (list.new.lits ≡ joined [] (map contrary clause.now)) }
    ensures atoms { list.new.atoms ≡ list.old.atoms }
{
    list.clear();
    for lit in clause {
        list.add(lit.contrary())?;
    }
    Ok(())
}

/// Whether unit steps along the lines, begun with the contraries of the clause, come to a conflict.
pub fn refutes(
    list: &mut Marked,
    lines: &[Line],
    clause: &[Lit],
    named: &[u32],
) -> Result<bool, OutOfMemory>
    requires clause { All (λ l. l.atom < list.old.atoms) clause.now }
    requires lines { All (λ line. All (λ l. l.atom < list.old.atoms) line.lits) lines.now }
    requires there { All (λ n. n < length lines.now) named.now }
    ensures ok { IfOk result (λ yes. yes ≡ comes_to_conflict clause.now (map (λ n. (line_at lines.now n).lits) named.now)) }
    ensures atoms { list.new.atoms ≡ list.old.atoms }
{
    begin(list, clause)?;
    if has_any(list, clause) {
        return Ok(true);
    }
    conflicts_along(list, lines, named)
}

fn has_any(list: &Marked, lits: &[Lit]) -> bool
    requires { All (λ l. l.atom < list.now.atoms) lits.now }
    ensures { result ≡ list_any (has list.now.lits) lits.now }
{
    lits.iter().any(|l| list.has(*l))
}

fn conflicts_along(list: &mut Marked, lines: &[Line], named: &[u32]) -> Result<bool, OutOfMemory>
    requires lines { All (λ line. All (λ l. l.atom < list.old.atoms) line.lits) lines.now }
    requires there { All (λ n. n < length lines.now) named.now }
    ensures ok { IfOk result (λ yes. yes ≡ conflict_along list.old.lits (map (λ n. (line_at lines.now n).lits) named.now)) }
    ensures atoms { list.new.atoms ≡ list.old.atoms }
{
    for n in named {
        match what_is_left(list, lines[*n as usize].lits.as_slice()) {
            Left::Nothing => return Ok(true),
            Left::One(lit) => list.add(lit)?,
            Left::More => {}
        }
    }
    Ok(false)
}

/// Puts the literals at the end, each unless it is there.
pub fn join(list: &mut Marked, lits: &[Lit]) -> Result<(), OutOfMemory>
    requires { All (λ l. l.atom < list.old.atoms) lits.now }
    ensures ok { OnOk result (list.new.lits ≡ joined list.old.lits lits.now) }
    ensures atoms { list.new.atoms ≡ list.old.atoms }
{
    for lit in lits {
        list.add(*lit)?;
    }
    Ok(())
}

/// The same, without one literal.
pub fn join_without(list: &mut Marked, lits: &[Lit], but: Lit) -> Result<(), OutOfMemory>
    requires { All (λ l. l.atom < list.old.atoms) lits.now }
    ensures ok { OnOk result (list.new.lits ≡ joined list.old.lits (without lits.now but)) }
    ensures atoms { list.new.atoms ≡ list.old.atoms }
{
    for lit in lits {
        if *lit != but {
            list.add(*lit)?;
        }
    }
    Ok(())
}

/// Puts the literals of the lines into the empty list.
pub fn join_lines(
    list: &mut Marked,
    lines: &[Line],
    parts: &[(u32, i128)],
) -> Result<(), OutOfMemory>
    requires lines { All (λ line. All (λ l. l.atom < list.old.atoms) line.lits) lines.now }
    requires there { All (λ p. p.0 < length lines.now) parts.now }
    ensures ok { OnOk result (list.new.lits ≡ joined [] (flat_map (λ p. (line_at lines.now p.0).lits) parts.now)) }
    ensures atoms { list.new.atoms ≡ list.old.atoms }
{
    list.clear();
    for (n, _) in parts {
        join(list, lines[*n as usize].lits.as_slice())?;
    }
    Ok(())
}
