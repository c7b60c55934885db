//! Streams, constants and nodes, gathered in their order.
ghost use Rattle.std.specs.Prelude.{◌≡◌, ◌++◌, ◌==◌, not, map, OnOk};
ghost use Rattle.std.specs.List.{flat_map, filter, list_all};
ghost use Rattle.ag_symbols.specs.Seen.{is_own, eq_streams_in, constants_in, nodes_in};

use ag_base::OutOfMemory;
use ag_terms::{Clause, NodeDef, Var};

/// Adds streams or constants.
pub fn push_vars<'a>(gathered: &mut Vec<&'a Var>, vars: &'a [Var]) -> Result<(), OutOfMemory>
    ensures { OnOk result (map (λ v. v.now) gathered.new.items ≡ map (λ v. v.now) gathered.old.items ++ vars.now) }
{
    for var in vars {
        gathered.push(var)?;
    }
    Ok(())
}

/// Adds the streams of own ports.
pub fn push_own<'a>(gathered: &mut Vec<&'a Var>, ports: &'a [Var]) -> Result<(), OutOfMemory>
    ensures { OnOk result (map (λ v. v.now) gathered.new.items ≡ map (λ v. v.now) gathered.old.items ++ filter is_own ports.now) }
{
    for port in ports {
        if is_own(port.name.text.as_bytes()) {
            gathered.push(port)?;
        }
    }
    Ok(())
}

// An own port's name has no dot.
fn is_own(name: &[u8]) -> bool
    ensures { result ≡ list_all (λ b. not (b == 46)) name.now }
{
    name.iter().all(|b| *b != b'.')
}

/// Adds the streams that clauses declare.
pub fn push_streams<'a>(
    gathered: &mut Vec<&'a Var>,
    clauses: &'a [Clause],
) -> Result<(), OutOfMemory>
    ensures { OnOk result (map (λ v. v.now) gathered.new.items ≡ map (λ v. v.now) gathered.old.items ++ flat_map eq_streams_in clauses.now) }
{
    for clause in clauses {
        push_streams_in(gathered, clause)?;
    }
    Ok(())
}

fn push_streams_in<'a>(gathered: &mut Vec<&'a Var>, clause: &'a Clause) -> Result<(), OutOfMemory>
    ensures { OnOk result (map (λ v. v.now) gathered.new.items ≡ map (λ v. v.now) gathered.old.items ++ eq_streams_in clause.now) }
{
    match clause {
        Clause::Eq { names, .. } => push_vars(gathered, names.as_slice()),
        _ => Ok(()),
    }
}

/// Adds the constants that clauses declare.
pub fn push_constants<'a>(
    gathered: &mut Vec<&'a Var>,
    clauses: &'a [Clause],
) -> Result<(), OutOfMemory>
    ensures { OnOk result (map (λ v. v.now) gathered.new.items ≡ map (λ v. v.now) gathered.old.items ++ flat_map constants_in clauses.now) }
{
    for clause in clauses {
        push_constant_in(gathered, clause)?;
    }
    Ok(())
}

fn push_constant_in<'a>(gathered: &mut Vec<&'a Var>, clause: &'a Clause) -> Result<(), OutOfMemory>
    ensures { OnOk result (map (λ v. v.now) gathered.new.items ≡ map (λ v. v.now) gathered.old.items ++ constants_in clause.now) }
{
    match clause {
        Clause::Const { name, .. } => {
            gathered.push(name)?;
            Ok(())
        }
        _ => Ok(()),
    }
}

/// Adds the nodes that clauses declare.
pub fn push_nodes<'a>(
    gathered: &mut Vec<&'a NodeDef>,
    clauses: &'a [Clause],
) -> Result<(), OutOfMemory>
    ensures { OnOk result (map (λ n. n.now) gathered.new.items ≡ map (λ n. n.now) gathered.old.items ++ flat_map nodes_in clauses.now) }
{
    for clause in clauses {
        push_node_in(gathered, clause)?;
    }
    Ok(())
}

fn push_node_in<'a>(gathered: &mut Vec<&'a NodeDef>, clause: &'a Clause) -> Result<(), OutOfMemory>
    ensures { OnOk result (map (λ n. n.now) gathered.new.items ≡ map (λ n. n.now) gathered.old.items ++ nodes_in clause.now) }
{
    match clause {
        Clause::Node(node) => {
            gathered.push(node)?;
            Ok(())
        }
        _ => Ok(()),
    }
}
