//! Names that clauses and nodes declare or set, in their order.
ghost use Rattle.std.specs.Prelude.{◌≡◌, ◌++◌, map, OnOk, IfOk};
ghost use Rattle.std.specs.List.{flat_map};
ghost use Rattle.ag_symbols.specs.Seen.{node_vars, seen_of};
ghost use Rattle.ag_types.specs.ClauseFaults.{declared, declared_in, assign_in, node_sees, var_names};

use ag_base::OutOfMemory;
use ag_symbols::Sight;
use ag_terms::{Clause, Equal, Ident, NodeDef, Var};
use std::alloc::Global;

/// All names of a scope: those of ports, and those that clauses declare.
pub fn declared_names<'a>(
    alloc: Global,
    library: &'a [Clause],
    frame: &'a [Clause],
    body: &'a [Clause],
    ports: &'a [Var],
) -> Result<Vec<&'a Ident>, OutOfMemory>
    ensures { IfOk result (λ v. map (λ n. n.now) v.items ≡ declared (seen_of library.now frame.now body.now ports.now)) }
{
    let mut names = Vec::new(alloc);
    push_vars(&mut names, ports)?;
    push_declared(&mut names, library)?;
    push_declared(&mut names, frame)?;
    push_declared(&mut names, body)?;
    Ok(names)
}

/// The names that clauses assign.
pub fn assigned_names<'a>(
    alloc: Global,
    library: &'a [Clause],
    frame: &'a [Clause],
    body: &'a [Clause],
) -> Result<Vec<&'a Ident>, OutOfMemory>
    ensures { IfOk result (λ v. map (λ n. n.now) v.items ≡ flat_map assign_in (library.now ++ (frame.now ++ body.now))) }
{
    let mut names = Vec::new(alloc);
    push_assigns(&mut names, library)?;
    push_assigns(&mut names, frame)?;
    push_assigns(&mut names, body)?;
    Ok(names)
}

/// A node's own names: inputs, outputs and locals.
pub fn node_names(alloc: Global, node: &NodeDef) -> Result<Vec<&Ident>, OutOfMemory>
    ensures { IfOk result (λ v. map (λ n. n.now) v.items ≡ var_names (node_vars node.now)) }
{
    let mut names = Vec::new(alloc);
    push_vars(&mut names, node.inputs.as_slice())?;
    push_vars(&mut names, node.outputs.as_slice())?;
    push_vars(&mut names, node.locals.as_slice())?;
    Ok(names)
}

// Adds the names of streams or constants.
fn push_vars<'a>(names: &mut Vec<&'a Ident>, vars: &'a [Var]) -> Result<(), OutOfMemory>
    ensures { OnOk result (map (λ n. n.now) names.new.items ≡ map (λ n. n.now) names.old.items ++ map (λ v. v.name) vars.now) }
{
    for item in vars {
        names.push(&item.name)?;
    }
    Ok(())
}

/// The names that a node sees beside its own: those of constants and of nodes.
pub fn seen_names<'a>(alloc: Global, sight: &Sight<'a>) -> Result<Vec<&'a Ident>, OutOfMemory>
    ensures { IfOk result (λ v. map (λ n. n.now) v.items ≡ node_sees sight.now) }
{
    let mut names = Vec::new(alloc);
    push_constants(&mut names, sight.constants.as_slice())?;
    push_nodes(&mut names, sight.nodes.as_slice())?;
    Ok(names)
}

/// Adds the names that equations set.
pub fn push_equations<'a>(
    names: &mut Vec<&'a Ident>,
    equations: &'a [Equal],
) -> Result<(), OutOfMemory>
    ensures { OnOk result (map (λ n. n.now) names.new.items ≡ map (λ n. n.now) names.old.items ++ map (λ e. e.name) equations.now) }
{
    for item in equations {
        names.push(&item.name)?;
    }
    Ok(())
}

// Adds the names that a clause declares for its site.
fn push_declared_in<'a>(names: &mut Vec<&'a Ident>, clause: &'a Clause) -> Result<(), OutOfMemory>
    ensures { OnOk result (map (λ n. n.now) names.new.items ≡ map (λ n. n.now) names.old.items ++ declared_in clause.now) }
{
    match clause {
        Clause::Eq { names: streams, .. } => push_vars(names, streams.as_slice()),
        Clause::Const { name: item, .. } => {
            names.push(&item.name)?;
            Ok(())
        }
        Clause::Node(node) => {
            names.push(&node.name)?;
            Ok(())
        }
        _ => Ok(()),
    }
}

// Adds the names that clauses declare.
fn push_declared<'a>(names: &mut Vec<&'a Ident>, clauses: &'a [Clause]) -> Result<(), OutOfMemory>
    ensures { OnOk result (map (λ n. n.now) names.new.items ≡ map (λ n. n.now) names.old.items ++ flat_map declared_in clauses.now) }
{
    for clause in clauses {
        push_declared_in(names, clause)?;
    }
    Ok(())
}

// Adds the name that a clause assigns, if it is an assign.
fn push_assign<'a>(names: &mut Vec<&'a Ident>, clause: &'a Clause) -> Result<(), OutOfMemory>
    ensures { OnOk result (map (λ n. n.now) names.new.items ≡ map (λ n. n.now) names.old.items ++ assign_in clause.now) }
{
    match clause {
        Clause::Assign(assign) => {
            names.push(&assign.name)?;
            Ok(())
        }
        _ => Ok(()),
    }
}

// Adds the names that clauses assign.
fn push_assigns<'a>(names: &mut Vec<&'a Ident>, clauses: &'a [Clause]) -> Result<(), OutOfMemory>
    ensures { OnOk result (map (λ n. n.now) names.new.items ≡ map (λ n. n.now) names.old.items ++ flat_map assign_in clauses.now) }
{
    for clause in clauses {
        push_assign(names, clause)?;
    }
    Ok(())
}

// Adds the names of constants.
fn push_constants<'a>(names: &mut Vec<&'a Ident>, constants: &[&'a Var]) -> Result<(), OutOfMemory>
    ensures { OnOk result (map (λ n. n.now) names.new.items ≡ map (λ n. n.now) names.old.items ++ map (λ v. v.name) (map (λ v. v.now) constants.now)) }
{
    for constant in constants {
        let constant: &'a Var = *constant;
        names.push(&constant.name)?;
    }
    Ok(())
}

// Adds the names of nodes.
fn push_nodes<'a>(names: &mut Vec<&'a Ident>, nodes: &[&'a NodeDef]) -> Result<(), OutOfMemory>
    ensures { OnOk result (map (λ n. n.now) names.new.items ≡ map (λ n. n.now) names.old.items ++ map (λ n. n.name) (map (λ n. n.now) nodes.now)) }
{
    for node in nodes {
        let node: &'a NodeDef = *node;
        names.push(&node.name)?;
    }
    Ok(())
}
