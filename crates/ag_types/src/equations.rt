//! What a node breaks: its names are declared once, and each output and local has one equation, whose value
//! has its type.
ghost use Rattle.std.specs.Prelude.{◌≡◌, ◌++◌, ℕ, List, OnOk, IfOk, not, is_none, map};
ghost use Rattle.std.specs.List.{flat_map, list_any};
ghost use Rattle.std.specs.List.Sorted.{IsSortedBy, IsPermutation};
ghost use Rattle.std.specs.Coded.{codes};
ghost use Rattle.std.proofs.Props.{props};
ghost use Rattle.ag_terms.specs.Names.{same};
ghost use Rattle.ag_symbols.specs.Indexed.{is_below, first_by};
ghost use Rattle.ag_types.specs.ClauseFaults.{node_faults, node_sees, node_equation, unset, equation_names, equal_faults};
ghost use Rattle.ag_types.specs.Places.{first_broken};

use crate::claims::equal;
use crate::earliest::Earliest;
use crate::places::either;
use crate::twice::{first_equation_twice, node_twice_among};
use crate::types::unknown;
use ag_base::{OutOfMemory, Refusal};
use ag_symbols::{Sight, Site, Slot, Vars, find_name, node_results, node_streams, sort_names};
use ag_terms::{Equal, NodeDef, Var};
use std::alloc::Global;

/// The first rule that a node of the site breaks, with the names that the site's nodes see beside their own.
pub fn node(
    alloc: Global,
    site: &Site<'_>,
    seen: &Earliest<'_>,
    node: &NodeDef,
) -> Result<Option<Refusal>, OutOfMemory>
    requires { IsPermutation (node_sees site.now) seen.now }
    ensures { IfOk result (λ r. r ≡ first_broken (node_faults site.now node.now)) }
{
    let of_names = node_twice_among(alloc, seen, node)?;
    let of_equations = equations(alloc, site, node)?;
    let of_equation_names = first_equation_twice(alloc, node)?;
    let of_results = unset_result(alloc, node)?;
    let of_later = either(of_equation_names, of_results);
    Ok(either(of_names, either(of_equations, of_later)))
}

fn equations(alloc: Global, site: &Site<'_>, node: &NodeDef) -> Result<Option<Refusal>, OutOfMemory>
    ensures { IfOk result (λ r. r ≡ first_broken (flat_map (node_equation site.now node.now) node.now.equations)) }
{
    let own = node_streams(alloc, node)?;
    let results = node_results(alloc, node)?;
    let sight = site.sight_of(&own);
    Ok(equals(&sight, &results, node.equations.as_slice()))
}

fn equals(sight: &Sight<'_>, targets: &Vars<'_>, equations: &[Equal]) -> Option<Refusal>
    ensures { result ≡ first_broken (flat_map (equal_faults sight.now targets.now) equations.now) }
{
    let mut broken = None;
    for equation in equations {
        broken = either(broken, equal(sight, targets, equation));
    }
    broken
}

// The names of equations, in their order.
#[derive(Drop)]
struct SetNames<'a> {
    equations: &'a [Equal],
    slots: Vec<Slot<'a>>,
    ghost sorted: { IsSortedBy (is_below (λ e. e.name.now)) slots.items } by { Prim.hlevel props },
    ghost named: { (name : List ℕ) → not (is_none (first_by (λ e. e.name.now) (λ e. e.at) name slots.items)) ≡ list_any (λ i. same i.text name) (map (λ e. e.name) equations.now) } by { Prim.hlevel (props, codes) },
}

// The first output or local without an equation.
fn unset_result(alloc: Global, node: &NodeDef) -> Result<Option<Refusal>, OutOfMemory>
    ensures { IfOk result (λ r. r ≡ first_broken (flat_map (unset (equation_names node.now)) (node.now.outputs ++ node.now.locals))) }
{
    let set = names_set(alloc, node.equations.as_slice())?;
    let of_outputs = unset_among(&set, node.outputs.as_slice());
    let of_locals = unset_among(&set, node.locals.as_slice());
    Ok(either(of_outputs, of_locals))
}

fn names_set(alloc: Global, equations: &[Equal]) -> Result<SetNames<'_>, OutOfMemory>
    ensures { IfOk result (λ s. s.equations.now ≡ equations.now) }
{
    let mut slots = Vec::new(alloc);
    push_names(&mut slots, equations)?;
    sort_names(&mut slots)?;
    Ok(SetNames { equations, slots })
}

fn push_names<'a>(slots: &mut Vec<Slot<'a>>, equations: &'a [Equal]) -> Result<(), OutOfMemory>
    ensures { OnOk result (map (λ e. e.name.now) slots.new.items ≡ map (λ e. e.name.now) slots.old.items ++ map (λ e. e.name.text) equations.now) }
{
    for (at, equation) in equations.iter().enumerate() {
        let name = equation.name.text.as_bytes();
        slots.push(Slot { name, at })?;
    }
    Ok(())
}

fn unset_among(set: &SetNames<'_>, vars: &[Var]) -> Option<Refusal>
    ensures { result ≡ first_broken (flat_map (unset (map (λ e. e.name) set.now.equations.now)) vars.now) }
{
    let mut broken = None;
    for var in vars {
        broken = either(broken, unset(set, var));
    }
    broken
}

fn unset(set: &SetNames<'_>, var: &Var) -> Option<Refusal>
    ensures { result ≡ first_broken (unset (map (λ e. e.name) set.now.equations.now) var.now) }
{
    if find_name(set.slots.as_slice(), var.name.text.as_bytes()).is_some() {
        None
    } else {
        unknown(var.name.place)
    }
}
