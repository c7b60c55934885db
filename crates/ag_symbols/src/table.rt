//! Streams, constants and nodes in their order, found by their names.
ghost use Rattle.std.specs.Prelude.{◌≡◌, ℕ, List, Option, None, Some, map, IfOk, OnOk, slice_get};
ghost use Rattle.std.specs.List.Sorted.{IsSortedBy};
ghost use Rattle.std.specs.Option.{option_copied};
ghost use Rattle.std.specs.Coded.{codes};
ghost use Rattle.std.proofs.Props.{props};
ghost use Rattle.ag_terms.specs.contracts.terms.Term as term;
ghost use Rattle.ag_symbols.specs.Indexed.{is_below, first_by, found_first};
ghost use Rattle.ag_symbols.specs.Seen.{position, position_from, var_name, node_name, sought, value_named};

use crate::index::{Slot, find, find_name, sort_names};
use ag_base::OutOfMemory;
use ag_terms::{NodeDef, Path, Var};
use std::alloc::Global;
use std::marker::Model;

/// Streams or constants. It is seen as their list.
#[derive(Drop)]
pub struct Vars<'a> {
    vars: Vec<&'a Var>,
    slots: Vec<Slot<'a>>,
    ghost sorted: { IsSortedBy (is_below (λ e. e.name.now)) slots.items } by { Prim.hlevel props },
    ghost placed: { (name : List ℕ) → first_by (λ e. e.name.now) (λ e. e.at) name slots.items ≡ position_from var_name name 0 (map (λ v. v.now) vars.items) } by { Prim.hlevel (props, codes, term.the_row.coded) },
}

impl<'a> Model for Vars<'a> {
    ghost use Rattle.std.specs.Prelude.{List, map};
    ghost use Rattle.std.specs.Coded.{codes};
    ghost use Rattle.ag_terms.specs.declared.clauses.Var.{Var};

    ghost Value = { List Var };

    ghost coded = { Prim.hlevel codes };

    ghost view = { λ t. map (λ v. v.now) t.vars.items };
}

impl<'a> Vars<'a> {
    /// These, to be found by their names.
    pub fn make(alloc: Global, vars: Vec<&'a Var>) -> Result<Vars<'a>, OutOfMemory>
        ensures { IfOk result (λ t. t ≡ map (λ v. v.now) vars.entry.items) }
    {
        let mut slots = Vec::new(alloc);
        push_slots(&mut slots, vars.as_slice())?;
        sort_names(&mut slots)?;
        Ok(Vars { vars, slots })
    }

    /// The position of the name that a path has.
    pub(crate) fn position(&self, path: &Path) -> Option<usize>
        ensures { result ≡ position var_name (sought path.now path.now.«package») self.now }
    {
        if path.package.is_some() {
            return None;
        }
        find(self.slots.as_slice(), path)
    }

    /// The one at a position.
    pub fn get(&self, at: usize) -> Option<&'a Var>
        ensures { option_copied result ≡ slice_get self.now at }
    {
        match self.vars.get(at) {
            None => None,
            Some(var) => Some(*var),
        }
    }

    /// The one that a path names.
    pub(crate) fn of_path(&self, path: &Path) -> Option<&'a Var>
        ensures { option_copied result ≡ elim (sought path.now path.now.«package») [ None ↦ None | Some name ↦ value_named name self.now ] }
    {
        match self.position(path) {
            None => None,
            Some(at) => self.get(at),
        }
    }

    /// The one of a name.
    pub fn of_name(&self, name: &[u8]) -> Option<&'a Var>
        ensures { option_copied result ≡ value_named name.now self.now }
    {
        match find_name(self.slots.as_slice(), name) {
            None => None,
            Some(at) => self.get(at),
        }
    }

    /// All, in their order.
    pub fn as_slice(&self) -> &[&'a Var]
        ensures { map (λ v. v.now) result.now ≡ self.now }
    {
        self.vars.as_slice()
    }
}

fn push_slots<'a>(slots: &mut Vec<Slot<'a>>, vars: &[&'a Var]) -> Result<(), OutOfMemory>
    ensures { OnOk result ((name : List ℕ) → first_by (λ e. e.name.now) (λ e. e.at) name slots.new.items ≡ found_first (first_by (λ e. e.name.now) (λ e. e.at) name slots.old.items) (position_from var_name name 0 (map (λ v. v.now) vars.now))) }
{
    let mut at = 0;
    for var in vars {
        let var: &'a Var = *var;
        let name = var.name.text.as_bytes();
        slots.push(Slot { name, at })?;
        at += 1;
    }
    Ok(())
}

/// Nodes. It is seen as their list.
#[derive(Drop)]
pub struct Nodes<'a> {
    nodes: Vec<&'a NodeDef>,
    slots: Vec<Slot<'a>>,
    ghost sorted: { IsSortedBy (is_below (λ e. e.name.now)) slots.items } by { Prim.hlevel props },
    ghost placed: { (name : List ℕ) → first_by (λ e. e.name.now) (λ e. e.at) name slots.items ≡ position_from node_name name 0 (map (λ n. n.now) nodes.items) } by { Prim.hlevel (props, codes, term.the_row.coded) },
}

impl<'a> Model for Nodes<'a> {
    ghost use Rattle.std.specs.Prelude.{List, map};
    ghost use Rattle.std.specs.Coded.{codes};
    ghost use Rattle.ag_terms.specs.contracts.terms.Term as term;
    ghost use Rattle.ag_terms.specs.declared.clauses.NodeDef.{NodeDef};

    ghost Value = { List NodeDef };

    ghost coded = { Prim.hlevel (codes, term.the_row.coded) };

    ghost view = { λ t. map (λ n. n.now) t.nodes.items };
}

impl<'a> Nodes<'a> {
    /// These, to be found by their names.
    pub(crate) fn make(alloc: Global, nodes: Vec<&'a NodeDef>) -> Result<Nodes<'a>, OutOfMemory>
        ensures { IfOk result (λ t. t ≡ map (λ n. n.now) nodes.entry.items) }
    {
        let mut slots = Vec::new(alloc);
        push_node_slots(&mut slots, nodes.as_slice())?;
        sort_names(&mut slots)?;
        Ok(Nodes { nodes, slots })
    }

    /// The position of the name that a path has.
    pub(crate) fn position(&self, path: &Path) -> Option<usize>
        ensures { result ≡ position node_name (sought path.now path.now.«package») self.now }
    {
        if path.package.is_some() {
            return None;
        }
        find(self.slots.as_slice(), path)
    }

    /// The one that a path names.
    pub(crate) fn of_path(&self, path: &Path) -> Option<&'a NodeDef>
        ensures { option_copied result ≡ elim (position node_name (sought path.now path.now.«package») self.now) [ None ↦ None | Some at ↦ slice_get self.now at ] }
    {
        match self.position(path) {
            None => None,
            Some(at) => match self.nodes.get(at) {
                None => None,
                Some(node) => Some(*node),
            },
        }
    }

    /// All, in their order.
    pub fn as_slice(&self) -> &[&'a NodeDef]
        ensures { map (λ n. n.now) result.now ≡ self.now }
    {
        self.nodes.as_slice()
    }
}

fn push_node_slots<'a>(slots: &mut Vec<Slot<'a>>, nodes: &[&'a NodeDef]) -> Result<(), OutOfMemory>
    ensures { OnOk result ((name : List ℕ) → first_by (λ e. e.name.now) (λ e. e.at) name slots.new.items ≡ found_first (first_by (λ e. e.name.now) (λ e. e.at) name slots.old.items) (position_from node_name name 0 (map (λ n. n.now) nodes.now))) }
{
    let mut at = 0;
    for node in nodes {
        let node: &'a NodeDef = *node;
        let name = node.name.text.as_bytes();
        slots.push(Slot { name, at })?;
        at += 1;
    }
    Ok(())
}
