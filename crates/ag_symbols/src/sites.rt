//! What the clauses of each site see.
ghost use Rattle.std.specs.Prelude.{◌≡◌, ◌++◌, map, IfOk};
ghost use Rattle.std.specs.List.{flat_map};
ghost use Rattle.ag_symbols.specs.Seen.{Seen, names_at, library_names, frame_names, names_seen, node_vars, eq_streams_in, constants_in, nodes_in, targets, seen_of};

use crate::gather::{push_constants, push_nodes, push_own, push_streams, push_vars};
use crate::sight::Sight;
use crate::table::{Nodes, Vars};
use ag_base::OutOfMemory;
use ag_terms::{Clause, NodeDef, Var};
use std::alloc::Global;
use std::marker::Model;

/// What the clauses of a site see. It is seen as these names.
#[derive(Drop)]
pub struct Site<'a> {
    streams: Vars<'a>,
    constants: Vars<'a>,
    nodes: Nodes<'a>,
}

impl<'a> Model for Site<'a> {
    ghost use Rattle.std.specs.Coded.{codes};
    ghost use Rattle.ag_terms.specs.contracts.terms.Term as term;
    ghost use Rattle.ag_symbols.specs.Seen.{Names};

    ghost Value = { Names };

    ghost coded = { Prim.hlevel (codes, term.the_row.coded) };

    ghost view = { λ s. record { streams = s.streams; constants = s.constants; nodes = s.nodes } };
}

impl<'a> Site<'a> {
    // These streams, and what three lists of clauses declare.
    fn make(
        alloc: Global,
        ports: Vec<&'a Var>,
        first: &'a [Clause],
        second: &'a [Clause],
        third: &'a [Clause],
    ) -> Result<Site<'a>, OutOfMemory>
        ensures { IfOk result (λ s. s ≡ names_at (map (λ v. v.now) ports.entry.items) (first.now ++ (second.now ++ third.now))) }
    {
        let streams = streams_of(alloc, ports, first, second, third)?;
        let constants = constants_of(alloc, first, second, third)?;
        let nodes = nodes_of(alloc, first, second, third)?;
        Ok(Site {
            streams,
            constants,
            nodes,
        })
    }

    /// What an expression of a clause may name.
    pub fn sight(&self) -> Sight<'_>
        ensures { result ≡ self.now }
    {
        Sight {
            streams: &self.streams,
            constants: &self.constants,
            nodes: &self.nodes,
        }
    }

    /// What an equation of a node with these streams may name.
    pub fn sight_of<'s>(&'s self, own: &'s Vars<'_>) -> Sight<'s>
        ensures { result ≡ record { streams = own.now; constants = self.now.constants; nodes = self.now.nodes } }
    {
        Sight {
            streams: own,
            constants: &self.constants,
            nodes: &self.nodes,
        }
    }
}

/// What the clauses of a package, of a component type and of an implementation see.
#[derive(Drop)]
pub struct Sites<'a> {
    pub library: Site<'a>,
    pub frame: Site<'a>,
    pub body: Site<'a>,
}

impl<'a> Sites<'a> {
    /// `ports` are the streams that aren't declared by these clauses: those of own ports by their names, and those
    /// of subcomponents, of their ports and by `eq` of their types, as `c.x`. A port without a stream isn't listed.
    pub fn make(
        alloc: Global,
        library: &'a [Clause],
        frame: &'a [Clause],
        body: &'a [Clause],
        ports: &'a [Var],
    ) -> Result<Sites<'a>, OutOfMemory>
        ensures library { IfOk result (λ s. s.library ≡ library_names (seen_of library.now frame.now body.now ports.now)) }
        ensures frame { IfOk result (λ s. s.frame ≡ frame_names (seen_of library.now frame.now body.now ports.now)) }
        ensures body { IfOk result (λ s. s.body ≡ names_seen (seen_of library.now frame.now body.now ports.now)) }
    {
        let mut own = Vec::new(alloc);
        push_own(&mut own, ports)?;
        let mut all = Vec::new(alloc);
        push_vars(&mut all, ports)?;
        let library_site = Site::make(alloc, Vec::new(alloc), &[], &[], library)?;
        let frame_site = Site::make(alloc, own, &[], library, frame)?;
        let body_site = Site::make(alloc, all, library, frame, body)?;
        Ok(Sites {
            library: library_site,
            frame: frame_site,
            body: body_site,
        })
    }
}

fn streams_of<'a>(
    alloc: Global,
    ports: Vec<&'a Var>,
    first: &'a [Clause],
    second: &'a [Clause],
    third: &'a [Clause],
) -> Result<Vars<'a>, OutOfMemory>
    ensures { IfOk result (λ t. t ≡ map (λ v. v.now) ports.entry.items ++ flat_map eq_streams_in (first.now ++ (second.now ++ third.now))) }
{
    let mut streams = ports;
    push_streams(&mut streams, first)?;
    push_streams(&mut streams, second)?;
    push_streams(&mut streams, third)?;
    Vars::make(alloc, streams)
}

fn constants_of<'a>(
    alloc: Global,
    first: &'a [Clause],
    second: &'a [Clause],
    third: &'a [Clause],
) -> Result<Vars<'a>, OutOfMemory>
    ensures { IfOk result (λ t. t ≡ flat_map constants_in (first.now ++ (second.now ++ third.now))) }
{
    let mut constants = Vec::new(alloc);
    push_constants(&mut constants, first)?;
    push_constants(&mut constants, second)?;
    push_constants(&mut constants, third)?;
    Vars::make(alloc, constants)
}

fn nodes_of<'a>(
    alloc: Global,
    first: &'a [Clause],
    second: &'a [Clause],
    third: &'a [Clause],
) -> Result<Nodes<'a>, OutOfMemory>
    ensures { IfOk result (λ t. t ≡ flat_map nodes_in (first.now ++ (second.now ++ third.now))) }
{
    let mut nodes = Vec::new(alloc);
    push_nodes(&mut nodes, first)?;
    push_nodes(&mut nodes, second)?;
    push_nodes(&mut nodes, third)?;
    Nodes::make(alloc, nodes)
}

/// The streams that an `assign` may have: own ports, and those that clauses declare.
pub fn assign_targets<'a>(
    alloc: Global,
    library: &'a [Clause],
    frame: &'a [Clause],
    body: &'a [Clause],
    ports: &'a [Var],
) -> Result<Vars<'a>, OutOfMemory>
    ensures { IfOk result (λ t. t ≡ targets (seen_of library.now frame.now body.now ports.now)) }
{
    let mut own = Vec::new(alloc);
    push_own(&mut own, ports)?;
    streams_of(alloc, own, library, frame, body)
}

/// A node's inputs, outputs and locals.
pub fn node_streams<'a>(alloc: Global, node: &'a NodeDef) -> Result<Vars<'a>, OutOfMemory>
    ensures { IfOk result (λ t. t ≡ node_vars node.now) }
{
    let mut own = Vec::new(alloc);
    push_vars(&mut own, node.inputs.as_slice())?;
    push_vars(&mut own, node.outputs.as_slice())?;
    push_vars(&mut own, node.locals.as_slice())?;
    Vars::make(alloc, own)
}

/// A node's outputs and locals.
pub fn node_results<'a>(alloc: Global, node: &'a NodeDef) -> Result<Vars<'a>, OutOfMemory>
    ensures { IfOk result (λ t. t ≡ node.now.outputs ++ node.now.locals) }
{
    let mut results = Vec::new(alloc);
    push_vars(&mut results, node.outputs.as_slice())?;
    push_vars(&mut results, node.locals.as_slice())?;
    Vars::make(alloc, results)
}
