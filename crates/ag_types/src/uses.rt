//! Which constants and nodes of a scope use which, and the first that uses itself.
ghost use Rattle.std.specs.Prelude.{◌≡◌, ◌<◌, ◌≤◌, ◌+◌, ◌^◌, ◌++◌, ◌∷◌, [], map, length, IfOk, OnOk};
ghost use Rattle.std.specs.List.{flat_map};
ghost use Rattle.ag_graph.specs.Circles.{AreCircles, IsGraph};
ghost use Rattle.ag_symbols.specs.Seen.{Seen, library_names, frame_names, names_seen, names_of_node, sought, position, node_name};
ghost use Rattle.ag_types.specs.Answers.{IsFirst};
ghost use Rattle.ag_types.specs.Places.{first_broken};
ghost use Rattle.ag_types.specs.Uses.{constant_in, constants_of, of_constant, of_node, at_most_one, behind, used_in, used_by, uses_of, with_edges, circular, circular_from, IsCircular};

use crate::places::either;
use ag_base::{OutOfMemory, Place, Refusal, Rule};
use ag_graph::{Circles, Graph};
use ag_symbols::{Sight, Site, Sites, node_streams};
use ag_terms::{Clause, NodeDef, Path, Term, Var};
use std::alloc::Global;
use std::marker::Model;

/// A constant with what its expression sees.
#[derive(Drop)]
pub struct Constant<'a> {
    pub var: &'a Var,
    pub sight: Sight<'a>,
    pub term: &'a Term,
}

impl<'a> Model for Constant<'a> {
    ghost use Rattle.std.specs.Coded.{codes};
    ghost use Rattle.ag_terms.specs.contracts.terms.Term as expression;
    ghost use Rattle.ag_types.specs.Uses.{Constant};

    ghost Value = { Constant };

    ghost coded = { Prim.hlevel (codes, expression.the_row.coded) };

    ghost view = { λ c. record { var = c.var.now; names = c.sight; term = c.term.now } };
}

/// The constants that these clauses declare, in order.
pub fn constants<'a>(
    alloc: Global,
    sites: &'a Sites<'_>,
    library: &'a [Clause],
    frame: &'a [Clause],
    body: &'a [Clause],
) -> Result<Vec<Constant<'a>>, OutOfMemory>
    ensures { IfOk result (λ cs. cs.items ≡ flat_map (constant_in sites.now.library) library.now ++ (flat_map (constant_in sites.now.frame) frame.now ++ flat_map (constant_in sites.now.body) body.now)) }
{
    let mut constants = Vec::new(alloc);
    push_constants(&mut constants, &sites.library, library)?;
    push_constants(&mut constants, &sites.frame, frame)?;
    push_constants(&mut constants, &sites.body, body)?;
    Ok(constants)
}

fn push_constants<'a>(
    constants: &mut Vec<Constant<'a>>,
    site: &'a Site<'_>,
    clauses: &'a [Clause],
) -> Result<(), OutOfMemory>
    ensures { OnOk result (constants.new.items ≡ constants.old.items ++ flat_map (constant_in site.now) clauses.now) }
{
    for clause in clauses {
        push_constant_in(constants, site, clause)?;
    }
    Ok(())
}

// A constant of a site.
fn constant_of<'a>(site: &'a Site<'_>, var: &'a Var, term: &'a Term) -> Constant<'a>
    ensures { result ≡ record { var = var.now; names = site.now; term = term.now } }
{
    let sight = site.sight();
    Constant { var, sight, term }
}

fn push_constant_in<'a>(
    constants: &mut Vec<Constant<'a>>,
    site: &'a Site<'_>,
    clause: &'a Clause,
) -> Result<(), OutOfMemory>
    ensures { OnOk result (constants.new.items ≡ constants.old.items ++ constant_in site.now clause.now) }
{
    match clause {
        Clause::Const { name, value } => {
            constants.push(constant_of(site, name, value))?;
            Ok(())
        }
        Clause::Assume(_) | Clause::Guarantee(_) | Clause::Lemma(_) => Ok(()),
        Clause::Eq { .. } | Clause::Assign(_) | Clause::Node(_) => Ok(()),
    }
}

/// For each constant of these clauses, and for each node behind them, those that it uses.
pub fn uses(
    alloc: Global,
    sites: &Sites<'_>,
    constants: &[Constant<'_>],
    library: &[Clause],
    frame: &[Clause],
    body: &[Clause],
) -> Result<Graph, OutOfMemory>
    ghost seen: { Seen }
    requires clauses { (seen.library ≡ library.now) × (seen.frame ≡ frame.now) × (seen.body ≡ body.now) }
    requires sites { (sites.now.library ≡ library_names seen) × (sites.now.frame ≡ frame_names seen) × (sites.now.body ≡ names_seen seen) }
    requires constants { constants.now ≡ constants_of seen }
    ensures uses { IfOk result (λ g. g ≡ uses_of seen) }
    ensures graph { IfOk result IsGraph }
{
    let mut graph = Graph::new(alloc);
    let count = constants.len();
    push_constant_uses(&mut graph, constants)?;
    push_node_uses(alloc, &mut graph, count, &sites.library, library)?;
    push_node_uses(alloc, &mut graph, count, &sites.frame, frame)?;
    push_node_uses(alloc, &mut graph, count, &sites.body, body)?;
    Ok(graph)
}

fn push_constant_uses(graph: &mut Graph, constants: &[Constant<'_>]) -> Result<(), OutOfMemory>
    ensures { OnOk result (graph.new ≡ graph.old ++ map (used_by (length constants.now)) (map of_constant constants.now)) }
{
    for constant in constants {
        graph.push_vertex()?;
        push_uses(graph, &constant.sight, constants.len(), constant.term)?;
    }
    Ok(())
}

fn push_node_uses(
    alloc: Global,
    graph: &mut Graph,
    constants: usize,
    site: &Site<'_>,
    clauses: &[Clause],
) -> Result<(), OutOfMemory>
    requires { constants < 2 ^ 63 }
    ensures { OnOk result (graph.new ≡ graph.old ++ map (used_by constants) (flat_map (of_node site.now) clauses.now)) }
{
    for clause in clauses {
        push_node_uses_in(alloc, graph, constants, site, clause)?;
    }
    Ok(())
}

fn push_node_uses_in(
    alloc: Global,
    graph: &mut Graph,
    constants: usize,
    site: &Site<'_>,
    clause: &Clause,
) -> Result<(), OutOfMemory>
    requires { constants < 2 ^ 63 }
    ensures { OnOk result (graph.new ≡ graph.old ++ map (used_by constants) (of_node site.now clause.now)) }
{
    match clause {
        Clause::Node(node) => push_uses_of_node(alloc, graph, constants, site, node),
        _ => Ok(()),
    }
}

fn push_uses_of_node(
    alloc: Global,
    graph: &mut Graph,
    constants: usize,
    site: &Site<'_>,
    node: &NodeDef,
) -> Result<(), OutOfMemory>
    requires { constants < 2 ^ 63 }
    ensures { OnOk result (graph.new ≡ graph.old ++ flat_map (used_in (names_of_node site.now node.now) constants) (map (λ e. e.value) node.now.equations) ∷ []) }
{
    let own = node_streams(alloc, node)?;
    let sight = site.sight_of(&own);
    graph.push_vertex()?;
    for equation in node.equations.as_slice() {
        push_uses(graph, &sight, constants, &equation.value)?;
    }
    Ok(())
}

// Lets the last vertex lead to what an expression names.
#[cycle(push_uses)]
fn push_uses(
    graph: &mut Graph,
    sight: &Sight<'_>,
    constants: usize,
    term: &Term,
) -> Result<(), OutOfMemory>
    requires some { 0 < length graph.old }
    requires constants { constants < 2 ^ 63 }
    ensures some { OnOk result (0 < length graph.new) }
    ensures edges { OnOk result (graph.new ≡ with_edges graph.old (used_in sight.now constants term.now)) }
{
    match term {
        Term::Number { .. } => Ok(()),
        Term::Truth { .. } => Ok(()),
        Term::Named { path } => push_use(graph, sight.constant(path)),
        Term::Unary { arg, .. } => push_uses(graph, sight, constants, arg.get()),
        Term::Binary { left, right, .. } => {
            push_uses(graph, sight, constants, left.get())?;
            push_uses(graph, sight, constants, right.get())
        }
        Term::Choice { test, yes, no, .. } => {
            push_uses(graph, sight, constants, test.get())?;
            push_uses(graph, sight, constants, yes.get())?;
            push_uses(graph, sight, constants, no.get())
        }
        Term::Call { path, args } => {
            push_use(graph, behind(sight, constants, path))?;
            push_argument_uses(graph, sight, constants, args.as_slice())
        }
    }
}

#[cycle(push_uses)]
fn push_argument_uses(
    graph: &mut Graph,
    sight: &Sight<'_>,
    constants: usize,
    args: &[Term],
) -> Result<(), OutOfMemory>
    requires some { 0 < length graph.old }
    requires constants { constants < 2 ^ 63 }
    ensures some { OnOk result (0 < length graph.new) }
    ensures edges { OnOk result (graph.new ≡ with_edges graph.old (flat_map (used_in sight.now constants) args.now)) }
{
    for arg in args {
        push_uses(graph, sight, constants, arg)?;
    }
    Ok(())
}

fn push_use(graph: &mut Graph, used: Option<usize>) -> Result<(), OutOfMemory>
    requires { 0 < length graph.old }
    ensures some { OnOk result (0 < length graph.new) }
    ensures edges { OnOk result (graph.new ≡ with_edges graph.old (at_most_one used)) }
{
    match used {
        None => Ok(()),
        Some(used) => graph.push_edge(used),
    }
}

// The vertex of the node that a call calls: nodes stand behind the constants.
fn behind(sight: &Sight<'_>, constants: usize, path: &Path) -> Option<usize>
    requires { constants < 2 ^ 63 }
    ensures { result ≡ behind constants (position node_name (sought path.now path.now.«package») sight.now.nodes) }
{
    // No slice has so many that the sum doesn't fit.
    let nodes = sight.nodes.as_slice();
    match sight.node(path) {
        None => None,
        Some(at) => Some(constants + at),
    }
}

/// The first constant or node that uses itself, directly or through others.
pub fn first_circle(
    sites: &Sites<'_>,
    constants: &[Constant<'_>],
    circles: &Circles,
) -> Option<Refusal>
    ghost seen: { Seen }
    requires sites { sites.now.body ≡ names_seen seen }
    requires constants { constants.now ≡ constants_of seen }
    requires circles { AreCircles (uses_of seen) circles.now.on_circle circles.now.order }
    ensures { IsFirst (IsCircular seen) result }
{
    let on_circle = circles.on_circle.as_slice();
    let sight = sites.body.sight();
    let of_constants = circular_constants(on_circle, constants);
    let of_nodes = circular_nodes(on_circle, constants.len(), sight.nodes.as_slice());
    either(of_constants, of_nodes)
}

fn circular_constants(on_circle: &[bool], constants: &[Constant<'_>]) -> Option<Refusal>
    requires { length constants.now ≤ length on_circle.now }
    ensures { result ≡ first_broken (circular_from on_circle.now 0 (map (λ c. c.var.name) constants.now)) }
{
    let mut broken = None;
    for (at, constant) in constants.iter().enumerate() {
        broken = either(broken, circular(on_circle[at], constant.var.name.place));
    }
    broken
}

// Nodes stand behind this many constants.
fn circular_nodes(on_circle: &[bool], constants: usize, nodes: &[&NodeDef]) -> Option<Refusal>
    requires { constants + length nodes.now ≤ length on_circle.now }
    ensures { result ≡ first_broken (circular_from on_circle.now constants (map (λ n. n.now.name) nodes.now)) }
{
    let mut broken = None;
    for (at, node) in nodes.iter().enumerate() {
        broken = either(broken, circular(on_circle[constants + at], node.name.place));
    }
    broken
}

fn circular(on_circle: bool, place: Place) -> Option<Refusal>
    ensures { result ≡ first_broken (circular on_circle place) }
{
    if on_circle {
        Some(Refusal {
            place,
            rule: Rule::NodeRecursion,
        })
    } else {
        None
    }
}
