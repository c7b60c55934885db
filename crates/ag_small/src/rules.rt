//! The rules that a package keeps beyond its grammar.
ghost use Rattle.std.specs.Prelude.{◌≡◌, ◌&&◌, ◌||◌, ◌+◌, [], not, length, nat_le};
ghost use Rattle.std.specs.List.{list_any, list_all, flat_map};
ghost use Rattle.ag_small.specs.Grammar.{formula_text, claim_text, assign_text};
ghost use Rattle.ag_small.specs.Rules.{names_port, names_input, names_output, ports_differ, all_names, is_assigned, may_follow, all_follow};
ghost use Rattle.ag_small.specs.Reading.{is_well_formed, left_of};
ghost use Rattle.ag_small.specs.Nodes.{expression_of};

use crate::class::same;
use crate::package::{Assign, Claim, Node, Package, Port};

// In the two annexes together.
const MAX_TOKENS: usize = 1000;

fn names_port(ports: &[Port], name: &[u8]) -> bool
    ensures { result ≡ names_port ports.now name.now }
{
    ports.iter().any(|port| same(name, port.name.as_bytes()))
}

fn names_input(ports: &[Port], name: &[u8]) -> bool
    ensures { result ≡ names_input ports.now name.now }
{
    ports
        .iter()
        .any(|port| !port.outward && same(name, port.name.as_bytes()))
}

fn names_output(ports: &[Port], name: &[u8]) -> bool
    ensures { result ≡ names_output ports.now name.now }
{
    ports
        .iter()
        .any(|port| port.outward && same(name, port.name.as_bytes()))
}

fn ports_differ(ports: &[Port]) -> bool
    ensures { result ≡ ports_differ ports.now }
{
    let mut rest = ports;
    while let [first, later @ ..] = rest {
        if names_port(later, first.name.as_bytes()) {
            return false;
        }
        rest = later;
    }
    true
}

fn names_ports(ports: &[Port], node: &Node) -> bool
    ensures { result ≡ all_names (names_port ports.now) (expression_of node.now) }
{
    match node {
        Node::Truth(_) => true,
        Node::Named(name) => names_port(ports, name.as_bytes()),
        Node::Group(f) | Node::Not(f) => names_ports(ports, f),
        Node::And(f, g) | Node::Or(f, g) | Node::Implies(f, g) => {
            names_ports(ports, f) && names_ports(ports, g)
        }
    }
}

fn all_name_ports(ports: &[Port], claims: &[Claim]) -> bool
    ensures { result ≡ list_all (λ c. all_names (names_port ports.now) c.formula) claims.now }
{
    claims
        .iter()
        .all(|claim| names_ports(ports, claim.formula.node()))
}

fn is_assigned(assigns: &[Assign], name: &[u8]) -> bool
    ensures { result ≡ is_assigned assigns.now name.now }
{
    assigns
        .iter()
        .any(|assign| same(name, assign.name.as_bytes()))
}

fn may_follow(ports: &[Port], earlier: &[Assign], assign: &Assign) -> bool
    ensures { result ≡ may_follow ports.now earlier.now assign.now }
{
    let name = assign.name.as_bytes();
    if !names_output(ports, name) || is_assigned(earlier, name) {
        return false;
    }
    names_known(ports, earlier, assign.value.node())
}

fn names_known(ports: &[Port], earlier: &[Assign], node: &Node) -> bool
    ensures { result ≡ all_names (λ name. names_input ports.now name || is_assigned earlier.now name) (expression_of node.now) }
{
    match node {
        Node::Truth(_) => true,
        Node::Named(name) => {
            names_input(ports, name.as_bytes()) || is_assigned(earlier, name.as_bytes())
        }
        Node::Group(f) | Node::Not(f) => names_known(ports, earlier, f),
        Node::And(f, g) | Node::Or(f, g) | Node::Implies(f, g) => {
            names_known(ports, earlier, f) && names_known(ports, earlier, g)
        }
    }
}

fn all_follow(ports: &[Port], assigns: &[Assign]) -> bool
    ensures { result ≡ all_follow ports.now [] assigns.now }
{
    for (i, assign) in assigns.iter().enumerate() {
        if !may_follow(ports, &assigns[..i], assign) {
            return false;
        }
    }
    true
}

// What is left of a number of tokens behind a formula, if it suffices.
#[tactic(auto, unfolding(crate::specs::Reading::left_of))]
fn behind_formula(node: &Node, tokens: usize) -> Option<usize>
    ensures { result ≡ left_of tokens (length (formula_text (expression_of node.now))) }
{
    let tokens = tokens.checked_sub(1)?;
    match node {
        Node::Truth(_) | Node::Named(_) => Some(tokens),
        Node::Not(f) => behind_formula(f, tokens),
        Node::Group(f) => behind_formula(f, tokens)?.checked_sub(1),
        Node::And(f, g) | Node::Or(f, g) | Node::Implies(f, g) => {
            behind_formula(g, behind_formula(f, tokens)?)
        }
    }
}

// The same behind claims, each of which has four tokens beside its formula.
#[tactic(auto, unfolding(crate::specs::Reading::left_of))]
fn behind_claims(claims: &[Claim], tokens: usize) -> Option<usize>
    ensures { result ≡ left_of tokens (length (flat_map claim_text claims.now)) }
{
    let mut left = tokens;
    for claim in claims {
        left = behind_formula(claim.formula.node(), left.checked_sub(4)?)?;
    }
    Some(left)
}

// The same behind assigns.
#[tactic(auto, unfolding(crate::specs::Reading::left_of))]
fn behind_assigns(assigns: &[Assign], tokens: usize) -> Option<usize>
    ensures { result ≡ left_of tokens (length (flat_map assign_text assigns.now)) }
{
    let mut left = tokens;
    for assign in assigns {
        left = behind_formula(assign.value.node(), left.checked_sub(4)?)?;
    }
    Some(left)
}

#[tactic(auto, unfolding(crate::specs::Reading::left_of))]
fn few_tokens(claims: &[Claim], assigns: &[Assign]) -> bool
    ensures { result ≡ nat_le (length (flat_map claim_text claims.now) + length (flat_map assign_text assigns.now)) 1000 }
{
    match behind_claims(claims, MAX_TOKENS) {
        Some(left) => behind_assigns(assigns, left).is_some(),
        None => false,
    }
}

/// Whether a package keeps the rules that reading it doesn't ensure.
pub fn is_well_formed(model: &Package) -> bool
    ensures { result ≡ is_well_formed model.now }
{
    let ports = model.ports.as_slice();
    let claims = model.claims.as_slice();
    let assigns = model.assigns.as_slice();
    ports_differ(ports)
        && all_name_ports(ports, claims)
        && all_follow(ports, assigns)
        && few_tokens(claims, assigns)
}
