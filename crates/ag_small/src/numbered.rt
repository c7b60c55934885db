//! The numbered problem of each obligation.
ghost use Rattle.std.specs.Prelude.{◌≡◌, ◌+◌, ◌<◌, ◌≤◌, ◌++◌, ◌∷◌, [], ℕ, map, length, IfOk, OnOk, IfSome, MatchOption, All};
ghost use Rattle.ag_small.specs.Rules.{IsWellFormed};
ghost use Rattle.ag_small.specs.Named.{is_of};
ghost use Rattle.ag_small.specs.Nodes.{expression_of};
ghost use Rattle.ag_small.specs.Numbered.{stream_of, part_count, own_part, parts_of, formulas, parts_in, all_parts, claim_parts, equations_from, numbers_from, draft_of, layer_name, key_of, guarantees_from, obligations_of};

use crate::class::same;
use crate::package::{Assign, Claim, ClaimKind, Node, Package, Port};
use ag_base::{List, OutOfMemory, Text};
use ag_stream::{Equation, Part, Problem, ProblemDraft, ProblemFault};
use ag_verdict::{Key, KeyKind, Obligation};
use std::alloc::Global;

fn stream_of(ports: &[Port], name: &[u8]) -> u16
    requires { length ports.now ≤ 12 }
    ensures { result ≡ stream_of ports.now name.now }
{
    for (i, port) in ports.iter().enumerate() {
        if same(name, port.name.as_bytes()) {
            return i as u16;
        }
    }
    ports.len() as u16
}

// Puts a formula's parts behind the others, and answers the number of its own part.
fn push_parts(parts: &mut List<Part>, ports: &[Port], node: &Node) -> Result<u16, OutOfMemory>
    requires ports { length ports.now ≤ 12 }
    requires few { length parts.old + part_count (expression_of node.now) ≤ 2000 }
    ensures parts { OnOk result (parts.new ≡ parts.old ++ parts_of ports.now (length parts.old) (expression_of node.now)) }
    ensures own { IfOk result (λ n. n ≡ own_part (length parts.old) (expression_of node.now)) }
    ensures count { OnOk result (length parts.new ≡ length parts.old + part_count (expression_of node.now)) }
{
    match node {
        Node::Truth(holds) => push_part(parts, Part::Truth(*holds)),
        Node::Named(name) => {
            let stream = stream_of(ports, name.as_bytes());
            push_part(
                parts,
                Part::Flag {
                    stream,
                    before: false,
                },
            )
        }
        Node::Group(f) => push_parts(parts, ports, f),
        Node::Not(f) => {
            let own = push_parts(parts, ports, f)?;
            push_part(parts, Part::Not(own))
        }
        Node::And(f, g) => {
            let left = push_parts(parts, ports, f)?;
            let right = push_parts(parts, ports, g)?;
            push_part(parts, Part::And(left, right))
        }
        Node::Or(f, g) => {
            let left = push_parts(parts, ports, f)?;
            let right = push_parts(parts, ports, g)?;
            push_part(parts, Part::Or(left, right))
        }
        Node::Implies(f, g) => {
            let left = push_parts(parts, ports, f)?;
            let right = push_parts(parts, ports, g)?;
            let not_left = push_part(parts, Part::Not(left))?;
            push_part(parts, Part::Or(not_left, right))
        }
    }
}

// Puts one part behind the others, and answers its number.
fn push_part(parts: &mut List<Part>, part: Part) -> Result<u16, OutOfMemory>
    requires { length parts.old < 2000 }
    ensures parts { OnOk result (parts.new ≡ parts.old ++ part ∷ []) }
    ensures own { IfOk result (λ n. n ≡ length parts.old) }
    ensures count { OnOk result (length parts.new ≡ length parts.old + 1) }
{
    let own = parts.len() as u16;
    parts.push(part)?;
    Ok(own)
}

// How many parts a formula has.
fn part_count(node: &Node) -> u16
    requires { part_count (expression_of node.now) ≤ 2000 }
    ensures { result ≡ part_count (expression_of node.now) }
{
    match node {
        Node::Truth(_) | Node::Named(_) => 1,
        Node::Group(f) => part_count(f),
        Node::Not(f) => part_count(f) + 1,
        Node::And(f, g) | Node::Or(f, g) => part_count(f) + part_count(g) + 1,
        Node::Implies(f, g) => part_count(f) + part_count(g) + 2,
    }
}

fn parts(alloc: Global, model: &Package) -> Result<List<Part>, OutOfMemory>
    requires ports { length model.now.ports ≤ 12 }
    requires few { parts_in (formulas model.now) ≤ 2000 }
    ensures { IfOk result (λ l. l ≡ all_parts model.now.ports 0 (formulas model.now)) }
{
    let ports = model.ports.as_slice();
    let mut parts = List::new(alloc);
    for claim in model.claims.as_slice() {
        push_parts(&mut parts, ports, claim.formula.node())?;
    }
    for assign in model.assigns.as_slice() {
        push_parts(&mut parts, ports, assign.value.node())?;
    }
    Ok(parts)
}

fn equations(alloc: Global, model: &Package) -> Result<List<Equation>, OutOfMemory>
    requires ports { length model.now.ports ≤ 12 }
    requires few { parts_in (formulas model.now) ≤ 2000 }
    ensures { IfOk result (λ l. l ≡ equations_from model.now.ports (claim_parts model.now.claims) model.now.assigns) }
{
    let ports = model.ports.as_slice();
    let mut first = claim_parts(model.claims.as_slice());
    let mut equations = List::new(alloc);
    for assign in model.assigns.as_slice() {
        let stream = stream_of(ports, assign.name.as_bytes());
        let count = part_count(assign.value.node());
        let part = first + count - 1;
        equations.push(Equation::Flag { stream, part })?;
        first += count;
    }
    Ok(equations)
}

// How many parts the claims have.
fn claim_parts(claims: &[Claim]) -> u16
    requires { claim_parts claims.now ≤ 2000 }
    ensures { result ≡ claim_parts claims.now }
{
    let mut count = 0;
    for claim in claims {
        count += part_count(claim.formula.node());
    }
    count
}

fn is_of(kind: ClaimKind, other: ClaimKind) -> bool
    ensures { result ≡ is_of kind other }
{
    match kind {
        ClaimKind::Assume => matches!(other, ClaimKind::Assume),
        ClaimKind::Guarantee => matches!(other, ClaimKind::Guarantee),
    }
}

// The numbers of the claims of a kind.
fn numbers(alloc: Global, kind: ClaimKind, claims: &[Claim]) -> Result<List<u16>, OutOfMemory>
    requires few { claim_parts claims.now ≤ 2000 }
    ensures value { IfOk result (λ l. l ≡ numbers_from kind 0 claims.now) }
{
    let mut first = 0;
    let mut numbers = List::new(alloc);
    for claim in claims {
        let count = part_count(claim.formula.node());
        if is_of(kind, claim.kind) {
            numbers.push(first + count - 1)?;
        }
        first += count;
    }
    Ok(numbers)
}

fn draft(
    alloc: Global,
    model: &Package,
    claim: Option<u16>,
    sought: u32,
) -> Result<ProblemDraft, OutOfMemory>
    requires ports { length model.now.ports ≤ 12 }
    requires few { parts_in (formulas model.now) ≤ 2000 }
    ensures { IfOk result (λ d. d ≡ draft_of model.now claim sought) }
{
    Ok(ProblemDraft {
        ints: 0,
        flags: model.ports.len() as u16,
        parts: parts(alloc, model)?,
        equations: equations(alloc, model)?,
        so_far: numbers(alloc, ClaimKind::Assume, model.claims.as_slice())?,
        earlier: List::new(alloc),
        claim,
        length: sought,
    })
}

fn layer_name(alloc: Global, model: &Package) -> Result<Text, OutOfMemory>
    ensures { IfOk result (λ t. t ≡ layer_name model.now) }
{
    let mut name = String::from_str(alloc, model.name.as_str())?;
    name.push_str("::")?;
    name.push_str(model.frame.as_str())?;
    name.push_str(".")?;
    name.push_str(model.body.as_str())?;
    Text::make(alloc, name.as_str())
}

fn problem(
    alloc: Global,
    model: &Package,
    claim: Option<u16>,
    sought: u32,
) -> Result<Problem, OutOfMemory>
    requires kept { IsWellFormed model.now }
    requires claim { IfSome claim (λ part. part < claim_parts model.now.claims) }
    requires sought { MatchOption claim ((1 ≤ sought) × (sought ≤ 30)) (λ _. sought ≡ 0) }
    ensures { IfOk result (λ q. q ≡ draft_of model.now claim sought) }
{
    let draft = draft(alloc, model, claim, sought)?;
    match Problem::make(alloc, draft) {
        Ok(problem) => Ok(problem),
        Err(ProblemFault::Cycle(_)) => unreachable!(),
        Err(ProblemFault::OutOfMemory) => Err(OutOfMemory),
    }
}

fn obligation(
    alloc: Global,
    model: &Package,
    kind: KeyKind,
    number: u32,
    claim: Option<u16>,
    sought: u32,
) -> Result<Obligation, OutOfMemory>
    requires kept { IsWellFormed model.now }
    requires claim { IfSome claim (λ part. part < claim_parts model.now.claims) }
    requires sought { MatchOption claim ((1 ≤ sought) × (sought ≤ 30)) (λ _. sought ≡ 0) }
    ensures { IfOk result (λ o. o ≡ record { key = key_of model.now kind number; layer = 0; problem = draft_of model.now claim sought }) }
{
    let layer = layer_name(alloc, model)?;
    let problem = problem(alloc, model, claim, sought)?;
    let key = Key {
        layer,
        member: None,
        kind,
        number,
    };
    Ok(Obligation {
        key,
        layer: 0,
        problem,
    })
}

fn guarantees(
    alloc: Global,
    model: &Package,
    numbers: &[u16],
) -> Result<List<Obligation>, OutOfMemory>
    requires kept { IsWellFormed model.now }
    requires below { All (λ n. n < claim_parts model.now.claims) numbers.now }
    requires few { length numbers.now ≤ 200 }
    ensures { IfOk result (λ l. l ≡ guarantees_from model.now 1 numbers.now) }
{
    let mut list = List::new(alloc);
    for (i, part) in numbers.iter().enumerate() {
        let number = i as u32 + 1;
        list.push(obligation(alloc, model, KeyKind::Guarantee, number, Some(*part), 0)?)?;
    }
    Ok(list)
}

/// The obligations of a package that keeps the rules: each guarantee in order, then the consistency
/// over so many instants. Their keys name the layer as `Package::Type.implementation`.
pub fn obligations(
    alloc: Global,
    model: &Package,
    consistency: u32,
) -> Result<List<Obligation>, OutOfMemory>
    requires kept { IsWellFormed model.now }
    requires some { 1 ≤ consistency }
    requires few { consistency ≤ 30 }
    ensures { IfOk result (λ l. l ≡ obligations_of model.now consistency) }
{
    let numbers = numbers(alloc, ClaimKind::Guarantee, model.claims.as_slice())?;
    let mut list = guarantees(alloc, model, numbers.as_slice())?;
    list.push(obligation(alloc, model, KeyKind::Consistent, 1, None, consistency)?)?;
    Ok(list)
}
