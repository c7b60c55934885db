//! Reading a formula: operators by how tightly they bind, and parentheses.
ghost use Rattle.std.specs.Prelude.{◌≡◌, ◌<◌, IfOk};
ghost use Rattle.ag_small.specs.Nodes.{expression_of};
ghost use Rattle.ag_small.specs.Reading.{Gives, formula_at, counted, applied, few, joined_of, negated_of, grouped_of, atom_at, readers_above, below, unary_with, conjunction_with, disjunction_with, expression_with};

use crate::package::{Formula, Node, ReadFault};
use crate::reading::{after, expect, name};
use ag_base::OutOfMemory;
use std::alloc::Global;

const MAX_LEVELS: u16 = 200;

const MAX_TOKENS: u32 = 1000;

/// A formula that was read, and how many tokens it has.
#[derive(Drop)]
pub struct Operand {
    pub node: Node,
    pub tokens: u16,
}

/// An operator between two operands.
#[derive(Clone, Copy)]
pub enum Operator {
    And,
    Or,
    Implies,
}

impl Operator {
    fn of(self, f: Box<Node>, g: Box<Node>) -> Node
        ensures { expression_of result ≡ applied self (expression_of f.value) (expression_of g.value) }
    {
        match self {
            Operator::And => Node::And(f, g),
            Operator::Or => Node::Or(f, g),
            Operator::Implies => Node::Implies(f, g),
        }
    }
}

// The levels that are left for what stands one level deeper.
fn deeper(levels: u16) -> Result<u16, ReadFault>
    ensures value { Gives (λ k. readers_above (below k)) result (below levels) }
    ensures lower { IfOk result (λ k. k < levels) }
{
    if levels == 0 {
        return Err(ReadFault::NotBuilt);
    }
    Ok(levels - 1)
}

// A number of tokens that a package may have. It also bounds how high a tree is, and so how deep
// a walk down a tree goes: the levels don't, since a chain's tree is as high as the chain is long
// in each parenthesis that begins it.
#[tactic(auto, unfolding(crate::specs::Reading::few))]
fn within(tokens: u32) -> Result<u16, ReadFault>
    ensures { Gives (λ n. n) result (few tokens) }
{
    if tokens > MAX_TOKENS {
        return Err(ReadFault::NotBuilt);
    }
    Ok(tokens as u16)
}

fn boxed(alloc: Global, node: Node) -> Result<Box<Node>, OutOfMemory>
    ensures { IfOk result (λ b. b.value ≡ node) }
{
    Ok(Box::new(alloc, node)?)
}

#[tactic(auto, unfolding(crate::specs::Reading::joined_of))]
fn joined(
    alloc: Global,
    operator: Operator,
    left: Operand,
    right: Operand,
) -> Result<Operand, ReadFault>
    ensures { Gives counted result (joined_of operator (counted left) (counted right)) }
{
    let tokens = within(u32::from(left.tokens) + u32::from(right.tokens) + 1)?;
    let f = boxed(alloc, left.node)?;
    let g = boxed(alloc, right.node)?;
    let node = operator.of(f, g);
    Ok(Operand { node, tokens })
}

#[tactic(auto, unfolding(crate::specs::Reading::negated_of))]
fn negated(alloc: Global, f: Operand) -> Result<Operand, ReadFault>
    ensures { Gives counted result (negated_of (counted f)) }
{
    let tokens = within(u32::from(f.tokens) + 1)?;
    let node = Node::Not(boxed(alloc, f.node)?);
    Ok(Operand { node, tokens })
}

#[tactic(auto, unfolding(crate::specs::Reading::grouped_of))]
fn grouped(alloc: Global, f: Operand) -> Result<Operand, ReadFault>
    ensures { Gives counted result (grouped_of (counted f)) }
{
    let tokens = within(u32::from(f.tokens) + 2)?;
    let node = Node::Group(boxed(alloc, f.node)?);
    Ok(Operand { node, tokens })
}

#[tactic(auto, unfolding(crate::specs::Reading::atom_at))]
fn atom(alloc: Global, bytes: &[u8]) -> Result<(Operand, &[u8]), ReadFault>
    ensures { Gives (λ x. (counted x.0, x.1.now)) result (atom_at bytes.now) }
{
    let (node, rest) = if let Some(rest) = after("true", bytes) {
        (Node::Truth(true), rest)
    } else if let Some(rest) = after("false", bytes) {
        (Node::Truth(false), rest)
    } else {
        let (name, rest) = name(alloc, bytes)?;
        (Node::Named(name), rest)
    };
    Ok((Operand { node, tokens: 1 }, rest))
}

// "not" unary | "(" expression ")" | atom
#[cycle(formula)]
#[tactic(auto, unfolding(crate::specs::Reading::unary_with))]
fn unary(alloc: Global, levels: u16, bytes: &[u8]) -> Result<(Operand, &[u8]), ReadFault>
    ensures { Gives (λ x. (counted x.0, x.1.now)) result (unary_with (below levels) bytes.now) }
{
    if let Some(rest) = after("not", bytes) {
        let (f, rest) = unary(alloc, deeper(levels)?, rest)?;
        return Ok((negated(alloc, f)?, rest));
    }
    if let Some(rest) = after("(", bytes) {
        let (f, rest) = expression(alloc, deeper(levels)?, rest)?;
        let rest = expect(")", rest)?;
        return Ok((grouped(alloc, f)?, rest));
    }
    atom(alloc, bytes)
}

// unary { "and" unary }
#[cycle(formula)]
#[tactic(auto, unfolding(crate::specs::Reading::conjunction_with, crate::specs::Reading::and_rest_with))]
fn conjunction(alloc: Global, levels: u16, bytes: &[u8]) -> Result<(Operand, &[u8]), ReadFault>
    ensures { Gives (λ x. (counted x.0, x.1.now)) result (conjunction_with (below levels) bytes.now) }
{
    let (mut left, mut rest) = unary(alloc, levels, bytes)?;
    let mut levels = levels;
    while let Some(next) = after("and", rest) {
        levels = deeper(levels)?;
        let (right, end) = unary(alloc, levels, next)?;
        left = joined(alloc, Operator::And, left, right)?;
        rest = end;
    }
    Ok((left, rest))
}

// conjunction { "or" conjunction }
#[cycle(formula)]
#[tactic(auto, unfolding(crate::specs::Reading::disjunction_with, crate::specs::Reading::or_rest_with))]
fn disjunction(alloc: Global, levels: u16, bytes: &[u8]) -> Result<(Operand, &[u8]), ReadFault>
    ensures { Gives (λ x. (counted x.0, x.1.now)) result (disjunction_with (below levels) bytes.now) }
{
    let (mut left, mut rest) = conjunction(alloc, levels, bytes)?;
    let mut levels = levels;
    while let Some(next) = after("or", rest) {
        levels = deeper(levels)?;
        let (right, end) = conjunction(alloc, levels, next)?;
        left = joined(alloc, Operator::Or, left, right)?;
        rest = end;
    }
    Ok((left, rest))
}

// disjunction [ "=>" expression ]
#[cycle(formula)]
#[tactic(auto, unfolding(crate::specs::Reading::expression_with))]
fn expression(alloc: Global, levels: u16, bytes: &[u8]) -> Result<(Operand, &[u8]), ReadFault>
    ensures { Gives (λ x. (counted x.0, x.1.now)) result (expression_with (below levels) bytes.now) }
{
    let (left, rest) = disjunction(alloc, levels, bytes)?;
    if let Some(next) = after("=>", rest) {
        let (right, end) = expression(alloc, deeper(levels)?, next)?;
        return Ok((joined(alloc, Operator::Implies, left, right)?, end));
    }
    Ok((left, rest))
}

/// A formula, and what follows it. No level passes 200, and one of more than 1,000 tokens isn't read.
#[tactic(auto, unfolding(crate::specs::Reading::formula_at))]
pub fn formula(alloc: Global, bytes: &[u8]) -> Result<(Formula, &[u8]), ReadFault>
    ensures { Gives (λ x. (x.0, x.1.now)) result (formula_at bytes.now) }
{
    let (f, rest) = expression(alloc, MAX_LEVELS, bytes)?;
    Ok((Formula::new(f.node), rest))
}
