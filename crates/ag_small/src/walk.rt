//! A walk over the tokens of a text, up to the first one with which no package can begin.
//!
//! It tests the rules as it goes, since the earliest departure counts: the reader in reading.rt, which
//! tells packages from other texts, tests them at the end.
ghost use Rattle.std.specs.Prelude.{◌≤◌, ◌<◌, length, IfOk, IfErr};
ghost use Rattle.ag_small.specs.Places.{StopsWithin, GoesOn};

use crate::class::same;
use crate::formula_walk::{Budget, Known, take_formula};
use crate::reading::is_name;
use crate::token::{Token, TokenKind, token_at};
use ag_base::OutOfMemory;
use std::alloc::{AllocError, Global};

/// Why a walk ends.
#[derive(Clone, Copy)]
pub enum Stop {
    /// With what stands at this byte no package can begin.
    At(usize),
    OutOfMemory,
}

impl From<AllocError> for Stop {
    ghost use Rattle.std.specs.Prelude.{◌≡◌};
    ghost use Rattle.ag_small.specs.declared.walk.Stop.TheVariants.{OutOfMemory as Memory};

    ghost from_gives = { λ _ stop. stop ≡ Memory };

    fn from(_e: AllocError) -> Stop {
        Stop::OutOfMemory
    }
}

/// The most ports.
const MOST_PORTS: usize = 12;

/// A port that was declared: where its name stands, and what is known of it so far.
#[derive(Clone, Copy)]
pub struct Seen {
    pub start: usize,
    pub end: usize,
    pub outward: bool,
    pub assigned: bool,
}

impl Seen {
    /// Whether it is an output without an equation so far.
    pub fn is_free(&self) -> bool {
        self.outward && !self.assigned
    }

    /// Whether the word is the port's name.
    pub fn is_named(&self, bytes: &[u8], word: &[u8]) -> bool {
        self.start <= self.end
            && self.end <= bytes.len()
            && same(&bytes[self.start..self.end], word)
    }
}

/// Goes over one token that has to be this text.
fn take(bytes: &[u8], at: usize, text: &str) -> Result<usize, Stop>
    requires { at ≤ length bytes.now }
    ensures ok { IfOk result (GoesOn (length bytes.now) at) }
    ensures err { IfErr result (StopsWithin (length bytes.now)) }
{
    let token = token_at(bytes, at);
    if token.kind != TokenKind::End && same(&bytes[token.start..token.end], text.as_bytes()) {
        Ok(token.end)
    } else {
        Err(Stop::At(token.start))
    }
}

/// The same for tokens one behind the other.
fn take_all(bytes: &[u8], at: usize, texts: &[&str]) -> Result<usize, Stop>
    requires { at ≤ length bytes.now }
    ensures ok { IfOk result (λ n. (at ≤ n) × (n ≤ length bytes.now)) }
    ensures err { IfErr result (StopsWithin (length bytes.now)) }
{
    let mut next = at;
    for text in texts {
        next = take(bytes, next, text)?;
    }
    Ok(next)
}

/// Goes over a name, which no reserved word is, and answers its token.
fn take_name(bytes: &[u8], at: usize) -> Result<Token, Stop>
    requires { at ≤ length bytes.now }
    ensures order { IfOk result (λ t. t.start ≤ t.end) }
    ensures ok { IfOk result (λ t. GoesOn (length bytes.now) at t.end) }
    ensures err { IfErr result (StopsWithin (length bytes.now)) }
{
    let token = token_at(bytes, at);
    if token.kind == TokenKind::Word && is_name(&bytes[token.start..token.end]) {
        Ok(token)
    } else {
        Err(Stop::At(token.start))
    }
}

/// Goes over a name that was declared before.
fn take_again(bytes: &[u8], at: usize, name: Token) -> Result<usize, Stop>
    requires at { at ≤ length bytes.now }
    requires order { name.start ≤ name.end }
    requires end { name.end ≤ length bytes.now }
    ensures ok { IfOk result (GoesOn (length bytes.now) at) }
    ensures err { IfErr result (StopsWithin (length bytes.now)) }
{
    let token = token_at(bytes, at);
    let own = &bytes[token.start..token.end];
    if token.kind == TokenKind::Word && same(own, &bytes[name.start..name.end]) {
        Ok(token.end)
    } else {
        Err(Stop::At(token.start))
    }
}

fn stands(bytes: &[u8], at: usize, text: &str) -> bool
    requires { at ≤ length bytes.now }
{
    take(bytes, at, text).is_ok()
}

/// Goes over one port. A port beyond the twelfth, and one with an earlier one's name, stops at the name.
fn take_port(bytes: &[u8], at: usize, seen: &mut Vec<Seen>) -> Result<usize, Stop>
    requires { at ≤ length bytes.now }
    ensures ok { IfOk result (GoesOn (length bytes.now) at) }
    ensures err { IfErr result (StopsWithin (length bytes.now)) }
{
    let name = take_name(bytes, at)?;
    let own = &bytes[name.start..name.end];
    if seen.len() == MOST_PORTS || seen.iter().any(|port| port.is_named(bytes, own)) {
        return Err(Stop::At(name.start));
    }
    let next = take(bytes, name.end, ":")?;
    let outward = !stands(bytes, next, "in");
    let next = take(bytes, next, if outward { "out" } else { "in" })?;
    let next = take_all(
        bytes,
        next,
        &["data", "port", "Base_Types", "::", "Boolean", ";"],
    )?;
    let port = Seen {
        start: name.start,
        end: name.end,
        outward,
        assigned: false,
    };
    match seen.push(port) {
        Ok(()) => Ok(next),
        Err(_) => Err(Stop::OutOfMemory),
    }
}

/// Goes over the ports, up to the first annex.
fn take_ports(bytes: &[u8], at: usize, seen: &mut Vec<Seen>) -> Result<usize, Stop>
    requires { at ≤ length bytes.now }
    ensures ok { IfOk result (λ n. (at ≤ n) × (n ≤ length bytes.now)) }
    ensures err { IfErr result (StopsWithin (length bytes.now)) }
{
    let mut next = at;
    while !stands(bytes, next, "annex") {
        next = take_port(bytes, next, seen)?;
    }
    Ok(next)
}

/// Goes over an assumption or a guarantee.
fn take_claim(
    alloc: Global,
    bytes: &[u8],
    at: usize,
    seen: &[Seen],
    budget: &mut Budget,
) -> Result<usize, Stop>
    requires { at ≤ length bytes.now }
    ensures ok { IfOk result (GoesOn (length bytes.now) at) }
    ensures err { IfErr result (StopsWithin (length bytes.now)) }
{
    let kind = token_at(bytes, at);
    let assumes = stands(bytes, at, "assume");
    let next = take(bytes, at, if assumes { "assume" } else { "guarantee" })?;
    budget.spend(kind.start, 4)?;
    let label = token_at(bytes, next);
    if label.kind != TokenKind::Label {
        return Err(Stop::At(label.start));
    }
    budget.spend(label.start, 3)?;
    let next = take_counted(bytes, label.end, ":", 2, budget)?;
    take_formula(alloc, bytes, next, seen, Known::Ports, budget)
}

/// Goes over one token of a clause, behind which the clause has at least `needed` more.
fn take_counted(
    bytes: &[u8],
    at: usize,
    text: &str,
    needed: usize,
    budget: &mut Budget,
) -> Result<usize, Stop>
    requires { at ≤ length bytes.now }
    ensures ok { IfOk result (GoesOn (length bytes.now) at) }
    ensures err { IfErr result (StopsWithin (length bytes.now)) }
{
    let token = token_at(bytes, at);
    let next = take(bytes, at, text)?;
    budget.spend(token.start, needed)?;
    Ok(next)
}

/// Goes over the equation of an output. Where no output is left it stops at the first word.
fn take_assign(
    alloc: Global,
    bytes: &[u8],
    at: usize,
    seen: &mut Vec<Seen>,
    budget: &mut Budget,
) -> Result<usize, Stop>
    requires { at ≤ length bytes.now }
    ensures ok { IfOk result (GoesOn (length bytes.now) at) }
    ensures err { IfErr result (StopsWithin (length bytes.now)) }
{
    let word = token_at(bytes, at);
    if !seen.iter().any(|port| port.is_free()) {
        return Err(Stop::At(word.start));
    }
    let next = take_counted(bytes, at, "assign", 4, budget)?;
    let name = take_name(bytes, next)?;
    let own = &bytes[name.start..name.end];
    let found = seen
        .iter()
        .position(|port| port.is_free() && port.is_named(bytes, own));
    let Some(output) = found else {
        return Err(Stop::At(name.start));
    };
    budget.spend(name.start, 3)?;
    let next = take_counted(bytes, name.end, "=", 2, budget)?;
    let end = take_formula(alloc, bytes, next, seen.as_slice(), Known::Values, budget)?;
    seen[output].assigned = true;
    Ok(end)
}

/// Goes over the assumptions and guarantees, up to the end of their annex.
fn take_claims(
    alloc: Global,
    bytes: &[u8],
    at: usize,
    seen: &[Seen],
    budget: &mut Budget,
) -> Result<usize, Stop>
    requires { at ≤ length bytes.now }
    ensures ok { IfOk result (λ n. (at ≤ n) × (n ≤ length bytes.now)) }
    ensures err { IfErr result (StopsWithin (length bytes.now)) }
{
    let mut next = at;
    while !stands(bytes, next, "**}") {
        next = take_claim(alloc, bytes, next, seen, budget)?;
    }
    Ok(next)
}

/// Goes over the equations, up to the end of their annex.
fn take_assigns(
    alloc: Global,
    bytes: &[u8],
    at: usize,
    seen: &mut Vec<Seen>,
    budget: &mut Budget,
) -> Result<usize, Stop>
    requires { at ≤ length bytes.now }
    ensures ok { IfOk result (λ n. (at ≤ n) × (n ≤ length bytes.now)) }
    ensures err { IfErr result (StopsWithin (length bytes.now)) }
{
    let mut next = at;
    while !stands(bytes, next, "**}") {
        next = take_assign(alloc, bytes, next, seen, budget)?;
    }
    Ok(next)
}

/// Goes over what stands before the ports.
fn take_head(bytes: &[u8]) -> Result<(Token, Token, usize), Stop>
    ensures whole { IfOk result (λ x. (x.0.start ≤ x.0.end) × (x.0.end ≤ length bytes.now)) }
    ensures frame { IfOk result (λ x. (x.1.start ≤ x.1.end) × (x.1.end ≤ length bytes.now)) }
    ensures ok { IfOk result (λ x. x.2 ≤ length bytes.now) }
    ensures err { IfErr result (StopsWithin (length bytes.now)) }
{
    let package = take_name(bytes, take(bytes, 0, "package")?)?;
    let next = take_all(
        bytes,
        package.end,
        &["public", "with", "Base_Types", ";", "system"],
    )?;
    let frame = take_name(bytes, next)?;
    let next = take(bytes, frame.end, "features")?;
    Ok((package, frame, next))
}

/// Goes over what stands between the two annexes' clauses, and answers the implementation's name.
fn take_middle(bytes: &[u8], at: usize, frame: Token) -> Result<(Token, usize), Stop>
    requires at { at ≤ length bytes.now }
    requires order { frame.start ≤ frame.end }
    requires end { frame.end ≤ length bytes.now }
    ensures body { IfOk result (λ x. (x.0.start ≤ x.0.end) × (x.0.end ≤ length bytes.now)) }
    ensures ok { IfOk result (λ x. x.1 ≤ length bytes.now) }
    ensures err { IfErr result (StopsWithin (length bytes.now)) }
{
    let next = take_all(bytes, at, &["**}", ";", "end"])?;
    let next = take_again(bytes, next, frame)?;
    let next = take_all(bytes, next, &[";", "system", "implementation"])?;
    let next = take_again(bytes, next, frame)?;
    let body = take_name(bytes, take(bytes, next, ".")?)?;
    let next = take_all(bytes, body.end, &["annex", "agree", "{**"])?;
    Ok((body, next))
}

/// Goes over what stands behind the second annex's clauses.
fn take_end(bytes: &[u8], at: usize, frame: Token, body: Token, whole: Token) -> Result<usize, Stop>
    requires at { at ≤ length bytes.now }
    requires frame { (frame.start ≤ frame.end) × (frame.end ≤ length bytes.now) }
    requires body { (body.start ≤ body.end) × (body.end ≤ length bytes.now) }
    requires whole { (whole.start ≤ whole.end) × (whole.end ≤ length bytes.now) }
    ensures ok { IfOk result (λ n. n ≤ length bytes.now) }
    ensures err { IfErr result (StopsWithin (length bytes.now)) }
{
    let next = take_all(bytes, at, &["**}", ";", "end"])?;
    let next = take_again(bytes, next, frame)?;
    let next = take(bytes, next, ".")?;
    let next = take_again(bytes, next, body)?;
    let next = take_all(bytes, next, &[";", "end"])?;
    let next = take_again(bytes, next, whole)?;
    take(bytes, next, ";")
}

/// Goes over a whole package. Where it meets no departure it answers the text's end.
pub fn package(alloc: Global, bytes: &[u8]) -> Result<usize, Stop>
    ensures ok { IfOk result (λ n. n ≤ length bytes.now) }
    ensures err { IfErr result (StopsWithin (length bytes.now)) }
{
    let (package, frame, next) = take_head(bytes)?;
    let mut seen = Vec::new(alloc);
    let next = take_ports(bytes, next, &mut seen)?;
    let next = take_all(bytes, next, &["annex", "agree", "{**"])?;
    let mut budget = Budget::new();
    let next = take_claims(alloc, bytes, next, seen.as_slice(), &mut budget)?;
    let (body, next) = take_middle(bytes, next, frame)?;
    let next = take_assigns(alloc, bytes, next, &mut seen, &mut budget)?;
    let next = take_end(bytes, next, frame, body, package)?;
    let rest = token_at(bytes, next);
    if rest.kind == TokenKind::End {
        Ok(rest.start)
    } else {
        Err(Stop::At(rest.start))
    }
}
