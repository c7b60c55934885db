//! Reading from left to right, with one token of lookahead.
ghost use Rattle.std.specs.Prelude.{◌≡◌, ◌++◌, List, ℕ, map, length, codes, IfOk, option_map, is_some};
ghost use Rattle.std.specs.List.{list_any, list_all};
ghost use Rattle.std.specs.Str.{IsAscii};
ghost use Rattle.ag_small.specs.Characters.{same, is_reserved, is_name, aadl_words, annex_words};
ghost use Rattle.ag_small.specs.Grammar.{end_texts};
ghost use Rattle.ag_small.specs.Reading.{Gives, fixed_at, all_fixed_at, name_at, label_at, direction_at, kind_at, port_at, claim_at, assign_at, head_at, middle_at, items_at, package_at};

use crate::class::{Class, after_space, same};
use crate::formulas::formula;
use crate::package::{Assign, Claim, ClaimKind, Package, Port, ReadFault};
use ag_base::{List, OutOfMemory, Text};
use std::alloc::Global;

fn text_of(alloc: Global, bytes: &[u8]) -> Result<Text, OutOfMemory>
    requires { IsAscii bytes.now }
    ensures { IfOk result (λ t. t ≡ bytes.now) }
{
    match std::str::from_utf8(bytes) {
        Ok(text) => Text::make(alloc, text),
        Err(_) => unreachable!(),
    }
}

// What follows a fixed text, in any case, where it stands at the front.
#[tactic(auto, unfolding(crate::specs::Reading::fixed_at))]
pub fn after<'a>(text: &str, bytes: &'a [u8]) -> Option<&'a [u8]>
    ensures { option_map (λ r. r.now) result ≡ fixed_at text.now bytes.now }
{
    let here = after_space(bytes);
    if here.len() < text.len() {
        return None;
    }
    let (own, rest) = here.split_at(text.len());
    let goes_on = Class::Letter.begins(own) && Class::Word.begins(rest);
    if same(own, text.as_bytes()) && !goes_on {
        Some(rest)
    } else {
        None
    }
}

fn stands(text: &str, bytes: &[u8]) -> bool
    ensures { result ≡ is_some (fixed_at text.now bytes.now) }
{
    after(text, bytes).is_some()
}

// What follows a fixed text that has to stand at the front.
pub fn expect<'a>(text: &str, bytes: &'a [u8]) -> Result<&'a [u8], ReadFault>
    ensures { Gives (λ r. r.now) result (fixed_at text.now bytes.now) }
{
    match after(text, bytes) {
        Some(rest) => Ok(rest),
        None => Err(ReadFault::NotBuilt),
    }
}

// The same for fixed texts one behind the other.
fn expect_all<'a>(texts: &[&str], bytes: &'a [u8]) -> Result<&'a [u8], ReadFault>
    ensures { Gives (λ r. r.now) result (all_fixed_at (map (λ t. t.now) texts.now) bytes.now) }
{
    let mut rest = bytes;
    for text in texts {
        rest = expect(text, rest)?;
    }
    Ok(rest)
}

fn is_one_of(word: &[u8], texts: &[&str]) -> bool
    ensures { result ≡ list_any (λ t. same word.now t.now) texts.now }
{
    texts.iter().any(|text| same(word, text.as_bytes()))
}

// Whether a word may not be a name.
#[tactic(auto, unfolding(crate::specs::Characters::is_reserved))]
fn is_reserved(word: &[u8]) -> bool
    ensures { result ≡ is_reserved word.now }
{
    is_aadl_word(word) || is_annex_word(word) || same(word, b"Base_Types")
}

#[tactic(auto, unfolding(crate::specs::Characters::aadl_words))]
fn is_aadl_word(word: &[u8]) -> bool
    ensures { result ≡ list_any (λ w. same word.now w) aadl_words }
{
    is_one_of(
        word,
        &[
            "package",
            "public",
            "private",
            "with",
            "renames",
            "end",
            "system",
            "process",
            "thread",
            "device",
            "abstract",
            "data",
            "subprogram",
            "processor",
            "memory",
            "bus",
            "virtual",
            "implementation",
            "extends",
            "features",
            "flows",
            "modes",
            "mode",
            "properties",
            "property",
            "subcomponents",
            "connections",
            "calls",
            "annex",
            "in",
            "out",
            "event",
            "port",
            "feature",
            "group",
            "requires",
            "provides",
            "prototypes",
            "parameter",
            "access",
            "none",
            "refined",
            "to",
            "set",
            "applies",
        ],
    )
}

#[tactic(auto, unfolding(crate::specs::Characters::annex_words))]
fn is_annex_word(word: &[u8]) -> bool
    ensures { result ≡ list_any (λ w. same word.now w) annex_words }
{
    is_one_of(
        word,
        &[
            "assume",
            "guarantee",
            "lemma",
            "eq",
            "assign",
            "const",
            "node",
            "returns",
            "var",
            "let",
            "tel",
            "int",
            "bool",
            "true",
            "false",
            "pre",
            "prev",
            "if",
            "then",
            "else",
            "and",
            "or",
            "not",
            "div",
            "mod",
            "real",
            "event",
            "assert",
            "property",
            "fun",
            "enum",
            "struct",
            "calendar",
            "synchrony",
            "linearization",
            "forall",
            "exists",
            "foreach",
        ],
    )
}

#[tactic(auto, unfolding(crate::specs::Characters::is_name))]
pub fn is_name(word: &[u8]) -> bool
    ensures { result ≡ is_name word.now }
{
    Class::Letter.begins(word)
        && Class::Word.holds_all(word)
        && word.len() <= 255
        && !is_reserved(word)
}

#[tactic(auto, unfolding(crate::specs::Reading::name_at))]
pub fn name(alloc: Global, bytes: &[u8]) -> Result<(Text, &[u8]), ReadFault>
    ensures { Gives (λ x. (x.0, x.1.now)) result (name_at bytes.now) }
{
    let here = after_space(bytes);
    let (word, rest) = here.split_at(Class::Word.front_len(here));
    if !is_name(word) {
        return Err(ReadFault::NotBuilt);
    }
    Ok((text_of(alloc, word)?, rest))
}

#[tactic(auto, unfolding(crate::specs::Reading::label_at))]
fn label(alloc: Global, bytes: &[u8]) -> Result<(Text, &[u8]), ReadFault>
    ensures { Gives (λ x. (x.0, x.1.now)) result (label_at bytes.now) }
{
    let here = expect("\"", bytes)?;
    let (text, rest) = here.split_at(Class::Label.front_len(here));
    if !Class::Quote.begins(rest) {
        return Err(ReadFault::NotBuilt);
    }
    Ok((text_of(alloc, text)?, &rest[1..]))
}

// Whether a port is an output.
#[tactic(auto, unfolding(crate::specs::Reading::direction_at))]
fn direction(bytes: &[u8]) -> Result<(bool, &[u8]), ReadFault>
    ensures { Gives (λ x. (x.0, x.1.now)) result (direction_at bytes.now) }
{
    if let Some(rest) = after("in", bytes) {
        return Ok((false, rest));
    }
    let rest = expect("out", bytes)?;
    Ok((true, rest))
}

#[tactic(auto, unfolding(crate::specs::Reading::kind_at))]
fn kind(bytes: &[u8]) -> Result<(ClaimKind, &[u8]), ReadFault>
    ensures { Gives (λ x. (x.0, x.1.now)) result (kind_at bytes.now) }
{
    if let Some(rest) = after("assume", bytes) {
        return Ok((ClaimKind::Assume, rest));
    }
    let rest = expect("guarantee", bytes)?;
    Ok((ClaimKind::Guarantee, rest))
}

#[tactic(auto, unfolding(crate::specs::Reading::port_at))]
fn port(alloc: Global, bytes: &[u8]) -> Result<(Port, &[u8]), ReadFault>
    ensures { Gives (λ x. (x.0, x.1.now)) result (port_at bytes.now) }
{
    let (name, rest) = name(alloc, bytes)?;
    let (outward, rest) = direction(expect(":", rest)?)?;
    let rest = expect_all(&["data", "port", "Base_Types", "::", "Boolean", ";"], rest)?;
    Ok((Port { name, outward }, rest))
}

#[tactic(auto, unfolding(crate::specs::Reading::claim_at))]
fn claim(alloc: Global, bytes: &[u8]) -> Result<(Claim, &[u8]), ReadFault>
    ensures { Gives (λ x. (x.0, x.1.now)) result (claim_at bytes.now) }
{
    let (kind, rest) = kind(bytes)?;
    let (label, rest) = label(alloc, rest)?;
    let (formula, rest) = formula(alloc, expect(":", rest)?)?;
    let rest = expect(";", rest)?;
    Ok((
        Claim {
            kind,
            label,
            formula,
        },
        rest,
    ))
}

#[tactic(auto, unfolding(crate::specs::Reading::assign_at))]
fn assign(alloc: Global, bytes: &[u8]) -> Result<(Assign, &[u8]), ReadFault>
    ensures { Gives (λ x. (x.0, x.1.now)) result (assign_at bytes.now) }
{
    let (name, rest) = name(alloc, expect("assign", bytes)?)?;
    let (value, rest) = formula(alloc, expect("=", rest)?)?;
    let rest = expect(";", rest)?;
    Ok((Assign { name, value }, rest))
}

const MAX_PORTS: usize = 12;

const MAX_CLAUSES: usize = 200;

fn ports(alloc: Global, bytes: &[u8]) -> Result<(List<Port>, &[u8]), ReadFault>
    ensures { Gives (λ x. (x.0, x.1.now)) result (items_at port_at (codes "annex") MAX_PORTS bytes.now) }
{
    let mut ports = List::new(alloc);
    let mut rest = bytes;
    for _ in 0..MAX_PORTS {
        if stands("annex", rest) {
            return Ok((ports, rest));
        }
        let (item, end) = port(alloc, rest)?;
        ports.push(item)?;
        rest = end;
    }
    Ok((ports, rest))
}

fn claims(alloc: Global, bytes: &[u8]) -> Result<(List<Claim>, &[u8]), ReadFault>
    ensures { Gives (λ x. (x.0, x.1.now)) result (items_at claim_at (codes "**}") MAX_CLAUSES bytes.now) }
{
    let mut claims = List::new(alloc);
    let mut rest = bytes;
    for _ in 0..MAX_CLAUSES {
        if stands("**}", rest) {
            return Ok((claims, rest));
        }
        let (item, end) = claim(alloc, rest)?;
        claims.push(item)?;
        rest = end;
    }
    Ok((claims, rest))
}

fn assigns(alloc: Global, bytes: &[u8]) -> Result<(List<Assign>, &[u8]), ReadFault>
    ensures { Gives (λ x. (x.0, x.1.now)) result (items_at assign_at (codes "**}") MAX_CLAUSES bytes.now) }
{
    let mut assigns = List::new(alloc);
    let mut rest = bytes;
    for _ in 0..MAX_CLAUSES {
        if stands("**}", rest) {
            return Ok((assigns, rest));
        }
        let (item, end) = assign(alloc, rest)?;
        assigns.push(item)?;
        rest = end;
    }
    Ok((assigns, rest))
}

// The names behind `package` and `system`.
#[tactic(auto, unfolding(crate::specs::Reading::head_at))]
fn head(alloc: Global, bytes: &[u8]) -> Result<(Text, Text, &[u8]), ReadFault>
    ensures { Gives (λ x. (x.0, x.1, x.2.now)) result (head_at bytes.now) }
{
    let (package, rest) = name(alloc, expect("package", bytes)?)?;
    let rest = expect_all(&["public", "with", "Base_Types", ";", "system"], rest)?;
    let (frame, rest) = name(alloc, rest)?;
    let rest = expect("features", rest)?;
    Ok((package, frame, rest))
}

// The implementation's name, behind the type's end and before the second annex's clauses.
#[tactic(auto, unfolding(crate::specs::Reading::middle_at))]
fn middle<'a>(alloc: Global, frame: &str, bytes: &'a [u8]) -> Result<(Text, &'a [u8]), ReadFault>
    ensures { Gives (λ x. (x.0, x.1.now)) result (middle_at frame.now bytes.now) }
{
    let rest = expect_all(
        &[
            "**}",
            ";",
            "end",
            frame,
            ";",
            "system",
            "implementation",
            frame,
            ".",
        ],
        bytes,
    )?;
    let (body, rest) = name(alloc, rest)?;
    let rest = expect_all(&["annex", "agree", "{**"], rest)?;
    Ok((body, rest))
}

#[tactic(auto, unfolding(crate::specs::Reading::package_at))]
pub fn package(alloc: Global, bytes: &[u8]) -> Result<Package, ReadFault>
    ensures { Gives (λ p. p) result (package_at bytes.now) }
{
    let (name, frame, rest) = head(alloc, bytes)?;
    let (ports, rest) = ports(alloc, rest)?;
    let rest = expect_all(&["annex", "agree", "{**"], rest)?;
    let (claims, rest) = claims(alloc, rest)?;
    let (body, rest) = middle(alloc, frame.as_str(), rest)?;
    let (assigns, rest) = assigns(alloc, rest)?;
    let rest = end(name.as_str(), frame.as_str(), body.as_str(), rest)?;
    if !Class::Space.holds_all(rest) {
        return Err(ReadFault::NotBuilt);
    }
    Ok(Package {
        name,
        frame,
        body,
        ports,
        claims,
        assigns,
    })
}

fn end<'a>(name: &str, frame: &str, body: &str, bytes: &'a [u8]) -> Result<&'a [u8], ReadFault>
    ensures { Gives (λ r. r.now) result (all_fixed_at (end_texts name.now frame.now body.now) bytes.now) }
{
    expect_all(
        &["**}", ";", "end", frame, ".", body, ";", "end", name, ";"],
        bytes,
    )
}
