//! Where an annex ends, and what is broken there or at a token before.
ghost use Rattle.std.specs.Prelude.{◌≡◌, ◌<◌, ◌≤◌, ◌^◌, length};
ghost use Rattle.ag_annex.specs.Annexes.{close_at, last_of, end_of, refusal_at};

use crate::unsupported::bad_rule;
use ag_aadl::find::first_of;
use ag_aadl::own_bytes;
use ag_base::{Place, Refusal, Rule};
use ag_lex::{Token, end_place};

// How many bytes stand before the first `**}`.
fn close_at(bytes: &[u8]) -> usize
    ensures at { result ≡ close_at bytes.now }
    ensures within { result ≤ length bytes.now }
{
    for at in 0..bytes.len() {
        if bytes[at..].starts_with(b"**}") {
            return at;
        }
    }
    bytes.len()
}

fn last_of(tokens: &[Token]) -> Token
    ensures { result ≡ last_of tokens.now }
{
    match tokens.last() {
        Some(token) => *token,
        None => first_of(tokens),
    }
}

// The place where the annex of these tokens ends.
fn end_of(bytes: &[u8], tokens: &[Token]) -> Place
    requires { length bytes.now < 2 ^ 31 }
    ensures { result ≡ end_of bytes.now tokens.now }
{
    let last = (last_of(tokens).end as usize).min(bytes.len());
    let close = last + close_at(&bytes[last..]);
    end_place(first_of(tokens).place.file, &bytes[..close])
}

/// What is broken at the place of the first bad token, or at the annex's end.
pub fn refusal_at(bytes: &[u8], tokens: &[Token], at: usize) -> Refusal
    requires { length bytes.now < 2 ^ 31 }
    ensures { result ≡ refusal_at bytes.now tokens.now at }
{
    match tokens.get(at) {
        Some(token) => Refusal {
            place: token.place,
            rule: bad_rule(own_bytes(bytes, token)),
        },
        None => Refusal {
            place: end_of(bytes, tokens),
            rule: Rule::Expected,
        },
    }
}
