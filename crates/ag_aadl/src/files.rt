//! What a file's tokens are answered.
ghost use Rattle.std.specs.Prelude.{◌≡◌, ◌<◌, ◌^◌, length};
ghost use Rattle.ag_aadl.specs.Files.{ends_in_part, is_ended_wrongly, refusal_at, first_wrong};

use crate::find::first_of;
use crate::marked::Marked;
use crate::marks::PART_MARK;
use crate::names::{Names, Naming, same_names};
use crate::unsupported::bad_rule;
use crate::words::own_bytes;
use ag_base::{Refusal, Rule};
use ag_lex::{Token, end_place};

// What is broken at the first bad token, or where the input ends.
fn refusal_at(bytes: &[u8], tokens: &[Token], at: usize) -> Refusal
    requires { length bytes.now < 2 ^ 31 }
    ensures { result ≡ refusal_at bytes.now tokens.now at }
{
    match tokens.get(at) {
        Some(token) => Refusal {
            place: token.place,
            rule: bad_rule(own_bytes(bytes, token)),
        },
        None => Refusal {
            place: end_place(first_of(tokens).place.file, bytes),
            rule: Rule::Expected,
        },
    }
}

fn ends_in_part(marked: &[Marked]) -> bool
    ensures { result ≡ ends_in_part marked.now }
{
    match marked.last() {
        Some(token) => token.mark == PART_MARK,
        None => false,
    }
}

// Whether a whole name stands last behind a package's `end`, and isn't the declared one.
fn is_ended_wrongly(bytes: &[u8], names: &Names, marked: &[Marked]) -> bool
    ensures { result ≡ is_ended_wrongly bytes.now names.now marked.now }
{
    names.naming == Naming::End
        && ends_in_part(marked)
        && !same_names(bytes, names.package_name.as_slice(), names.end.as_slice())
}

/// The first broken rule, where the tokens before a place break none and fail there, or end.
pub fn first_wrong(
    bytes: &[u8],
    tokens: &[Token],
    marked: &[Marked],
    names: &Names,
    at: usize,
) -> Refusal
    requires { length bytes.now < 2 ^ 31 }
    ensures { result ≡ first_wrong bytes.now tokens.now marked.now names.now at }
{
    if is_ended_wrongly(bytes, names, marked) {
        names.misnamed()
    } else {
        refusal_at(bytes, tokens, at)
    }
}
