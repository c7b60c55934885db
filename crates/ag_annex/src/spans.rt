//! Parts of the marked tokens of a clause.
ghost use Rattle.std.specs.Prelude.{◌≡◌, map};
ghost use Rattle.ag_aadl.specs.Marked.{up_to};
ghost use Rattle.ag_annex.specs.Clauses.{after, first_mark, part_under};

use ag_aadl::begins_with;
use ag_aadl::find::is_among;
use ag_aadl::marked::Marked;

/// The tokens behind the first under a mark.
pub fn after(mark: u8, marked: &[Marked]) -> &[Marked]
    ensures { result.now ≡ after mark marked.now }
{
    for (at, token) in marked.iter().enumerate() {
        if token.mark == mark {
            return &marked[at + 1..];
        }
    }
    &[]
}

/// The tokens before the first under one of these marks.
pub fn up_to<'a>(marks: &[u8], marked: &'a [Marked]) -> &'a [Marked]
    ensures { result.now ≡ up_to marks.now marked.now }
{
    for (at, token) in marked.iter().enumerate() {
        if is_among(marks, token.mark) {
            return &marked[..at];
        }
    }
    marked
}

/// The first part that begins with this mark, empty where there is none.
pub fn part_under<'a>(mark: u8, parts: &[&'a [Marked]]) -> &'a [Marked]
    ensures { result.now ≡ part_under mark (map (λ p. p.now) parts.now) }
{
    for part in parts {
        if begins_with(mark, part) {
            return *part;
        }
    }
    &[]
}

/// The mark of the first token.
pub fn first_mark(marked: &[Marked]) -> u8
    ensures { result ≡ first_mark marked.now }
{
    match marked.first() {
        Some(token) => token.mark,
        None => 0,
    }
}
