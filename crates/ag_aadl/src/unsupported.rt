//! Words and symbols that AADL has, and this profile of it doesn't.
ghost use Rattle.std.specs.Prelude.{◌≡◌, ◌≤◌, ◌+◌, [], length, map, slice_index_or};
ghost use Rattle.ag_aadl.specs.Unsupported.{bad_rule, first_bad_rule, unsupported_words, word_text};

use crate::words::same;
use ag_base::{Rule, Word};

/// The number of `delayed`.
pub const DELAYED: u8 = 16;

const UNSUPPORTED_WORDS: &[&str] = &[
    "private",
    "renames",
    "extends",
    "prototypes",
    "modes",
    "mode",
    "calls",
    "refined",
    "feature",
    "out",
    "virtual",
    "property",
    "set",
    "<->",
    "[",
    "in",
    "delayed",
];

/// The rule that is broken where one of these words can't stand, the first of which has this number.
pub fn first_bad_rule(number: u8, words: &[&str], text: &[u8]) -> Rule
    requires { number + length words.now ≤ 255 }
    ensures { result ≡ first_bad_rule number (map (λ w. w.now) words.now) text.now }
{
    let mut number = number;
    for word in words {
        if same(text, word.as_bytes()) {
            return Rule::Unsupported(Word { number });
        }
        number += 1;
    }
    Rule::Expected
}

/// The rule that a token breaks which can't stand where it stands.
#[tactic(auto, unfolding(crate::specs::Unsupported::unsupported_words))]
pub fn bad_rule(text: &[u8]) -> Rule
    ensures { result ≡ bad_rule text.now }
{
    first_bad_rule(0, UNSUPPORTED_WORDS, text)
}

/// The text of that number, empty where there is none.
pub fn text_at(texts: &[&'static str], number: usize) -> &'static str
    ensures { result.now ≡ slice_index_or (map (λ t. t.now) texts.now) number [] }
{
    if number < texts.len() {
        texts[number]
    } else {
        ""
    }
}

/// The word of that number, empty where the list lacks it.
#[tactic(auto, unfolding(crate::specs::Unsupported::unsupported_words))]
pub fn word_text(word: Word) -> &'static str
    ensures { result.now ≡ word_text word }
{
    text_at(UNSUPPORTED_WORDS, usize::from(word.number))
}
