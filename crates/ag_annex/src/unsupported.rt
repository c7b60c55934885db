//! Words and symbols that the clauses of annexes have, and this profile of them doesn't.
ghost use Rattle.std.specs.Prelude.{◌≡◌};
ghost use Rattle.ag_annex.specs.Unsupported.{bad_rule, unsupported_words, word_text};

use ag_base::{Rule, Word};

// How many words of packages there are, behind which these are numbered.
const WORDS_BEFORE: u8 = 17;

const UNSUPPORTED_WORDS: &[&str] = &[
    "real",
    "event",
    "assert",
    "property",
    "fun",
    "enum",
    "struct",
    "calendar",
    "synchrony",
    "linearization",
    "forall",
    "exists",
    "foreach",
    "/",
    "[",
    "{",
];

/// The rule that a token of an annex breaks which can't stand where it stands.
#[tactic(auto, unfolding(crate::specs::Unsupported::unsupported_words))]
pub fn bad_rule(text: &[u8]) -> Rule
    ensures { result ≡ bad_rule text.now }
{
    ag_aadl::first_bad_rule(WORDS_BEFORE, UNSUPPORTED_WORDS, text)
}

/// The word of that number, of packages or of annexes, empty where both lists lack it.
#[tactic(auto, unfolding(crate::specs::Unsupported::unsupported_words))]
pub fn word_text(word: Word) -> &'static str
    ensures { result.now ≡ word_text word }
{
    if word.number < WORDS_BEFORE {
        return ag_aadl::word_text(word);
    }
    ag_aadl::text_at(UNSUPPORTED_WORDS, usize::from(word.number - WORDS_BEFORE))
}
