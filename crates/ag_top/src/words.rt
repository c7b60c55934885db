//! The words of the command line.
ghost use Rattle.std.specs.Prelude.{◌≡◌, ◌↔◌, ◌∷◌, [], ℕ, List, IsTrue, MatchOption};
ghost use Rattle.ag_top.specs.declared.words.Order.{Order as OrderValue};
ghost use Rattle.ag_top.specs.Words.{word_of, AsksFor, IsCommand, IsPlainWord, NamesFile};

use ag_base::Text;

/// What the words ask for, of one file.
#[derive(Clone, Copy, Debug, PartialEq, Eq)]
pub enum Order {
    Check,
    Print,
}

/// Whether a word names a file by itself.
fn is_plain(word: &[u8]) -> bool
    ensures { IsTrue result ↔ IsPlainWord word.now }
{
    match word {
        [] => false,
        [first, rest @ ..] => *first != b'-' || rest.is_empty(),
    }
}

/// The one file that the words behind a command name, if they name one.
fn file_of(words: &[Text]) -> Option<&Text>
    ensures named { MatchOption result
        ((name : List ℕ) → NamesFile words.now name → ⊥)
        (λ name. NamesFile words.now name.now) }
{
    match words {
        [name] if is_plain(name.as_bytes()) => Some(name),
        [first, second] => file_of_two(first, second),
        _ => None,
    }
}

/// The same of two words.
fn file_of_two<'a>(first: &'a Text, second: &'a Text) -> Option<&'a Text>
    ensures named { MatchOption result
        ((name : List ℕ) → NamesFile (first.now ∷ second.now ∷ []) name → ⊥)
        (λ name. NamesFile (first.now ∷ second.now ∷ []) name.now) }
{
    if first.as_str() == "--" {
        if second.as_bytes().is_empty() {
            None
        } else {
            Some(second)
        }
    } else if second.as_str() == "--" && is_plain(first.as_bytes()) {
        Some(first)
    } else {
        None
    }
}

/// The order of a command's word, if it is one.
fn order_of_word(word: &str) -> Option<Order>
    ensures asks { MatchOption result ((o : OrderValue) → word.now ≡ word_of o → ⊥) (λ o. word.now ≡ word_of o) }
{
    match word {
        "check" => Some(Order::Check),
        "print" => Some(Order::Print),
        _ => None,
    }
}

/// What the words ask for and of which file, if they are a command.
pub fn order_of(words: &[Text]) -> Option<(Order, &Text)>
    ensures asks { MatchOption result (IsCommand words.now → ⊥) (λ o. AsksFor words.now o.0 o.1.now) }
{
    match words {
        [] => None,
        [first, rest @ ..] => match order_of_word(first.as_str()) {
            None => None,
            Some(order) => match file_of(rest) {
                None => None,
                Some(name) => Some((order, name)),
            },
        },
    }
}
