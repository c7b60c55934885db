//! Clauses written as canonical text.
//!
//! It promises that what is written is the canonical text of clauses, and that this text states the
//! same clauses when it is read. Start at `write_clauses`, and at specs/Canonical.antt.
#![tactic(auto)]

mod clauses;
mod laws;
mod meaning;
mod printable;
mod rereading;
mod spelling;
mod terms;
mod texts;
mod tokens;
mod words;
mod writer;

pub use clauses::write_clauses;
pub use laws::one_text;
pub use meaning::words_state;
pub use printable::annexes_may_be_printed;
pub use rereading::clauses_reread;
pub use spelling::clauses_spell;
pub use texts::{labels_are_text, text_is_utf8, text_never_closes};
pub use tokens::clauses_are_read;
