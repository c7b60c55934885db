//! The top call: from words and bytes to the bytes that are written.
//!
//! It promises that the bytes written are the replies, in order, of one legal history of the
//! verdict store, in which each verdict is true of what was read; or, for a print, the canonical text
//! of what was read. Start at `agree` in top.rt, and at specs/Outcome.antt and specs/Printing.antt.
#![tactic(auto)]

mod check;
mod command;
mod cut;
mod laws;
pub mod once;
mod print;
mod prover;
mod read;
mod refusal;
mod say;
mod serve;
mod session;
mod settle;
mod tell;
mod text;
mod top;
mod words;

pub use check::Done;
pub use laws::{one_of_the_two, one_print};
pub use once::{check_once, print_once};
pub use top::agree;
