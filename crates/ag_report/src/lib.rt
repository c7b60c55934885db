//! The texts of replies: what is printed of a revision, of its verdicts and of the end.
//!
//! It promises that each text is a stated function of what it is about. Start at specs/Texts.antt.
#![tactic(auto)]

mod key;
mod lines;
mod numbers;
mod report;
mod run;
mod table;

pub use lines::{closed_line, published_line, settled_line};
pub use report::report_text;
