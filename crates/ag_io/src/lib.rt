//! The real outside: standard input, standard output and files, and reading a source to its end.
//!
//! It promises that what is read of a source is all that it had left, and that a fault is answered only where
//! its count rose. Start at `read_all`; the adapters tell nothing of their content, since nobody can.
#![tactic(auto)]

pub mod files;
pub mod reading;
pub mod streams;

pub use files::FileFolder;
pub use reading::read_all;
pub use streams::{StdSink, StdSource};
