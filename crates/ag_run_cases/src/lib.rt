//! Worked cases of whole runs of the program, and of the real outside.
//!
//! It has no items but tests. Start at `runs`.
#![tactic(auto)]

#[cfg(test)]
mod adapters;
#[cfg(test)]
mod files;
#[cfg(test)]
mod histories;
#[cfg(test)]
mod runs;
