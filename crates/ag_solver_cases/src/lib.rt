//! Worked cases of the solver: what its crates answer to small queries, from valuations to whole searches.
//!
//! It has no items but tests. Each module stands for one crate, and has tables with a case on each line. Start at `made`,
//! which makes the queries.
#![tactic(auto)]

#[cfg(test)]
mod differences;
#[cfg(test)]
mod kernels;
#[cfg(test)]
mod made;
#[cfg(test)]
mod queries;
#[cfg(test)]
mod searches;
