//! Worked cases: what the readers answer to texts, from tokens to clauses, and what `print -` writes and refuses.
//!
//! It has no items but tests. Each module stands for one public call, and `rules` for all rules on annexes; most have
//! tables with a case on each line, so that a case is added as a line. The tables are read by `ag_case_texts`.
#![tactic(auto)]

#[cfg(test)]
mod clauses;
#[cfg(test)]
mod packages;
#[cfg(test)]
mod prints;
#[cfg(test)]
mod refusals;
#[cfg(test)]
mod rules;
#[cfg(test)]
mod runs;
#[cfg(test)]
mod tokens;
