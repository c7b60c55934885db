//! Worked cases of the small grammar that `check` reads so far, and of the reports over its packages.
//!
//! It has no items but tests, and goes when `check` reads whole models. Start at `small`.
#![tactic(auto)]

#[cfg(test)]
mod reports;
#[cfg(test)]
mod small;
