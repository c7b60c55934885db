//! The rules on what annexes state: types, numbers, and the rows of expressions.
//!
//! It promises that a scope is made exactly where its clauses break no rule on types, and else the first
//! rule that they break is answered; that an expression's type is the one that its operators and names
//! give it; and that its row is worth in every run what it is worth. Start at `Scope::make`, and at
//! specs/Answers.antt.
#![tactic(auto)]

mod claims;
mod clauses;
mod constants;
mod earliest;
mod equations;
mod faults;
mod integers;
mod names;
mod number_clauses;
mod number_faults;
mod number_rows;
mod numbered;
mod numbers;
mod places;
pub mod scope;
mod sources;
mod sum_rows;
mod sums;
mod twice;
mod types;
mod uses;

pub use scope::{Scope, one_refusal, type_of};
pub use sum_rows::{is_sum, linear};
pub use types::one_answer;
