//! Numbered problems: streams, parts and equations by number, and what their runs are.
//!
//! It promises that `eval` and `breaks` answer exactly as the definitions of a run, of a kept
//! equation and of a broken obligation say. Start at `problem`, and at specs/Values.antt.
#![tactic(auto)]

mod breaking;
mod dependence;
mod evaluation;
mod laws;
pub mod problem;
mod truth;

pub use breaking::{breaks, keeps_premises};
pub use evaluation::{EvalFault, eval};
pub use laws::truths_are_fixed;
pub use problem::{
    Equation, Instant, Part, Problem, ProblemDraft, ProblemFault, Row, RowTerm, Run, Window,
    same_problem,
};
