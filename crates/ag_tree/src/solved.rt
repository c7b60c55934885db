//! What a search answers.
use ag_base::List;
use ag_query::{LClause, Lit, Valuation};

/// The answer to a query.
#[derive(Drop)]
pub enum Solved {
    /// A valuation that meets the query.
    Sat(Valuation),
    /// No valuation meets the query.
    Unsat,
    /// The facts that were kept, in order: a conflict calls for one more than is allowed.
    Work(List<LClause>),
    /// The literals that the theory could not decide within its limit. That trying their rows ends
    /// there is not part of the contract yet.
    Leaf(List<Lit>),
}
