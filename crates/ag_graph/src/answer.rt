//! What is answered of a graph.
use ag_base::List;

/// Which vertices lead back to themselves, and all vertices in an order in which each other one stands
/// behind those that it leads to.
#[derive(Drop)]
pub struct Circles {
    pub on_circle: List<bool>,
    pub order: List<usize>,
}
