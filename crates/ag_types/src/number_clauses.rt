//! The rules on numbers over all clauses of a scope.
ghost use Rattle.std.specs.Prelude.{◌≡◌, IfOk};
ghost use Rattle.std.specs.List.{flat_map};
ghost use Rattle.ag_symbols.specs.Seen.{Seen, library_names, frame_names, names_seen, names_of_node, seen_of};
ghost use Rattle.ag_types.specs.Constants.{AreKept};
ghost use Rattle.ag_types.specs.NumberFaults.{free_or_side, node_numbers, clause_numbers, number_faults};
ghost use Rattle.ag_types.specs.Places.{first_broken};

use crate::numbers::{numbered, side};
use crate::places::either;
use ag_base::{OutOfMemory, Refusal};
use ag_linear::Value;
use ag_symbols::{Sight, Site, Sites, node_streams};
use ag_terms::{Clause, Equal, NodeDef, Term, Var};
use std::alloc::Global;

/// The first rule on numbers that the clauses of a scope break, where its constants have these values.
pub fn first_number_fault(
    alloc: Global,
    sites: &Sites<'_>,
    values: &[Option<Value>],
    library: &[Clause],
    frame: &[Clause],
    body: &[Clause],
    ports: &[Var],
) -> Result<Option<Refusal>, OutOfMemory>
    requires kept { AreKept values.now }
    requires library { sites.now.library ≡ library_names (seen_of library.now frame.now body.now ports.now) }
    requires frame { sites.now.frame ≡ frame_names (seen_of library.now frame.now body.now ports.now) }
    requires body { sites.now.body ≡ names_seen (seen_of library.now frame.now body.now ports.now) }
    ensures { IfOk result (λ r. r ≡ first_broken (number_faults (seen_of library.now frame.now body.now ports.now) values.now)) }
{
    let of_library = of_clauses(alloc, &sites.library, values, library)?;
    let of_frame = of_clauses(alloc, &sites.frame, values, frame)?;
    let of_body = of_clauses(alloc, &sites.body, values, body)?;
    Ok(either(of_library, either(of_frame, of_body)))
}

fn of_clauses(
    alloc: Global,
    site: &Site<'_>,
    values: &[Option<Value>],
    clauses: &[Clause],
) -> Result<Option<Refusal>, OutOfMemory>
    requires { AreKept values.now }
    ensures { IfOk result (λ r. r ≡ first_broken (flat_map (clause_numbers values.now site.now) clauses.now)) }
{
    let mut broken = None;
    for clause in clauses {
        broken = either(broken, of_clause(alloc, site, values, clause)?);
    }
    Ok(broken)
}

fn of_clause(
    alloc: Global,
    site: &Site<'_>,
    values: &[Option<Value>],
    clause: &Clause,
) -> Result<Option<Refusal>, OutOfMemory>
    requires { AreKept values.now }
    ensures { IfOk result (λ r. r ≡ first_broken (clause_numbers values.now site.now clause.now)) }
{
    let sight = site.sight();
    match clause {
        Clause::Assume(labelled) | Clause::Guarantee(labelled) | Clause::Lemma(labelled) => {
            Ok(numbered(alloc, &sight, values, &labelled.claim)?.broken)
        }
        Clause::Eq { value, .. } => of_value(alloc, &sight, values, value),
        Clause::Assign(equal) => side(alloc, &sight, values, &equal.value),
        Clause::Const { value, .. } => Ok(numbered(alloc, &sight, values, value)?.of_constant),
        Clause::Node(node) => of_node(alloc, site, values, node),
    }
}

// The value of streams, if they aren't free.
fn of_value(
    alloc: Global,
    sight: &Sight<'_>,
    values: &[Option<Value>],
    value: &Option<Term>,
) -> Result<Option<Refusal>, OutOfMemory>
    requires { AreKept values.now }
    ensures { IfOk result (λ r. r ≡ first_broken (free_or_side sight.now values.now value.now)) }
{
    match value {
        None => Ok(None),
        Some(term) => side(alloc, sight, values, term),
    }
}

fn of_node(
    alloc: Global,
    site: &Site<'_>,
    values: &[Option<Value>],
    node: &NodeDef,
) -> Result<Option<Refusal>, OutOfMemory>
    requires { AreKept values.now }
    ensures { IfOk result (λ r. r ≡ first_broken (flat_map (node_numbers (names_of_node site.now node.now) values.now) node.now.equations)) }
{
    let own = node_streams(alloc, node)?;
    let sight = site.sight_of(&own);
    of_equations(alloc, &sight, values, node.equations.as_slice())
}

fn of_equations(
    alloc: Global,
    sight: &Sight<'_>,
    values: &[Option<Value>],
    equations: &[Equal],
) -> Result<Option<Refusal>, OutOfMemory>
    requires { AreKept values.now }
    ensures { IfOk result (λ r. r ≡ first_broken (flat_map (node_numbers sight.now values.now) equations.now)) }
{
    let mut broken = None;
    for equation in equations {
        broken = either(broken, side(alloc, sight, values, &equation.value)?);
    }
    Ok(broken)
}
