//! The first small grammar: one package with one system type and one implementation, whose formulas
//! are built of names and truths by `not`, `and`, `or`, `=>` and parentheses.
//!
//! It promises that a package is read exactly where the bytes spell one that keeps the rules, that no
//! bytes spell two, and that a verdict which is true of an obligation's numbered problem is true of
//! what the obligation says by name. Start at `read`, and at specs/Grammar.antt.
#![tactic(auto)]

ghost use Rattle.std.specs.Prelude.{◌≡◌, List, ℕ, IfOk};
ghost use Rattle.ag_small.specs.declared.package.Package.{Package};
ghost use Rattle.ag_small.specs.Reads.{Reads, IsReadUnlessMemory};
ghost use Rattle.ag_small.specs.Reading.{Gives, read_of};

mod carried;
mod class;
mod formula_walk;
mod formulas;
mod numbered;
mod package;
mod place;
mod reading;
mod rules;
mod token;
mod walk;

pub use carried::{obligations_are_fit, runs_stand, verdicts_carry_over};
pub use numbered::obligations;
pub use package::{Assign, Claim, ClaimKind, Formula, Node, Package, Port, ReadFault};
pub use place::place_of_refusal;
use std::alloc::Global;

/// Reads a package. Its names stand as the bytes have them; white space is TAB, LF, CR and space, and
/// there are no comments. It takes time in proportion to the bytes.
pub fn read(alloc: Global, bytes: &[u8]) -> Result<Package, ReadFault>
    // What is read is what the bytes spell.
    ensures ok { IfOk result (λ p. Reads bytes.now p) }
    // A package that the bytes spell is read, unless memory was wanting: so `NotBuilt` comes exactly
    // where they spell none.
    ensures only { (p : Package) → Reads bytes.now p → IsReadUnlessMemory result p }
{
    whole(alloc, bytes)
}

/// No bytes spell two packages.
pub fn one_reading()
    ensures { (bytes : List ℕ) (p q : Package) → Reads bytes p → Reads bytes q → p ≡ q }
{}

#[tactic(auto, unfolding(crate::specs::Reading::read_of))]
fn whole(alloc: Global, bytes: &[u8]) -> Result<Package, ReadFault>
    ensures { Gives (λ p. p) result (read_of bytes.now) }
{
    let model = reading::package(alloc, bytes)?;
    if !rules::is_well_formed(&model) {
        return Err(ReadFault::NotBuilt);
    }
    Ok(model)
}
