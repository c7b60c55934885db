//! Literals and clauses over the atoms of a query.
ghost use Rattle.std.specs.Prelude.{◌≡◌, ◌≤◌, IfOk, IsOk, length};

use ag_base::OutOfMemory;
use smallvec::SmallVec;
use std::alloc::{AllocError, Global};
use std::marker::Model;

/// An atom that holds, or one that doesn't.
#[derive(Clone, Copy, Default, PartialEq)]
pub struct Lit {
    pub atom: u32,
    pub holds: bool,
}

impl Lit {
    ghost use Rattle.ag_query.specs.Meaning.{contrary};

    /// The literal that is true exactly where this one is false.
    pub fn contrary(self) -> Lit
        ensures { result ≡ contrary self }
    {
        Lit {
            atom: self.atom,
            holds: !self.holds,
        }
    }
}

/// Literals in order. Four of them take no memory.
#[derive(Drop)]
pub struct Lits {
    places: SmallVec<Lit, 4>,
}

impl Model for Lits {
    ghost use Rattle.std.specs.Prelude.{List};
    ghost use Rattle.ag_query.specs.declared.clauses.Lit.{Lit};

    ghost Value = { List Lit };

    ghost view = { λ l. l.places.items };
}

impl Lits {
    /// A copy of these literals.
    pub fn make(alloc: Global, lits: &[Lit]) -> Result<Lits, OutOfMemory>
        ensures lits { IfOk result (λ l. l ≡ lits.now) }
        ensures succeeds { length lits.now ≤ 4 → IsOk result }
    {
        Ok(Lits {
            places: SmallVec::from_slice(alloc, lits)?,
        })
    }

    /// The literals in order.
    pub fn as_slice(&self) -> &[Lit]
        ensures { result.now ≡ self.now }
    {
        self.places.as_slice()
    }
}

impl Clone for Lits {
    ghost is_clone = { λ l copy. copy ≡ l };

    fn clone(&self) -> Result<Lits, AllocError> {
        Ok(Lits {
            places: SmallVec::from_slice(*self.places.allocator(), self.places.as_slice())?,
        })
    }
}

/// One of the literals is true.
#[derive(Clone, Drop)]
pub struct LClause {
    pub lits: Lits,
}
