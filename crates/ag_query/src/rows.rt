//! Linear rows and the atoms that they make.
ghost use Rattle.std.specs.Prelude.{◌≡◌, ◌≤◌, ◌++◌, ◌∷◌, [], IfOk, IsOk, OnOk, OnErr, length};

use ag_base::OutOfMemory;
use smallvec::SmallVec;
use std::alloc::{AllocError, Global};
use std::marker::Model;

/// A variable times a factor.
#[derive(Clone, Copy, Default, PartialEq)]
pub struct LTerm {
    pub var: u32,
    pub factor: i128,
}

/// The terms of a row, in order. Two of them take no memory.
#[derive(Drop)]
pub struct Terms {
    places: SmallVec<LTerm, 2>,
}

impl Model for Terms {
    ghost use Rattle.std.specs.Prelude.{List};
    ghost use Rattle.ag_query.specs.declared.rows.LTerm.{LTerm};

    ghost Value = { List LTerm };

    ghost view = { λ t. t.places.items };
}

impl Terms {
    /// A copy of these terms.
    pub fn make(alloc: Global, terms: &[LTerm]) -> Result<Terms, OutOfMemory>
        ensures terms { IfOk result (λ t. t ≡ terms.now) }
        ensures succeeds { length terms.now ≤ 2 → IsOk result }
    {
        Ok(Terms {
            places: SmallVec::from_slice(alloc, terms)?,
        })
    }

    /// No terms, which take no memory.
    pub fn new(alloc: Global) -> Terms
        ensures { result ≡ [] }
    {
        Terms {
            places: SmallVec::new(alloc),
        }
    }

    /// Puts a term at the end.
    pub fn push(&mut self, term: LTerm) -> Result<(), OutOfMemory>
        ensures ok { OnOk result (self.new ≡ self.old ++ term ∷ []) }
        ensures err { OnErr result (self.new ≡ self.old) }
    {
        self.places.push(term)?;
        Ok(())
    }

    /// The terms in order.
    pub fn as_slice(&self) -> &[LTerm]
        ensures { result.now ≡ self.now }
    {
        self.places.as_slice()
    }
}

impl Clone for Terms {
    ghost is_clone = { λ t copy. copy ≡ t };

    fn clone(&self) -> Result<Terms, AllocError> {
        Ok(Terms {
            places: SmallVec::from_slice(*self.places.allocator(), self.places.as_slice())?,
        })
    }
}

/// The sum of the terms is at most the bound.
#[derive(Clone, Drop)]
pub struct LRow {
    pub terms: Terms,
    pub bound: i128,
}

impl LRow {
    ghost use Rattle.std.specs.Prelude.{IsTrue, ◌↔◌};
    ghost use Rattle.ag_query.specs.Rows.{AreInOrder};

    /// Whether the variables rise and are below `vars`, and no factor is 0.
    pub fn is_in_order(&self, vars: u32) -> bool
        ensures { IsTrue result ↔ AreInOrder vars self.now.terms }
    {
        let mut least = 0;
        for term in self.terms.as_slice() {
            if term.factor == 0 || term.var < least || term.var >= vars {
                return false;
            }
            least = term.var + 1;
        }
        true
    }
}

/// What a literal speaks of: a truth that is free, or whether a row holds.
#[derive(Clone, Drop)]
pub enum Atom {
    Free,
    Bound(LRow),
}
