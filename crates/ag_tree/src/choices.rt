//! Which atom is chosen next, and which way. What is answered here is a guess that no proof rests on:
//! where it is used, it is tested.
use crate::trail::Trail;
use ag_base::{List, OutOfMemory};
use ag_query::{Atom, LClause, LRow, Lit, Query};
use std::alloc::Global;

/// What guides the choices of a search.
#[derive(Drop)]
pub struct Guide {
    /// Each clause of the query before this one has a true literal.
    clause: usize,
    /// What `clause` was at each choice that stands.
    before: Vec<usize>,
    /// Where an atom without a value is looked for first.
    atom: u32,
    /// The numbers that the theory found last. It has found none where there are none.
    model: List<i64>,
    /// Whether the theory gave up when it was asked last.
    undecided: bool,
}

impl Guide {
    /// No choices, and nothing is known of the clauses.
    pub fn new(alloc: Global) -> Guide {
        Guide {
            clause: 0,
            before: Vec::new(alloc),
            atom: 0,
            model: List::new(alloc),
            undecided: false,
        }
    }

    /// Goes on to the first clause without a true literal, and to an atom of it that has no value.
    pub fn go_on(&mut self, trail: &Trail, clauses: &[LClause]) {
        for place in self.clause..clauses.len() {
            self.clause = place;
            if let Some(atom) = open_atom(trail, clauses[place].lits.as_slice()) {
                self.atom = atom;
                return;
            }
        }
        self.clause = clauses.len();
    }

    /// Whether each of so many clauses has a true literal.
    pub fn is_at_end(&self, clauses: usize) -> bool {
        self.clause >= clauses
    }

    /// Whether the theory is to be asked of these clauses though no new literal says a row.
    pub fn is_in_doubt(&self, clauses: usize) -> bool {
        self.is_at_end(clauses) && !self.undecided
    }

    /// Where an atom without a value is looked for first.
    pub fn atom(&self) -> u32 {
        self.atom
    }

    /// The truth that the atom is given first: that of its row at the numbers which the theory found
    /// last. An atom without a row is given as one that doesn't hold.
    pub fn truth(&self, query: &Query, atom: u32) -> bool {
        match query.atoms.as_slice().get(atom as usize) {
            Some(Atom::Bound(row)) => is_so(row, self.model.as_slice()),
            Some(Atom::Free) | None => false,
        }
    }

    /// The theory has found numbers.
    pub fn found(&mut self, model: List<i64>) {
        self.model = model;
        self.undecided = false;
    }

    /// The theory has given up.
    pub fn gave_up(&mut self) {
        self.undecided = true;
    }

    /// The atom is chosen.
    pub fn chosen(&mut self, atom: u32) -> Result<(), OutOfMemory> {
        self.before.push(self.clause)?;
        self.atom = atom;
        Ok(())
    }

    /// The last choice, of this atom, is taken back.
    pub fn taken_back(&mut self, atom: u32) {
        self.clause = self.before.pop().unwrap_or(0);
        self.atom = atom;
        self.undecided = false;
    }
}

/// The first atom of the clause without a value, where no literal is true.
fn open_atom(trail: &Trail, clause: &[Lit]) -> Option<u32> {
    let mut open = None;
    for lit in clause {
        match trail.value(lit.atom) {
            Some(holds) => {
                if holds == lit.holds {
                    return None;
                }
            }
            None => {
                if open.is_none() {
                    open = Some(lit.atom);
                }
            }
        }
    }
    open
}

/// Whether the row holds at these numbers. A row of a variable that has none doesn't.
fn is_so(row: &LRow, numbers: &[i64]) -> bool {
    let mut sum: i128 = 0;
    for term in row.terms.as_slice() {
        let Some(number) = numbers.get(term.var as usize) else {
            return false;
        };
        sum = sum.wrapping_add(term.factor.wrapping_mul(i128::from(*number)));
    }
    sum <= row.bound
}
