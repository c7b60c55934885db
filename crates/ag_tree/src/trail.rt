//! The truths that a search has given to atoms, in order.
ghost use Rattle.std.specs.Prelude.{◌≡◌, ◌∷◌, ◌++◌, ◌<◌, ◌≤◌, ℕ, [], length, map, reverse, unwrap_or, All, Any, Contains, IsTrue, OnOk, IfOk, MatchOption, false, slice_index_or, ⊤};
ghost use Rattle.std.specs.List.{filter_map};
ghost use Rattle.ag_query.specs.declared.clauses.Lit.{Lit};
ghost use Rattle.ag_tree.specs.declared.trail.Step.{Step};
ghost use Rattle.ag_tree.specs.Facts.{HasNoneBothWays, Lacks};
ghost use Rattle.ag_tree.specs.Trail.{HasReason, IsBackTo, LooksAs, denial, literals, reasons, truth_in};

use ag_base::{List, OutOfMemory};
use ag_query::Lit;
use std::alloc::{AllocError, Global};
use std::marker::Model;

/// A literal that was made true: drawn from the line of that number, or chosen.
#[derive(Clone, Copy)]
pub struct Step {
    pub lit: Lit,
    pub reason: Option<u32>,
}

/// What a clause says along the literals of a trail.
#[derive(Clone, Copy)]
pub enum Look {
    /// One of its literals is true, or two of its atoms have no value.
    Rest,
    /// All its literals but this one are false, and this one's atom has no value.
    Last(Lit),
    /// All its literals are false.
    Conflict,
}

/// Steps in order, and the values by atom that they give.
#[derive(Drop)]
pub struct Trail {
    values: Vec<Option<bool>>,
    steps: Vec<Step>,
}

impl Model for Trail {
    ghost use Rattle.ag_tree.specs.Trail.{Seen};

    ghost Value = { Seen };

    ghost use Rattle.ag_tree.specs.Keeping.{seen, IsTrail};

    ghost view = { seen };

    ghost invariant = { IsTrail };
}

impl Trail {
    /// No steps, with places for the values of so many atoms.
    pub fn new(alloc: Global, atoms: u32) -> Result<Trail, OutOfMemory>
        ensures { IfOk result (λ t. t ≡ record { atoms = atoms; steps = [] }) }
    {
        Ok(Trail {
            values: vec![in alloc; None; atoms as usize]?,
            steps: Vec::new(alloc),
        })
    }

    /// How many steps there are.
    pub fn len(&self) -> usize
        ensures value { result ≡ length self.now.steps }
        ensures room { length self.now.steps ≤ self.now.atoms }
    {
        self.steps.len()
    }

    /// The truth that the steps give to the atom.
    pub fn value(&self, atom: u32) -> Option<bool>
        ensures { result ≡ truth_in (literals self.now.steps) atom }
    {
        match self.values.get(atom as usize) {
            Some(value) => *value,
            None => None,
        }
    }

    /// Whether a literal of the clause is true.
    pub fn has_one(&self, clause: &[Lit]) -> bool
        ensures { IsTrue result → Any (Contains (literals self.now.steps)) clause.now }
    {
        for lit in clause {
            if let Some(holds) = self.value(lit.atom)
                && holds == lit.holds
            {
                return true;
            }
        }
        false
    }

    pub fn push(&mut self, step: Step) -> Result<(), OutOfMemory>
        requires range { step.lit.atom < self.old.atoms }
        requires fresh { Lacks (literals self.old.steps) step.lit.atom }
        ensures steps { OnOk result (self.new ≡ record self.old { steps = step ∷ self.old.steps }) }
        ensures room { OnOk result (length self.new.steps ≤ self.new.atoms) }
    {
        self.steps.push(step)?;
        self.values[step.lit.atom as usize] = Some(step.lit.holds);
        Ok(())
    }

    /// The literal of the step with so many steps before it.
    pub fn literal(&self, place: usize) -> Lit
        requires { place < length self.now.steps }
        ensures value { (d : Lit) → result ≡ slice_index_or (reverse (literals self.now.steps)) place d }
        ensures range { result.atom < self.now.atoms }
    {
        self.steps[place].lit
    }

    /// The line from which the step with so many steps before it was drawn.
    pub fn reason(&self, place: usize) -> Option<u32>
        requires { place < length self.now.steps }
        ensures { MatchOption result ⊤ (HasReason self.now.steps) }
    {
        self.steps[place].reason
    }

    /// What the clause says.
    pub fn look(&self, clause: &[Lit]) -> Look
        requires range { All (λ l. l.atom < self.now.atoms) clause.now }
        requires plain { HasNoneBothWays clause.now }
        ensures { LooksAs (literals self.now.steps) clause.now result }
    {
        let mut last: Option<Lit> = None;
        for lit in clause {
            match self.values[lit.atom as usize] {
                Some(holds) => {
                    if holds == lit.holds {
                        return Look::Rest;
                    }
                }
                None => match last {
                    None => last = Some(*lit),
                    Some(other) => {
                        if other.atom != lit.atom {
                            return Look::Rest;
                        }
                    }
                },
            }
        }
        match last {
            None => Look::Conflict,
            Some(lit) => Look::Last(lit),
        }
    }

    fn pop(&mut self) -> Option<Step>
        ensures steps { MatchOption result (self.old.steps ≡ []) (λ s. self.old.steps ≡ s ∷ self.new.steps) }
        ensures atoms { self.new.atoms ≡ self.old.atoms }
    {
        let step = self.steps.pop()?;
        self.values[step.lit.atom as usize] = None;
        Some(step)
    }

    /// Takes the last choice back, with all that came after it.
    pub fn back(&mut self) -> Option<Lit>
        ensures steps { MatchOption result (denial self.old.steps ≡ []) (IsBackTo self.old.steps self.new.steps) }
        ensures atoms { self.new.atoms ≡ self.old.atoms }
    {
        while let Some(step) = self.pop() {
            if step.reason.is_none() {
                return Some(step.lit);
            }
        }
        None
    }

    /// An atom without a value: the first one from this atom on, or else the first one at all.
    pub fn first_unset(&self, from: u32) -> Option<u32>
        ensures { MatchOption result ((a : ℕ) → a < self.now.atoms → Lacks (literals self.now.steps) a → ⊥) (λ a. (a < self.now.atoms) × Lacks (literals self.now.steps) a) }
    {
        let atoms = self.values.len() as u32;
        match self.unset_within(from, atoms) {
            Some(atom) => Some(atom),
            None => self.unset_within(0, atoms),
        }
    }

    fn unset_within(&self, low: u32, high: u32) -> Option<u32>
        requires { high ≤ self.now.atoms }
        ensures { MatchOption result ((a : ℕ) → low ≤ a → a < high → Lacks (literals self.now.steps) a → ⊥) (λ a. (a < self.now.atoms) × Lacks (literals self.now.steps) a) }
    {
        for atom in low..high {
            if self.values[atom as usize].is_none() {
                return Some(atom);
            }
        }
        None
    }

    /// The literals of the steps, in order.
    pub fn lits(&self, alloc: Global) -> Result<Vec<Lit>, OutOfMemory>
        ensures value { IfOk result (λ lits. lits.items ≡ reverse (literals self.now.steps)) }
        ensures range { IfOk result (λ lits. All (λ l. l.atom < self.now.atoms) lits.items) }
    {
        Ok(literals_of(alloc, &self.steps)?)
    }

    /// The contraries of the choices, the last choice first.
    pub fn denial(&self, alloc: Global) -> Result<Vec<Lit>, OutOfMemory>
        ensures value { IfOk result (λ lits. lits.items ≡ denial self.now.steps) }
        ensures range { IfOk result (λ lits. All (λ l. l.atom < self.now.atoms) lits.items) }
    {
        Ok(denial_of(alloc, &self.steps)?)
    }

    /// The lines from which steps were drawn, in order, and then this one.
    pub fn reasons(&self, alloc: Global, last: u32) -> Result<Vec<u32>, OutOfMemory>
        ensures { IfOk result (λ lines. lines.items ≡ reasons self.now.steps ++ last ∷ []) }
    {
        let mut lines = reasons_of(alloc, &self.steps)?;
        lines.push(last)?;
        Ok(lines)
    }

    /// The truths by atom. An atom without a value is given as one that doesn't hold.
    pub fn flags(&self, alloc: Global) -> Result<List<bool>, OutOfMemory>
        ensures count { IfOk result (λ flags. length flags ≡ self.now.atoms) }
        ensures truths { IfOk result (λ flags. All (λ l. slice_index_or flags l.atom false ≡ l.holds) (literals self.now.steps)) }
    {
        Ok(List::from_vec(flags_of(alloc, &self.values)?))
    }
}

fn literals_of(alloc: Global, steps: &[Step]) -> Result<Vec<Lit>, AllocError>
    ensures { IfOk result (λ lits. lits.items ≡ literals steps.now) }
{
    steps.iter().map(|s| s.lit).collect(alloc)
}

fn denial_of(alloc: Global, steps: &[Step]) -> Result<Vec<Lit>, AllocError>
    ensures { IfOk result (λ lits. lits.items ≡ denial (reverse steps.now)) }
{
    steps
        .iter()
        .rev()
        .filter(|s| s.reason.is_none())
        .map(|s| s.lit.contrary())
        .collect(alloc)
}

fn reasons_of(alloc: Global, steps: &[Step]) -> Result<Vec<u32>, AllocError>
    ensures { IfOk result (λ lines. lines.items ≡ filter_map (λ s. s.reason) steps.now) }
{
    steps.iter().filter_map(|s| s.reason).collect(alloc)
}

fn flags_of(alloc: Global, values: &[Option<bool>]) -> Result<Vec<bool>, AllocError>
    ensures { IfOk result (λ flags. flags.items ≡ map (λ v. unwrap_or v false) values.now) }
{
    values.iter().map(|v| v.unwrap_or(false)).collect(alloc)
}
