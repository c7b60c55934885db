//! One round of a search after another.
ghost use Rattle.std.specs.Prelude.{◌≡◌, ◌≢◌, ◌⊎◌, ◌<◌, ◌≤◌, ◌+◌, ◌↔◌, [], ℕ, Bool, List, length, All, Contains, IsTrue, IsFalse, OnOk, IfOk, IsErrOf, MatchOption, slice_index_or};
ghost use Rattle.std.specs.List.{range_with_len};
ghost use Rattle.ag_base.specs.Outside.{Rose};
ghost use Rattle.ag_base.specs.declared.Halted.TheVariants.{Stopped};
ghost use Rattle.ag_query.specs.declared.clauses.Lit.{Lit};
ghost use Rattle.ag_query.specs.declared.clauses.LClause.{LClause};
ghost use Rattle.ag_query.specs.declared.query.Query.{Query};
ghost use Rattle.ag_query.specs.Meaning.{contrary};
ghost use Rattle.ag_tree.specs.Facts.{HasNoneBothWays, Lacks};
ghost use Rattle.ag_kernel.specs.Theories.{SatisfiesRows};
ghost use Rattle.ag_tree.specs.Going.{AreAtRest, AreMet, EndsAs, IsConcluded, IsGoing, IsReady, Keeps, ReachesAs, SettlesAs};
ghost use Rattle.ag_tree.specs.Listing.{listed, slot};
ghost use Rattle.ag_tree.specs.Trail.{IsAgainst, literals};

use crate::choices::Guide;
use crate::cone::cone_of;
use crate::occurrences::Occurrences;
use crate::parts::unlist;
use crate::propagation::{add_line, pass, propagate};
use crate::trail::{Step, Trail};
use ag_base::{Halt, Halted, List, OutOfMemory};
use ag_kernel::{Found, Kernel, Theory};
use ag_query::{Atom, LClause, Lit, Lits, Query, Valuation};
use std::alloc::Global;

/// The most literals that the kept facts have together.
const MOST_LITERALS: usize = 600_000;

/// How far a search has come.
#[derive(Drop)]
pub struct Progress {
    pub kernel: Kernel,
    /// The clauses, and the kept facts that no later one is a part of, under the contraries of their
    /// literals.
    pub occurrences: Occurrences,
    /// The lines of the facts among them, in order.
    pub listed: Vec<u32>,
    pub trail: Trail,
    pub facts: List<LClause>,
    /// How many literals the facts have.
    pub literals: usize,
    /// How many steps have been gone through.
    pub head: usize,
    /// Lines that have not been looked at since the last choice was taken back.
    pub unseen: Vec<u32>,
    /// How many steps the theory has seen, or have literals that say no row.
    pub asked: usize,
    pub guide: Guide,
}

/// The contraries of the choices, and the line that says them.
#[derive(Drop)]
pub struct Fact {
    pub lits: Vec<Lit>,
    pub number: u32,
}

/// How a round ends.
#[derive(Drop)]
pub enum Round {
    /// The search goes on.
    Going,
    Sat(Valuation),
    Unsat,
    /// A further fact is called for, and no further one is allowed.
    Spent,
    Leaf(List<Lit>),
}

/// What drawing comes to.
#[derive(Drop)]
pub enum Reached {
    /// The number of a line that is against the trail.
    Conflict(u32),
    /// The trail is at rest, and this atom has no value. The theory isn't asked.
    Open(u32),
    /// The trail is at rest, and these numbers are as it says.
    Model(List<i64>),
    /// The trail is at rest, and the theory gives up.
    Leaf,
}

impl Progress {
    /// No facts and no steps, and all clauses still to be looked at.
    pub fn start(alloc: Global, query: &Query) -> Result<Progress, OutOfMemory>
        requires plain { All (λ c. HasNoneBothWays c.lits) query.now.clauses }
        ensures query { IfOk result (λ s. s.kernel.query ≡ query.now) }
        ensures facts { IfOk result (λ s. s.facts ≡ []) }
        ensures going { IfOk result IsGoing }
        ensures ready { IfOk result IsReady }
    {
        let Ok(atoms) = u32::try_from(query.atoms.len()) else {
            return Err(OutOfMemory);
        };
        let mut occurrences = Occurrences::new(alloc, atoms)?;
        let unseen = list_clauses(alloc, query.clauses.as_slice(), &mut occurrences)?;
        Ok(Progress {
            kernel: Kernel::new(alloc, query)?,
            occurrences,
            listed: Vec::new(alloc),
            trail: Trail::new(alloc, atoms)?,
            facts: List::new(alloc),
            literals: 0,
            head: 0,
            unseen,
            asked: 0,
            guide: Guide::new(alloc),
        })
    }

    /// Draws what follows, and then chooses, or turns the last choice round, or ends.
    pub fn round<T: Theory, H: Halt>(
        &mut self,
        alloc: Global,
        theory: &mut T,
        work: u32,
        halt: &mut H,
    ) -> Result<Round, Halted>
        requires going { IsGoing self.old }
        requires ready { IsReady self.old }
        requires few { length self.old.facts ≤ work }
        requires fits { (lits : List Lit) → All (λ l. l.atom < length self.old.kernel.query.atoms) lits → T.fits theory.old self.old.kernel.query lits }
        ensures ends { IfOk result (EndsAs (T.leaves theory.old) work self.old self.new) }
        ensures stopped { IsErrOf result Stopped → Rose (H.yeses halt.old) (H.yeses halt.new) }
        ensures never_falls { H.yeses halt.old ≤ H.yeses halt.new }
        ensures follows { H.follows halt.old halt.new }
        ensures unstopped { IsErrOf result Stopped ⊎ (H.yeses halt.new ≡ H.yeses halt.old) }
        ensures fitting { (query : Query) (lits : List Lit) → T.fits theory.old query lits ↔ T.fits theory.new query lits }
        ensures leaving { T.leaves theory.new ≡ T.leaves theory.old }
        ensures limited { T.limit theory.new ≡ T.limit theory.old }
    {
        match self.reach(alloc, theory, halt)? {
            Reached::Conflict(line) => self.turn(alloc, line, work, halt),
            Reached::Open(atom) => {
                self.choose(atom)?;
                Ok(Round::Going)
            }
            Reached::Model(whole) => Ok(self.after_model(alloc, whole)?),
            Reached::Leaf => Ok(self.after_leaf(alloc)?),
        }
    }

    /// Comes to rest and asks the theory, or comes to a conflict. The theory isn't asked where no new
    /// literal says a row and a clause is without a true literal.
    fn reach<T: Theory, H: Halt>(
        &mut self,
        alloc: Global,
        theory: &mut T,
        halt: &mut H,
    ) -> Result<Reached, Halted>
        requires going { IsGoing self.old }
        requires ready { IsReady self.old }
        requires fits { (lits : List Lit) → All (λ l. l.atom < length self.old.kernel.query.atoms) lits → T.fits theory.old self.old.kernel.query lits }
        ensures going { OnOk result (IsGoing self.new) }
        ensures keeps { OnOk result (Keeps self.old self.new) }
        ensures reaches { IfOk result (ReachesAs (T.leaves theory.old) self.new) }
        ensures stopped { IsErrOf result Stopped → Rose (H.yeses halt.old) (H.yeses halt.new) }
        ensures never_falls { H.yeses halt.old ≤ H.yeses halt.new }
        ensures follows { H.follows halt.old halt.new }
        ensures unstopped { IsErrOf result Stopped ⊎ (H.yeses halt.new ≡ H.yeses halt.old) }
        ensures fitting { (query : Query) (lits : List Lit) → T.fits theory.old query lits ↔ T.fits theory.new query lits }
        ensures leaving { T.leaves theory.new ≡ T.leaves theory.old }
        ensures limited { T.limit theory.new ≡ T.limit theory.old }
    {
        if let Some(line) = self.settle()? {
            return Ok(Reached::Conflict(line));
        }
        self.guide
            .go_on(&self.trail, self.kernel.query().clauses.as_slice());
        let due = self.is_due();
        self.asked = self.trail.len();
        if !due && let Some(atom) = self.trail.first_unset(self.guide.atom()) {
            return Ok(Reached::Open(atom));
        }
        let lits = self.trail.lits(alloc)?;
        match theory.decide(alloc, &mut self.kernel, &lits, halt)? {
            Found::Model(whole) => Ok(Reached::Model(whole)),
            Found::Line(line) => Ok(Reached::Conflict(line)),
            Found::Leaf => Ok(Reached::Leaf),
        }
    }

    /// Whether the theory is to be asked, though atoms may be without a value.
    fn is_due(&self) -> bool {
        let query = self.kernel.query();
        says_row(&self.trail, self.asked, query) || self.guide.is_in_doubt(query.clauses.len())
    }

    /// Draws what follows until the trail is at rest, or a line is against it.
    fn settle(&mut self) -> Result<Option<u32>, OutOfMemory>
        requires going { IsGoing self.old }
        requires ready { IsReady self.old }
        ensures going { OnOk result (IsGoing self.new) }
        ensures keeps { OnOk result (Keeps self.old self.new) }
        ensures settles { IfOk result (SettlesAs self.new) }
    {
        if let Some(line) = pass(&self.kernel, &self.unseen, &mut self.trail)? {
            return Ok(Some(line));
        }
        self.unseen.clear();
        let conflict = propagate(&self.kernel, &self.occurrences, &mut self.trail, self.head)?;
        self.head = self.trail.len();
        Ok(conflict)
    }

    /// Keeps a fact and turns the last choice round, where a line is against the trail.
    fn turn<H: Halt>(
        &mut self,
        alloc: Global,
        line: u32,
        work: u32,
        halt: &mut H,
    ) -> Result<Round, Halted>
        requires going { IsGoing self.old }
        requires against { IsAgainst self.old.kernel.lines self.old.trail.steps line }
        requires few { length self.old.facts ≤ work }
        ensures ends { (leaves : Bool) → IfOk result (EndsAs leaves work self.old self.new) }
        ensures stopped { IsErrOf result Stopped → Rose (H.yeses halt.old) (H.yeses halt.new) }
        ensures never_falls { H.yeses halt.old ≤ H.yeses halt.new }
        ensures follows { H.follows halt.old halt.new }
        ensures unstopped { IsErrOf result Stopped ⊎ (H.yeses halt.new ≡ H.yeses halt.old) }
    {
        let fact = self.conclude(alloc, line)?;
        if fact.lits.is_empty() {
            return Ok(Round::Unsat);
        }
        if self.is_spent(work, &fact) {
            return Ok(Round::Spent);
        }
        if halt.poll() {
            return Err(Halted::Stopped);
        }
        self.learn(alloc, fact)?;
        Ok(Round::Going)
    }

    /// Chooses the next atom, or has a valuation, where the trail is at rest and the numbers are as
    /// it says. Atoms that have no value then are given as ones that don't hold.
    fn after_model(&mut self, alloc: Global, whole: List<i64>) -> Result<Round, OutOfMemory>
        requires going { IsGoing self.old }
        requires rest { AreAtRest self.old }
        requires rows { SatisfiesRows self.old.kernel (literals self.old.trail.steps) whole }
        ensures ends { (leaves : Bool) (work : ℕ) → length self.old.facts ≤ work → IfOk result (EndsAs leaves work self.old self.new) }
    {
        match self.next() {
            Some(atom) => {
                self.guide.found(whole);
                self.choose(atom)?;
                Ok(Round::Going)
            }
            None => {
                let flags = self.trail.flags(alloc)?;
                Ok(Round::Sat(Valuation { whole, flags }))
            }
        }
    }

    /// Chooses the next atom, or gives up, where the trail is at rest and the theory gives up.
    fn after_leaf(&mut self, alloc: Global) -> Result<Round, OutOfMemory>
        requires going { IsGoing self.old }
        requires rest { AreAtRest self.old }
        ensures ends { (leaves : Bool) (work : ℕ) → IsTrue leaves → length self.old.facts ≤ work → IfOk result (EndsAs leaves work self.old self.new) }
    {
        match self.trail.first_unset(self.guide.atom()) {
            Some(atom) => {
                self.guide.gave_up();
                self.choose(atom)?;
                Ok(Round::Going)
            }
            None => Ok(Round::Leaf(List::from_vec(self.trail.lits(alloc)?))),
        }
    }

    /// Adds the line of the contraries of the choices, where a line is against the trail.
    fn conclude(&mut self, alloc: Global, line: u32) -> Result<Fact, OutOfMemory>
        requires going { IsGoing self.old }
        requires against { IsAgainst self.old.kernel.lines self.old.trail.steps line }
        ensures going { OnOk result (IsGoing self.new) }
        ensures keeps { OnOk result (Keeps self.old self.new) }
        ensures fact { IfOk result (IsConcluded self.new) }
    {
        let lits = self.trail.denial(alloc)?;
        let lines = self.trail.reasons(alloc, line)?;
        let cone = cone_of(alloc, &self.kernel, &self.trail, line)?;
        let number = add_line(&mut self.kernel, &lits, &lines, &cone)?;
        Ok(Fact { lits, number })
    }

    /// Whether the facts are as many as are allowed, or this one would pass the literals.
    fn is_spent(&self, work: u32, fact: &Fact) -> bool
        requires going { IsGoing self.now }
        ensures yes { IsTrue result → (length self.now.facts ≡ work) ⊎ (600000 < self.now.literals + length fact.now.lits.items) }
        ensures no { IsFalse result → (length self.now.facts ≢ work) × (self.now.literals + length fact.now.lits.items ≤ 600000) }
    {
        self.facts.len() == work as usize || self.literals + fact.lits.len() > MOST_LITERALS
    }

    /// Keeps the fact, and takes the last choice back. The fact is then still to be looked at, and
    /// turns that choice round. It is a part of each fact kept since the choice was made: these leave
    /// the lists.
    fn learn(&mut self, alloc: Global, fact: Fact) -> Result<(), OutOfMemory>
        requires going { IsGoing self.old }
        requires fact { IsConcluded self.old fact }
        requires some { 0 < length fact.lits.items }
        requires few { self.old.literals + length fact.lits.items ≤ 600000 }
        ensures going { OnOk result (IsGoing self.new) }
        ensures ready { OnOk result (IsReady self.new) }
        ensures query { OnOk result (self.new.kernel.query ≡ self.old.kernel.query) }
        ensures atoms { OnOk result (self.new.trail.atoms ≡ self.old.trail.atoms) }
        ensures count { OnOk result (length self.new.facts ≡ length self.old.facts + 1) }
    {
        let Fact { lits, number } = fact;
        unlist(
            alloc,
            &self.kernel,
            &mut self.occurrences,
            &mut self.listed,
            &lits,
        )?;
        self.listed.push(number)?;
        self.occurrences.add(&lits, number)?;
        self.literals += lits.len();
        self.facts.push(LClause {
            lits: Lits::make(alloc, &lits)?,
        })?;
        let Some(choice) = self.trail.back() else {
            unreachable!();
        };
        self.guide.taken_back(choice.atom);
        let steps = self.trail.len();
        self.head = steps;
        self.asked = self.asked.min(steps);
        self.unseen.clear();
        self.unseen.push(number)?;
        Ok(())
    }

    /// Chooses a truth for the atom.
    fn choose(&mut self, atom: u32) -> Result<(), OutOfMemory>
        requires going { IsGoing self.old }
        requires rest { AreAtRest self.old }
        requires range { atom < self.old.trail.atoms }
        requires lacks { Lacks (literals self.old.trail.steps) atom }
        ensures going { OnOk result (IsGoing self.new) }
        ensures ready { OnOk result (IsReady self.new) }
        ensures keeps { OnOk result (Keeps self.old self.new) }
        ensures more { OnOk result (length self.new.trail.steps ≡ length self.old.trail.steps + 1) }
        ensures room { OnOk result (length self.new.trail.steps ≤ self.new.trail.atoms) }
    {
        let holds = self.guide.truth(self.kernel.query(), atom);
        self.guide.chosen(atom)?;
        self.head = self.trail.len();
        self.trail.push(Step {
            lit: Lit { atom, holds },
            reason: None,
        })
    }

    /// An atom for the next choice. There is none where each clause has a true literal.
    fn next(&self) -> Option<u32>
        requires going { IsGoing self.now }
        requires rest { AreAtRest self.now }
        ensures { MatchOption result (AreMet (literals self.now.trail.steps) self.now.kernel.query.clauses) (λ a. (a < self.now.trail.atoms) × Lacks (literals self.now.trail.steps) a) }
    {
        let clauses = self.kernel.query().clauses.as_slice();
        if self.guide.is_at_end(clauses.len()) && are_met(&self.trail, clauses) {
            return None;
        }
        self.trail.first_unset(self.guide.atom())
    }
}

/// Whether each clause has a true literal.
fn are_met(trail: &Trail, clauses: &[LClause]) -> bool
    ensures { IsTrue result → AreMet (literals trail.now.steps) clauses.now }
{
    for clause in clauses {
        if !trail.has_one(clause.lits.as_slice()) {
            return false;
        }
    }
    true
}

/// Whether a step from this place on has a literal that says a row.
fn says_row(trail: &Trail, from: usize, query: &Query) -> bool {
    for place in from..trail.len() {
        let atom = trail.literal(place).atom;
        if let Some(Atom::Bound(_)) = query.atoms.as_slice().get(atom as usize) {
            return true;
        }
    }
    false
}

/// Lists each clause under the contraries of its literals, and answers the numbers of all.
fn list_clauses(
    alloc: Global,
    clauses: &[LClause],
    occurrences: &mut Occurrences,
) -> Result<Vec<u32>, OutOfMemory>
    requires range { All (λ c. All (λ l. slot (contrary l) < length occurrences.old) c.lits) clauses.now }
    requires empty { (l : Lit) (n : ℕ) → Contains (listed occurrences.old l) n → ⊥ }
    ensures numbers { IfOk result (λ numbers. numbers.items ≡ range_with_len 0 (length clauses.now)) }
    ensures slots { OnOk result (length occurrences.new ≡ length occurrences.old) }
    ensures only { OnOk result ((l : Lit) (n : ℕ) → Contains (listed occurrences.new l) n → n < length clauses.now) }
    ensures listed { OnOk result ((k : ℕ) (c : LClause) → k < length clauses.now → slice_index_or clauses.now k c ≡ c → All (λ l. Contains (listed occurrences.new (contrary l)) k) c.lits) }
{
    let mut numbers = Vec::new(alloc);
    for clause in clauses {
        let Ok(number) = u32::try_from(numbers.len()) else {
            return Err(OutOfMemory);
        };
        occurrences.add(clause.lits.as_slice(), number)?;
        numbers.push(number)?;
    }
    Ok(numbers)
}
