//! A list of literals that tells at once whether it has one.
ghost use Rattle.std.specs.Prelude.{◌≡◌, ◌<◌, ◌+◌, [], length, All, IfOk, OnOk, OnErr};
ghost use Rattle.ag_kernel.specs.Sets.{has, with_literal, joined};

use ag_base::OutOfMemory;
use ag_query::Lit;
use std::alloc::Global;
use std::marker::Model;

/// The rounds in which an atom's literals were last put into the list.
#[derive(Clone, Copy)]
pub struct Mark {
    yes: u32,
    no: u32,
}

/// Literals, each once, in the order in which they came. Its marks are for atoms by number. A mark
/// of an earlier round counts as none, so that the list is emptied without a walk.
#[derive(Drop)]
pub struct Marked {
    marks: Vec<Mark>,
    round: u32,
    lits: Vec<Lit>,
}

impl Model for Marked {
    ghost use Rattle.ag_kernel.specs.Marks.{Has};

    ghost Value = { Has };

    ghost use Rattle.ag_kernel.specs.Marking.{seen, AreMarked};

    ghost view = { seen };

    ghost invariant = { AreMarked };
}

impl Marked {
    /// No literals, with places for so many atoms.
    pub fn new(alloc: Global, atoms: usize) -> Result<Marked, OutOfMemory>
        ensures { IfOk result (λ m. m ≡ record { atoms = atoms; lits = [] }) }
    {
        Ok(Marked {
            marks: vec![in alloc; Mark { yes: 0, no: 0 }; atoms]?,
            round: 1,
            lits: Vec::new(alloc),
        })
    }

    pub fn atoms(&self) -> usize
        ensures { result ≡ self.now.atoms }
    {
        self.marks.len()
    }

    pub fn as_slice(&self) -> &[Lit]
        ensures { result.now ≡ self.now.lits }
    {
        self.lits.as_slice()
    }

    pub fn has(&self, lit: Lit) -> bool
        requires { lit.atom < self.now.atoms }
        ensures { result ≡ has self.now.lits lit }
    {
        let mark = self.marks[lit.atom as usize];
        let round = if lit.holds { mark.yes } else { mark.no };
        round == self.round
    }

    /// Puts the literal at the end, unless it is there.
    pub fn add(&mut self, lit: Lit) -> Result<(), OutOfMemory>
        requires { lit.atom < self.old.atoms }
        ensures ok { OnOk result (self.new ≡ record self.old { lits = with_literal self.old.lits lit }) }
        ensures atoms { self.new.atoms ≡ self.old.atoms }
    {
        if self.has(lit) {
            return Ok(());
        }
        self.lits.push(lit)?;
        let round = self.round;
        let mark = self.marks[lit.atom as usize];
        self.marks[lit.atom as usize] = if lit.holds {
            Mark {
                yes: round,
                no: mark.no,
            }
        } else {
            Mark {
                yes: mark.yes,
                no: round,
            }
        };
        Ok(())
    }

    /// Empties the list.
    pub fn clear(&mut self)
        ensures { self.new ≡ record self.old { lits = [] } }
    {
        if self.round == u32::MAX {
            self.marks.fill(Mark { yes: 0, no: 0 });
            self.round = 0;
        }
        self.round += 1;
        self.lits.clear();
    }

    /// A place for one atom more.
    pub fn grow(&mut self) -> Result<(), OutOfMemory>
        ensures ok { OnOk result (self.new ≡ record self.old { atoms = self.old.atoms + 1 }) }
        ensures err { OnErr result (self.new ≡ self.old) }
    {
        self.marks.push(Mark { yes: 0, no: 0 })?;
        Ok(())
    }
}
