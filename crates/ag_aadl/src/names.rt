//! The name behind `end` is the declared one.
ghost use Rattle.std.specs.Prelude.{◌≡◌, OnOk, Err, Ok};
ghost use Rattle.ag_base.specs.declared.place.Refusal.{Refusal};
ghost use Rattle.ag_base.specs.declared.place.Refused.TheVariants.{Model};
ghost use Rattle.ag_aadl.specs.Rules.{same_names, is_head, is_end, naming_after, package_after, declaration_after, end_after, names_after, is_misnamed, misnamed, obey_names};

use crate::find::first_of;
use crate::marked::Marked;
use crate::marks::{
    CLOSE_MARK, DECLARED_MARK, END_MARK, END_NAME_MARK, END_OWNER_MARK, ITEM_MARK, JOIN_MARK,
    OWNER_MARK, PACKAGE_MARK, PART_MARK, UNMARKED,
};
use crate::words::{own_bytes, same};
use ag_base::{List, OutOfMemory, Refusal, Refused, Rule};
use ag_lex::Token;
use std::alloc::Global;

/// What the parts of a package's name belong to.
#[derive(Clone, Copy, PartialEq, Eq)]
pub enum Naming {
    Nothing,
    /// The head of a package.
    Head,
    /// The end of a package.
    End,
}

/// The names of the open package and of the open declaration in it, and the name behind `end` as far as
/// it was read.
#[derive(Drop)]
pub struct Names {
    pub naming: Naming,
    pub package_name: List<Token>,
    pub declaration: List<Token>,
    pub end: List<Token>,
}

/// Whether two names have as many parts, and differ in case at most.
pub fn same_names(bytes: &[u8], names: &[Token], others: &[Token]) -> bool
    ensures { result ≡ same_names bytes.now names.now others.now }
{
    if names.len() != others.len() {
        return false;
    }
    for at in 0..names.len() {
        if !same(own_bytes(bytes, &names[at]), own_bytes(bytes, &others[at])) {
            return false;
        }
    }
    true
}

fn naming_after(naming: Naming, mark: u8) -> Naming
    ensures { result ≡ naming_after naming mark }
{
    match mark {
        PACKAGE_MARK => Naming::Head,
        END_MARK => Naming::End,
        UNMARKED | PART_MARK | JOIN_MARK => naming,
        _ => Naming::Nothing,
    }
}

impl Names {
    fn read_package(&mut self, alloc: Global, marked: Marked) -> Result<(), OutOfMemory>
        ensures package { OnOk result (self.new.package_name ≡ package_after self.old marked) }
        ensures rest { OnOk result (self.new ≡ record { naming = self.old.naming; package_name = self.new.package_name; declaration = self.old.declaration; end = self.old.end }) }
    {
        if marked.mark == PACKAGE_MARK {
            self.package_name = List::new(alloc);
        } else if marked.mark == PART_MARK && self.naming == Naming::Head {
            self.package_name.push(marked.token)?;
        }
        Ok(())
    }

    fn read_declaration(&mut self, alloc: Global, marked: Marked) -> Result<(), OutOfMemory>
        ensures declaration { OnOk result (self.new.declaration ≡ declaration_after self.old marked) }
        ensures rest { OnOk result (self.new ≡ record { naming = self.old.naming; package_name = self.old.package_name; declaration = self.new.declaration; end = self.old.end }) }
    {
        match marked.mark {
            ITEM_MARK => self.declaration = List::new(alloc),
            OWNER_MARK | DECLARED_MARK => self.declaration.push(marked.token)?,
            _ => {}
        }
        Ok(())
    }

    fn read_end(&mut self, alloc: Global, marked: Marked) -> Result<(), OutOfMemory>
        ensures end { OnOk result (self.new.end ≡ end_after self.old marked) }
        ensures rest { OnOk result (self.new ≡ record { naming = self.old.naming; package_name = self.old.package_name; declaration = self.old.declaration; end = self.new.end }) }
    {
        match marked.mark {
            ITEM_MARK | END_MARK => self.end = List::new(alloc),
            END_OWNER_MARK | END_NAME_MARK => self.end.push(marked.token)?,
            PART_MARK if self.naming == Naming::End => self.end.push(marked.token)?,
            _ => {}
        }
        Ok(())
    }

    fn read(&mut self, alloc: Global, marked: Marked) -> Result<(), OutOfMemory>
        ensures { OnOk result (self.new ≡ names_after self.old marked) }
    {
        self.read_package(alloc, marked)?;
        self.read_declaration(alloc, marked)?;
        self.read_end(alloc, marked)?;
        self.naming = naming_after(self.naming, marked.mark);
        Ok(())
    }

    // Whether a name is whole behind `end` at this mark, and isn't the declared one.
    fn is_misnamed(&self, bytes: &[u8], mark: u8) -> bool
        ensures { result ≡ is_misnamed bytes.now self.now mark }
    {
        match mark {
            END_NAME_MARK => {
                !same_names(bytes, self.declaration.as_slice(), self.end.as_slice())
            }
            CLOSE_MARK => !same_names(bytes, self.package_name.as_slice(), self.end.as_slice()),
            _ => false,
        }
    }

    /// What is broken at the name behind `end`.
    pub fn misnamed(&self) -> Refusal
        ensures { result ≡ misnamed self.now }
    {
        Refusal {
            place: first_of(self.end.as_slice()).place,
            rule: Rule::EndName,
        }
    }

    /// Takes a token into account.
    pub fn obey(&mut self, alloc: Global, bytes: &[u8], marked: Marked) -> Result<(), Refused>
        ensures ok { OnOk result (obey_names bytes.now self.old marked ≡ Ok self.new) }
        ensures refused { (r : Refusal) → result ≡ Err (Model r) → obey_names bytes.now self.old marked ≡ Err r }
    {
        if self.read(alloc, marked).is_err() {
            return Err(Refused::OutOfMemory);
        }
        if self.is_misnamed(bytes, marked.mark) {
            return Err(Refused::Model(self.misnamed()));
        }
        Ok(())
    }
}
