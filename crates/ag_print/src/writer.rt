//! Writing text word by word.
ghost use Rattle.std.specs.Prelude.{◌≡◌, ◌++◌, [], codes, OnOk, if◌then◌else◌};
ghost use Rattle.std.specs.String.{string_bytes};
ghost use Rattle.ag_unparse.specs.Canonical.{clauses_text};
ghost use Rattle.ag_print.specs.Written.{name_word, symbol_word, nothing, with_word, with_words, with_end};
ghost use Rattle.ag_aadl.specs.Names.{name_parts};
ghost use Rattle.ag_print.specs.Canonical.{parts_words, annex_word};
ghost use Rattle.ag_print.specs.Shares.{joined};

use crate::symbol::Symbol;
use ag_annex::Clause;
use ag_base::{Bytes, List, OutOfMemory};
use ag_unparse::write_clauses;
use std::alloc::Global;
use std::marker::Model;

/// A text that grows by words and ends of lines. After an error a part of what was to be written may
/// stand at its end.
#[derive(Drop)]
pub struct Writer {
    text: String,
    /// Whether the next word stands right behind the text, as at a line's start.
    joined: bool,
}

impl Model for Writer {
    ghost use Rattle.std.specs.String.{string_bytes};
    ghost use Rattle.ag_print.specs.Written.{Written};

    ghost Value = { Written };

    ghost view = { λ w. record { bytes = string_bytes w.text; joined = w.joined } };
}

impl Writer {
    /// Nothing, which takes no memory.
    pub fn new(alloc: Global) -> Writer
        ensures { result ≡ nothing }
    {
        Writer {
            text: String::new(alloc),
            joined: true,
        }
    }

    /// Writes a name or a word of the language, behind a space if one is due.
    pub fn name(&mut self, name: &str) -> Result<(), OutOfMemory>
        ensures { OnOk result (self.new ≡ with_word self.old (name_word name.now)) }
    {
        self.space()?;
        self.text.push_str(name)?;
        self.joined = false;
        Ok(())
    }

    /// Writes the name of a package, whose parts stand apart by `::`, behind a space if one is due.
    pub fn package_name(&mut self, name: &str) -> Result<(), OutOfMemory>
        ensures { OnOk result (self.new ≡ with_words self.old (parts_words (name_parts name.now))) }
    {
        self.space()?;
        self.text.push_str(name)?;
        self.joined = false;
        Ok(())
    }

    /// Writes a symbol, behind a space if one is due.
    pub fn symbol(&mut self, symbol: Symbol) -> Result<(), OutOfMemory>
        ensures { OnOk result (self.new ≡ with_word self.old (symbol_word symbol)) }
    {
        if !symbol.joins_before() {
            self.space()?;
        }
        self.text.push_str(symbol.as_str())?;
        self.joined = symbol.joins_behind();
        Ok(())
    }

    /// Writes one annex that states all these clauses, behind a space if one is due.
    pub fn annex(&mut self, clauses: &[List<Clause>]) -> Result<(), OutOfMemory>
        ensures { OnOk result (self.new ≡ with_word self.old (annex_word (joined clauses.now)).word) }
    {
        self.space()?;
        self.text.push_str("{**\n")?;
        write_lists(&mut self.text, clauses)?;
        self.text.push_str("**}")?;
        self.joined = false;
        Ok(())
    }

    /// Ends the line.
    pub fn end_line(&mut self) -> Result<(), OutOfMemory>
        ensures { OnOk result (self.new ≡ with_end self.old) }
    {
        self.text.push_str("\n")?;
        self.joined = true;
        Ok(())
    }

    /// The bytes of all that was written.
    pub fn into_bytes(self) -> Bytes
        ensures { result ≡ self.bytes }
    {
        let Writer { text, .. } = self;
        List::from_vec(text.into_bytes())
    }

    /// Writes the space before a word that doesn't join.
    fn space(&mut self) -> Result<(), OutOfMemory>
        ensures { OnOk result (self.new ≡ record self.old { bytes = self.old.bytes ++ (if self.old.joined then [] else codes " ") }) }
    {
        if !self.joined {
            self.text.push_str(" ")?;
        }
        Ok(())
    }
}

/// Writes the canonical text of the clauses of some lists, a line for each.
fn write_lists(text: &mut String, lists: &[List<Clause>]) -> Result<(), OutOfMemory>
    ensures { OnOk result (string_bytes text.new ≡ string_bytes text.old ++ clauses_text (joined lists.now)) }
{
    for list in lists {
        write_clauses(text, list.as_slice())?;
    }
    Ok(())
}
