//! Writing text word by word.
ghost use Rattle.std.specs.Prelude.{◌≡◌, ◌++◌, [], ◌∷◌, codes, true, false, OnOk, if◌then◌else◌};
ghost use Rattle.std.specs.String.{string_bytes};
ghost use Rattle.ag_unparse.specs.Canonical.{number_bytes};
ghost use Rattle.ag_unparse.specs.Written.{with_bytes, with_end};

use ag_base::OutOfMemory;
use std::marker::Model;

/// A text that grows by words and ends of lines. After an error a part of a word may stand at its end.
#[derive(Drop)]
pub struct Writer {
    text: String,
    /// Whether the next word stands right behind the text, as at a line's start.
    joined: bool,
}

impl Model for Writer {
    ghost use Rattle.std.specs.String.{string_bytes};
    ghost use Rattle.ag_unparse.specs.Written.{Written};

    ghost Value = { Written };

    ghost view = { λ w. record { bytes = string_bytes w.text; joined = w.joined } };
}

impl Writer {
    /// A line begins behind the text.
    pub fn new(text: String) -> Writer
        ensures { result ≡ record { bytes = string_bytes text; joined = true } }
    {
        Writer { text, joined: true }
    }

    /// Writes a word that stands apart from others.
    pub fn word(&mut self, word: &str) -> Result<(), OutOfMemory>
        ensures { OnOk result (self.new ≡ with_bytes self.old false word.now false) }
    {
        self.space()?;
        self.text.push_str(word)?;
        self.joined = false;
        Ok(())
    }

    /// Writes a symbol behind which no space stands.
    pub fn front(&mut self, symbol: &str) -> Result<(), OutOfMemory>
        ensures { OnOk result (self.new ≡ with_bytes self.old false symbol.now true) }
    {
        self.space()?;
        self.text.push_str(symbol)?;
        self.joined = true;
        Ok(())
    }

    /// Writes a symbol before which no space stands.
    pub fn back(&mut self, symbol: &str) -> Result<(), OutOfMemory>
        ensures { OnOk result (self.new ≡ with_bytes self.old true symbol.now false) }
    {
        self.text.push_str(symbol)?;
        self.joined = false;
        Ok(())
    }

    /// Writes a symbol that joins both its neighbours.
    pub fn joint(&mut self, symbol: &str) -> Result<(), OutOfMemory>
        ensures { OnOk result (self.new ≡ with_bytes self.old true symbol.now true) }
    {
        self.text.push_str(symbol)?;
        self.joined = true;
        Ok(())
    }

    /// Writes a number's digits, without a sign.
    pub fn number(&mut self, value: i64) -> Result<(), OutOfMemory>
        ensures { OnOk result (self.new ≡ with_bytes self.old false (number_bytes value) false) }
    {
        let digits = value.unsigned_abs();
        self.space()?;
        write!(self.text, "{digits}")?;
        self.joined = false;
        Ok(())
    }

    /// Writes a text between quotes.
    pub fn quoted(&mut self, text: &str) -> Result<(), OutOfMemory>
        ensures { OnOk result (self.new ≡ with_bytes self.old false (codes "\"" ++ (text.now ++ codes "\"")) false) }
    {
        self.space()?;
        self.text.push_str("\"")?;
        self.text.push_str(text)?;
        self.text.push_str("\"")?;
        self.joined = false;
        Ok(())
    }

    /// Ends the line.
    pub fn end_line(&mut self) -> Result<(), OutOfMemory>
        ensures { OnOk result (self.new ≡ with_end self.old) }
    {
        self.text.push_str("\n")?;
        self.joined = true;
        Ok(())
    }

    /// All that was written.
    pub fn into_text(self) -> String
        ensures { string_bytes result ≡ self.bytes }
    {
        let Writer { text, .. } = self;
        text
    }

    /// Writes the space before a word that doesn't join.
    fn space(&mut self) -> Result<(), OutOfMemory>
        ensures { OnOk result (self.new ≡ record self.old { bytes = self.old.bytes ++ (if self.old.joined then [] else codes " ") }) }
    {
        if !self.joined {
            self.text.push_str(" ")?;
        }
        Ok(())
    }
}
