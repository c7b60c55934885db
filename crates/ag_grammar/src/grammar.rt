//! A grammar as data.

/// The number that stands for the end of the terminals, in `ahead` of a production. No terminal has it.
pub const END: u8 = 255;

/// What the right side of a production consists of.
#[derive(Clone, Copy)]
pub enum Symbol {
    /// A terminal, under a mark by which rules on the derivation know it again.
    Terminal(u8, u8),
    /// A nonterminal, by its position in the grammar.
    Nonterminal(u8),
}

/// A way to write a nonterminal.
#[derive(Clone, Copy)]
pub struct Production<'a> {
    /// What the derivation's steps call it. The productions of a nonterminal have different names.
    pub name: u16,
    /// It is taken where one of these terminals, or `END`, comes next.
    pub ahead: &'a [u8],
    pub right: &'a [Symbol],
}

/// A grammar as code holds it: a match over its nonterminals serves.
pub trait Grammar {
    ghost use Rattle.std.specs.Prelude.{◌≡◌, map};
    ghost use Rattle.ag_grammar.specs.Grammar.{PlainGrammar, plain_production, productions_of};

    /// The grammar as a plain value.
    ghost plain: { Self → PlainGrammar };

    /// The nonterminal that a text is written from.
    fn start(&self) -> u8
        ensures { result ≡ (plain self.now).start };

    /// The productions of a nonterminal, by its position in the grammar.
    fn productions(&self, nonterminal: u8) -> &'static [Production<'static>]
        ensures { map plain_production result.now ≡ productions_of (plain self.now) nonterminal };
}

/// A step of a leftmost derivation.
#[derive(Clone, Copy, Debug, PartialEq, Eq)]
pub enum Step {
    /// The leftmost symbol, a nonterminal, was written by the production of this name.
    Expand(u16),
    /// The leftmost symbol was the next terminal, under this mark.
    Shift(u8),
}
