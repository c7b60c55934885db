//! One reader for every grammar that is given as data.
//!
//! It promises that the answer is the one derivation that a list of terminals has, or the first
//! terminal with which it begins no text of the grammar. Start at `read`, and at specs/Texts.antt.
#![tactic(auto)]

ghost use Rattle.std.specs.Prelude.{◌≡◌, ℕ, List, Option};
ghost use Rattle.ag_grammar.specs.declared.grammar.Step.{Step};
ghost use Rattle.ag_grammar.specs.Grammar.{PlainGrammar};
ghost use Rattle.ag_grammar.specs.Texts.{IsText, IsFirstBad, IsReading, AreForced};
ghost use Rattle.ag_grammar.specs.Deterministic.{IsLl1};
ghost use Rattle.ag_grammar.specs.Founded.{IsFounded};

pub mod grammar;
pub mod reader;

pub use grammar::{END, Grammar, Production, Step, Symbol};
pub use reader::{Reading, read};

/// A text has one derivation.
pub fn one_derivation()
    ensures { (g : PlainGrammar) (xs : List ℕ) (steps others : List Step) → IsLl1 g → IsText g xs steps → IsText g xs others → steps ≡ others }
{}

/// A list of terminals has one first bad place at most, and a text has none.
pub fn one_place()
    ensures one { (g : PlainGrammar) (xs : List ℕ) (at other : ℕ) → IsFirstBad g xs at → IsFirstBad g xs other → at ≡ other }
    ensures none { (g : PlainGrammar) (xs : List ℕ) (at : ℕ) (steps : List Step) → IsFirstBad g xs at → IsText g xs steps → ⊥ }
{}

/// Where no nonterminal begins with itself, a list of terminals has a derivation or a first bad place.
pub fn one_of_the_two()
    ensures { (g : PlainGrammar) → IsFounded g → (xs : List ℕ) → (steps : List Step) × (bad : Option ℕ) × IsReading g xs steps bad × AreForced g xs steps }
{}
