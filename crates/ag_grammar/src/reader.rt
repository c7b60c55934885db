//! Reading from left to right, with one terminal ahead.
ghost use Rattle.std.specs.Prelude.{map, find, ◌≡◌, ◌++◌, ◌∷◌, ℕ, List, drop, reverse, length, IfOk, OnOk};
ghost use Rattle.std.specs.Option.{option_map};
ghost use Rattle.ag_grammar.specs.declared.grammar.Step.{Step};
ghost use Rattle.ag_grammar.specs.declared.grammar.Symbol.TheVariants.{Terminal, Nonterminal};
ghost use Rattle.ag_grammar.specs.Grammar.{plain_production};
ghost use Rattle.ag_grammar.specs.Texts.{IsReading, AreForced, IsText, IsFirstBad};
ghost use Rattle.ag_grammar.specs.Deterministic.{IsLl1, next_of, chosen, has};
ghost use Rattle.ag_grammar.specs.Reading.{IsReached, Goes};
ghost use Rattle.ag_grammar.specs.Answers.{IsDerivedUnlessMemory, IsBadUnlessMemory};

use crate::grammar::{END, Grammar, Production, Step, Symbol};
use ag_base::{List, OutOfMemory};
use std::alloc::Global;

/// What was read: the steps of the derivation, and the place of the first bad terminal, or of the end,
/// where there is one. The steps go up to that place.
#[derive(Drop)]
pub struct Reading {
    pub steps: List<Step>,
    pub bad: Option<usize>,
}

// The terminal ahead.
fn next_terminal(terminals: &[u8], at: usize) -> u8
    ensures { result ≡ next_of (drop at terminals.now) }
{
    match terminals.get(at) {
        Some(terminal) => *terminal,
        None => END,
    }
}

// The production of a nonterminal that is taken at this terminal.
fn choice<G: Grammar>(grammar: &G, nonterminal: u8, terminal: u8) -> Option<Production<'static>>
    ensures { option_map plain_production result ≡ chosen (G.plain grammar.now) nonterminal terminal }
{
    first_at(grammar.productions(nonterminal), terminal)
}

// Whether a production is taken at this terminal.
fn is_taken(production: &Production, terminal: u8) -> bool
    ensures { result ≡ has (plain_production production.now).ahead terminal }
{
    production.ahead.contains(&terminal)
}

fn first_at<'a>(productions: &[Production<'a>], terminal: u8) -> Option<Production<'a>>
    ensures { option_map plain_production result ≡ find (λ p. has p.ahead terminal) (map plain_production productions.now) }
{
    for production in productions {
        if is_taken(production, terminal) {
            return Some(*production);
        }
    }
    None
}

/// Where a reading has come to.
#[derive(Drop)]
struct Progress {
    /// How many terminals are shifted.
    at: usize,
    /// What is still to be derived, the leftmost symbol last.
    stack: Vec<Symbol>,
    steps: Vec<Step>,
}

impl Progress {
    // The next terminal has to be this one, and is shifted. The contract alone speaks of the grammar.
    fn shift<G: Grammar>(
        &mut self,
        grammar: &G,
        terminals: &[u8],
        terminal: u8,
        mark: u8,
    ) -> Result<bool, OutOfMemory>
        requires ll1 { IsLl1 (G.plain grammar.now) }
        requires reached { IsReached (G.plain grammar.now) terminals.now self.old.at self.old.steps.items (Terminal terminal mark ∷ reverse self.old.stack.items) }
        ensures { IfOk result (λ goes. Goes (G.plain grammar.now) terminals.now self.old.at self.old.steps.items self.new.at self.new.steps.items (reverse self.new.stack.items) goes) }
    {
        match terminals.get(self.at) {
            Some(next) if *next == terminal => {
                self.steps.push(Step::Shift(mark))?;
                self.at += 1;
                Ok(true)
            }
            _ => Ok(false),
        }
    }

    // A production that is taken at the terminal ahead puts its right side in the nonterminal's place.
    fn expand<G: Grammar>(
        &mut self,
        grammar: &G,
        terminals: &[u8],
        nonterminal: u8,
    ) -> Result<bool, OutOfMemory>
        requires ll1 { IsLl1 (G.plain grammar.now) }
        requires reached { IsReached (G.plain grammar.now) terminals.now self.old.at self.old.steps.items (Nonterminal nonterminal ∷ reverse self.old.stack.items) }
        ensures { IfOk result (λ goes. Goes (G.plain grammar.now) terminals.now self.old.at self.old.steps.items self.new.at self.new.steps.items (reverse self.new.stack.items) goes) }
    {
        let next = next_terminal(terminals, self.at);
        match choice(grammar, nonterminal, next) {
            Some(production) => {
                push_right(&mut self.stack, production.right)?;
                self.steps.push(Step::Expand(production.name))?;
                Ok(true)
            }
            None => Ok(false),
        }
    }

    // Goes on at one symbol, and answers whether the terminals do.
    fn go<G: Grammar>(
        &mut self,
        grammar: &G,
        terminals: &[u8],
        symbol: Symbol,
    ) -> Result<bool, OutOfMemory>
        requires ll1 { IsLl1 (G.plain grammar.now) }
        requires reached { IsReached (G.plain grammar.now) terminals.now self.old.at self.old.steps.items (symbol ∷ reverse self.old.stack.items) }
        ensures { IfOk result (λ goes. Goes (G.plain grammar.now) terminals.now self.old.at self.old.steps.items self.new.at self.new.steps.items (reverse self.new.stack.items) goes) }
    {
        match symbol {
            Symbol::Terminal(terminal, mark) => self.shift(grammar, terminals, terminal, mark),
            Symbol::Nonterminal(nonterminal) => self.expand(grammar, terminals, nonterminal),
        }
    }

    fn ended(self, bad: Option<usize>) -> Reading
        ensures steps { result.steps ≡ self.steps.items }
        ensures bad { result.bad ≡ bad }
    {
        let Progress {
            at: _,
            stack: _,
            steps,
        } = self;
        Reading {
            steps: List::from_vec(steps),
            bad,
        }
    }
}

// Puts the right side of a production on a stack.
fn push_right(stack: &mut Vec<Symbol>, right: &[Symbol]) -> Result<(), OutOfMemory>
    ensures { OnOk result (reverse stack.new.items ≡ right.now ++ reverse stack.old.items) }
{
    for symbol in right.iter().rev() {
        stack.push(*symbol)?;
    }
    Ok(())
}

/// The derivation of the terminals from the grammar's start, up to the first bad one. It takes time and
/// memory in proportion to the derivation, and for each step looks at one nonterminal's productions.
pub fn read<G: Grammar>(
    alloc: Global,
    grammar: &G,
    terminals: &[u8],
) -> Result<Reading, OutOfMemory>
    requires { IsLl1 (G.plain grammar.now) }
    // The steps derive the terminals, or they begin a text up to the first bad place.
    ensures read { IfOk result (λ r. IsReading (G.plain grammar.now) terminals.now r.steps r.bad) }
    // No text that goes on with the terminal ahead is derived by other steps.
    ensures forced { IfOk result (λ r. AreForced (G.plain grammar.now) terminals.now r.steps) }
    // So a text is answered by its derivation, and what is none by its first bad place, unless memory was wanting.
    ensures text { (steps : List Step) → IsText (G.plain grammar.now) terminals.now steps → IsDerivedUnlessMemory result steps }
    ensures bad { (at : ℕ) → IsFirstBad (G.plain grammar.now) terminals.now at → IsBadUnlessMemory result at }
{
    let mut stack = Vec::new(alloc);
    stack.push(Symbol::Nonterminal(grammar.start()))?;
    let mut progress = Progress {
        at: 0,
        stack,
        steps: Vec::new(alloc),
    };
    while let Some(symbol) = progress.stack.pop() {
        if !progress.go(grammar, terminals, symbol)? {
            let at = progress.at;
            return Ok(progress.ended(Some(at)));
        }
    }
    let bad = if progress.at < terminals.len() {
        Some(progress.at)
    } else {
        None
    };
    Ok(progress.ended(bad))
}
