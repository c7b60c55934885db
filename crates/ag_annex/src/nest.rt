//! What is open behind a token, with the number of its levels.
ghost use Rattle.std.specs.Prelude.{◌≡◌, ◌≤◌, ◌+◌, ◌∷◌, [], Some, None, OnOk, IfOk, MatchOption, nat_lt, length, if◌then◌else◌};
ghost use Rattle.ag_annex.specs.declared.nesting.Open.TheVariants.{Bracket, Yes, No, Chain};
ghost use Rattle.ag_annex.specs.Nesting.{levels_of, levels, most_levels, outside, inside, behind_then, behind_else, behind_operator, behind_comparison, behind_choice, behind_rank, behind_mark, behind};

use crate::marks::{
    ARGUMENT_MARK, CALL_MARK, CLOSE_MARK, ELSE_MARK, END_MARK, GROUP_MARK, IF_MARK, NEGATIVE_MARK,
    NOT_MARK, OPERAND_MARK, THEN_MARK, VALUE_MARK,
};
use crate::nesting::Open;
use crate::operators::{COMPARISON, binary_of, rank};
use crate::stack::Stack;
use ag_base::OutOfMemory;
use std::alloc::Global;
use std::marker::Model;

// The most levels that may be open.
const MOST_LEVELS: u32 = 200;

/// What is open, innermost first.
#[derive(Drop)]
pub struct Nest {
    opens: Stack<Open>,
    // Counted as they come and go, so that no token costs more than it opens and ends.
    depth: u32,
}

impl Model for Nest {
    ghost use Rattle.std.specs.Prelude.{◌≡◌, List};
    ghost use Rattle.ag_annex.specs.declared.nesting.Open.{Open};
    ghost use Rattle.ag_annex.specs.Nesting.{levels};

    ghost Value = { List Open };

    ghost view = { λ n. n.opens };

    ghost invariant = { λ n. n.depth ≡ levels n.opens };
}

fn levels_of(top: Open) -> u32
    ensures { result ≡ levels_of top }
{
    match top {
        Open::Chain { count, .. } => count,
        _ => 1,
    }
}

impl Nest {
    /// Nothing.
    pub fn new(alloc: Global) -> Nest
        ensures { result ≡ [] }
    {
        Nest {
            opens: Stack::new(alloc),
            depth: 0,
        }
    }

    fn push(&mut self, top: Open) -> Result<(), OutOfMemory>
        requires { levels_of top + levels self.old ≤ 201 }
        ensures { OnOk result (self.new ≡ top ∷ self.old) }
    {
        self.opens.push(top)?;
        self.depth += levels_of(top);
        Ok(())
    }

    fn pop(&mut self) -> Option<Open>
        ensures { MatchOption result ((self.old ≡ []) × (self.new ≡ [])) (λ top. self.old ≡ top ∷ self.new) }
    {
        match self.opens.pop() {
            None => None,
            Some(top) => {
                self.depth -= levels_of(top);
                Some(top)
            }
        }
    }

    /// Whether more is open than may be.
    pub fn is_too_deep(&self) -> bool
        ensures { result ≡ nat_lt most_levels (levels self.now) }
    {
        self.depth > MOST_LEVELS
    }

    // Ends all up to the innermost bracket, and says whether there was one.
    fn end_bracket(&mut self) -> bool
        ensures outside { self.new ≡ outside self.old }
        ensures inside { inside self.old ≡ (if result then Bracket ∷ self.new else self.new) }
        ensures fewer { levels self.new ≤ levels self.old }
    {
        while let Some(top) = self.pop() {
            if matches!(top, Open::Bracket) {
                return true;
            }
        }
        false
    }

    // Ends all up to the innermost `if` without a `then`, and says whether there was one.
    fn end_test(&mut self) -> bool
        ensures tested { behind_then self.old ≡ (if result then Yes ∷ self.new else self.new) }
        ensures fewer { levels self.new ≤ levels self.old }
    {
        while let Some(top) = self.pop() {
            if matches!(top, Open::Test) {
                return true;
            }
        }
        false
    }

    // Ends all up to the innermost `then` without an `else`, and says whether there was one.
    fn end_yes(&mut self) -> bool
        ensures chosen { behind_else self.old ≡ (if result then No ∷ self.new else self.new) }
        ensures fewer { levels self.new ≤ levels self.old }
    {
        while let Some(top) = self.pop() {
            if matches!(top, Open::Yes) {
                return true;
            }
        }
        false
    }

    // Begins a chain on what goes on.
    fn begin_chain(&mut self, top: Open, rank: u8) -> Result<(), OutOfMemory>
        requires { levels_of top + levels self.old ≤ 200 }
        ensures { OnOk result (self.new ≡ Chain rank 1 ∷ top ∷ self.old) }
    {
        self.push(top)?;
        self.push(Open::Chain { rank, count: 1 })
    }

    fn behind_operator(&mut self, rank: u8) -> Result<(), OutOfMemory>
        requires { levels self.old ≤ 200 }
        ensures { OnOk result (self.new ≡ behind_operator rank self.old) }
    {
        while let Some(top) = self.pop() {
            match top {
                Open::Prefix => {}
                Open::Chain { rank: other, count } => {
                    if rank == other {
                        return self.push(Open::Chain {
                            rank,
                            count: count + 1,
                        });
                    }
                    if rank > other {
                        return self.begin_chain(top, rank);
                    }
                }
                _ => return self.begin_chain(top, rank),
            }
        }
        self.push(Open::Chain { rank, count: 1 })
    }

    // Ends the operand behind the innermost `else`, and says whether there is one in the same brackets.
    fn end_choice(&mut self) -> bool
        ensures choice { behind_choice self.old ≡ (if result then behind_comparison self.new else None) }
        ensures fewer { levels self.new ≤ levels self.old }
        ensures shorter { length self.new ≤ length self.old }
    {
        while let Some(top) = self.pop() {
            match top {
                Open::No => return true,
                Open::Prefix | Open::Chain { .. } => {}
                _ => return false,
            }
        }
        false
    }

    // Says whether a comparison has a place.
    fn behind_comparison(&mut self) -> Result<bool, OutOfMemory>
        requires { levels self.old ≤ 200 }
        ensures { IfOk result (λ placed. behind_comparison self.old ≡ (if placed then Some self.new else None)) }
    {
        while let Some(top) = self.pop() {
            match top {
                Open::Prefix => {}
                Open::Chain { rank, .. } => {
                    if rank == COMPARISON && !self.end_choice() {
                        return Ok(false);
                    }
                    if rank < COMPARISON {
                        self.begin_chain(top, COMPARISON)?;
                        return Ok(true);
                    }
                }
                _ => {
                    self.begin_chain(top, COMPARISON)?;
                    return Ok(true);
                }
            }
        }
        self.push(Open::Chain {
            rank: COMPARISON,
            count: 1,
        })?;
        Ok(true)
    }

    // Says whether the operator has a place.
    fn behind_rank(&mut self, rank: u8) -> Result<bool, OutOfMemory>
        requires { levels self.old ≤ 200 }
        ensures { IfOk result (λ placed. behind_rank rank self.old ≡ (if placed then Some self.new else None)) }
    {
        if rank == COMPARISON {
            return self.behind_comparison();
        }
        self.behind_operator(rank)?;
        Ok(true)
    }

    fn behind_mark(&mut self, alloc: Global, mark: u8) -> Result<(), OutOfMemory>
        requires { levels self.old ≤ 200 }
        ensures { OnOk result (self.new ≡ behind_mark mark self.old) }
    {
        match mark {
            VALUE_MARK | END_MARK => *self = Nest::new(alloc),
            GROUP_MARK | OPERAND_MARK | CALL_MARK => return self.push(Open::Bracket),
            NEGATIVE_MARK | NOT_MARK => return self.push(Open::Prefix),
            IF_MARK => return self.push(Open::Test),
            THEN_MARK if self.end_test() => return self.push(Open::Yes),
            ELSE_MARK if self.end_yes() => return self.push(Open::No),
            ARGUMENT_MARK if self.end_bracket() => return self.push(Open::Bracket),
            CLOSE_MARK => {
                self.end_bracket();
            }
            _ => {}
        }
        Ok(())
    }

    /// Takes a token into account, and says whether it has a place there.
    pub fn behind(&mut self, alloc: Global, mark: u8) -> Result<bool, OutOfMemory>
        requires { levels self.old ≤ 200 }
        ensures { IfOk result (λ placed. behind mark self.old ≡ (if placed then Some self.new else None)) }
    {
        match binary_of(mark) {
            Some(op) => self.behind_rank(rank(op)),
            None => {
                self.behind_mark(alloc, mark)?;
                Ok(true)
            }
        }
    }
}
