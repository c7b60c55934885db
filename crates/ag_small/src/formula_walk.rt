//! The walk over one formula, with what is open in it.
ghost use Rattle.std.specs.Prelude.{◌≤◌, length, IfOk, IfErr};
ghost use Rattle.ag_small.specs.Places.{StopsWithin, GoesOn};

use crate::class::same;
use crate::token::{TokenKind, token_at};
use crate::walk::{Seen, Stop};
use std::alloc::{AllocError, Global};

/// The most tokens of both annexes' clauses together.
const MOST_TOKENS: usize = 1000;

/// The deepest level.
const MOST_LEVELS: usize = 200;

/// How many tokens the clauses may still have.
#[derive(Drop)]
pub struct Budget {
    left: usize,
}

impl Budget {
    pub fn new() -> Budget {
        Budget { left: MOST_TOKENS }
    }

    /// Takes one token, which begins at this byte and behind which at least `needed` more have to
    /// stand.
    pub fn spend(&mut self, start: usize, needed: usize) -> Result<(), Stop>
        ensures { IfErr result (StopsWithin start) }
    {
        if self.left <= needed {
            return Err(Stop::At(start));
        }
        self.left -= 1;
        Ok(())
    }
}

/// Which names a formula may have.
#[derive(Clone, Copy)]
pub enum Known {
    Ports,
    /// Inputs, and outputs that have an equation.
    Values,
}

impl Known {
    fn has(self, seen: &[Seen], bytes: &[u8], word: &[u8]) -> bool {
        let all = matches!(self, Known::Ports);
        seen.iter().any(|port| (all || !port.is_free()) && port.is_named(bytes, word))
    }
}

/// What a token does in a formula.
#[derive(Clone, Copy)]
enum Turn {
    Not,
    Open,
    Operand,
    And,
    Or,
    Implies,
    Close,
    End,
}

/// The operators that are open since a `(`, or since the formula began.
#[derive(Clone, Copy)]
struct Group {
    nots: usize,
    ands: usize,
    ors: usize,
    implies: usize,
}

/// What is open in a formula: the innermost group, and those round it.
#[derive(Drop)]
struct Open {
    inner: Group,
    outer: Vec<Group>,
    /// Whether an operand is due.
    wants: bool,
}

const EMPTY: Group = Group {
    nots: 0,
    ands: 0,
    ors: 0,
    implies: 0,
};

impl Group {
    fn levels(&self) -> usize {
        self.nots
            .saturating_add(self.ands)
            .saturating_add(self.ors)
            .saturating_add(self.implies)
    }
}

impl Open {
    fn new(alloc: Global) -> Open {
        Open {
            inner: EMPTY,
            outer: Vec::new(alloc),
            wants: true,
        }
    }

    /// What the word does here, if it may stand here.
    fn turn(&self, word: &[u8], is_known: bool) -> Option<Turn> {
        if self.wants {
            if same(word, b"not") {
                return Some(Turn::Not);
            }
            if same(word, b"(") {
                return Some(Turn::Open);
            }
            let is_operand = is_known || same(word, b"true") || same(word, b"false");
            return is_operand.then_some(Turn::Operand);
        }
        if same(word, b"and") {
            Some(Turn::And)
        } else if same(word, b"or") {
            Some(Turn::Or)
        } else if same(word, b"=>") {
            Some(Turn::Implies)
        } else if same(word, b")") && !self.outer.is_empty() {
            Some(Turn::Close)
        } else if same(word, b";") && self.outer.is_empty() {
            Some(Turn::End)
        } else {
            None
        }
    }

    /// Takes the turn. An operator ends those that bind more tightly and began behind it.
    fn take(&mut self, turn: Turn) -> Result<(), AllocError> {
        self.wants = !matches!(turn, Turn::Operand | Turn::Close | Turn::End);
        match turn {
            Turn::Not => self.inner.nots = self.inner.nots.saturating_add(1),
            Turn::Open => {
                self.outer.push(self.inner)?;
                self.inner = EMPTY;
            }
            Turn::Operand | Turn::End => self.inner.nots = 0,
            Turn::And => self.inner.ands = self.inner.ands.saturating_add(1),
            Turn::Or => {
                self.inner.ands = 0;
                self.inner.ors = self.inner.ors.saturating_add(1);
            }
            Turn::Implies => {
                self.inner.ands = 0;
                self.inner.ors = 0;
                self.inner.implies = self.inner.implies.saturating_add(1);
            }
            Turn::Close => {
                self.inner = self.outer.pop().unwrap_or(EMPTY);
                self.inner.nots = 0;
            }
        }
        Ok(())
    }

    /// The level that is open.
    fn level(&self) -> usize {
        let mut level = self.inner.levels();
        for group in self.outer.as_slice() {
            level = level.saturating_add(group.levels()).saturating_add(1);
        }
        level
    }

    /// How many tokens are needed at least to end the clause, behind this turn.
    fn needed(&self, turn: Turn) -> usize {
        if matches!(turn, Turn::End) {
            return 0;
        }
        let closing = self.outer.len().saturating_add(1);
        closing.saturating_add(usize::from(self.wants))
    }
}

/// Goes over a formula and the `;` behind it.
pub fn take_formula(
    alloc: Global,
    bytes: &[u8],
    at: usize,
    seen: &[Seen],
    known: Known,
    budget: &mut Budget,
) -> Result<usize, Stop>
    requires { at ≤ length bytes.now }
    ensures ok { IfOk result (GoesOn (length bytes.now) at) }
    ensures err { IfErr result (StopsWithin (length bytes.now)) }
{
    let mut open = Open::new(alloc);
    let mut next = at;
    loop {
        let token = token_at(bytes, next);
        let word = &bytes[token.start..token.end];
        let Some(turn) = open.turn(word, known.has(seen, bytes, word)) else {
            return Err(Stop::At(token.start));
        };
        if token.kind == TokenKind::End {
            return Err(Stop::At(token.start));
        }
        open.take(turn)?;
        if open.level() > MOST_LEVELS {
            return Err(Stop::At(token.start));
        }
        budget.spend(token.start, open.needed(turn))?;
        next = token.end;
        if matches!(turn, Turn::End) {
            return Ok(next);
        }
    }
}
