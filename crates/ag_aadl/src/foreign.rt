//! Lines of the grammar: declarations that are passed over, up to their end.

use crate::marks::UNMARKED;
use crate::nonterminals::{
    BEHIND_BODY, BEHIND_COLONS, BEHIND_DOT, BEHIND_END, BEHIND_NAME, BRACKET, FOREIGN, QUIET,
};
use crate::productions::{
    BEHIND_BODY_BRACKET, BEHIND_BODY_COLONS, BEHIND_BODY_DOT, BEHIND_BODY_END, BEHIND_BODY_NAME,
    BEHIND_BODY_QUIET, BEHIND_BODY_SEMICOLON, BEHIND_COLONS_BRACKET, BEHIND_COLONS_COLONS,
    BEHIND_COLONS_DOT, BEHIND_COLONS_END, BEHIND_COLONS_NAME, BEHIND_COLONS_QUIET,
    BEHIND_COLONS_SEMICOLON, BEHIND_DOT_BRACKET, BEHIND_DOT_COLONS, BEHIND_DOT_DOT, BEHIND_DOT_END,
    BEHIND_DOT_NAME, BEHIND_DOT_QUIET, BEHIND_DOT_SEMICOLON, BEHIND_END_BRACKET, BEHIND_END_COLONS,
    BEHIND_END_DOT, BEHIND_END_END, BEHIND_END_NAME, BEHIND_END_QUIET, BEHIND_END_SEMICOLON,
    BEHIND_NAME_BRACKET, BEHIND_NAME_COLONS, BEHIND_NAME_DOT, BEHIND_NAME_END, BEHIND_NAME_NAME,
    BEHIND_NAME_QUIET, BEHIND_NAME_SEMICOLON, BRACKET_CLOSE_BRACE, BRACKET_CLOSE_BRACKET,
    BRACKET_CLOSE_PAREN, BRACKET_OPEN_BRACE, BRACKET_OPEN_BRACKET, BRACKET_OPEN_PAREN,
    FOREIGN_BRACKET, FOREIGN_COLONS, FOREIGN_DOT, FOREIGN_END, FOREIGN_NAME, FOREIGN_QUIET,
    FOREIGN_SEMICOLON,
};
use crate::terminals::{
    CLOSE_BRACE, CLOSE_BRACKET, CLOSE_PAREN, COLONS, DOT, END_WORD, NAME, OPEN_BRACE, OPEN_BRACKET,
    OPEN_PAREN, SEMICOLON,
};
use crate::tokens::QUIET_AHEAD;
use ag_grammar::Production;
use ag_grammar::Symbol::{Nonterminal, Terminal};

// bracket = a bracket
pub const BRACKET_LINES: &[Production<'static>] = &[
    Production {
        name: BRACKET_OPEN_PAREN,
        ahead: &[OPEN_PAREN],
        right: &[Terminal(OPEN_PAREN, UNMARKED)],
    },
    Production {
        name: BRACKET_CLOSE_PAREN,
        ahead: &[CLOSE_PAREN],
        right: &[Terminal(CLOSE_PAREN, UNMARKED)],
    },
    Production {
        name: BRACKET_OPEN_BRACKET,
        ahead: &[OPEN_BRACKET],
        right: &[Terminal(OPEN_BRACKET, UNMARKED)],
    },
    Production {
        name: BRACKET_CLOSE_BRACKET,
        ahead: &[CLOSE_BRACKET],
        right: &[Terminal(CLOSE_BRACKET, UNMARKED)],
    },
    Production {
        name: BRACKET_OPEN_BRACE,
        ahead: &[OPEN_BRACE],
        right: &[Terminal(OPEN_BRACE, UNMARKED)],
    },
    Production {
        name: BRACKET_CLOSE_BRACE,
        ahead: &[CLOSE_BRACE],
        right: &[Terminal(CLOSE_BRACE, UNMARKED)],
    },
];

// foreign = tokens up to and with the first "end" pname [ "." name ] ";"
pub const FOREIGN_LINES: &[Production<'static>] = &[
    Production {
        name: FOREIGN_QUIET,
        ahead: QUIET_AHEAD,
        right: &[Nonterminal(QUIET), Nonterminal(FOREIGN)],
    },
    Production {
        name: FOREIGN_BRACKET,
        ahead: &[
            OPEN_PAREN,
            CLOSE_PAREN,
            OPEN_BRACKET,
            CLOSE_BRACKET,
            OPEN_BRACE,
            CLOSE_BRACE,
        ],
        right: &[Nonterminal(BRACKET), Nonterminal(FOREIGN)],
    },
    Production {
        name: FOREIGN_NAME,
        ahead: &[NAME],
        right: &[Terminal(NAME, UNMARKED), Nonterminal(FOREIGN)],
    },
    Production {
        name: FOREIGN_COLONS,
        ahead: &[COLONS],
        right: &[Terminal(COLONS, UNMARKED), Nonterminal(FOREIGN)],
    },
    Production {
        name: FOREIGN_DOT,
        ahead: &[DOT],
        right: &[Terminal(DOT, UNMARKED), Nonterminal(FOREIGN)],
    },
    Production {
        name: FOREIGN_SEMICOLON,
        ahead: &[SEMICOLON],
        right: &[Terminal(SEMICOLON, UNMARKED), Nonterminal(FOREIGN)],
    },
    Production {
        name: FOREIGN_END,
        ahead: &[END_WORD],
        right: &[Terminal(END_WORD, UNMARKED), Nonterminal(BEHIND_END)],
    },
];

// behind_end = the same behind "end"
pub const BEHIND_END_LINES: &[Production<'static>] = &[
    Production {
        name: BEHIND_END_QUIET,
        ahead: QUIET_AHEAD,
        right: &[Nonterminal(QUIET), Nonterminal(FOREIGN)],
    },
    Production {
        name: BEHIND_END_BRACKET,
        ahead: &[
            OPEN_PAREN,
            CLOSE_PAREN,
            OPEN_BRACKET,
            CLOSE_BRACKET,
            OPEN_BRACE,
            CLOSE_BRACE,
        ],
        right: &[Nonterminal(BRACKET), Nonterminal(FOREIGN)],
    },
    Production {
        name: BEHIND_END_NAME,
        ahead: &[NAME],
        right: &[Terminal(NAME, UNMARKED), Nonterminal(BEHIND_NAME)],
    },
    Production {
        name: BEHIND_END_COLONS,
        ahead: &[COLONS],
        right: &[Terminal(COLONS, UNMARKED), Nonterminal(FOREIGN)],
    },
    Production {
        name: BEHIND_END_DOT,
        ahead: &[DOT],
        right: &[Terminal(DOT, UNMARKED), Nonterminal(FOREIGN)],
    },
    Production {
        name: BEHIND_END_SEMICOLON,
        ahead: &[SEMICOLON],
        right: &[Terminal(SEMICOLON, UNMARKED), Nonterminal(FOREIGN)],
    },
    Production {
        name: BEHIND_END_END,
        ahead: &[END_WORD],
        right: &[Terminal(END_WORD, UNMARKED), Nonterminal(BEHIND_END)],
    },
];

// behind_name = the same behind "end" pname
pub const BEHIND_NAME_LINES: &[Production<'static>] = &[
    Production {
        name: BEHIND_NAME_QUIET,
        ahead: QUIET_AHEAD,
        right: &[Nonterminal(QUIET), Nonterminal(FOREIGN)],
    },
    Production {
        name: BEHIND_NAME_BRACKET,
        ahead: &[
            OPEN_PAREN,
            CLOSE_PAREN,
            OPEN_BRACKET,
            CLOSE_BRACKET,
            OPEN_BRACE,
            CLOSE_BRACE,
        ],
        right: &[Nonterminal(BRACKET), Nonterminal(FOREIGN)],
    },
    Production {
        name: BEHIND_NAME_NAME,
        ahead: &[NAME],
        right: &[Terminal(NAME, UNMARKED), Nonterminal(FOREIGN)],
    },
    Production {
        name: BEHIND_NAME_COLONS,
        ahead: &[COLONS],
        right: &[Terminal(COLONS, UNMARKED), Nonterminal(BEHIND_COLONS)],
    },
    Production {
        name: BEHIND_NAME_DOT,
        ahead: &[DOT],
        right: &[Terminal(DOT, UNMARKED), Nonterminal(BEHIND_DOT)],
    },
    Production {
        name: BEHIND_NAME_SEMICOLON,
        ahead: &[SEMICOLON],
        right: &[Terminal(SEMICOLON, UNMARKED)],
    },
    Production {
        name: BEHIND_NAME_END,
        ahead: &[END_WORD],
        right: &[Terminal(END_WORD, UNMARKED), Nonterminal(BEHIND_END)],
    },
];

// behind_colons = the same behind "end" pname "::"
pub const BEHIND_COLONS_LINES: &[Production<'static>] = &[
    Production {
        name: BEHIND_COLONS_QUIET,
        ahead: QUIET_AHEAD,
        right: &[Nonterminal(QUIET), Nonterminal(FOREIGN)],
    },
    Production {
        name: BEHIND_COLONS_BRACKET,
        ahead: &[
            OPEN_PAREN,
            CLOSE_PAREN,
            OPEN_BRACKET,
            CLOSE_BRACKET,
            OPEN_BRACE,
            CLOSE_BRACE,
        ],
        right: &[Nonterminal(BRACKET), Nonterminal(FOREIGN)],
    },
    Production {
        name: BEHIND_COLONS_NAME,
        ahead: &[NAME],
        right: &[Terminal(NAME, UNMARKED), Nonterminal(BEHIND_NAME)],
    },
    Production {
        name: BEHIND_COLONS_COLONS,
        ahead: &[COLONS],
        right: &[Terminal(COLONS, UNMARKED), Nonterminal(FOREIGN)],
    },
    Production {
        name: BEHIND_COLONS_DOT,
        ahead: &[DOT],
        right: &[Terminal(DOT, UNMARKED), Nonterminal(FOREIGN)],
    },
    Production {
        name: BEHIND_COLONS_SEMICOLON,
        ahead: &[SEMICOLON],
        right: &[Terminal(SEMICOLON, UNMARKED), Nonterminal(FOREIGN)],
    },
    Production {
        name: BEHIND_COLONS_END,
        ahead: &[END_WORD],
        right: &[Terminal(END_WORD, UNMARKED), Nonterminal(BEHIND_END)],
    },
];

// behind_dot = the same behind "end" pname "."
pub const BEHIND_DOT_LINES: &[Production<'static>] = &[
    Production {
        name: BEHIND_DOT_QUIET,
        ahead: QUIET_AHEAD,
        right: &[Nonterminal(QUIET), Nonterminal(FOREIGN)],
    },
    Production {
        name: BEHIND_DOT_BRACKET,
        ahead: &[
            OPEN_PAREN,
            CLOSE_PAREN,
            OPEN_BRACKET,
            CLOSE_BRACKET,
            OPEN_BRACE,
            CLOSE_BRACE,
        ],
        right: &[Nonterminal(BRACKET), Nonterminal(FOREIGN)],
    },
    Production {
        name: BEHIND_DOT_NAME,
        ahead: &[NAME],
        right: &[Terminal(NAME, UNMARKED), Nonterminal(BEHIND_BODY)],
    },
    Production {
        name: BEHIND_DOT_COLONS,
        ahead: &[COLONS],
        right: &[Terminal(COLONS, UNMARKED), Nonterminal(FOREIGN)],
    },
    Production {
        name: BEHIND_DOT_DOT,
        ahead: &[DOT],
        right: &[Terminal(DOT, UNMARKED), Nonterminal(FOREIGN)],
    },
    Production {
        name: BEHIND_DOT_SEMICOLON,
        ahead: &[SEMICOLON],
        right: &[Terminal(SEMICOLON, UNMARKED), Nonterminal(FOREIGN)],
    },
    Production {
        name: BEHIND_DOT_END,
        ahead: &[END_WORD],
        right: &[Terminal(END_WORD, UNMARKED), Nonterminal(BEHIND_END)],
    },
];

// behind_body = the same behind "end" pname "." name
pub const BEHIND_BODY_LINES: &[Production<'static>] = &[
    Production {
        name: BEHIND_BODY_QUIET,
        ahead: QUIET_AHEAD,
        right: &[Nonterminal(QUIET), Nonterminal(FOREIGN)],
    },
    Production {
        name: BEHIND_BODY_BRACKET,
        ahead: &[
            OPEN_PAREN,
            CLOSE_PAREN,
            OPEN_BRACKET,
            CLOSE_BRACKET,
            OPEN_BRACE,
            CLOSE_BRACE,
        ],
        right: &[Nonterminal(BRACKET), Nonterminal(FOREIGN)],
    },
    Production {
        name: BEHIND_BODY_NAME,
        ahead: &[NAME],
        right: &[Terminal(NAME, UNMARKED), Nonterminal(FOREIGN)],
    },
    Production {
        name: BEHIND_BODY_COLONS,
        ahead: &[COLONS],
        right: &[Terminal(COLONS, UNMARKED), Nonterminal(FOREIGN)],
    },
    Production {
        name: BEHIND_BODY_DOT,
        ahead: &[DOT],
        right: &[Terminal(DOT, UNMARKED), Nonterminal(FOREIGN)],
    },
    Production {
        name: BEHIND_BODY_SEMICOLON,
        ahead: &[SEMICOLON],
        right: &[Terminal(SEMICOLON, UNMARKED)],
    },
    Production {
        name: BEHIND_BODY_END,
        ahead: &[END_WORD],
        right: &[Terminal(END_WORD, UNMARKED), Nonterminal(BEHIND_END)],
    },
];
