//! Lines of the grammar: clauses, and what they consist of but for expressions.

use crate::marks::{
    ASSIGN_MARK, ASSUME_MARK, BOOL_MARK, CONST_MARK, END_MARK, EQ_MARK, GUARANTEE_MARK, INT_MARK,
    LABEL_MARK, LEMMA_MARK, LET_MARK, LOCALS_MARK, NODE_MARK, NODE_NAME_MARK, RETURNS_MARK,
    TARGET_MARK, TEL_MARK, VALUE_MARK, VARIABLE_MARK,
};
use crate::nonterminals::{
    CLAIM, CLAUSE, CLAUSES, EQUATION, EQUATIONS, EXPRESSION, LOCALS, MORE_VARIABLES, NODE,
    SOME_LOCALS, SOME_NAME, SOME_VALUE, SOME_VARIABLES, TYPE_NAME, VARIABLE, VARIABLES,
};
use crate::productions::{
    A_BOOL, A_CONST, A_GUARANTEE, A_LEMMA, A_LOCAL_LIST, A_NAME, A_NODE, A_VALUE, A_VARIABLE_LIST,
    AN_ASSIGN, AN_ASSUME, AN_EQ, AN_INT, CLAIM_WHOLE, EQUATION_WHOLE, NO_CLAUSE, NO_EQUATION,
    NO_LOCAL, NO_LOCAL_LIST, NO_MORE_VARIABLE, NO_NAME, NO_VALUE, NO_VARIABLE_LIST, NODE_WHOLE,
    ONE_CLAUSE, ONE_EQUATION, ONE_LOCAL, ONE_MORE_VARIABLE, VARIABLE_WHOLE, VARIABLES_WHOLE,
};
use crate::terminals::{
    ASSIGN_WORD, ASSUME_WORD, BOOL_WORD, CLOSE_PAREN, COLON, COMMA, CONST_WORD, EQ_WORD, EQUALS,
    GUARANTEE_WORD, INT_WORD, LEMMA_WORD, LET_WORD, NAME, NODE_WORD, OPEN_PAREN, RETURNS_WORD,
    SEMICOLON, TEL_WORD, TEXT, VAR_WORD,
};
use ag_aadl::marks::UNMARKED;
use ag_grammar::Symbol::{Nonterminal, Terminal};
use ag_grammar::{END, Production};

// clauses = { clause }
pub const CLAUSES_LINES: &[Production<'static>] = &[
    Production {
        name: ONE_CLAUSE,
        ahead: &[
            ASSUME_WORD,
            GUARANTEE_WORD,
            LEMMA_WORD,
            EQ_WORD,
            ASSIGN_WORD,
            CONST_WORD,
            NODE_WORD,
        ],
        right: &[Nonterminal(CLAUSE), Nonterminal(CLAUSES)],
    },
    Production {
        name: NO_CLAUSE,
        ahead: &[END],
        right: &[],
    },
];

// clause = ( "assume" | "guarantee" | "lemma" ) claim | "eq" variables [ "=" expression ] ";" | "assign" equation | "const" variable "=" expression ";" | "node" node
pub const CLAUSE_LINES: &[Production<'static>] = &[
    Production {
        name: AN_ASSUME,
        ahead: &[ASSUME_WORD],
        right: &[Terminal(ASSUME_WORD, ASSUME_MARK), Nonterminal(CLAIM)],
    },
    Production {
        name: A_GUARANTEE,
        ahead: &[GUARANTEE_WORD],
        right: &[Terminal(GUARANTEE_WORD, GUARANTEE_MARK), Nonterminal(CLAIM)],
    },
    Production {
        name: A_LEMMA,
        ahead: &[LEMMA_WORD],
        right: &[Terminal(LEMMA_WORD, LEMMA_MARK), Nonterminal(CLAIM)],
    },
    Production {
        name: AN_EQ,
        ahead: &[EQ_WORD],
        right: &[
            Terminal(EQ_WORD, EQ_MARK),
            Nonterminal(VARIABLES),
            Nonterminal(SOME_VALUE),
        ],
    },
    Production {
        name: AN_ASSIGN,
        ahead: &[ASSIGN_WORD],
        right: &[Terminal(ASSIGN_WORD, ASSIGN_MARK), Nonterminal(EQUATION)],
    },
    Production {
        name: A_CONST,
        ahead: &[CONST_WORD],
        right: &[
            Terminal(CONST_WORD, CONST_MARK),
            Nonterminal(VARIABLE),
            Terminal(EQUALS, VALUE_MARK),
            Nonterminal(EXPRESSION),
            Terminal(SEMICOLON, END_MARK),
        ],
    },
    Production {
        name: A_NODE,
        ahead: &[NODE_WORD],
        right: &[Terminal(NODE_WORD, NODE_MARK), Nonterminal(NODE)],
    },
];

// claim = [ name ] Text ":" expression ";"
pub const CLAIM_LINES: &[Production<'static>] = &[Production {
    name: CLAIM_WHOLE,
    ahead: &[NAME, TEXT],
    right: &[
        Nonterminal(SOME_NAME),
        Terminal(TEXT, LABEL_MARK),
        Terminal(COLON, VALUE_MARK),
        Nonterminal(EXPRESSION),
        Terminal(SEMICOLON, END_MARK),
    ],
}];

// some_name = [ name ]
pub const SOME_NAME_LINES: &[Production<'static>] = &[
    Production {
        name: A_NAME,
        ahead: &[NAME],
        right: &[Terminal(NAME, UNMARKED)],
    },
    Production {
        name: NO_NAME,
        ahead: &[TEXT],
        right: &[],
    },
];

// some_value = [ "=" expression ] ";"
pub const SOME_VALUE_LINES: &[Production<'static>] = &[
    Production {
        name: A_VALUE,
        ahead: &[EQUALS],
        right: &[
            Terminal(EQUALS, VALUE_MARK),
            Nonterminal(EXPRESSION),
            Terminal(SEMICOLON, END_MARK),
        ],
    },
    Production {
        name: NO_VALUE,
        ahead: &[SEMICOLON],
        right: &[Terminal(SEMICOLON, UNMARKED)],
    },
];

// equation = name "=" expression ";"
pub const EQUATION_LINES: &[Production<'static>] = &[Production {
    name: EQUATION_WHOLE,
    ahead: &[NAME],
    right: &[
        Terminal(NAME, TARGET_MARK),
        Terminal(EQUALS, VALUE_MARK),
        Nonterminal(EXPRESSION),
        Terminal(SEMICOLON, END_MARK),
    ],
}];

// variables = variable { "," variable }
pub const VARIABLES_LINES: &[Production<'static>] = &[Production {
    name: VARIABLES_WHOLE,
    ahead: &[NAME],
    right: &[Nonterminal(VARIABLE), Nonterminal(MORE_VARIABLES)],
}];

// more_variables = { "," variable }
pub const MORE_VARIABLES_LINES: &[Production<'static>] = &[
    Production {
        name: ONE_MORE_VARIABLE,
        ahead: &[COMMA],
        right: &[
            Terminal(COMMA, UNMARKED),
            Nonterminal(VARIABLE),
            Nonterminal(MORE_VARIABLES),
        ],
    },
    Production {
        name: NO_MORE_VARIABLE,
        ahead: &[SEMICOLON, CLOSE_PAREN, EQUALS],
        right: &[],
    },
];

// some_variables = [ variables ]
pub const SOME_VARIABLES_LINES: &[Production<'static>] = &[
    Production {
        name: A_VARIABLE_LIST,
        ahead: &[NAME],
        right: &[Nonterminal(VARIABLES)],
    },
    Production {
        name: NO_VARIABLE_LIST,
        ahead: &[CLOSE_PAREN],
        right: &[],
    },
];

// variable = name ":" type
pub const VARIABLE_LINES: &[Production<'static>] = &[Production {
    name: VARIABLE_WHOLE,
    ahead: &[NAME],
    right: &[
        Terminal(NAME, VARIABLE_MARK),
        Terminal(COLON, UNMARKED),
        Nonterminal(TYPE_NAME),
    ],
}];

// type_name = "int" | "bool"
pub const TYPE_NAME_LINES: &[Production<'static>] = &[
    Production {
        name: AN_INT,
        ahead: &[INT_WORD],
        right: &[Terminal(INT_WORD, INT_MARK)],
    },
    Production {
        name: A_BOOL,
        ahead: &[BOOL_WORD],
        right: &[Terminal(BOOL_WORD, BOOL_MARK)],
    },
];

// node = name "(" [ variables ] ")" "returns" "(" variables ")" ";" [ "var" locals ] "let" equations "tel" ";"
pub const NODE_LINES: &[Production<'static>] = &[Production {
    name: NODE_WHOLE,
    ahead: &[NAME],
    right: &[
        Terminal(NAME, NODE_NAME_MARK),
        Terminal(OPEN_PAREN, UNMARKED),
        Nonterminal(SOME_VARIABLES),
        Terminal(CLOSE_PAREN, UNMARKED),
        Terminal(RETURNS_WORD, RETURNS_MARK),
        Terminal(OPEN_PAREN, UNMARKED),
        Nonterminal(VARIABLES),
        Terminal(CLOSE_PAREN, UNMARKED),
        Terminal(SEMICOLON, UNMARKED),
        Nonterminal(SOME_LOCALS),
        Terminal(LET_WORD, LET_MARK),
        Nonterminal(EQUATIONS),
        Terminal(TEL_WORD, TEL_MARK),
        Terminal(SEMICOLON, UNMARKED),
    ],
}];

// some_locals = [ "var" locals ]
pub const SOME_LOCALS_LINES: &[Production<'static>] = &[
    Production {
        name: A_LOCAL_LIST,
        ahead: &[VAR_WORD],
        right: &[Terminal(VAR_WORD, LOCALS_MARK), Nonterminal(LOCALS)],
    },
    Production {
        name: NO_LOCAL_LIST,
        ahead: &[LET_WORD],
        right: &[],
    },
];

// locals = { variable ";" }
pub const LOCALS_LINES: &[Production<'static>] = &[
    Production {
        name: ONE_LOCAL,
        ahead: &[NAME],
        right: &[
            Nonterminal(VARIABLE),
            Terminal(SEMICOLON, UNMARKED),
            Nonterminal(LOCALS),
        ],
    },
    Production {
        name: NO_LOCAL,
        ahead: &[LET_WORD],
        right: &[],
    },
];

// equations = { equation }
pub const EQUATIONS_LINES: &[Production<'static>] = &[
    Production {
        name: ONE_EQUATION,
        ahead: &[NAME],
        right: &[Nonterminal(EQUATION), Nonterminal(EQUATIONS)],
    },
    Production {
        name: NO_EQUATION,
        ahead: &[TEL_WORD],
        right: &[],
    },
];
