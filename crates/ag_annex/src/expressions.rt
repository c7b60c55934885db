//! Lines of the grammar: expressions, as operands with operators between them.

use crate::marks::AND_MARK;
use crate::marks::ARGUMENT_MARK;
use crate::marks::ARROW_MARK;
use crate::marks::AT_LEAST_MARK;
use crate::marks::AT_MOST_MARK;
use crate::marks::CALL_MARK;
use crate::marks::CLOSE_MARK;
use crate::marks::DIFFERS_MARK;
use crate::marks::DIV_MARK;
use crate::marks::ELSE_MARK;
use crate::marks::FALSE_MARK;
use crate::marks::GROUP_MARK;
use crate::marks::IF_MARK;
use crate::marks::IFF_MARK;
use crate::marks::IMPLIES_MARK;
use crate::marks::LESS_MARK;
use crate::marks::MINUS_MARK;
use crate::marks::MOD_MARK;
use crate::marks::MORE_MARK;
use crate::marks::NEGATIVE_MARK;
use crate::marks::NOT_MARK;
use crate::marks::NUMBER_MARK;
use crate::marks::OPERAND_MARK;
use crate::marks::OR_MARK;
use crate::marks::PART_MARK;
use crate::marks::PATH_BODY_MARK;
use crate::marks::PATH_MARK;
use crate::marks::PLUS_MARK;
use crate::marks::PRE_MARK;
use crate::marks::PREV_MARK;
use crate::marks::SAME_MARK;
use crate::marks::THEN_MARK;
use crate::marks::TIMES_MARK;
use crate::marks::TRUE_MARK;
use crate::nonterminals::ARGUMENTS;
use crate::nonterminals::ARITHMETIC;
use crate::nonterminals::CHOICE;
use crate::nonterminals::COMPARISON;
use crate::nonterminals::EXPRESSION;
use crate::nonterminals::LOGICAL;
use crate::nonterminals::MORE_ARGUMENTS;
use crate::nonterminals::MORE_PARTS;
use crate::nonterminals::OPERAND;
use crate::nonterminals::PATH;
use crate::nonterminals::PREFIX;
use crate::nonterminals::PRIMARY;
use crate::nonterminals::REST;
use crate::nonterminals::SOME_ARGUMENTS;
use crate::nonterminals::SOME_BODY;
use crate::productions::A_BODY;
use crate::productions::A_CALL;
use crate::productions::A_DIFFERS;
use crate::productions::A_DIV;
use crate::productions::A_FALSE;
use crate::productions::A_GROUP;
use crate::productions::A_LESS;
use crate::productions::A_MINUS;
use crate::productions::A_MOD;
use crate::productions::A_MORE;
use crate::productions::A_NEGATIVE;
use crate::productions::A_NOT;
use crate::productions::A_NUMBER;
use crate::productions::A_PATH;
use crate::productions::A_PLUS;
use crate::productions::A_PRE;
use crate::productions::A_PREV;
use crate::productions::A_SAME;
use crate::productions::A_TIMES;
use crate::productions::A_TRUE;
use crate::productions::AN_AND;
use crate::productions::AN_ARROW;
use crate::productions::AN_AT_LEAST;
use crate::productions::AN_AT_MOST;
use crate::productions::AN_IFF;
use crate::productions::AN_IMPLIES;
use crate::productions::AN_OR;
use crate::productions::ARITHMETIC_REST;
use crate::productions::CHOICE_OPERAND;
use crate::productions::CHOICE_WHOLE;
use crate::productions::COMPARISON_REST;
use crate::productions::EXPRESSION_WHOLE;
use crate::productions::LOGICAL_REST;
use crate::productions::NO_ARGUMENT_LIST;
use crate::productions::NO_BODY;
use crate::productions::NO_CALL;
use crate::productions::NO_MORE_ARGUMENT;
use crate::productions::NO_MORE_PART;
use crate::productions::NO_REST;
use crate::productions::ONE_MORE_ARGUMENT;
use crate::productions::ONE_MORE_PART;
use crate::productions::PATH_WHOLE;
use crate::productions::PREFIX_OPERAND;
use crate::productions::PRIMARY_OPERAND;
use crate::productions::SOME_ARGUMENT_LIST;
use crate::terminals::AND_WORD;
use crate::terminals::ARROW;
use crate::terminals::AT_LEAST;
use crate::terminals::AT_MOST;
use crate::terminals::CLOSE_PAREN;
use crate::terminals::COLONS;
use crate::terminals::COMMA;
use crate::terminals::DIFFERS;
use crate::terminals::DIV_WORD;
use crate::terminals::DOT;
use crate::terminals::ELSE_WORD;
use crate::terminals::EQUALS;
use crate::terminals::FALSE_WORD;
use crate::terminals::IF_WORD;
use crate::terminals::IFF;
use crate::terminals::IMPLIES;
use crate::terminals::LESS;
use crate::terminals::MINUS;
use crate::terminals::MOD_WORD;
use crate::terminals::MORE;
use crate::terminals::NAME;
use crate::terminals::NOT_WORD;
use crate::terminals::NUMBER;
use crate::terminals::OPEN_PAREN;
use crate::terminals::OR_WORD;
use crate::terminals::PLUS;
use crate::terminals::PRE_WORD;
use crate::terminals::PREV_WORD;
use crate::terminals::SEMICOLON;
use crate::terminals::THEN_WORD;
use crate::terminals::TIMES;
use crate::terminals::TRUE_WORD;
use ag_aadl::marks::UNMARKED;
use ag_grammar::Production;
use ag_grammar::Symbol::Nonterminal;
use ag_grammar::Symbol::Terminal;

pub const EXPRESSION_AHEAD: &[u8] = &[
    NAME, NUMBER, TRUE_WORD, FALSE_WORD, PRE_WORD, PREV_WORD, IF_WORD, NOT_WORD, OPEN_PAREN, MINUS,
];

// expression = operand
pub const EXPRESSION_LINES: &[Production<'static>] = &[Production {
    name: EXPRESSION_WHOLE,
    ahead: EXPRESSION_AHEAD,
    right: &[Nonterminal(OPERAND)],
}];

// operand = choice | prefix operand | primary rest
pub const OPERAND_LINES: &[Production<'static>] = &[
    Production {
        name: CHOICE_OPERAND,
        ahead: &[IF_WORD],
        right: &[Nonterminal(CHOICE)],
    },
    Production {
        name: PREFIX_OPERAND,
        ahead: &[NOT_WORD, MINUS],
        right: &[Nonterminal(PREFIX), Nonterminal(OPERAND)],
    },
    Production {
        name: PRIMARY_OPERAND,
        ahead: &[
            NAME, NUMBER, TRUE_WORD, FALSE_WORD, PRE_WORD, PREV_WORD, OPEN_PAREN,
        ],
        right: &[Nonterminal(PRIMARY), Nonterminal(REST)],
    },
];

// rest = [ arithmetic operand | comparison operand | logical operand ]
pub const REST_LINES: &[Production<'static>] = &[
    Production {
        name: ARITHMETIC_REST,
        ahead: &[DIV_WORD, MOD_WORD, PLUS, MINUS, TIMES],
        right: &[Nonterminal(ARITHMETIC), Nonterminal(OPERAND)],
    },
    Production {
        name: COMPARISON_REST,
        ahead: &[LESS, AT_MOST, MORE, AT_LEAST, EQUALS, DIFFERS],
        right: &[Nonterminal(COMPARISON), Nonterminal(OPERAND)],
    },
    Production {
        name: LOGICAL_REST,
        ahead: &[AND_WORD, OR_WORD, ARROW, IMPLIES, IFF],
        right: &[Nonterminal(LOGICAL), Nonterminal(OPERAND)],
    },
    Production {
        name: NO_REST,
        ahead: &[THEN_WORD, ELSE_WORD, COMMA, SEMICOLON, CLOSE_PAREN],
        right: &[],
    },
];

// choice = "if" expression "then" expression "else" expression
pub const CHOICE_LINES: &[Production<'static>] = &[Production {
    name: CHOICE_WHOLE,
    ahead: &[IF_WORD],
    right: &[
        Terminal(IF_WORD, IF_MARK),
        Nonterminal(EXPRESSION),
        Terminal(THEN_WORD, THEN_MARK),
        Nonterminal(EXPRESSION),
        Terminal(ELSE_WORD, ELSE_MARK),
        Nonterminal(EXPRESSION),
    ],
}];

// prefix = "-" | "not"
pub const PREFIX_LINES: &[Production<'static>] = &[
    Production {
        name: A_NEGATIVE,
        ahead: &[MINUS],
        right: &[Terminal(MINUS, NEGATIVE_MARK)],
    },
    Production {
        name: A_NOT,
        ahead: &[NOT_WORD],
        right: &[Terminal(NOT_WORD, NOT_MARK)],
    },
];

// arithmetic = "+" | "-" | "*" | "div" | "mod"
pub const ARITHMETIC_LINES: &[Production<'static>] = &[
    Production {
        name: A_PLUS,
        ahead: &[PLUS],
        right: &[Terminal(PLUS, PLUS_MARK)],
    },
    Production {
        name: A_MINUS,
        ahead: &[MINUS],
        right: &[Terminal(MINUS, MINUS_MARK)],
    },
    Production {
        name: A_TIMES,
        ahead: &[TIMES],
        right: &[Terminal(TIMES, TIMES_MARK)],
    },
    Production {
        name: A_DIV,
        ahead: &[DIV_WORD],
        right: &[Terminal(DIV_WORD, DIV_MARK)],
    },
    Production {
        name: A_MOD,
        ahead: &[MOD_WORD],
        right: &[Terminal(MOD_WORD, MOD_MARK)],
    },
];

// comparison = "<" | "<=" | ">" | ">=" | "=" | "<>" | "!="
pub const COMPARISON_LINES: &[Production<'static>] = &[
    Production {
        name: A_LESS,
        ahead: &[LESS],
        right: &[Terminal(LESS, LESS_MARK)],
    },
    Production {
        name: AN_AT_MOST,
        ahead: &[AT_MOST],
        right: &[Terminal(AT_MOST, AT_MOST_MARK)],
    },
    Production {
        name: A_MORE,
        ahead: &[MORE],
        right: &[Terminal(MORE, MORE_MARK)],
    },
    Production {
        name: AN_AT_LEAST,
        ahead: &[AT_LEAST],
        right: &[Terminal(AT_LEAST, AT_LEAST_MARK)],
    },
    Production {
        name: A_SAME,
        ahead: &[EQUALS],
        right: &[Terminal(EQUALS, SAME_MARK)],
    },
    Production {
        name: A_DIFFERS,
        ahead: &[DIFFERS],
        right: &[Terminal(DIFFERS, DIFFERS_MARK)],
    },
];

// logical = "and" | "or" | "<=>" | "=>" | "->"
pub const LOGICAL_LINES: &[Production<'static>] = &[
    Production {
        name: AN_AND,
        ahead: &[AND_WORD],
        right: &[Terminal(AND_WORD, AND_MARK)],
    },
    Production {
        name: AN_OR,
        ahead: &[OR_WORD],
        right: &[Terminal(OR_WORD, OR_MARK)],
    },
    Production {
        name: AN_IFF,
        ahead: &[IFF],
        right: &[Terminal(IFF, IFF_MARK)],
    },
    Production {
        name: AN_IMPLIES,
        ahead: &[IMPLIES],
        right: &[Terminal(IMPLIES, IMPLIES_MARK)],
    },
    Production {
        name: AN_ARROW,
        ahead: &[ARROW],
        right: &[Terminal(ARROW, ARROW_MARK)],
    },
];

// primary = Number | "true" | "false" | "(" expression ")" | "pre" "(" expression ")" | "prev" "(" expression "," expression ")" | path [ "(" arguments ")" ]
pub const PRIMARY_LINES: &[Production<'static>] = &[
    Production {
        name: A_NUMBER,
        ahead: &[NUMBER],
        right: &[Terminal(NUMBER, NUMBER_MARK)],
    },
    Production {
        name: A_TRUE,
        ahead: &[TRUE_WORD],
        right: &[Terminal(TRUE_WORD, TRUE_MARK)],
    },
    Production {
        name: A_FALSE,
        ahead: &[FALSE_WORD],
        right: &[Terminal(FALSE_WORD, FALSE_MARK)],
    },
    Production {
        name: A_GROUP,
        ahead: &[OPEN_PAREN],
        right: &[
            Terminal(OPEN_PAREN, GROUP_MARK),
            Nonterminal(EXPRESSION),
            Terminal(CLOSE_PAREN, CLOSE_MARK),
        ],
    },
    Production {
        name: A_PRE,
        ahead: &[PRE_WORD],
        right: &[
            Terminal(PRE_WORD, PRE_MARK),
            Terminal(OPEN_PAREN, OPERAND_MARK),
            Nonterminal(EXPRESSION),
            Terminal(CLOSE_PAREN, CLOSE_MARK),
        ],
    },
    Production {
        name: A_PREV,
        ahead: &[PREV_WORD],
        right: &[
            Terminal(PREV_WORD, PREV_MARK),
            Terminal(OPEN_PAREN, OPERAND_MARK),
            Nonterminal(EXPRESSION),
            Terminal(COMMA, ARGUMENT_MARK),
            Nonterminal(EXPRESSION),
            Terminal(CLOSE_PAREN, CLOSE_MARK),
        ],
    },
    Production {
        name: A_PATH,
        ahead: &[NAME],
        right: &[Nonterminal(PATH), Nonterminal(SOME_ARGUMENTS)],
    },
];

// path = name { "::" name } [ "." name ]
pub const PATH_LINES: &[Production<'static>] = &[Production {
    name: PATH_WHOLE,
    ahead: &[NAME],
    right: &[
        Terminal(NAME, PATH_MARK),
        Nonterminal(MORE_PARTS),
        Nonterminal(SOME_BODY),
    ],
}];

// more_parts = { "::" name }
pub const MORE_PARTS_LINES: &[Production<'static>] = &[
    Production {
        name: ONE_MORE_PART,
        ahead: &[COLONS],
        right: &[
            Terminal(COLONS, UNMARKED),
            Terminal(NAME, PART_MARK),
            Nonterminal(MORE_PARTS),
        ],
    },
    Production {
        name: NO_MORE_PART,
        ahead: &[
            THEN_WORD,
            ELSE_WORD,
            AND_WORD,
            OR_WORD,
            DIV_WORD,
            MOD_WORD,
            COMMA,
            SEMICOLON,
            DOT,
            OPEN_PAREN,
            CLOSE_PAREN,
            ARROW,
            IMPLIES,
            IFF,
            LESS,
            AT_MOST,
            MORE,
            AT_LEAST,
            EQUALS,
            DIFFERS,
            PLUS,
            MINUS,
            TIMES,
        ],
        right: &[],
    },
];

// some_body = [ "." name ]
pub const SOME_BODY_LINES: &[Production<'static>] = &[
    Production {
        name: A_BODY,
        ahead: &[DOT],
        right: &[Terminal(DOT, UNMARKED), Terminal(NAME, PATH_BODY_MARK)],
    },
    Production {
        name: NO_BODY,
        ahead: &[
            THEN_WORD,
            ELSE_WORD,
            AND_WORD,
            OR_WORD,
            DIV_WORD,
            MOD_WORD,
            COMMA,
            SEMICOLON,
            OPEN_PAREN,
            CLOSE_PAREN,
            ARROW,
            IMPLIES,
            IFF,
            LESS,
            AT_MOST,
            MORE,
            AT_LEAST,
            EQUALS,
            DIFFERS,
            PLUS,
            MINUS,
            TIMES,
        ],
        right: &[],
    },
];

// some_arguments = [ "(" arguments ")" ]
pub const SOME_ARGUMENTS_LINES: &[Production<'static>] = &[
    Production {
        name: A_CALL,
        ahead: &[OPEN_PAREN],
        right: &[
            Terminal(OPEN_PAREN, CALL_MARK),
            Nonterminal(ARGUMENTS),
            Terminal(CLOSE_PAREN, CLOSE_MARK),
        ],
    },
    Production {
        name: NO_CALL,
        ahead: &[
            THEN_WORD,
            ELSE_WORD,
            AND_WORD,
            OR_WORD,
            DIV_WORD,
            MOD_WORD,
            COMMA,
            SEMICOLON,
            CLOSE_PAREN,
            ARROW,
            IMPLIES,
            IFF,
            LESS,
            AT_MOST,
            MORE,
            AT_LEAST,
            EQUALS,
            DIFFERS,
            PLUS,
            MINUS,
            TIMES,
        ],
        right: &[],
    },
];

// arguments = [ expression { "," expression } ]
pub const ARGUMENTS_LINES: &[Production<'static>] = &[
    Production {
        name: SOME_ARGUMENT_LIST,
        ahead: EXPRESSION_AHEAD,
        right: &[Nonterminal(EXPRESSION), Nonterminal(MORE_ARGUMENTS)],
    },
    Production {
        name: NO_ARGUMENT_LIST,
        ahead: &[CLOSE_PAREN],
        right: &[],
    },
];

// more_arguments = { "," expression }
pub const MORE_ARGUMENTS_LINES: &[Production<'static>] = &[
    Production {
        name: ONE_MORE_ARGUMENT,
        ahead: &[COMMA],
        right: &[
            Terminal(COMMA, ARGUMENT_MARK),
            Nonterminal(EXPRESSION),
            Nonterminal(MORE_ARGUMENTS),
        ],
    },
    Production {
        name: NO_MORE_ARGUMENT,
        ahead: &[CLOSE_PAREN],
        right: &[],
    },
];
