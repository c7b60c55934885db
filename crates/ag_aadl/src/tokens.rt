//! Lines of the grammar: tokens that are passed over.

use crate::marks::UNMARKED;
use crate::nonterminals::BRACES;
use crate::nonterminals::GROUP;
use crate::nonterminals::INSIDE;
use crate::nonterminals::PLAIN;
use crate::nonterminals::QUIET;
use crate::nonterminals::SKIP;
use crate::productions::BRACES_GROUP;
use crate::productions::BRACES_WHOLE;
use crate::productions::BRACKETS;
use crate::productions::INSIDE_END;
use crate::productions::INSIDE_GROUP;
use crate::productions::INSIDE_SEMICOLON;
use crate::productions::INSIDE_TOKEN;
use crate::productions::OTHER_BUS;
use crate::productions::OTHER_DATA;
use crate::productions::OTHER_MEMORY;
use crate::productions::OTHER_PROCESSOR;
use crate::productions::OTHER_SUBPROGRAM;
use crate::productions::PARENS;
use crate::productions::PLAIN_COLONS;
use crate::productions::PLAIN_DOT;
use crate::productions::PLAIN_END;
use crate::productions::PLAIN_NAME;
use crate::productions::PLAIN_QUIET;
use crate::productions::QUIET_ABSTRACT_WORD;
use crate::productions::QUIET_ANNEX_TEXT;
use crate::productions::QUIET_ANNEX_WORD;
use crate::productions::QUIET_ARROW;
use crate::productions::QUIET_BUS_WORD;
use crate::productions::QUIET_COLON;
use crate::productions::QUIET_COMMA;
use crate::productions::QUIET_CONNECTIONS_WORD;
use crate::productions::QUIET_DATA_WORD;
use crate::productions::QUIET_DEVICE_WORD;
use crate::productions::QUIET_EVENT_WORD;
use crate::productions::QUIET_FEATURES_WORD;
use crate::productions::QUIET_FLOWS_WORD;
use crate::productions::QUIET_GIVES;
use crate::productions::QUIET_IMPLEMENTATION_WORD;
use crate::productions::QUIET_IN_WORD;
use crate::productions::QUIET_MEMORY_WORD;
use crate::productions::QUIET_NONE_WORD;
use crate::productions::QUIET_OTHER_TOKEN;
use crate::productions::QUIET_OTHER_WORD;
use crate::productions::QUIET_OUT_WORD;
use crate::productions::QUIET_PACKAGE_WORD;
use crate::productions::QUIET_PARAMETER_WORD;
use crate::productions::QUIET_PORT_WORD;
use crate::productions::QUIET_PROCESS_WORD;
use crate::productions::QUIET_PROCESSOR_WORD;
use crate::productions::QUIET_PROPERTIES_WORD;
use crate::productions::QUIET_PROVIDES_WORD;
use crate::productions::QUIET_PUBLIC_WORD;
use crate::productions::QUIET_REQUIRES_WORD;
use crate::productions::QUIET_SUBCOMPONENTS_WORD;
use crate::productions::QUIET_SUBPROGRAM_WORD;
use crate::productions::QUIET_SYSTEM_WORD;
use crate::productions::QUIET_THREAD_WORD;
use crate::productions::QUIET_WITH_WORD;
use crate::productions::SKIP_END;
use crate::productions::SKIP_GROUP;
use crate::productions::SKIP_TOKEN;
use crate::terminals::ABSTRACT_WORD;
use crate::terminals::ANNEX_TEXT;
use crate::terminals::ANNEX_WORD;
use crate::terminals::ARROW;
use crate::terminals::BUS_WORD;
use crate::terminals::CLOSE_BRACE;
use crate::terminals::CLOSE_BRACKET;
use crate::terminals::CLOSE_PAREN;
use crate::terminals::COLON;
use crate::terminals::COLONS;
use crate::terminals::COMMA;
use crate::terminals::CONNECTIONS_WORD;
use crate::terminals::DATA_WORD;
use crate::terminals::DEVICE_WORD;
use crate::terminals::DOT;
use crate::terminals::END_WORD;
use crate::terminals::EVENT_WORD;
use crate::terminals::FEATURES_WORD;
use crate::terminals::FLOWS_WORD;
use crate::terminals::GIVES;
use crate::terminals::IMPLEMENTATION_WORD;
use crate::terminals::IN_WORD;
use crate::terminals::MEMORY_WORD;
use crate::terminals::NAME;
use crate::terminals::NONE_WORD;
use crate::terminals::OPEN_BRACE;
use crate::terminals::OPEN_BRACKET;
use crate::terminals::OPEN_PAREN;
use crate::terminals::OTHER_TOKEN;
use crate::terminals::OTHER_WORD;
use crate::terminals::OUT_WORD;
use crate::terminals::PACKAGE_WORD;
use crate::terminals::PARAMETER_WORD;
use crate::terminals::PORT_WORD;
use crate::terminals::PROCESS_WORD;
use crate::terminals::PROCESSOR_WORD;
use crate::terminals::PROPERTIES_WORD;
use crate::terminals::PROVIDES_WORD;
use crate::terminals::PUBLIC_WORD;
use crate::terminals::REQUIRES_WORD;
use crate::terminals::SEMICOLON;
use crate::terminals::SUBCOMPONENTS_WORD;
use crate::terminals::SUBPROGRAM_WORD;
use crate::terminals::SYSTEM_WORD;
use crate::terminals::THREAD_WORD;
use crate::terminals::WITH_WORD;
use ag_grammar::Production;
use ag_grammar::Symbol::Nonterminal;
use ag_grammar::Symbol::Terminal;

pub const QUIET_AHEAD: &[u8] = &[
    PACKAGE_WORD,
    PUBLIC_WORD,
    WITH_WORD,
    SYSTEM_WORD,
    PROCESS_WORD,
    THREAD_WORD,
    DEVICE_WORD,
    ABSTRACT_WORD,
    DATA_WORD,
    SUBPROGRAM_WORD,
    PROCESSOR_WORD,
    MEMORY_WORD,
    BUS_WORD,
    IMPLEMENTATION_WORD,
    FEATURES_WORD,
    FLOWS_WORD,
    PROPERTIES_WORD,
    SUBCOMPONENTS_WORD,
    CONNECTIONS_WORD,
    ANNEX_WORD,
    IN_WORD,
    OUT_WORD,
    EVENT_WORD,
    PORT_WORD,
    REQUIRES_WORD,
    PROVIDES_WORD,
    PARAMETER_WORD,
    NONE_WORD,
    OTHER_WORD,
    COMMA,
    COLON,
    ARROW,
    GIVES,
    ANNEX_TEXT,
    OTHER_TOKEN,
];

pub const PLAIN_AHEAD: &[u8] = &[
    NAME,
    PACKAGE_WORD,
    PUBLIC_WORD,
    WITH_WORD,
    END_WORD,
    SYSTEM_WORD,
    PROCESS_WORD,
    THREAD_WORD,
    DEVICE_WORD,
    ABSTRACT_WORD,
    DATA_WORD,
    SUBPROGRAM_WORD,
    PROCESSOR_WORD,
    MEMORY_WORD,
    BUS_WORD,
    IMPLEMENTATION_WORD,
    FEATURES_WORD,
    FLOWS_WORD,
    PROPERTIES_WORD,
    SUBCOMPONENTS_WORD,
    CONNECTIONS_WORD,
    ANNEX_WORD,
    IN_WORD,
    OUT_WORD,
    EVENT_WORD,
    PORT_WORD,
    REQUIRES_WORD,
    PROVIDES_WORD,
    PARAMETER_WORD,
    NONE_WORD,
    OTHER_WORD,
    COLONS,
    COMMA,
    COLON,
    DOT,
    ARROW,
    GIVES,
    ANNEX_TEXT,
    OTHER_TOKEN,
];

// other = "data" | "subprogram" | "processor" | "memory" | "bus"
pub const OTHER_LINES: &[Production<'static>] = &[
    Production {
        name: OTHER_DATA,
        ahead: &[DATA_WORD],
        right: &[Terminal(DATA_WORD, UNMARKED)],
    },
    Production {
        name: OTHER_SUBPROGRAM,
        ahead: &[SUBPROGRAM_WORD],
        right: &[Terminal(SUBPROGRAM_WORD, UNMARKED)],
    },
    Production {
        name: OTHER_PROCESSOR,
        ahead: &[PROCESSOR_WORD],
        right: &[Terminal(PROCESSOR_WORD, UNMARKED)],
    },
    Production {
        name: OTHER_MEMORY,
        ahead: &[MEMORY_WORD],
        right: &[Terminal(MEMORY_WORD, UNMARKED)],
    },
    Production {
        name: OTHER_BUS,
        ahead: &[BUS_WORD],
        right: &[Terminal(BUS_WORD, UNMARKED)],
    },
];

// skip = tokens up to and with the first ";" outside brackets
pub const SKIP_LINES: &[Production<'static>] = &[
    Production {
        name: SKIP_END,
        ahead: &[SEMICOLON],
        right: &[Terminal(SEMICOLON, UNMARKED)],
    },
    Production {
        name: SKIP_TOKEN,
        ahead: PLAIN_AHEAD,
        right: &[Nonterminal(PLAIN), Nonterminal(SKIP)],
    },
    Production {
        name: SKIP_GROUP,
        ahead: &[OPEN_PAREN, OPEN_BRACKET, OPEN_BRACE],
        right: &[Nonterminal(GROUP), Nonterminal(SKIP)],
    },
];

// group = tokens between brackets that pair
pub const GROUP_LINES: &[Production<'static>] = &[
    Production {
        name: PARENS,
        ahead: &[OPEN_PAREN],
        right: &[
            Terminal(OPEN_PAREN, UNMARKED),
            Nonterminal(INSIDE),
            Terminal(CLOSE_PAREN, UNMARKED),
        ],
    },
    Production {
        name: BRACKETS,
        ahead: &[OPEN_BRACKET],
        right: &[
            Terminal(OPEN_BRACKET, UNMARKED),
            Nonterminal(INSIDE),
            Terminal(CLOSE_BRACKET, UNMARKED),
        ],
    },
    Production {
        name: BRACES_GROUP,
        ahead: &[OPEN_BRACE],
        right: &[Nonterminal(BRACES)],
    },
];

// braces = "{" tokens "}" with brackets in pairs
pub const BRACES_LINES: &[Production<'static>] = &[Production {
    name: BRACES_WHOLE,
    ahead: &[OPEN_BRACE],
    right: &[
        Terminal(OPEN_BRACE, UNMARKED),
        Nonterminal(INSIDE),
        Terminal(CLOSE_BRACE, UNMARKED),
    ],
}];

// inside = tokens with brackets in pairs
pub const INSIDE_LINES: &[Production<'static>] = &[
    Production {
        name: INSIDE_TOKEN,
        ahead: PLAIN_AHEAD,
        right: &[Nonterminal(PLAIN), Nonterminal(INSIDE)],
    },
    Production {
        name: INSIDE_SEMICOLON,
        ahead: &[SEMICOLON],
        right: &[Terminal(SEMICOLON, UNMARKED), Nonterminal(INSIDE)],
    },
    Production {
        name: INSIDE_GROUP,
        ahead: &[OPEN_PAREN, OPEN_BRACKET, OPEN_BRACE],
        right: &[Nonterminal(GROUP), Nonterminal(INSIDE)],
    },
    Production {
        name: INSIDE_END,
        ahead: &[CLOSE_PAREN, CLOSE_BRACKET, CLOSE_BRACE],
        right: &[],
    },
];

// plain = a token but brackets and ";"
pub const PLAIN_LINES: &[Production<'static>] = &[
    Production {
        name: PLAIN_NAME,
        ahead: &[NAME],
        right: &[Terminal(NAME, UNMARKED)],
    },
    Production {
        name: PLAIN_END,
        ahead: &[END_WORD],
        right: &[Terminal(END_WORD, UNMARKED)],
    },
    Production {
        name: PLAIN_COLONS,
        ahead: &[COLONS],
        right: &[Terminal(COLONS, UNMARKED)],
    },
    Production {
        name: PLAIN_DOT,
        ahead: &[DOT],
        right: &[Terminal(DOT, UNMARKED)],
    },
    Production {
        name: PLAIN_QUIET,
        ahead: QUIET_AHEAD,
        right: &[Nonterminal(QUIET)],
    },
];

// quiet = a token that neither begins nor goes on with the end of a foreign declaration, and no bracket
pub const QUIET_LINES: &[Production<'static>] = &[
    Production {
        name: QUIET_PACKAGE_WORD,
        ahead: &[PACKAGE_WORD],
        right: &[Terminal(PACKAGE_WORD, UNMARKED)],
    },
    Production {
        name: QUIET_PUBLIC_WORD,
        ahead: &[PUBLIC_WORD],
        right: &[Terminal(PUBLIC_WORD, UNMARKED)],
    },
    Production {
        name: QUIET_WITH_WORD,
        ahead: &[WITH_WORD],
        right: &[Terminal(WITH_WORD, UNMARKED)],
    },
    Production {
        name: QUIET_SYSTEM_WORD,
        ahead: &[SYSTEM_WORD],
        right: &[Terminal(SYSTEM_WORD, UNMARKED)],
    },
    Production {
        name: QUIET_PROCESS_WORD,
        ahead: &[PROCESS_WORD],
        right: &[Terminal(PROCESS_WORD, UNMARKED)],
    },
    Production {
        name: QUIET_THREAD_WORD,
        ahead: &[THREAD_WORD],
        right: &[Terminal(THREAD_WORD, UNMARKED)],
    },
    Production {
        name: QUIET_DEVICE_WORD,
        ahead: &[DEVICE_WORD],
        right: &[Terminal(DEVICE_WORD, UNMARKED)],
    },
    Production {
        name: QUIET_ABSTRACT_WORD,
        ahead: &[ABSTRACT_WORD],
        right: &[Terminal(ABSTRACT_WORD, UNMARKED)],
    },
    Production {
        name: QUIET_DATA_WORD,
        ahead: &[DATA_WORD],
        right: &[Terminal(DATA_WORD, UNMARKED)],
    },
    Production {
        name: QUIET_SUBPROGRAM_WORD,
        ahead: &[SUBPROGRAM_WORD],
        right: &[Terminal(SUBPROGRAM_WORD, UNMARKED)],
    },
    Production {
        name: QUIET_PROCESSOR_WORD,
        ahead: &[PROCESSOR_WORD],
        right: &[Terminal(PROCESSOR_WORD, UNMARKED)],
    },
    Production {
        name: QUIET_MEMORY_WORD,
        ahead: &[MEMORY_WORD],
        right: &[Terminal(MEMORY_WORD, UNMARKED)],
    },
    Production {
        name: QUIET_BUS_WORD,
        ahead: &[BUS_WORD],
        right: &[Terminal(BUS_WORD, UNMARKED)],
    },
    Production {
        name: QUIET_IMPLEMENTATION_WORD,
        ahead: &[IMPLEMENTATION_WORD],
        right: &[Terminal(IMPLEMENTATION_WORD, UNMARKED)],
    },
    Production {
        name: QUIET_FEATURES_WORD,
        ahead: &[FEATURES_WORD],
        right: &[Terminal(FEATURES_WORD, UNMARKED)],
    },
    Production {
        name: QUIET_FLOWS_WORD,
        ahead: &[FLOWS_WORD],
        right: &[Terminal(FLOWS_WORD, UNMARKED)],
    },
    Production {
        name: QUIET_PROPERTIES_WORD,
        ahead: &[PROPERTIES_WORD],
        right: &[Terminal(PROPERTIES_WORD, UNMARKED)],
    },
    Production {
        name: QUIET_SUBCOMPONENTS_WORD,
        ahead: &[SUBCOMPONENTS_WORD],
        right: &[Terminal(SUBCOMPONENTS_WORD, UNMARKED)],
    },
    Production {
        name: QUIET_CONNECTIONS_WORD,
        ahead: &[CONNECTIONS_WORD],
        right: &[Terminal(CONNECTIONS_WORD, UNMARKED)],
    },
    Production {
        name: QUIET_ANNEX_WORD,
        ahead: &[ANNEX_WORD],
        right: &[Terminal(ANNEX_WORD, UNMARKED)],
    },
    Production {
        name: QUIET_IN_WORD,
        ahead: &[IN_WORD],
        right: &[Terminal(IN_WORD, UNMARKED)],
    },
    Production {
        name: QUIET_OUT_WORD,
        ahead: &[OUT_WORD],
        right: &[Terminal(OUT_WORD, UNMARKED)],
    },
    Production {
        name: QUIET_EVENT_WORD,
        ahead: &[EVENT_WORD],
        right: &[Terminal(EVENT_WORD, UNMARKED)],
    },
    Production {
        name: QUIET_PORT_WORD,
        ahead: &[PORT_WORD],
        right: &[Terminal(PORT_WORD, UNMARKED)],
    },
    Production {
        name: QUIET_REQUIRES_WORD,
        ahead: &[REQUIRES_WORD],
        right: &[Terminal(REQUIRES_WORD, UNMARKED)],
    },
    Production {
        name: QUIET_PROVIDES_WORD,
        ahead: &[PROVIDES_WORD],
        right: &[Terminal(PROVIDES_WORD, UNMARKED)],
    },
    Production {
        name: QUIET_PARAMETER_WORD,
        ahead: &[PARAMETER_WORD],
        right: &[Terminal(PARAMETER_WORD, UNMARKED)],
    },
    Production {
        name: QUIET_NONE_WORD,
        ahead: &[NONE_WORD],
        right: &[Terminal(NONE_WORD, UNMARKED)],
    },
    Production {
        name: QUIET_OTHER_WORD,
        ahead: &[OTHER_WORD],
        right: &[Terminal(OTHER_WORD, UNMARKED)],
    },
    Production {
        name: QUIET_COMMA,
        ahead: &[COMMA],
        right: &[Terminal(COMMA, UNMARKED)],
    },
    Production {
        name: QUIET_COLON,
        ahead: &[COLON],
        right: &[Terminal(COLON, UNMARKED)],
    },
    Production {
        name: QUIET_ARROW,
        ahead: &[ARROW],
        right: &[Terminal(ARROW, UNMARKED)],
    },
    Production {
        name: QUIET_GIVES,
        ahead: &[GIVES],
        right: &[Terminal(GIVES, UNMARKED)],
    },
    Production {
        name: QUIET_ANNEX_TEXT,
        ahead: &[ANNEX_TEXT],
        right: &[Terminal(ANNEX_TEXT, UNMARKED)],
    },
    Production {
        name: QUIET_OTHER_TOKEN,
        ahead: &[OTHER_TOKEN],
        right: &[Terminal(OTHER_TOKEN, UNMARKED)],
    },
];
