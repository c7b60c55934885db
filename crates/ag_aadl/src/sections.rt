//! Lines of the grammar: the sections of a declaration.

use crate::marks::ANNEX_NAME_MARK;
use crate::marks::ANNEX_TEXT_MARK;
use crate::marks::CLASS_BODY_MARK;
use crate::marks::CONNECTION_MARK;
use crate::marks::CONNECTIONS_MARK;
use crate::marks::DATA_MARK;
use crate::marks::DIRECTION_MARK;
use crate::marks::EVENT_MARK;
use crate::marks::FEATURE_MARK;
use crate::marks::FEATURES_MARK;
use crate::marks::FLOWS_MARK;
use crate::marks::KIND_MARK;
use crate::marks::PROPERTIES_MARK;
use crate::marks::SPOT_MARK;
use crate::marks::SPOT_PORT_MARK;
use crate::marks::SUB_MARK;
use crate::marks::SUBCOMPONENTS_MARK;
use crate::marks::UNMARKED;
use crate::nonterminals::BRACES;
use crate::nonterminals::DATA_PORT;
use crate::nonterminals::DIRECTION;
use crate::nonterminals::EVENT_PORT;
use crate::nonterminals::FEATURE;
use crate::nonterminals::FEATURE_ITEMS;
use crate::nonterminals::FEATURE_LIST;
use crate::nonterminals::OTHER;
use crate::nonterminals::PLACE;
use crate::nonterminals::PNAME;
use crate::nonterminals::PORT;
use crate::nonterminals::SKIP;
use crate::nonterminals::SKIPPED_ITEMS;
use crate::nonterminals::SKIPPED_LIST;
use crate::nonterminals::SOME_BODY;
use crate::nonterminals::SOME_BRACES;
use crate::nonterminals::SOME_CLASS;
use crate::nonterminals::SOME_PORT;
use crate::nonterminals::SUB;
use crate::nonterminals::SUB_CATEGORY;
use crate::nonterminals::SUB_ITEMS;
use crate::nonterminals::SUB_LIST;
use crate::nonterminals::WIRE;
use crate::nonterminals::WIRE_ITEMS;
use crate::nonterminals::WIRE_LIST;
use crate::productions::A_BODY;
use crate::productions::A_BRACES;
use crate::productions::A_BUS_WIRE;
use crate::productions::A_CLASS;
use crate::productions::A_DATA_WIRE;
use crate::productions::A_PARAMETER_WIRE;
use crate::productions::A_PORT;
use crate::productions::A_SPOT_PORT;
use crate::productions::A_SUB;
use crate::productions::A_SUBPROGRAM_WIRE;
use crate::productions::A_WIRE;
use crate::productions::ANNEX_WHOLE;
use crate::productions::ANOTHER_SUB;
use crate::productions::CONNECTIONS_WHOLE;
use crate::productions::DATA_PORT_WHOLE;
use crate::productions::EVENT_ALONE;
use crate::productions::EVENT_DATA;
use crate::productions::FEATURES_NONE;
use crate::productions::FEATURES_SOME;
use crate::productions::FEATURES_WHOLE;
use crate::productions::FLOWS_WHOLE;
use crate::productions::INWARD;
use crate::productions::NO_BODY;
use crate::productions::NO_BRACES;
use crate::productions::NO_CLASS;
use crate::productions::NO_FEATURE;
use crate::productions::NO_SKIPPED;
use crate::productions::NO_SPOT_PORT;
use crate::productions::NO_SUB;
use crate::productions::NO_WIRE;
use crate::productions::ONE_FEATURE;
use crate::productions::ONE_SKIPPED;
use crate::productions::ONE_SUB;
use crate::productions::ONE_WIRE;
use crate::productions::OUTWARD;
use crate::productions::PLACE_WHOLE;
use crate::productions::PROPERTIES_WHOLE;
use crate::productions::PROVIDED;
use crate::productions::REQUIRED;
use crate::productions::SKIPPED_NONE;
use crate::productions::SKIPPED_SOME;
use crate::productions::SUB_ABSTRACT;
use crate::productions::SUB_DEVICE;
use crate::productions::SUB_PROCESS;
use crate::productions::SUB_SYSTEM;
use crate::productions::SUB_THREAD;
use crate::productions::SUBCOMPONENTS_WHOLE;
use crate::productions::SUBS_NONE;
use crate::productions::SUBS_SOME;
use crate::productions::WIRES_NONE;
use crate::productions::WIRES_SOME;
use crate::productions::WITH_EVENT;
use crate::productions::WITHOUT_EVENT;
use crate::terminals::ABSTRACT_WORD;
use crate::terminals::ANNEX_TEXT;
use crate::terminals::ANNEX_WORD;
use crate::terminals::ARROW;
use crate::terminals::BUS_WORD;
use crate::terminals::COLON;
use crate::terminals::CONNECTIONS_WORD;
use crate::terminals::DATA_WORD;
use crate::terminals::DEVICE_WORD;
use crate::terminals::DOT;
use crate::terminals::END_WORD;
use crate::terminals::EVENT_WORD;
use crate::terminals::FEATURES_WORD;
use crate::terminals::FLOWS_WORD;
use crate::terminals::IN_WORD;
use crate::terminals::MEMORY_WORD;
use crate::terminals::NAME;
use crate::terminals::NONE_WORD;
use crate::terminals::OPEN_BRACE;
use crate::terminals::OUT_WORD;
use crate::terminals::PARAMETER_WORD;
use crate::terminals::PORT_WORD;
use crate::terminals::PROCESS_WORD;
use crate::terminals::PROCESSOR_WORD;
use crate::terminals::PROPERTIES_WORD;
use crate::terminals::PROVIDES_WORD;
use crate::terminals::REQUIRES_WORD;
use crate::terminals::SEMICOLON;
use crate::terminals::SUBCOMPONENTS_WORD;
use crate::terminals::SUBPROGRAM_WORD;
use crate::terminals::SYSTEM_WORD;
use crate::terminals::THREAD_WORD;
use ag_grammar::Production;
use ag_grammar::Symbol::Nonterminal;
use ag_grammar::Symbol::Terminal;

// features = "features" ( "none" ";" | { name ":" feature } )
pub const FEATURES_LINES: &[Production<'static>] = &[Production {
    name: FEATURES_WHOLE,
    ahead: &[FEATURES_WORD],
    right: &[
        Terminal(FEATURES_WORD, FEATURES_MARK),
        Nonterminal(FEATURE_LIST),
    ],
}];

// feature_list = "none" ";" | { name ":" feature }
pub const FEATURE_LIST_LINES: &[Production<'static>] = &[
    Production {
        name: FEATURES_NONE,
        ahead: &[NONE_WORD],
        right: &[Terminal(NONE_WORD, UNMARKED), Terminal(SEMICOLON, UNMARKED)],
    },
    Production {
        name: FEATURES_SOME,
        ahead: &[
            NAME,
            END_WORD,
            FEATURES_WORD,
            FLOWS_WORD,
            PROPERTIES_WORD,
            ANNEX_WORD,
        ],
        right: &[Nonterminal(FEATURE_ITEMS)],
    },
];

// feature_items = { name ":" feature }
pub const FEATURE_ITEMS_LINES: &[Production<'static>] = &[
    Production {
        name: ONE_FEATURE,
        ahead: &[NAME],
        right: &[
            Terminal(NAME, FEATURE_MARK),
            Terminal(COLON, UNMARKED),
            Nonterminal(FEATURE),
            Nonterminal(FEATURE_ITEMS),
        ],
    },
    Production {
        name: NO_FEATURE,
        ahead: &[
            END_WORD,
            FEATURES_WORD,
            FLOWS_WORD,
            PROPERTIES_WORD,
            ANNEX_WORD,
        ],
        right: &[],
    },
];

// feature = direction port | ( "requires" | "provides" ) skip
pub const FEATURE_LINES: &[Production<'static>] = &[
    Production {
        name: A_PORT,
        ahead: &[IN_WORD, OUT_WORD],
        right: &[Nonterminal(DIRECTION), Nonterminal(PORT)],
    },
    Production {
        name: REQUIRED,
        ahead: &[REQUIRES_WORD],
        right: &[Terminal(REQUIRES_WORD, UNMARKED), Nonterminal(SKIP)],
    },
    Production {
        name: PROVIDED,
        ahead: &[PROVIDES_WORD],
        right: &[Terminal(PROVIDES_WORD, UNMARKED), Nonterminal(SKIP)],
    },
];

// direction = "in" | "out"
pub const DIRECTION_LINES: &[Production<'static>] = &[
    Production {
        name: INWARD,
        ahead: &[IN_WORD],
        right: &[Terminal(IN_WORD, DIRECTION_MARK)],
    },
    Production {
        name: OUTWARD,
        ahead: &[OUT_WORD],
        right: &[Terminal(OUT_WORD, DIRECTION_MARK)],
    },
];

// port = "event" event_port | data_port
pub const PORT_LINES: &[Production<'static>] = &[
    Production {
        name: WITH_EVENT,
        ahead: &[EVENT_WORD],
        right: &[Terminal(EVENT_WORD, EVENT_MARK), Nonterminal(EVENT_PORT)],
    },
    Production {
        name: WITHOUT_EVENT,
        ahead: &[DATA_WORD],
        right: &[Nonterminal(DATA_PORT)],
    },
];

// event_port = data_port | "port" [ braces ] ";"
pub const EVENT_PORT_LINES: &[Production<'static>] = &[
    Production {
        name: EVENT_DATA,
        ahead: &[DATA_WORD],
        right: &[Nonterminal(DATA_PORT)],
    },
    Production {
        name: EVENT_ALONE,
        ahead: &[PORT_WORD],
        right: &[
            Terminal(PORT_WORD, UNMARKED),
            Nonterminal(SOME_BRACES),
            Terminal(SEMICOLON, UNMARKED),
        ],
    },
];

// data_port = "data" "port" [ class ] [ braces ] ";"
pub const DATA_PORT_LINES: &[Production<'static>] = &[Production {
    name: DATA_PORT_WHOLE,
    ahead: &[DATA_WORD],
    right: &[
        Terminal(DATA_WORD, DATA_MARK),
        Terminal(PORT_WORD, UNMARKED),
        Nonterminal(SOME_CLASS),
        Nonterminal(SOME_BRACES),
        Terminal(SEMICOLON, UNMARKED),
    ],
}];

// some_class = [ class ], where class = pname [ "." name ]
pub const SOME_CLASS_LINES: &[Production<'static>] = &[
    Production {
        name: A_CLASS,
        ahead: &[NAME],
        right: &[Nonterminal(PNAME), Nonterminal(SOME_BODY)],
    },
    Production {
        name: NO_CLASS,
        ahead: &[SEMICOLON, OPEN_BRACE],
        right: &[],
    },
];

// some_body = [ "." name ]
pub const SOME_BODY_LINES: &[Production<'static>] = &[
    Production {
        name: A_BODY,
        ahead: &[DOT],
        right: &[Terminal(DOT, UNMARKED), Terminal(NAME, CLASS_BODY_MARK)],
    },
    Production {
        name: NO_BODY,
        ahead: &[SEMICOLON, OPEN_BRACE],
        right: &[],
    },
];

// some_braces = [ braces ]
pub const SOME_BRACES_LINES: &[Production<'static>] = &[
    Production {
        name: A_BRACES,
        ahead: &[OPEN_BRACE],
        right: &[Nonterminal(BRACES)],
    },
    Production {
        name: NO_BRACES,
        ahead: &[SEMICOLON],
        right: &[],
    },
];

// subcomponents = "subcomponents" ( "none" ";" | { name ":" sub } )
pub const SUBCOMPONENTS_LINES: &[Production<'static>] = &[Production {
    name: SUBCOMPONENTS_WHOLE,
    ahead: &[SUBCOMPONENTS_WORD],
    right: &[
        Terminal(SUBCOMPONENTS_WORD, SUBCOMPONENTS_MARK),
        Nonterminal(SUB_LIST),
    ],
}];

// sub_list = "none" ";" | { name ":" sub }
pub const SUB_LIST_LINES: &[Production<'static>] = &[
    Production {
        name: SUBS_NONE,
        ahead: &[NONE_WORD],
        right: &[Terminal(NONE_WORD, UNMARKED), Terminal(SEMICOLON, UNMARKED)],
    },
    Production {
        name: SUBS_SOME,
        ahead: &[
            NAME,
            END_WORD,
            FLOWS_WORD,
            PROPERTIES_WORD,
            SUBCOMPONENTS_WORD,
            CONNECTIONS_WORD,
            ANNEX_WORD,
        ],
        right: &[Nonterminal(SUB_ITEMS)],
    },
];

// sub_items = { name ":" sub }
pub const SUB_ITEMS_LINES: &[Production<'static>] = &[
    Production {
        name: ONE_SUB,
        ahead: &[NAME],
        right: &[
            Terminal(NAME, SUB_MARK),
            Terminal(COLON, UNMARKED),
            Nonterminal(SUB),
            Nonterminal(SUB_ITEMS),
        ],
    },
    Production {
        name: NO_SUB,
        ahead: &[
            END_WORD,
            FLOWS_WORD,
            PROPERTIES_WORD,
            SUBCOMPONENTS_WORD,
            CONNECTIONS_WORD,
            ANNEX_WORD,
        ],
        right: &[],
    },
];

// sub = sub_category [ class ] [ braces ] ";" | other skip
pub const SUB_LINES: &[Production<'static>] = &[
    Production {
        name: A_SUB,
        ahead: &[
            SYSTEM_WORD,
            PROCESS_WORD,
            THREAD_WORD,
            DEVICE_WORD,
            ABSTRACT_WORD,
        ],
        right: &[
            Nonterminal(SUB_CATEGORY),
            Nonterminal(SOME_CLASS),
            Nonterminal(SOME_BRACES),
            Terminal(SEMICOLON, UNMARKED),
        ],
    },
    Production {
        name: ANOTHER_SUB,
        ahead: &[
            DATA_WORD,
            SUBPROGRAM_WORD,
            PROCESSOR_WORD,
            MEMORY_WORD,
            BUS_WORD,
        ],
        right: &[Nonterminal(OTHER), Nonterminal(SKIP)],
    },
];

// sub_category = "system" | "process" | "thread" | "device" | "abstract"
pub const SUB_CATEGORY_LINES: &[Production<'static>] = &[
    Production {
        name: SUB_SYSTEM,
        ahead: &[SYSTEM_WORD],
        right: &[Terminal(SYSTEM_WORD, KIND_MARK)],
    },
    Production {
        name: SUB_PROCESS,
        ahead: &[PROCESS_WORD],
        right: &[Terminal(PROCESS_WORD, KIND_MARK)],
    },
    Production {
        name: SUB_THREAD,
        ahead: &[THREAD_WORD],
        right: &[Terminal(THREAD_WORD, KIND_MARK)],
    },
    Production {
        name: SUB_DEVICE,
        ahead: &[DEVICE_WORD],
        right: &[Terminal(DEVICE_WORD, KIND_MARK)],
    },
    Production {
        name: SUB_ABSTRACT,
        ahead: &[ABSTRACT_WORD],
        right: &[Terminal(ABSTRACT_WORD, KIND_MARK)],
    },
];

// connections = "connections" ( "none" ";" | { name ":" wire } )
pub const CONNECTIONS_LINES: &[Production<'static>] = &[Production {
    name: CONNECTIONS_WHOLE,
    ahead: &[CONNECTIONS_WORD],
    right: &[
        Terminal(CONNECTIONS_WORD, CONNECTIONS_MARK),
        Nonterminal(WIRE_LIST),
    ],
}];

// wire_list = "none" ";" | { name ":" wire }
pub const WIRE_LIST_LINES: &[Production<'static>] = &[
    Production {
        name: WIRES_NONE,
        ahead: &[NONE_WORD],
        right: &[Terminal(NONE_WORD, UNMARKED), Terminal(SEMICOLON, UNMARKED)],
    },
    Production {
        name: WIRES_SOME,
        ahead: &[
            NAME,
            END_WORD,
            FLOWS_WORD,
            PROPERTIES_WORD,
            SUBCOMPONENTS_WORD,
            CONNECTIONS_WORD,
            ANNEX_WORD,
        ],
        right: &[Nonterminal(WIRE_ITEMS)],
    },
];

// wire_items = { name ":" wire }
pub const WIRE_ITEMS_LINES: &[Production<'static>] = &[
    Production {
        name: ONE_WIRE,
        ahead: &[NAME],
        right: &[
            Terminal(NAME, CONNECTION_MARK),
            Terminal(COLON, UNMARKED),
            Nonterminal(WIRE),
            Nonterminal(WIRE_ITEMS),
        ],
    },
    Production {
        name: NO_WIRE,
        ahead: &[
            END_WORD,
            FLOWS_WORD,
            PROPERTIES_WORD,
            SUBCOMPONENTS_WORD,
            CONNECTIONS_WORD,
            ANNEX_WORD,
        ],
        right: &[],
    },
];

// wire = "port" place "->" place [ braces ] ";" | ( "bus" | "data" | "subprogram" | "parameter" ) skip
pub const WIRE_LINES: &[Production<'static>] = &[
    Production {
        name: A_WIRE,
        ahead: &[PORT_WORD],
        right: &[
            Terminal(PORT_WORD, UNMARKED),
            Nonterminal(PLACE),
            Terminal(ARROW, UNMARKED),
            Nonterminal(PLACE),
            Nonterminal(SOME_BRACES),
            Terminal(SEMICOLON, UNMARKED),
        ],
    },
    Production {
        name: A_BUS_WIRE,
        ahead: &[BUS_WORD],
        right: &[Terminal(BUS_WORD, UNMARKED), Nonterminal(SKIP)],
    },
    Production {
        name: A_DATA_WIRE,
        ahead: &[DATA_WORD],
        right: &[Terminal(DATA_WORD, UNMARKED), Nonterminal(SKIP)],
    },
    Production {
        name: A_SUBPROGRAM_WIRE,
        ahead: &[SUBPROGRAM_WORD],
        right: &[Terminal(SUBPROGRAM_WORD, UNMARKED), Nonterminal(SKIP)],
    },
    Production {
        name: A_PARAMETER_WIRE,
        ahead: &[PARAMETER_WORD],
        right: &[Terminal(PARAMETER_WORD, UNMARKED), Nonterminal(SKIP)],
    },
];

// place = name [ "." name ]
pub const PLACE_LINES: &[Production<'static>] = &[Production {
    name: PLACE_WHOLE,
    ahead: &[NAME],
    right: &[Terminal(NAME, SPOT_MARK), Nonterminal(SOME_PORT)],
}];

// some_port = [ "." name ]
pub const SOME_PORT_LINES: &[Production<'static>] = &[
    Production {
        name: A_SPOT_PORT,
        ahead: &[DOT],
        right: &[Terminal(DOT, UNMARKED), Terminal(NAME, SPOT_PORT_MARK)],
    },
    Production {
        name: NO_SPOT_PORT,
        ahead: &[SEMICOLON, ARROW, OPEN_BRACE],
        right: &[],
    },
];

// annex = "annex" name Annex ";"
pub const ANNEX_LINES: &[Production<'static>] = &[Production {
    name: ANNEX_WHOLE,
    ahead: &[ANNEX_WORD],
    right: &[
        Terminal(ANNEX_WORD, UNMARKED),
        Terminal(NAME, ANNEX_NAME_MARK),
        Terminal(ANNEX_TEXT, ANNEX_TEXT_MARK),
        Terminal(SEMICOLON, UNMARKED),
    ],
}];

// flows = "flows" ( "none" ";" | { name skip } )
pub const FLOWS_LINES: &[Production<'static>] = &[Production {
    name: FLOWS_WHOLE,
    ahead: &[FLOWS_WORD],
    right: &[Terminal(FLOWS_WORD, FLOWS_MARK), Nonterminal(SKIPPED_LIST)],
}];

// properties = "properties" ( "none" ";" | { name skip } )
pub const PROPERTIES_LINES: &[Production<'static>] = &[Production {
    name: PROPERTIES_WHOLE,
    ahead: &[PROPERTIES_WORD],
    right: &[
        Terminal(PROPERTIES_WORD, PROPERTIES_MARK),
        Nonterminal(SKIPPED_LIST),
    ],
}];

// skipped_list = "none" ";" | { name skip }
pub const SKIPPED_LIST_LINES: &[Production<'static>] = &[
    Production {
        name: SKIPPED_NONE,
        ahead: &[NONE_WORD],
        right: &[Terminal(NONE_WORD, UNMARKED), Terminal(SEMICOLON, UNMARKED)],
    },
    Production {
        name: SKIPPED_SOME,
        ahead: &[
            NAME,
            END_WORD,
            FEATURES_WORD,
            FLOWS_WORD,
            PROPERTIES_WORD,
            SUBCOMPONENTS_WORD,
            CONNECTIONS_WORD,
            ANNEX_WORD,
        ],
        right: &[Nonterminal(SKIPPED_ITEMS)],
    },
];

// skipped_items = { name skip }
pub const SKIPPED_ITEMS_LINES: &[Production<'static>] = &[
    Production {
        name: ONE_SKIPPED,
        ahead: &[NAME],
        right: &[
            Terminal(NAME, UNMARKED),
            Nonterminal(SKIP),
            Nonterminal(SKIPPED_ITEMS),
        ],
    },
    Production {
        name: NO_SKIPPED,
        ahead: &[
            END_WORD,
            FEATURES_WORD,
            FLOWS_WORD,
            PROPERTIES_WORD,
            SUBCOMPONENTS_WORD,
            CONNECTIONS_WORD,
            ANNEX_WORD,
        ],
        right: &[],
    },
];
