//! Lines of the grammar: packages and their declarations.

use crate::marks::ANNEX_NAME_MARK;
use crate::marks::ANNEX_TEXT_MARK;
use crate::marks::CLOSE_MARK;
use crate::marks::DECLARED_MARK;
use crate::marks::END_MARK;
use crate::marks::END_NAME_MARK;
use crate::marks::END_OWNER_MARK;
use crate::marks::IMPORT_MARK;
use crate::marks::ITEM_MARK;
use crate::marks::JOIN_MARK;
use crate::marks::OWNER_MARK;
use crate::marks::PACKAGE_MARK;
use crate::marks::PART_MARK;
use crate::marks::UNMARKED;
use crate::nonterminals::ANNEX;
use crate::nonterminals::BODY_SECTIONS;
use crate::nonterminals::CATEGORY;
use crate::nonterminals::COMPONENT;
use crate::nonterminals::CONNECTIONS;
use crate::nonterminals::DECLARATIONS;
use crate::nonterminals::FEATURES;
use crate::nonterminals::FLOWS;
use crate::nonterminals::FOREIGN;
use crate::nonterminals::FRAME_OR_BODY;
use crate::nonterminals::FRAME_SECTIONS;
use crate::nonterminals::MORE_IMPORTS;
use crate::nonterminals::MORE_NAMES;
use crate::nonterminals::OTHER;
use crate::nonterminals::PACKAGE_PROPERTIES;
use crate::nonterminals::PACKAGE_UNIT;
use crate::nonterminals::PACKAGES;
use crate::nonterminals::PNAME;
use crate::nonterminals::PROPERTIES;
use crate::nonterminals::SUBCOMPONENTS;
use crate::nonterminals::WITHS;
use crate::productions::A_ABSTRACT;
use crate::productions::A_DEVICE;
use crate::productions::A_PROCESS;
use crate::productions::A_SYSTEM;
use crate::productions::A_THREAD;
use crate::productions::BODY;
use crate::productions::BODY_ANNEX;
use crate::productions::BODY_CONNECTIONS;
use crate::productions::BODY_END;
use crate::productions::BODY_FLOWS;
use crate::productions::BODY_PROPERTIES;
use crate::productions::BODY_SUBCOMPONENTS;
use crate::productions::COMPONENT_WHOLE;
use crate::productions::FRAME;
use crate::productions::FRAME_ANNEX;
use crate::productions::FRAME_END;
use crate::productions::FRAME_FEATURES;
use crate::productions::FRAME_FLOWS;
use crate::productions::FRAME_PROPERTIES;
use crate::productions::NO_DECLARATION;
use crate::productions::NO_IMPORT;
use crate::productions::NO_MORE_NAME;
use crate::productions::NO_PACKAGE;
use crate::productions::NO_PROPERTIES;
use crate::productions::NO_WITH;
use crate::productions::ONE_ANNEX;
use crate::productions::ONE_COMPONENT;
use crate::productions::ONE_FOREIGN;
use crate::productions::ONE_IMPORT;
use crate::productions::ONE_MORE_NAME;
use crate::productions::ONE_PACKAGE;
use crate::productions::ONE_WITH;
use crate::productions::PACKAGE_WHOLE;
use crate::productions::PNAME_WHOLE;
use crate::productions::SOME_PROPERTIES;
use crate::terminals::ABSTRACT_WORD;
use crate::terminals::ANNEX_TEXT;
use crate::terminals::ANNEX_WORD;
use crate::terminals::BUS_WORD;
use crate::terminals::COLONS;
use crate::terminals::COMMA;
use crate::terminals::CONNECTIONS_WORD;
use crate::terminals::DATA_WORD;
use crate::terminals::DEVICE_WORD;
use crate::terminals::DOT;
use crate::terminals::END_WORD;
use crate::terminals::FEATURES_WORD;
use crate::terminals::FLOWS_WORD;
use crate::terminals::IMPLEMENTATION_WORD;
use crate::terminals::MEMORY_WORD;
use crate::terminals::NAME;
use crate::terminals::OPEN_BRACE;
use crate::terminals::PACKAGE_WORD;
use crate::terminals::PROCESS_WORD;
use crate::terminals::PROCESSOR_WORD;
use crate::terminals::PROPERTIES_WORD;
use crate::terminals::PUBLIC_WORD;
use crate::terminals::SEMICOLON;
use crate::terminals::SUBCOMPONENTS_WORD;
use crate::terminals::SUBPROGRAM_WORD;
use crate::terminals::SYSTEM_WORD;
use crate::terminals::THREAD_WORD;
use crate::terminals::WITH_WORD;
use ag_grammar::END;
use ag_grammar::Production;
use ag_grammar::Symbol::Nonterminal;
use ag_grammar::Symbol::Terminal;

// packages = { package_unit }
pub const PACKAGES_LINES: &[Production<'static>] = &[
    Production {
        name: ONE_PACKAGE,
        ahead: &[PACKAGE_WORD],
        right: &[Nonterminal(PACKAGE_UNIT), Nonterminal(PACKAGES)],
    },
    Production {
        name: NO_PACKAGE,
        ahead: &[END],
        right: &[],
    },
];

// package_unit = "package" pname "public" withs declarations [ properties ] "end" pname ";"
pub const PACKAGE_UNIT_LINES: &[Production<'static>] = &[Production {
    name: PACKAGE_WHOLE,
    ahead: &[PACKAGE_WORD],
    right: &[
        Terminal(PACKAGE_WORD, PACKAGE_MARK),
        Nonterminal(PNAME),
        Terminal(PUBLIC_WORD, UNMARKED),
        Nonterminal(WITHS),
        Nonterminal(DECLARATIONS),
        Nonterminal(PACKAGE_PROPERTIES),
        Terminal(END_WORD, END_MARK),
        Nonterminal(PNAME),
        Terminal(SEMICOLON, CLOSE_MARK),
    ],
}];

// pname = name { "::" name }
pub const PNAME_LINES: &[Production<'static>] = &[Production {
    name: PNAME_WHOLE,
    ahead: &[NAME],
    right: &[Terminal(NAME, PART_MARK), Nonterminal(MORE_NAMES)],
}];

// more_names = { "::" name }
pub const MORE_NAMES_LINES: &[Production<'static>] = &[
    Production {
        name: ONE_MORE_NAME,
        ahead: &[COLONS],
        right: &[
            Terminal(COLONS, JOIN_MARK),
            Terminal(NAME, PART_MARK),
            Nonterminal(MORE_NAMES),
        ],
    },
    Production {
        name: NO_MORE_NAME,
        ahead: &[PUBLIC_WORD, COMMA, SEMICOLON, DOT, OPEN_BRACE],
        right: &[],
    },
];

// withs = { "with" pname { "," pname } ";" }
pub const WITHS_LINES: &[Production<'static>] = &[
    Production {
        name: ONE_WITH,
        ahead: &[WITH_WORD],
        right: &[
            Terminal(WITH_WORD, IMPORT_MARK),
            Nonterminal(PNAME),
            Nonterminal(MORE_IMPORTS),
            Terminal(SEMICOLON, UNMARKED),
            Nonterminal(WITHS),
        ],
    },
    Production {
        name: NO_WITH,
        ahead: &[
            END_WORD,
            SYSTEM_WORD,
            PROCESS_WORD,
            THREAD_WORD,
            DEVICE_WORD,
            ABSTRACT_WORD,
            DATA_WORD,
            SUBPROGRAM_WORD,
            PROCESSOR_WORD,
            MEMORY_WORD,
            BUS_WORD,
            PROPERTIES_WORD,
            ANNEX_WORD,
        ],
        right: &[],
    },
];

// more_imports = { "," pname }
pub const MORE_IMPORTS_LINES: &[Production<'static>] = &[
    Production {
        name: ONE_IMPORT,
        ahead: &[COMMA],
        right: &[
            Terminal(COMMA, IMPORT_MARK),
            Nonterminal(PNAME),
            Nonterminal(MORE_IMPORTS),
        ],
    },
    Production {
        name: NO_IMPORT,
        ahead: &[SEMICOLON],
        right: &[],
    },
];

// declarations = { component | other foreign | "annex" name Annex ";" }
pub const DECLARATIONS_LINES: &[Production<'static>] = &[
    Production {
        name: ONE_COMPONENT,
        ahead: &[
            SYSTEM_WORD,
            PROCESS_WORD,
            THREAD_WORD,
            DEVICE_WORD,
            ABSTRACT_WORD,
        ],
        right: &[Nonterminal(COMPONENT), Nonterminal(DECLARATIONS)],
    },
    Production {
        name: ONE_FOREIGN,
        ahead: &[
            DATA_WORD,
            SUBPROGRAM_WORD,
            PROCESSOR_WORD,
            MEMORY_WORD,
            BUS_WORD,
        ],
        right: &[
            Nonterminal(OTHER),
            Nonterminal(FOREIGN),
            Nonterminal(DECLARATIONS),
        ],
    },
    Production {
        name: ONE_ANNEX,
        ahead: &[ANNEX_WORD],
        right: &[
            Terminal(ANNEX_WORD, ITEM_MARK),
            Terminal(NAME, ANNEX_NAME_MARK),
            Terminal(ANNEX_TEXT, ANNEX_TEXT_MARK),
            Terminal(SEMICOLON, UNMARKED),
            Nonterminal(DECLARATIONS),
        ],
    },
    Production {
        name: NO_DECLARATION,
        ahead: &[END_WORD, PROPERTIES_WORD],
        right: &[],
    },
];

// package_properties = [ properties ]
pub const PACKAGE_PROPERTIES_LINES: &[Production<'static>] = &[
    Production {
        name: SOME_PROPERTIES,
        ahead: &[PROPERTIES_WORD],
        right: &[Nonterminal(PROPERTIES)],
    },
    Production {
        name: NO_PROPERTIES,
        ahead: &[END_WORD],
        right: &[],
    },
];

// category = "system" | "process" | "thread" | "device" | "abstract"
pub const CATEGORY_LINES: &[Production<'static>] = &[
    Production {
        name: A_SYSTEM,
        ahead: &[SYSTEM_WORD],
        right: &[Terminal(SYSTEM_WORD, ITEM_MARK)],
    },
    Production {
        name: A_PROCESS,
        ahead: &[PROCESS_WORD],
        right: &[Terminal(PROCESS_WORD, ITEM_MARK)],
    },
    Production {
        name: A_THREAD,
        ahead: &[THREAD_WORD],
        right: &[Terminal(THREAD_WORD, ITEM_MARK)],
    },
    Production {
        name: A_DEVICE,
        ahead: &[DEVICE_WORD],
        right: &[Terminal(DEVICE_WORD, ITEM_MARK)],
    },
    Production {
        name: A_ABSTRACT,
        ahead: &[ABSTRACT_WORD],
        right: &[Terminal(ABSTRACT_WORD, ITEM_MARK)],
    },
];

// component = category ( frame | body )
pub const COMPONENT_LINES: &[Production<'static>] = &[Production {
    name: COMPONENT_WHOLE,
    ahead: &[
        SYSTEM_WORD,
        PROCESS_WORD,
        THREAD_WORD,
        DEVICE_WORD,
        ABSTRACT_WORD,
    ],
    right: &[Nonterminal(CATEGORY), Nonterminal(FRAME_OR_BODY)],
}];

// frame_or_body = name frame_sections "end" name ";" | "implementation" name "." name body_sections "end" name "." name ";"
pub const FRAME_OR_BODY_LINES: &[Production<'static>] = &[
    Production {
        name: FRAME,
        ahead: &[NAME],
        right: &[
            Terminal(NAME, DECLARED_MARK),
            Nonterminal(FRAME_SECTIONS),
            Terminal(END_WORD, UNMARKED),
            Terminal(NAME, END_NAME_MARK),
            Terminal(SEMICOLON, UNMARKED),
        ],
    },
    Production {
        name: BODY,
        ahead: &[IMPLEMENTATION_WORD],
        right: &[
            Terminal(IMPLEMENTATION_WORD, UNMARKED),
            Terminal(NAME, OWNER_MARK),
            Terminal(DOT, UNMARKED),
            Terminal(NAME, DECLARED_MARK),
            Nonterminal(BODY_SECTIONS),
            Terminal(END_WORD, UNMARKED),
            Terminal(NAME, END_OWNER_MARK),
            Terminal(DOT, UNMARKED),
            Terminal(NAME, END_NAME_MARK),
            Terminal(SEMICOLON, UNMARKED),
        ],
    },
];

// frame_sections = { features | flows | properties | annex }
pub const FRAME_SECTIONS_LINES: &[Production<'static>] = &[
    Production {
        name: FRAME_FEATURES,
        ahead: &[FEATURES_WORD],
        right: &[Nonterminal(FEATURES), Nonterminal(FRAME_SECTIONS)],
    },
    Production {
        name: FRAME_FLOWS,
        ahead: &[FLOWS_WORD],
        right: &[Nonterminal(FLOWS), Nonterminal(FRAME_SECTIONS)],
    },
    Production {
        name: FRAME_PROPERTIES,
        ahead: &[PROPERTIES_WORD],
        right: &[Nonterminal(PROPERTIES), Nonterminal(FRAME_SECTIONS)],
    },
    Production {
        name: FRAME_ANNEX,
        ahead: &[ANNEX_WORD],
        right: &[Nonterminal(ANNEX), Nonterminal(FRAME_SECTIONS)],
    },
    Production {
        name: FRAME_END,
        ahead: &[END_WORD],
        right: &[],
    },
];

// body_sections = { subcomponents | connections | flows | properties | annex }
pub const BODY_SECTIONS_LINES: &[Production<'static>] = &[
    Production {
        name: BODY_SUBCOMPONENTS,
        ahead: &[SUBCOMPONENTS_WORD],
        right: &[Nonterminal(SUBCOMPONENTS), Nonterminal(BODY_SECTIONS)],
    },
    Production {
        name: BODY_CONNECTIONS,
        ahead: &[CONNECTIONS_WORD],
        right: &[Nonterminal(CONNECTIONS), Nonterminal(BODY_SECTIONS)],
    },
    Production {
        name: BODY_FLOWS,
        ahead: &[FLOWS_WORD],
        right: &[Nonterminal(FLOWS), Nonterminal(BODY_SECTIONS)],
    },
    Production {
        name: BODY_PROPERTIES,
        ahead: &[PROPERTIES_WORD],
        right: &[Nonterminal(PROPERTIES), Nonterminal(BODY_SECTIONS)],
    },
    Production {
        name: BODY_ANNEX,
        ahead: &[ANNEX_WORD],
        right: &[Nonterminal(ANNEX), Nonterminal(BODY_SECTIONS)],
    },
    Production {
        name: BODY_END,
        ahead: &[END_WORD],
        right: &[],
    },
];
