//! The nonterminals of the grammar by name.

pub const PACKAGES: u8 = 0;

pub const PACKAGE_UNIT: u8 = 1;

pub const PNAME: u8 = 2;

pub const MORE_NAMES: u8 = 3;

pub const WITHS: u8 = 4;

pub const MORE_IMPORTS: u8 = 5;

pub const DECLARATIONS: u8 = 6;

pub const PACKAGE_PROPERTIES: u8 = 7;

pub const CATEGORY: u8 = 8;

pub const COMPONENT: u8 = 9;

pub const FRAME_OR_BODY: u8 = 10;

pub const FRAME_SECTIONS: u8 = 11;

pub const BODY_SECTIONS: u8 = 12;

pub const FEATURES: u8 = 13;

pub const FEATURE_LIST: u8 = 14;

pub const FEATURE_ITEMS: u8 = 15;

pub const FEATURE: u8 = 16;

pub const DIRECTION: u8 = 17;

pub const PORT: u8 = 18;

pub const EVENT_PORT: u8 = 19;

pub const DATA_PORT: u8 = 20;

pub const SOME_CLASS: u8 = 21;

pub const SOME_BODY: u8 = 22;

pub const SOME_BRACES: u8 = 23;

pub const SUBCOMPONENTS: u8 = 24;

pub const SUB_LIST: u8 = 25;

pub const SUB_ITEMS: u8 = 26;

pub const SUB: u8 = 27;

pub const SUB_CATEGORY: u8 = 28;

pub const CONNECTIONS: u8 = 29;

pub const WIRE_LIST: u8 = 30;

pub const WIRE_ITEMS: u8 = 31;

pub const WIRE: u8 = 32;

pub const PLACE: u8 = 33;

pub const SOME_PORT: u8 = 34;

pub const ANNEX: u8 = 35;

pub const FLOWS: u8 = 36;

pub const PROPERTIES: u8 = 37;

pub const SKIPPED_LIST: u8 = 38;

pub const SKIPPED_ITEMS: u8 = 39;

pub const OTHER: u8 = 40;

pub const SKIP: u8 = 41;

pub const GROUP: u8 = 42;

pub const BRACES: u8 = 43;

pub const INSIDE: u8 = 44;

pub const PLAIN: u8 = 45;

pub const QUIET: u8 = 46;

pub const BRACKET: u8 = 47;

pub const FOREIGN: u8 = 48;

pub const BEHIND_END: u8 = 49;

pub const BEHIND_NAME: u8 = 50;

pub const BEHIND_COLONS: u8 = 51;

pub const BEHIND_DOT: u8 = 52;

pub const BEHIND_BODY: u8 = 53;
