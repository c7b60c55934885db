//! The terminals of AADL by name.

pub const NAME: u8 = 0;

pub const PACKAGE_WORD: u8 = 1;

pub const PUBLIC_WORD: u8 = 2;

pub const WITH_WORD: u8 = 3;

pub const END_WORD: u8 = 4;

pub const SYSTEM_WORD: u8 = 5;

pub const PROCESS_WORD: u8 = 6;

pub const THREAD_WORD: u8 = 7;

pub const DEVICE_WORD: u8 = 8;

pub const ABSTRACT_WORD: u8 = 9;

pub const DATA_WORD: u8 = 10;

pub const SUBPROGRAM_WORD: u8 = 11;

pub const PROCESSOR_WORD: u8 = 12;

pub const MEMORY_WORD: u8 = 13;

pub const BUS_WORD: u8 = 14;

pub const IMPLEMENTATION_WORD: u8 = 15;

pub const FEATURES_WORD: u8 = 16;

pub const FLOWS_WORD: u8 = 17;

pub const PROPERTIES_WORD: u8 = 18;

pub const SUBCOMPONENTS_WORD: u8 = 19;

pub const CONNECTIONS_WORD: u8 = 20;

pub const ANNEX_WORD: u8 = 21;

pub const IN_WORD: u8 = 22;

pub const OUT_WORD: u8 = 23;

pub const EVENT_WORD: u8 = 24;

pub const PORT_WORD: u8 = 25;

pub const REQUIRES_WORD: u8 = 26;

pub const PROVIDES_WORD: u8 = 27;

pub const PARAMETER_WORD: u8 = 28;

pub const NONE_WORD: u8 = 29;

pub const OTHER_WORD: u8 = 30;

pub const COLONS: u8 = 31;

pub const COMMA: u8 = 32;

pub const SEMICOLON: u8 = 33;

pub const COLON: u8 = 34;

pub const DOT: u8 = 35;

pub const ARROW: u8 = 36;

pub const GIVES: u8 = 37;

pub const OPEN_PAREN: u8 = 38;

pub const CLOSE_PAREN: u8 = 39;

pub const OPEN_BRACKET: u8 = 40;

pub const CLOSE_BRACKET: u8 = 41;

pub const OPEN_BRACE: u8 = 42;

pub const CLOSE_BRACE: u8 = 43;

pub const ANNEX_TEXT: u8 = 44;

pub const OTHER_TOKEN: u8 = 45;
