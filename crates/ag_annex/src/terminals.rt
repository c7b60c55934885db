//! The terminals of an `agree` annex by name.

pub const NAME: u8 = 0;

pub const NUMBER: u8 = 1;

pub const TEXT: u8 = 2;

pub const ASSUME_WORD: u8 = 3;

pub const GUARANTEE_WORD: u8 = 4;

pub const LEMMA_WORD: u8 = 5;

pub const EQ_WORD: u8 = 6;

pub const ASSIGN_WORD: u8 = 7;

pub const CONST_WORD: u8 = 8;

pub const NODE_WORD: u8 = 9;

pub const RETURNS_WORD: u8 = 10;

pub const VAR_WORD: u8 = 11;

pub const LET_WORD: u8 = 12;

pub const TEL_WORD: u8 = 13;

pub const INT_WORD: u8 = 14;

pub const BOOL_WORD: u8 = 15;

pub const TRUE_WORD: u8 = 16;

pub const FALSE_WORD: u8 = 17;

pub const PRE_WORD: u8 = 18;

pub const PREV_WORD: u8 = 19;

pub const IF_WORD: u8 = 20;

pub const THEN_WORD: u8 = 21;

pub const ELSE_WORD: u8 = 22;

pub const AND_WORD: u8 = 23;

pub const OR_WORD: u8 = 24;

pub const NOT_WORD: u8 = 25;

pub const DIV_WORD: u8 = 26;

pub const MOD_WORD: u8 = 27;

pub const OTHER_WORD: u8 = 28;

pub const COLONS: u8 = 29;

pub const COMMA: u8 = 30;

pub const SEMICOLON: u8 = 31;

pub const COLON: u8 = 32;

pub const DOT: u8 = 33;

pub const OPEN_PAREN: u8 = 34;

pub const CLOSE_PAREN: u8 = 35;

pub const ARROW: u8 = 36;

pub const IMPLIES: u8 = 37;

pub const IFF: u8 = 38;

pub const LESS: u8 = 39;

pub const AT_MOST: u8 = 40;

pub const MORE: u8 = 41;

pub const AT_LEAST: u8 = 42;

pub const EQUALS: u8 = 43;

pub const DIFFERS: u8 = 44;

pub const PLUS: u8 = 45;

pub const MINUS: u8 = 46;

pub const TIMES: u8 = 47;

pub const OTHER_TOKEN: u8 = 48;
