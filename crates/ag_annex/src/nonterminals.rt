//! The nonterminals of the grammar by name.

pub const CLAUSES: u8 = 0;

pub const CLAUSE: u8 = 1;

pub const CLAIM: u8 = 2;

pub const SOME_NAME: u8 = 3;

pub const SOME_VALUE: u8 = 4;

pub const EQUATION: u8 = 5;

pub const VARIABLES: u8 = 6;

pub const MORE_VARIABLES: u8 = 7;

pub const SOME_VARIABLES: u8 = 8;

pub const VARIABLE: u8 = 9;

pub const TYPE_NAME: u8 = 10;

pub const NODE: u8 = 11;

pub const SOME_LOCALS: u8 = 12;

pub const LOCALS: u8 = 13;

pub const EQUATIONS: u8 = 14;

pub const EXPRESSION: u8 = 15;

pub const OPERAND: u8 = 16;

pub const REST: u8 = 17;

pub const CHOICE: u8 = 18;

pub const PREFIX: u8 = 19;

pub const ARITHMETIC: u8 = 20;

pub const COMPARISON: u8 = 21;

pub const LOGICAL: u8 = 22;

pub const PRIMARY: u8 = 23;

pub const PATH: u8 = 24;

pub const MORE_PARTS: u8 = 25;

pub const SOME_BODY: u8 = 26;

pub const SOME_ARGUMENTS: u8 = 27;

pub const ARGUMENTS: u8 = 28;

pub const MORE_ARGUMENTS: u8 = 29;
