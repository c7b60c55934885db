//! The productions of the grammar by name, as the steps of a derivation call them.

pub const ONE_CLAUSE: u16 = 0;

pub const NO_CLAUSE: u16 = 1;

pub const AN_ASSUME: u16 = 2;

pub const A_GUARANTEE: u16 = 3;

pub const A_LEMMA: u16 = 4;

pub const AN_EQ: u16 = 5;

pub const AN_ASSIGN: u16 = 6;

pub const A_CONST: u16 = 7;

pub const A_NODE: u16 = 8;

pub const CLAIM_WHOLE: u16 = 9;

pub const A_NAME: u16 = 10;

pub const NO_NAME: u16 = 11;

pub const A_VALUE: u16 = 12;

pub const NO_VALUE: u16 = 13;

pub const EQUATION_WHOLE: u16 = 14;

pub const VARIABLES_WHOLE: u16 = 15;

pub const ONE_MORE_VARIABLE: u16 = 16;

pub const NO_MORE_VARIABLE: u16 = 17;

pub const A_VARIABLE_LIST: u16 = 18;

pub const NO_VARIABLE_LIST: u16 = 19;

pub const VARIABLE_WHOLE: u16 = 20;

pub const AN_INT: u16 = 21;

pub const A_BOOL: u16 = 22;

pub const NODE_WHOLE: u16 = 23;

pub const A_LOCAL_LIST: u16 = 24;

pub const NO_LOCAL_LIST: u16 = 25;

pub const ONE_LOCAL: u16 = 26;

pub const NO_LOCAL: u16 = 27;

pub const ONE_EQUATION: u16 = 28;

pub const NO_EQUATION: u16 = 29;

pub const EXPRESSION_WHOLE: u16 = 30;

pub const CHOICE_OPERAND: u16 = 31;

pub const PREFIX_OPERAND: u16 = 32;

pub const PRIMARY_OPERAND: u16 = 33;

pub const ARITHMETIC_REST: u16 = 34;

pub const COMPARISON_REST: u16 = 35;

pub const LOGICAL_REST: u16 = 36;

pub const NO_REST: u16 = 37;

pub const CHOICE_WHOLE: u16 = 38;

pub const A_NEGATIVE: u16 = 39;

pub const A_NOT: u16 = 40;

pub const A_PLUS: u16 = 41;

pub const A_MINUS: u16 = 42;

pub const A_TIMES: u16 = 43;

pub const A_DIV: u16 = 44;

pub const A_MOD: u16 = 45;

pub const A_LESS: u16 = 46;

pub const AN_AT_MOST: u16 = 47;

pub const A_MORE: u16 = 48;

pub const AN_AT_LEAST: u16 = 49;

pub const A_SAME: u16 = 50;

pub const A_DIFFERS: u16 = 51;

pub const AN_AND: u16 = 52;

pub const AN_OR: u16 = 53;

pub const AN_IFF: u16 = 54;

pub const AN_IMPLIES: u16 = 55;

pub const AN_ARROW: u16 = 56;

pub const A_NUMBER: u16 = 57;

pub const A_TRUE: u16 = 58;

pub const A_FALSE: u16 = 59;

pub const A_GROUP: u16 = 60;

pub const A_PRE: u16 = 61;

pub const A_PREV: u16 = 62;

pub const A_PATH: u16 = 63;

pub const PATH_WHOLE: u16 = 64;

pub const ONE_MORE_PART: u16 = 65;

pub const NO_MORE_PART: u16 = 66;

pub const A_BODY: u16 = 67;

pub const NO_BODY: u16 = 68;

pub const A_CALL: u16 = 69;

pub const NO_CALL: u16 = 70;

pub const SOME_ARGUMENT_LIST: u16 = 71;

pub const NO_ARGUMENT_LIST: u16 = 72;

pub const ONE_MORE_ARGUMENT: u16 = 73;

pub const NO_MORE_ARGUMENT: u16 = 74;
