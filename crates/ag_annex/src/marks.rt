//! The marks that the grammar gives its terminals: they say what a token is where it stands.
//! What no clause speaks of has the mark 0, `UNMARKED` of `ag_aadl`.

/// The word `assume`.
pub const ASSUME_MARK: u8 = 1;

/// The word `guarantee`.
pub const GUARANTEE_MARK: u8 = 2;

/// The word `lemma`.
pub const LEMMA_MARK: u8 = 3;

/// The word `eq`.
pub const EQ_MARK: u8 = 4;

/// The word `assign`.
pub const ASSIGN_MARK: u8 = 5;

/// The word `const`.
pub const CONST_MARK: u8 = 6;

/// The word `node`.
pub const NODE_MARK: u8 = 7;

/// The text of an assumption, a guarantee or a lemma.
pub const LABEL_MARK: u8 = 8;

/// The name that an `eq`, a `const`, or a node's inputs, outputs or locals declare.
pub const VARIABLE_MARK: u8 = 9;

/// The type `int`.
pub const INT_MARK: u8 = 10;

/// The type `bool`.
pub const BOOL_MARK: u8 = 11;

/// The name on the left side of an `assign`, or of an equation of a node.
pub const TARGET_MARK: u8 = 12;

/// The name that a node is declared by.
pub const NODE_NAME_MARK: u8 = 13;

/// The word `returns`, behind which a node's outputs stand.
pub const RETURNS_MARK: u8 = 14;

/// The word `var`, behind which a node's locals stand.
pub const LOCALS_MARK: u8 = 15;

/// The word `let`, behind which a node's equations stand.
pub const LET_MARK: u8 = 16;

/// The word `tel`.
pub const TEL_MARK: u8 = 17;

/// The `:` or `=` behind which a clause's or an equation's expression stands.
pub const VALUE_MARK: u8 = 18;

/// The `;` at the end of such an expression.
pub const END_MARK: u8 = 19;

/// The operator `->`.
pub const ARROW_MARK: u8 = 20;

/// The operator `=>`.
pub const IMPLIES_MARK: u8 = 21;

/// The operator `<=>`.
pub const IFF_MARK: u8 = 22;

/// The operator `or`.
pub const OR_MARK: u8 = 23;

/// The operator `and`.
pub const AND_MARK: u8 = 24;

/// The operator `<`.
pub const LESS_MARK: u8 = 25;

/// The operator `<=`.
pub const AT_MOST_MARK: u8 = 26;

/// The operator `>`.
pub const MORE_MARK: u8 = 27;

/// The operator `>=`.
pub const AT_LEAST_MARK: u8 = 28;

/// The operator `=`.
pub const SAME_MARK: u8 = 29;

/// The operator `<>`, which may be written `!=`.
pub const DIFFERS_MARK: u8 = 30;

/// The operator `+`.
pub const PLUS_MARK: u8 = 31;

/// The operator `-` between two operands.
pub const MINUS_MARK: u8 = 32;

/// The operator `*`.
pub const TIMES_MARK: u8 = 33;

/// The operator `div`.
pub const DIV_MARK: u8 = 34;

/// The operator `mod`.
pub const MOD_MARK: u8 = 35;

/// The operator `-` before its one operand.
pub const NEGATIVE_MARK: u8 = 36;

/// The operator `not`.
pub const NOT_MARK: u8 = 37;

/// The word `pre`.
pub const PRE_MARK: u8 = 38;

/// The word `prev`.
pub const PREV_MARK: u8 = 39;

/// The word `if`.
pub const IF_MARK: u8 = 40;

/// The word `then`.
pub const THEN_MARK: u8 = 41;

/// The word `else`.
pub const ELSE_MARK: u8 = 42;

/// A number.
pub const NUMBER_MARK: u8 = 43;

/// The word `true`.
pub const TRUE_MARK: u8 = 44;

/// The word `false`.
pub const FALSE_MARK: u8 = 45;

/// The `(` of an expression between parentheses by itself.
pub const GROUP_MARK: u8 = 46;

/// The `(` behind `pre` or `prev`.
pub const OPERAND_MARK: u8 = 47;

/// The `(` before the arguments of a call.
pub const CALL_MARK: u8 = 48;

/// The `,` between the arguments of a call, or between the operands of `prev`.
pub const ARGUMENT_MARK: u8 = 49;

/// The `)` that belongs to one of these.
pub const CLOSE_MARK: u8 = 50;

/// The first name of a path.
pub const PATH_MARK: u8 = 51;

/// A name behind `::` in a path.
pub const PART_MARK: u8 = 52;

/// The name behind the dot of a path.
pub const PATH_BODY_MARK: u8 = 53;
