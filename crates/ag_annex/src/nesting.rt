//! What is open behind a token of an expression.

/// What a token of an expression opened, and what is to come ends.
#[derive(Clone, Copy)]
pub enum Open {
    /// The `(` of a group, of `pre`, of `prev` or of a call, up to its `)`.
    Bracket,
    /// An `if`, up to its `then`.
    Test,
    /// A `then`, up to its `else`.
    Yes,
    /// An `else`, up to the end of the operand behind it.
    No,
    /// An operator before its operand, up to that operand's end.
    Prefix,
    /// Operators of one rank between the operands of a chain, up to the chain's end. There are up to 200.
    Chain { rank: u8, count: u32 },
}
