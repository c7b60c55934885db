//! The commands of a session.

/// A command, which the store answers.
#[derive(Clone, Copy)]
pub enum Command {
    /// The package becomes the next revision.
    Publish,
    /// Each key of the last revision is decided.
    Settle,
    /// Each key is told with its verdict or none.
    Report,
    /// What is undecided is decided, and the store is closed.
    Close,
}

/// A check: its files' revision is published, settled, reported and closed.
pub const CHECK: [Command; 4] = [
    Command::Publish,
    Command::Settle,
    Command::Report,
    Command::Close,
];
