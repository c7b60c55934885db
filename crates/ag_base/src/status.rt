//! How a run of the program ends.
ghost use Rattle.std.specs.Prelude.{◌≡◌};
ghost use Rattle.ag_base.specs.Status.{code_of};

/// How a run of the program ends.
#[derive(Clone, Copy, Debug, PartialEq)]
pub enum Status {
    /// Every verdict of the last revision is Proved or Consistent, or a text was printed.
    AllGood,
    /// One of them is Refuted or Inconsistent.
    Refuted,
    /// None of those, and one is Unknown.
    Unknown,
    /// The words of the command line are no command.
    Usage,
    /// The files or the model were refused, or the model lacks the top that was asked for.
    ModelRefused,
    /// Reading failed.
    ReadFault,
    /// Writing failed.
    WriteFault,
    /// Memory was wanting.
    OutOfMemory,
    /// The session was refused, or the history is full.
    SessionRefused,
}

impl Status {
    /// The number with which the process ends.
    pub fn code(self) -> u8
        ensures { result ≡ code_of self }
    {
        self as u8
    }
}
