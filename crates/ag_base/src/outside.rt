//! The outside: what is read, what is written, and a folder of files.
//!
//! A contract can't say what a file or a terminal gives. So each trait says of an implementor
//! what it tells of its content, or that it tells nothing, and how often it has failed.
ghost use Rattle.std.specs.Prelude.{◌≡◌, ◌<◌, ◌≤◌, ◌++◌, [], ℕ, List, Option, Some, length, take, IfSome, IfOk, OnOk, OnErr, IsErrOf, ◌⊎◌};
ghost use Rattle.ag_base.specs.Outside.{Rose, Takes, AnswersFile};
ghost use Rattle.ag_base.specs.declared.outside.FolderFault.TheVariants.{Failed as FailedFolder};

use crate::list::Bytes;
use crate::text::Text;
use thiserror::Error;

/// The most bytes of one file.
pub const MOST_FILE_BYTES: usize = 4_194_304;

/// Reading or writing failed.
#[derive(Clone, Copy, Debug, PartialEq, Eq)]
pub struct Failed;

/// Where bytes come from, one after another.
pub trait Source {
    /// The bytes not yet read, where it tells them.
    ghost left: { Self → Option (List ℕ) };

    /// How often it has failed. The count never falls, and stands still at its last value.
    ghost faults: { Self → ℕ };

    /// Reads bytes into the front of the buffer, and answers how many. 0 into a buffer that isn't
    /// empty is the end.
    fn read(&mut self, into: &mut [u8]) -> Result<usize, Failed>
        ensures count { IfOk result (λ n. n ≤ length into.new) }
        ensures bytes { IfSome (left self.old) (λ bytes. IfOk result (λ n. Takes bytes (take n into.new) (left self.new))) }
        ensures end { IfSome (left self.old) (λ bytes. IfOk result (λ n. 0 < length into.new → n ≡ 0 → bytes ≡ [])) }
        ensures never_falls { faults self.old ≤ faults self.new }
        ensures failed { OnErr result (Rose (faults self.old) (faults self.new) × (left self.new ≡ left self.old)) }
        ensures unfaulted { OnOk result (faults self.new ≡ faults self.old) };
}

/// Where bytes go, one after another.
pub trait Sink {
    /// The bytes taken so far, where it tells them.
    ghost written: { Self → Option (List ℕ) };

    /// How often it has failed. The count never falls, and stands still at its last value.
    ghost faults: { Self → ℕ };

    /// Takes bytes from the front of the piece, and answers how many. Of a piece that isn't empty
    /// it takes one or more, or fails.
    fn write(&mut self, from: &[u8]) -> Result<usize, Failed>
        ensures count { IfOk result (λ n. n ≤ length from.now) }
        ensures some { IfOk result (λ n. 0 < length from.now → 0 < n) }
        ensures bytes { IfSome (written self.old) (λ bytes. IfOk result (λ n. written self.new ≡ Some (bytes ++ take n from.now))) }
        ensures never_falls { faults self.old ≤ faults self.new }
        ensures failed { OnErr result (Rose (faults self.old) (faults self.new) × (written self.new ≡ written self.old)) }
        ensures unfaulted { OnOk result (faults self.new ≡ faults self.old) };
}

/// A file by its name.
#[derive(Drop)]
pub struct File {
    pub name: Text,
    pub bytes: Bytes,
}

/// Why a folder gives no file.
#[derive(Clone, Copy, Debug, Drop, PartialEq, Eq, Error)]
pub enum FolderFault {
    #[error("no such file")]
    NotThere,
    /// The file has more than 4,194,304 bytes.
    #[error("the file has more than {MOST_FILE_BYTES} bytes")]
    TooLong,
    #[error("reading failed")]
    Failed,
    #[error("memory was wanting")]
    OutOfMemory,
}

/// Files by their names. Reading changes none of them.
pub trait Folder {
    /// The bytes of the file of a name, or none, where it tells them.
    ghost files: { Self → Option (List ℕ → Option (List ℕ)) };

    /// How often it has failed. The count never falls, and stands still at its last value.
    ghost faults: { Self → ℕ };

    /// The whole file of that name.
    fn read(&mut self, name: &str) -> Result<Bytes, FolderFault>
        ensures same { files self.new ≡ files self.old }
        ensures file { IfSome (files self.old) (λ file. AnswersFile (file name.now) result) }
        ensures short { IfOk result (λ bytes. length bytes ≤ 4194304) }
        ensures never_falls { faults self.old ≤ faults self.new }
        ensures failed { IsErrOf result FailedFolder → Rose (faults self.old) (faults self.new) }
        ensures unfaulted { IsErrOf result FailedFolder ⊎ (faults self.new ≡ faults self.old) };
}
