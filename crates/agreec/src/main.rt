//! The program: the command line over standard input and output.
//!
//! What is checked, and what is written, is `agree`'s to say. Here are only the real source, sink and
//! folder, and the status with which the process ends.
#![tactic(auto)]

ghost use Rattle.std.specs.Prelude.{◌≡◌};
ghost use Rattle.std.specs.Process.{exit_status};
ghost use Rattle.ag_base.specs.Status.{code_of};

use ag_base::{OutOfMemory, Status, Text};
use ag_io::{FileFolder, StdSink, StdSource};
use ag_top::agree;
use std::alloc::Global;
use std::env::{self, Env};
use std::io::ErrorKind;
use std::process::ExitCode;

/// The words after the program's name. Where one of them isn't UTF-8 there are none, which is no
/// command.
fn words<R: Env + Alloc<A = Global>>(rt: &R, alloc: Global) -> Result<Vec<Text>, OutOfMemory> {
    let mut words = Vec::new(alloc);
    match env::args(rt) {
        Ok(all) => {
            for word in all.skip(1) {
                words.push(Text::make(alloc, word.as_str())?)?;
            }
            Ok(words)
        }
        Err(error) if error.kind() == ErrorKind::OutOfMemory => Err(OutOfMemory),
        Err(_) => Ok(words),
    }
}

/// The status with which the process ends: the number of the run's.
fn exit_code(status: Status) -> ExitCode
    ensures { exit_status result ≡ code_of status }
{
    ExitCode::from(status.code())
}

fn main(rt: HostRuntime) -> ExitCode {
    let alloc = rt.alloc();
    let Ok(words) = words(&rt, alloc) else {
        return exit_code(Status::OutOfMemory);
    };
    let mut source = StdSource::new(rt.stdin());
    let mut sink = StdSink::new(rt.stdout());
    let mut folder = FileFolder::new(&rt, alloc);
    let done = agree(&rt, alloc, &words, &mut source, &mut sink, &mut folder);
    exit_code(done.status)
}
