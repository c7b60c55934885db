//! The print of one text: the canonical text of its packages and of what their annexes state, or the
//! refusal that it gets.
ghost use Rattle.std.specs.Prelude.{◌≡◌, ◌≢◌, ◌≤◌, [], length, IfOk, Err};
ghost use Rattle.ag_base.specs.Outside.{Rose};
ghost use Rattle.ag_base.specs.declared.place.Refusal.{Refusal};
ghost use Rattle.ag_base.specs.declared.place.Refused.TheVariants.{Model};
ghost use Rattle.ag_base.specs.declared.status.Status.TheVariants as statuses;
ghost use Rattle.ag_top.specs.Outcome.{IsNothing};
ghost use Rattle.ag_top.specs.Printing.{IsPrinted, IsPrintRefused, IsTextPrinted, IsTextUnprinted, IsTextPartlyPrinted};
ghost use Rattle.ag_top.specs.Stages.{IsEndOfPrint};

use crate::check::{Done, ended};
use crate::refusal::refusal_line;
use crate::tell::tell;
use ag_aadl::read_file;
use ag_base::{Bytes, Refused, Sink, Status};
use ag_lex::file_tokens;
use ag_print::print_file;
use std::alloc::Global;

/// The canonical text of the packages that a text declares, and of what their annexes state.
fn printed(alloc: Global, text: &[u8]) -> Result<Bytes, Refused>
    requires { length text.now ≤ 4194304 }
    ensures ok { IfOk result (IsPrinted text.now) }
    ensures refused { (r : Refusal) → result ≡ Err (Model r) → IsPrintRefused text.now r }
{
    let tokens = file_tokens(alloc, 0, text)?;
    let packages = read_file(alloc, text, tokens.as_slice())?;
    print_file(alloc, text, packages.as_slice())
}

/// Prints the packages that a text declares and what their annexes state, or tells why there is
/// nothing to print. The name is that of the file.
pub fn print_text<K: Sink>(alloc: Global, name: &str, text: &[u8], sink: &mut K) -> Done
    requires { length text.now ≤ 4194304 }
    ensures printed { result.status ≡ statuses.AllGood
        → IsTextPrinted text.now result.history.entries (K.written sink.old) (K.written sink.new) }
    ensures refused { result.status ≡ statuses.ModelRefused
        → IsTextUnprinted name.now text.now result.history.entries (K.written sink.old) (K.written sink.new) }
    ensures memory { result.status ≡ statuses.OutOfMemory
        → IsNothing result.history.entries (K.written sink.old) (K.written sink.new) }
    ensures broken { result.status ≡ statuses.WriteFault
        → IsTextPartlyPrinted name.now text.now (K.written sink.old) (K.written sink.new) }
    ensures write { result.status ≡ statuses.WriteFault → Rose (K.faults sink.old) (K.faults sink.new) }
    ensures unfaulted { result.status ≢ statuses.WriteFault → K.faults sink.new ≡ K.faults sink.old }
    ensures never_falls { K.faults sink.old ≤ K.faults sink.new }
    ensures history { result.history.entries ≡ [] }
    ensures only { IsEndOfPrint result.status }
{
    match printed(alloc, text) {
        Ok(canonical) => tell(alloc, sink, canonical.as_slice(), Status::AllGood),
        Err(Refused::OutOfMemory) => ended(alloc, Status::OutOfMemory),
        Err(Refused::Model(refusal)) => match refusal_line(alloc, name, refusal) {
            Ok(line) => tell(alloc, sink, line.as_slice(), Status::ModelRefused),
            Err(_) => ended(alloc, Status::OutOfMemory),
        },
    }
}
