//! What names stand for across packages, and the rules that they keep.
//!
//! It promises the positions of the type and the implementation of each subcomponent and of the ends of each
//! connection, where no rule on names is broken, and else the first rule that is. Start at `resolve`, and at
//! specs/Broken.antt.
#![tactic(auto)]

mod broken;
mod circles;
mod ends;
mod implementations;
mod index;
mod linking;
pub mod links;
mod name;
mod order;
mod placed;
mod ports;
mod refusals;
mod subs;
mod table;
mod twice;
mod types;
mod wires;

ghost use Rattle.std.specs.Prelude.{◌≡◌, IfOk, IfErr, OnOk, None, Some};
ghost use Rattle.ag_base.specs.declared.place.Refusal.{Refusal};
ghost use Rattle.ag_base.specs.declared.place.Refused.TheVariants.{Model};
ghost use Rattle.ag_names.specs.Broken.{Breaks};
ghost use Rattle.ag_names.specs.Links.{AreLinks};
ghost use Rattle.ag_names.specs.Order.{IsFirst};
ghost use Rattle.ag_base.specs.Rules.{IsFirstOf};

use crate::broken::first_broken;
use crate::index::Index;
use crate::linking::links;
use ag_aadl::packages::Package;
use ag_base::{OutOfMemory, Refusal, Refused};
pub use links::{Links, SubLink, WireLink};
pub use ports::{PortStream, has_stream, stream_of};
use std::alloc::Global;

/// The positions that the names in the packages of all files stand for. The places in a package tell which file it is
/// of: the number of a file is its rank among the names of all files, so that of several broken rules the one in the
/// first file is answered. What a file with the predeclared types declares has no links. `item` is a position among the
/// declarations that are read: component types and implementations, and annexes of the package.
pub fn resolve(alloc: Global, packages: &[Package]) -> Result<Links, Refused>
    ensures links { IfOk result (AreLinks packages.now) }
    ensures sound { OnOk result ((r : Refusal) → Breaks packages.now r → ⊥) }
    ensures refused { (r : Refusal) → result ≡ Err (Model r) → IsFirstOf (Breaks packages.now) r }
{
    match resolved(alloc, packages) {
        Ok(Ok(links)) => Ok(links),
        Ok(Err(refusal)) => Err(Refused::Model(refusal)),
        Err(OutOfMemory) => Err(Refused::OutOfMemory),
    }
}

// The links, or the first rule that is broken.
fn resolved(alloc: Global, packages: &[Package]) -> Result<Result<Links, Refusal>, OutOfMemory>
    ensures links { IfOk result (λ a. IfOk a (λ l. AreLinks packages.now l × IsFirst (Breaks packages.now) None)) }
    ensures refused { IfOk result (λ a. IfErr a (λ r. IsFirst (Breaks packages.now) (Some r))) }
{
    let index = Index::make(alloc, packages)?;
    match first_broken(alloc, &index)? {
        Some(refusal) => Ok(Err(refusal)),
        None => Ok(Ok(links(alloc, &index)?)),
    }
}
