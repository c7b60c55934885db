//! The rules on what the tokens of a derivation say.
ghost use Rattle.std.specs.Prelude.{◌≡◌, ◌==◌, OnOk, Err, Ok, IfOk};
ghost use Rattle.ag_base.specs.declared.place.Refusal.{Refusal};
ghost use Rattle.ag_base.specs.declared.place.Refused.TheVariants.{Model};
ghost use Rattle.ag_aadl.specs.Rules.{is_section, obey_sections, obey, run, start};

use crate::marked::Marked;
use crate::marks::{
    CONNECTIONS_MARK, END_NAME_MARK, FEATURES_MARK, FLOWS_MARK, ITEM_MARK, PACKAGE_MARK,
    PROPERTIES_MARK, SUBCOMPONENTS_MARK,
};
use crate::names::{Names, Naming};
use crate::timing::{Region, Timing, Watched};
use ag_base::{List, Refusal, Refused, Rule};
use std::alloc::Global;

/// What the rules have to know of the tokens so far.
#[derive(Drop)]
pub struct Context {
    pub names: Names,
    /// The marks of the open declaration's sections.
    pub sections: List<u8>,
    pub timing: Timing,
}

fn is_section(mark: u8) -> bool
    ensures { result ≡ is_section mark }
{
    match mark {
        FEATURES_MARK | FLOWS_MARK | PROPERTIES_MARK | SUBCOMPONENTS_MARK | CONNECTIONS_MARK =>
            true,
        _ => false,
    }
}

fn obey_sections(alloc: Global, sections: &mut List<u8>, marked: Marked) -> Result<(), Refused>
    ensures ok { OnOk result (obey_sections sections.old marked ≡ Ok sections.new) }
    ensures refused { (r : Refusal) → result ≡ Err (Model r) → obey_sections sections.old marked ≡ Err r }
{
    if is_section(marked.mark) {
        if sections.as_slice().contains(&marked.mark) {
            return Err(Refused::Model(Refusal {
                place: marked.token.place,
                rule: Rule::Twice,
            }));
        }
        if sections.push(marked.mark).is_err() {
            return Err(Refused::OutOfMemory);
        }
        return Ok(());
    }
    match marked.mark {
        PACKAGE_MARK | ITEM_MARK | END_NAME_MARK => *sections = List::new(alloc),
        _ => {}
    }
    Ok(())
}

impl Context {
    fn start(alloc: Global) -> Context
        ensures { result ≡ start }
    {
        Context {
            names: Names {
                naming: Naming::Nothing,
                package_name: List::new(alloc),
                declaration: List::new(alloc),
                end: List::new(alloc),
            },
            sections: List::new(alloc),
            timing: Timing {
                region: Region::Nothing,
                watched: Watched::Nothing,
                value: false,
            },
        }
    }

    fn obey(&mut self, alloc: Global, bytes: &[u8], marked: Marked) -> Result<(), Refused>
        ensures ok { OnOk result (obey bytes.now self.old marked ≡ Ok self.new) }
        ensures refused { (r : Refusal) → result ≡ Err (Model r) → obey bytes.now self.old marked ≡ Err r }
    {
        self.names.obey(alloc, bytes, marked)?;
        obey_sections(alloc, &mut self.sections, marked)?;
        match self.timing.obey(bytes, marked) {
            Ok(timing) => self.timing = timing,
            Err(refusal) => return Err(Refused::Model(refusal)),
        }
        Ok(())
    }
}

/// What the rules know behind the tokens, or the first broken one.
pub fn run(alloc: Global, bytes: &[u8], marked: &[Marked]) -> Result<Context, Refused>
    ensures ok { IfOk result (λ c. run bytes.now start marked.now ≡ Ok c) }
    ensures refused { (r : Refusal) → result ≡ Err (Model r) → run bytes.now start marked.now ≡ Err r }
{
    let mut context = Context::start(alloc);
    for token in marked {
        context.obey(alloc, bytes, *token)?;
    }
    Ok(context)
}
