//! The rules on what the tokens of a derivation say.
ghost use Rattle.std.specs.Prelude.{◌≡◌, ◌≤◌, OnOk, IfOk, Ok, Err};
ghost use Rattle.ag_base.specs.declared.place.Refusal.{Refusal};
ghost use Rattle.ag_base.specs.declared.place.Refused.TheVariants.{Model};
ghost use Rattle.ag_aadl.specs.Rules.{refused_at};
ghost use Rattle.ag_annex.specs.Nesting.{levels};
ghost use Rattle.ag_annex.specs.Rules.{is_misplaced, obey, run};

use crate::marks::{ASSIGN_MARK, ASSUME_MARK, EQ_MARK, GUARANTEE_MARK, LEMMA_MARK};
use crate::nest::Nest;
use ag_aadl::marked::Marked;
use ag_base::{Refusal, Refused, Rule};
use ag_terms::Site;
use std::alloc::Global;

// Whether the first word of a clause that has no place in such an annex has the mark.
fn is_misplaced(site: Site, mark: u8) -> bool
    ensures { result ≡ is_misplaced site mark }
{
    match site {
        Site::Library => matches!(
            mark,
            ASSUME_MARK | GUARANTEE_MARK | LEMMA_MARK | EQ_MARK | ASSIGN_MARK
        ),
        Site::Frame => matches!(mark, LEMMA_MARK | ASSIGN_MARK),
        Site::Body => matches!(mark, ASSUME_MARK | GUARANTEE_MARK),
    }
}

fn refused(rule: Rule, marked: Marked) -> Refused
    ensures { result ≡ Model (refused_at rule marked.token) }
{
    Refused::Model(Refusal {
        place: marked.token.place,
        rule,
    })
}

// Takes a token into account.
fn obey(alloc: Global, site: Site, nest: &mut Nest, marked: Marked) -> Result<(), Refused>
    requires { levels nest.old ≤ 200 }
    ensures ok { OnOk result (obey site nest.old marked ≡ Ok nest.new) }
    ensures within { OnOk result (levels nest.new ≤ 200) }
    ensures refused { (r : Refusal) → result ≡ Err (Model r) → obey site nest.old marked ≡ Err r }
{
    if is_misplaced(site, marked.mark) {
        return Err(refused(Rule::Misplaced, marked));
    }
    match nest.behind(alloc, marked.mark) {
        Err(_) => Err(Refused::OutOfMemory),
        Ok(false) => Err(refused(Rule::Expected, marked)),
        Ok(true) => {
            if nest.is_too_deep() {
                return Err(refused(Rule::TooDeep, marked));
            }
            Ok(())
        }
    }
}

/// What is open behind the tokens of an annex at such a site, or the first broken rule.
pub fn run(alloc: Global, site: Site, marked: &[Marked]) -> Result<Nest, Refused>
    ensures ok { IfOk result (λ opens. run site marked.now ≡ Ok opens) }
    ensures refused { (r : Refusal) → result ≡ Err (Model r) → run site marked.now ≡ Err r }
{
    let mut nest = Nest::new(alloc);
    for token in marked {
        obey(alloc, site, &mut nest, *token)?;
    }
    Ok(nest)
}
