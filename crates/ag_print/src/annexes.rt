//! The annexes of packages, their tokens, and the clauses that they state.
ghost use Rattle.std.specs.Prelude.{◌≡◌, ◌<◌, ◌^◌, ◌++◌, map, length, Err, IfOk, OnOk};
ghost use Rattle.std.specs.List.{All, AllZip};
ghost use Rattle.std.specs.Str.{IsUtf8};
ghost use Rattle.ag_base.specs.declared.place.Refusal.{Refusal};
ghost use Rattle.ag_base.specs.declared.place.Refused.TheVariants.{Model};
ghost use Rattle.ag_print.specs.Annexes.{annexes_of_item, annexes_of_package, annexes_of_packages, IsTokenRefused, IsClauseRefused, IsAnnexRefused};
ghost use Rattle.ag_print.specs.Shares.{IsOneOf, placed, IsRead, StatesThese};

use ag_aadl::packages::{Item, Package};
use ag_annex::{Clause, Site, read_clauses};
use ag_base::{List, OutOfMemory, Refused};
use ag_lex::{Token, annex_tokens};
use std::alloc::Global;

/// An annex, where it stands, and its tokens.
#[derive(Drop)]
struct Annex {
    text: Token,
    site: Site,
    tokens: List<Token>,
}

/// The clauses that the annexes of packages state, a list for each in the order of the text.
pub fn read_annexes(
    alloc: Global,
    bytes: &[u8],
    packages: &[Package],
) -> Result<List<List<Clause>>, Refused>
    requires short { length bytes.now < 2 ^ 31 }
    requires text { IsUtf8 bytes.now }
    requires among { All (IsOneOf bytes.now) (annexes_of_packages packages.now) }
    ensures ok { IfOk result (λ clauses. AllZip (StatesThese bytes.now) (annexes_of_packages packages.now) clauses) }
    // The refusal is the first broken rule: first of the tokens of all, then of their grammar.
    ensures refused { (r : Refusal) → result ≡ Err (Model r) → IsAnnexRefused bytes.now packages.now r }
{
    let Ok(places) = annexes_in(alloc, packages) else {
        return Err(Refused::OutOfMemory);
    };
    match with_tokens(alloc, bytes, places.as_slice()) {
        Ok(annexes) => clauses_of(alloc, bytes, annexes.as_slice()),
        Err(refused) => Err(refused),
    }
}

fn annexes_in(alloc: Global, packages: &[Package]) -> Result<List<(Token, Site)>, OutOfMemory>
    ensures { IfOk result (λ annexes. annexes ≡ annexes_of_packages packages.now) }
{
    let mut annexes = List::new(alloc);
    for package in packages {
        add_package(&mut annexes, package)?;
    }
    Ok(annexes)
}

fn add_package(annexes: &mut List<(Token, Site)>, package: &Package) -> Result<(), OutOfMemory>
    ensures { OnOk result (annexes.new ≡ annexes.old ++ annexes_of_package «package».now) }
{
    for item in package.items.as_slice() {
        add_item(annexes, item)?;
    }
    Ok(())
}

fn add_item(annexes: &mut List<(Token, Site)>, item: &Item) -> Result<(), OutOfMemory>
    ensures { OnOk result (annexes.new ≡ annexes.old ++ annexes_of_item item.now) }
{
    match item {
        Item::Frame(frame) => add_all(annexes, frame.annexes.as_slice(), Site::Frame),
        Item::Body(body) => add_all(annexes, body.annexes.as_slice(), Site::Body),
        Item::Library(text) => annexes.push((*text, Site::Library)),
    }
}

fn add_all(
    annexes: &mut List<(Token, Site)>,
    texts: &[Token],
    site: Site,
) -> Result<(), OutOfMemory>
    ensures { OnOk result (annexes.new ≡ annexes.old ++ map (λ t. (t, site)) texts.now) }
{
    for text in texts {
        annexes.push((*text, site))?;
    }
    Ok(())
}

fn with_tokens(
    alloc: Global,
    bytes: &[u8],
    places: &[(Token, Site)],
) -> Result<List<Annex>, Refused>
    requires short { length bytes.now < 2 ^ 31 }
    requires among { All (IsOneOf bytes.now) places.now }
    ensures same { IfOk result (λ annexes. map placed annexes ≡ places.now) }
    ensures read { IfOk result (λ annexes. All (IsRead bytes.now) annexes) }
    ensures refused { (r : Refusal) → result ≡ Err (Model r) → IsTokenRefused bytes.now places.now r }
{
    let mut annexes = List::new(alloc);
    for (text, site) in places {
        let tokens = match annex_tokens(alloc, bytes, text) {
            Ok(tokens) => tokens,
            Err(refused) => return Err(refused),
        };
        let annex = Annex {
            text: *text,
            site: *site,
            tokens,
        };
        let Ok(()) = annexes.push(annex) else {
            return Err(Refused::OutOfMemory);
        };
    }
    Ok(annexes)
}

fn clauses_of(alloc: Global, bytes: &[u8], annexes: &[Annex]) -> Result<List<List<Clause>>, Refused>
    requires short { length bytes.now < 2 ^ 31 }
    requires text { IsUtf8 bytes.now }
    requires read { All (IsRead bytes.now) annexes.now }
    ensures ok { IfOk result (λ clauses. AllZip (StatesThese bytes.now) (map placed annexes.now) clauses) }
    ensures refused { (r : Refusal) → result ≡ Err (Model r) → IsClauseRefused bytes.now (map placed annexes.now) r }
{
    let mut clauses = List::new(alloc);
    for annex in annexes {
        let own = match read_clauses(alloc, bytes, annex.tokens.as_slice(), annex.site) {
            Ok(own) => own,
            Err(refused) => return Err(refused),
        };
        let Ok(()) = clauses.push(own) else {
            return Err(Refused::OutOfMemory);
        };
    }
    Ok(clauses)
}
