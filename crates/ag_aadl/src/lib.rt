//! Packages, by the grammar of AADL.
//!
//! It promises that a file's tokens are answered by the packages that they declare, or by the first
//! rule that they break. Start at `read_file`, and at specs/Files.antt.
#![tactic(auto)]

ghost use Rattle.std.specs.Prelude.{◌≡◌, ◌<◌, ◌^◌, ℕ, List, length, IfOk, Result, Err};
ghost use Rattle.ag_base.specs.declared.place.Refusal.{Refusal};
ghost use Rattle.ag_base.specs.declared.place.Refused.TheVariants.{Model};
ghost use Rattle.ag_grammar.specs.declared.grammar.Step.{Step};
ghost use Rattle.ag_grammar.specs.Deterministic.{IsLl1};
ghost use Rattle.ag_grammar.specs.Texts.{IsReading, AreForced};
ghost use Rattle.ag_lex.specs.declared.token.Token.{Token};
ghost use Rattle.ag_aadl.specs.declared.packages.Package.{Package};
ghost use Rattle.ag_aadl.specs.Files.{IsFile, IsFirstWrong, IsReadUnlessMemory, IsRefusedUnlessMemory};
ghost use Rattle.ag_aadl.specs.Grammar.{aadl};
ghost use Rattle.ag_aadl.specs.Marked.{marked};
ghost use Rattle.ag_aadl.specs.Words.{terminals_of, AreTokensOf};

mod declarations;
mod files;
pub mod find;
mod foreign;
mod idents;
mod items;
mod laws;
pub mod marked;
pub mod marks;
pub mod names;
mod nonterminals;
pub mod packages;
pub mod page;
mod parts;
pub mod productions;
pub mod rules;
mod sections;
mod terminals;
pub mod timing;
mod tokens;
mod unsupported;
mod words;

use ag_base::{List, OutOfMemory, Refused};
use ag_grammar::{one_derivation, one_place, read};
use ag_lex::Token;
use files::first_wrong;
pub use idents::{ident_under, path_of, text_of};
pub use items::begins_with;
use items::packages_of;
pub use laws::{aadl_is_founded, ends_named, never_delayed, one_of_the_two, sections_once};
use marked::{Marked, marked_tokens};
pub use packages::{
    Body, Category, End, Frame, Ident, Item, Package, Path, Port, PortKind, Sub, Wire,
};
pub use page::Packages;
use rules::run;
use std::alloc::Global;
pub use unsupported::{first_bad_rule, text_at, word_text};
use words::terminals;
pub use words::{listed, own_bytes};

// The tokens that were read, under their marks, and the place of the first bad one.
#[derive(Drop)]
struct Read {
    marked: Vec<Marked>,
    bad: Option<usize>,
}

fn read_tokens(alloc: Global, bytes: &[u8], tokens: &[Token]) -> Result<Read, OutOfMemory>
    ensures { IfOk result (λ r. (steps : List Step) × IsReading aadl (terminals_of bytes.now tokens.now) steps r.bad × AreForced aadl (terminals_of bytes.now tokens.now) steps × (r.marked.items ≡ marked (terminals_of bytes.now tokens.now) tokens.now steps)) }
{
    aadl_is_ll1();
    let terminals = terminals(alloc, bytes, tokens)?;
    let reading = read(alloc, &Packages, terminals.as_slice())?;
    let marked = marked_tokens(
        alloc,
        terminals.as_slice(),
        tokens,
        reading.steps.as_slice(),
    )?;
    Ok(Read {
        marked,
        bad: reading.bad,
    })
}

// The packages of a file, or the first broken rule.
fn answer(alloc: Global, bytes: &[u8], tokens: &[Token]) -> Result<List<Package>, Refused>
    requires { length bytes.now < 2 ^ 31 }
    ensures ok { IfOk result (λ packages. IsFile bytes.now tokens.now packages) }
    ensures refused { (r : Refusal) → result ≡ Err (Model r) → IsFirstWrong bytes.now tokens.now r }
{
    let Ok(read) = read_tokens(alloc, bytes, tokens) else {
        return Err(Refused::OutOfMemory);
    };
    let marked = read.marked.as_slice();
    match (run(alloc, bytes, marked), read.bad) {
        (Err(refused), _) => Err(refused),
        (Ok(context), Some(at)) => Err(Refused::Model(first_wrong(
            bytes,
            tokens,
            marked,
            &context.names,
            at,
        ))),
        (Ok(_), None) => match packages_of(alloc, bytes, marked) {
            Ok(packages) => Ok(packages),
            Err(_) => Err(Refused::OutOfMemory),
        },
    }
}

/// The packages of a file, of whose bytes these are the tokens. It takes time and memory in proportion
/// to the tokens.
pub fn read_file(alloc: Global, bytes: &[u8], tokens: &[Token]) -> Result<List<Package>, Refused>
    requires short { length bytes.now < 2 ^ 31 }
    requires tokens { AreTokensOf bytes.now tokens.now }
    // The tokens are a text of the grammar that breaks no rule, and these are its packages.
    ensures ok { IfOk result (λ packages. IsFile bytes.now tokens.now packages) }
    // The refusal is the first broken rule, at its place.
    ensures refused { (r : Refusal) → result ≡ Err (Model r) → IsFirstWrong bytes.now tokens.now r }
    // So Ok comes exactly for the packages of a text, and a refusal exactly for what is none, unless memory was wanting.
    ensures read { (packages : List Package) → IsFile bytes.now tokens.now packages → IsReadUnlessMemory result packages }
    ensures broken { (r : Refusal) → IsFirstWrong bytes.now tokens.now r → IsRefusedUnlessMemory result r }
{
    one_reading();
    one_refusal();
    answer(alloc, bytes, tokens)
}

/// A text declares one list of packages.
pub fn one_reading()
    ensures { (bytes : List ℕ) (tokens : List Token) (packages others : List Package) → IsFile bytes tokens packages → IsFile bytes tokens others → packages ≡ others }
{
    aadl_is_ll1();
    one_derivation();
}

/// Tokens break one rule first at most, and those of a file none.
pub fn one_refusal()
    ensures one { (bytes : List ℕ) (tokens : List Token) (r s : Refusal) → IsFirstWrong bytes tokens r → IsFirstWrong bytes tokens s → r ≡ s }
    ensures none { (bytes : List ℕ) (tokens : List Token) (r : Refusal) (packages : List Package) → IsFirstWrong bytes tokens r → IsFile bytes tokens packages → ⊥ }
{
    one_place();
}

/// One terminal ahead tells how to go on in the grammar of packages.
pub fn aadl_is_ll1()
    ensures { IsLl1 aadl }
{}
