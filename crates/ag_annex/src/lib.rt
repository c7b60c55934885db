//! Clauses of `agree` annexes, by their grammar.
//!
//! It promises that an annex's tokens are answered by the clauses that they state, or by the first
//! rule that they break. Start at `read_clauses`, and at specs/Annexes.antt.
#![tactic(auto)]

ghost use Rattle.std.specs.Prelude.{◌≡◌, ◌<◌, ◌^◌, ℕ, List, length, IfOk, Result, Err};
ghost use Rattle.std.specs.Str.{IsUtf8};
ghost use Rattle.ag_base.specs.declared.place.Refusal.{Refusal};
ghost use Rattle.ag_base.specs.declared.place.Refused.TheVariants.{Model};
ghost use Rattle.ag_grammar.specs.declared.grammar.Step.{Step};
ghost use Rattle.ag_grammar.specs.Deterministic.{IsLl1};
ghost use Rattle.ag_grammar.specs.Texts.{IsReading, AreForced};
ghost use Rattle.ag_lex.specs.declared.token.Token.{Token};
ghost use Rattle.ag_aadl.specs.Marked.{marked};
ghost use Rattle.ag_terms.specs.declared.clauses.Clause.{Clause};
ghost use Rattle.ag_terms.specs.declared.clauses.Site.{Site};
ghost use Rattle.ag_annex.specs.Annexes.{AreAnnexTokens, IsAnnex, IsFirstWrong, IsReadUnlessMemory, IsRefusedUnlessMemory};
ghost use Rattle.ag_annex.specs.Grammar.{annex};
ghost use Rattle.ag_annex.specs.Words.{terminals_of};

mod brackets;
mod closing;
mod ends;
mod expressions;
pub mod frames;
mod laws;
pub mod marks;
mod meaning;
mod nest;
pub mod nesting;
mod nonterminals;
mod numbers;
mod operands;
mod operators;
pub mod page;
pub mod productions;
mod reading;
mod rules;
mod spans;
pub mod stack;
mod statements;
mod terminals;
mod unsupported;
mod words;

use ag_aadl::marked::{Marked, marked_tokens};
use ag_base::{List, OutOfMemory, Refused};
use ag_grammar::{one_derivation, one_place, read};
use ag_lex::Token;
pub use ag_terms::{Binary, Clause, Equal, Labelled, NodeDef, Site, Term, Ty, Unary, Var};
use ends::refusal_at;
pub use laws::{annex_is_founded, one_of_the_two};
use meaning::clauses_of;
pub use page::Clauses;
use rules::run;
use std::alloc::Global;
pub use unsupported::word_text;
use words::terminals;

// The tokens that were read, under their marks, and the place of the first bad one.
#[derive(Drop)]
struct Read {
    marked: Vec<Marked>,
    bad: Option<usize>,
}

fn read_tokens(alloc: Global, bytes: &[u8], tokens: &[Token]) -> Result<Read, OutOfMemory>
    ensures { IfOk result (λ r. (steps : List Step) × IsReading annex (terminals_of bytes.now tokens.now) steps r.bad × AreForced annex (terminals_of bytes.now tokens.now) steps × (r.marked.items ≡ marked (terminals_of bytes.now tokens.now) tokens.now steps)) }
{
    annex_is_ll1();
    let terminals = terminals(alloc, bytes, tokens)?;
    let reading = read(alloc, &Clauses, terminals.as_slice())?;
    let marked = marked_tokens(
        alloc,
        terminals.as_slice(),
        tokens,
        reading.steps.as_slice(),
    )?;
    Ok(Read {
        marked,
        bad: reading.bad,
    })
}

// The clauses of an annex, or the first broken rule.
fn answer(
    alloc: Global,
    bytes: &[u8],
    tokens: &[Token],
    site: Site,
) -> Result<List<Clause>, Refused>
    requires short { length bytes.now < 2 ^ 31 }
    requires tokens { AreAnnexTokens bytes.now tokens.now }
    ensures ok { IfOk result (λ clauses. IsAnnex bytes.now tokens.now site clauses) }
    ensures refused { (r : Refusal) → result ≡ Err (Model r) → IsFirstWrong bytes.now tokens.now site r }
{
    let Ok(read) = read_tokens(alloc, bytes, tokens) else {
        return Err(Refused::OutOfMemory);
    };
    let marked = read.marked.as_slice();
    match (run(alloc, site, marked), read.bad) {
        (Err(refused), _) => Err(refused),
        (Ok(_), Some(at)) => Err(Refused::Model(refusal_at(bytes, tokens, at))),
        (Ok(_), None) => match clauses_of(alloc, bytes, marked) {
            Ok(clauses) => Ok(clauses),
            Err(_) => Err(Refused::OutOfMemory),
        },
    }
}

/// The clauses of an annex at such a site, of which these are the tokens, in `bytes` of the whole file. It takes
/// time and memory in proportion to the tokens, and to refuse the annex's end time in proportion to the bytes before it.
pub fn read_clauses(
    alloc: Global,
    bytes: &[u8],
    tokens: &[Token],
    site: Site,
) -> Result<List<Clause>, Refused>
    requires short { length bytes.now < 2 ^ 31 }
    // The file is UTF-8, and so are its names and labels.
    requires text { IsUtf8 bytes.now }
    requires tokens { AreAnnexTokens bytes.now tokens.now }
    // The tokens are a text of the grammar that breaks no rule, and these are its clauses.
    ensures ok { IfOk result (λ clauses. IsAnnex bytes.now tokens.now site clauses) }
    // The refusal is the first broken rule, at its place.
    ensures refused { (r : Refusal) → result ≡ Err (Model r) → IsFirstWrong bytes.now tokens.now site r }
    // So Ok comes exactly for the clauses of a text, and a refusal exactly for what is none, unless memory was wanting.
    ensures read { (clauses : List Clause) → IsAnnex bytes.now tokens.now site clauses → IsReadUnlessMemory result clauses }
    ensures broken { (r : Refusal) → IsFirstWrong bytes.now tokens.now site r → IsRefusedUnlessMemory result r }
{
    one_reading();
    one_refusal();
    answer(alloc, bytes, tokens, site)
}

/// A text states one list of clauses.
pub fn one_reading()
    ensures { (bytes : List ℕ) (tokens : List Token) (site : Site) (clauses others : List Clause) → IsAnnex bytes tokens site clauses → IsAnnex bytes tokens site others → clauses ≡ others }
{
    annex_is_ll1();
    one_derivation();
}

/// Tokens break one rule first at most, and those of an annex none.
pub fn one_refusal()
    ensures one { (bytes : List ℕ) (tokens : List Token) (site : Site) (r s : Refusal) → IsFirstWrong bytes tokens site r → IsFirstWrong bytes tokens site s → r ≡ s }
    ensures none { (bytes : List ℕ) (tokens : List Token) (site : Site) (r : Refusal) (clauses : List Clause) → IsFirstWrong bytes tokens site r → IsAnnex bytes tokens site clauses → ⊥ }
{
    one_place();
}

/// One terminal ahead tells how to go on in the grammar of clauses.
pub fn annex_is_ll1()
    ensures { IsLl1 annex }
{}
