//! A refusal of a file, on a line.
ghost use Rattle.std.specs.Prelude.{◌≡◌, ◌++◌, IfOk, OnOk};
ghost use Rattle.std.specs.String.{string_bytes};
ghost use Rattle.ag_top.specs.Files.{unread_text};
ghost use Rattle.ag_top.specs.Refusals.{rule_name, word_behind, refusal_text};

use ag_annex::word_text;
use ag_base::{Bytes, List, OutOfMemory, Place, Refusal, Rule};
use std::alloc::Global;

/// A rule's name. Of a word that isn't supported it lacks the word.
fn rule_name(rule: Rule) -> &'static str
    ensures { result.now ≡ rule_name rule }
{
    match rule {
        Rule::NotUtf8 => "NotUtf8",
        Rule::BadByte => "BadByte",
        Rule::OpenString => "OpenString",
        Rule::OpenAnnex => "OpenAnnex",
        Rule::LongName => "LongName",
        Rule::WideNumber => "WideNumber",
        Rule::TooDeep => "TooDeep",
        Rule::Unsupported(_) => "Unsupported",
        Rule::Expected => "Expected",
        Rule::EndName => "EndName",
        Rule::Twice => "Twice",
        Rule::Misplaced => "Misplaced",
        Rule::NoPackage => "NoPackage",
        Rule::NotImported => "NotImported",
        Rule::NoClassifier => "NoClassifier",
        Rule::NoPort => "NoPort",
        Rule::Direction => "Direction",
        Rule::PortType => "PortType",
        Rule::TwoSources => "TwoSources",
        Rule::Recursive => "Recursive",
        Rule::Unknown => "Unknown",
        Rule::Mismatch => "Mismatch",
        Rule::Arity => "Arity",
        Rule::NodeRecursion => "NodeRecursion",
        Rule::NotLinear => "NotLinear",
        Rule::BadDivisor => "BadDivisor",
        Rule::Coefficient => "Coefficient",
        Rule::TooManyStreams => "TooManyStreams",
        Rule::TooManyParts => "TooManyParts",
        Rule::Cycle => "Cycle",
        Rule::TooManyObligations => "TooManyObligations",
        Rule::NotBuilt => "NotBuilt",
    }
}

/// Appends a space and the word, of a word that isn't supported.
fn push_word(text: &mut String, rule: Rule) -> Result<(), OutOfMemory>
    ensures { OnOk result (string_bytes text.new ≡ string_bytes text.old ++ word_behind rule) }
{
    if let Rule::Unsupported(word) = rule {
        text.push_str(" ")?;
        text.push_str(word_text(word))?;
    }
    Ok(())
}

/// The line that tells of a refusal: the file's name, the place, the rule's name, and the word that isn't supported.
pub fn refusal_line(alloc: Global, file: &str, refusal: Refusal) -> Result<Bytes, OutOfMemory>
    ensures { IfOk result (λ line. line ≡ refusal_text file.now refusal) }
{
    let Place { line, column, .. } = refusal.place;
    let name = rule_name(refusal.rule);
    let mut text = format!(in alloc; "refused {file}:{line}:{column} {name}")?;
    push_word(&mut text, refusal.rule)?;
    text.push_str("\n")?;
    Ok(List::from_vec(text.into_bytes()))
}

/// The line that tells why a file isn't read.
pub fn unread_line(alloc: Global, file: &str, cause: &str) -> Result<Bytes, OutOfMemory>
    ensures { IfOk result (λ line. line ≡ unread_text file.now cause.now) }
{
    let text = format!(in alloc; "refused {file} {cause}\n")?;
    Ok(List::from_vec(text.into_bytes()))
}
