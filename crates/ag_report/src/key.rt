//! Keys and labels.
ghost use Rattle.std.specs.Prelude.{◌≡◌, ◌++◌, OnOk, IfOk};
ghost use Rattle.std.specs.String.{string_bytes};
ghost use Rattle.ag_small.specs.declared.package.ClaimKind.TheVariants as kinds;
ghost use Rattle.ag_report.specs.Texts.{clause_text, key_text, labels, nth, own_label, label_text};

use crate::numbers::push_numbered;
use ag_base::{List, OutOfMemory, Text};
use ag_small::{Claim, ClaimKind};
use ag_verdict::{Key, KeyKind};
use std::alloc::Global;

/// Appends a clause's kind and number.
fn push_clause(text: &mut String, kind: KeyKind, number: u32) -> Result<(), OutOfMemory>
    ensures { OnOk result (string_bytes text.new ≡ string_bytes text.old ++ clause_text kind number) }
{
    match kind {
        KeyKind::Assume => push_numbered(text, "assume ", number as usize)?,
        KeyKind::Lemma => push_numbered(text, "lemma ", number as usize)?,
        KeyKind::Guarantee => push_numbered(text, "guarantee ", number as usize)?,
        KeyKind::Consistent => text.push_str("consistent")?,
    }
    Ok(())
}

/// Appends a key.
pub(crate) fn push_key(text: &mut String, key: &Key) -> Result<(), OutOfMemory>
    ensures { OnOk result (string_bytes text.new ≡ string_bytes text.old ++ key_text key.now) }
{
    text.push_str(key.layer.as_str())?;
    text.push_str(" ")?;
    if let Some(member) = &key.member {
        text.push_str(member.as_str())?;
        text.push_str(" ")?;
    }
    push_clause(text, key.kind, key.number)
}

/// The labels of the claims of a kind, in their order.
fn labels_of(alloc: Global, claims: &[Claim], kind: ClaimKind) -> Result<List<Text>, OutOfMemory>
    ensures { IfOk result (λ found. found ≡ labels kind claims.now) }
{
    let mut found = List::new(alloc);
    for claim in claims {
        if claim.kind == kind {
            found.push(claim.label.share()?)?;
        }
    }
    Ok(found)
}

/// The labels of the claims by their kinds.
#[derive(Drop)]
pub(crate) struct Labels {
    assumed: List<Text>,
    guaranteed: List<Text>,
}

impl Labels {
    /// The labels of these claims.
    pub(crate) fn make(alloc: Global, claims: &[Claim]) -> Result<Labels, OutOfMemory>
        ensures assumed { IfOk result (λ l. l.assumed ≡ labels kinds.Assume claims.now) }
        ensures guaranteed { IfOk result (λ l. l.guaranteed ≡ labels kinds.Guarantee claims.now) }
    {
        let assumed = labels_of(alloc, claims, ClaimKind::Assume)?;
        let guaranteed = labels_of(alloc, claims, ClaimKind::Guarantee)?;
        Ok(Labels {
            assumed,
            guaranteed,
        })
    }

    /// The label of the clause that a key is about.
    fn label(&self, key: &Key) -> &str
        ensures { result.now ≡ own_label self.now.assumed self.now.guaranteed key.now }
    {
        if key.member.is_some() {
            return "";
        }
        match key.kind {
            KeyKind::Assume => nth_text(self.assumed.as_slice(), key.number),
            KeyKind::Guarantee => nth_text(self.guaranteed.as_slice(), key.number),
            KeyKind::Lemma | KeyKind::Consistent => "",
        }
    }
}

/// The text of that number from 1, or the empty one.
fn nth_text(texts: &[Text], number: u32) -> &str
    ensures { result.now ≡ nth texts.now number }
{
    if number == 0 {
        return "";
    }
    match texts.get(number as usize - 1) {
        None => "",
        Some(text) => text.as_str(),
    }
}

/// Appends a key's label, where its kind has one.
pub(crate) fn push_label(text: &mut String, own: &Labels, key: &Key) -> Result<(), OutOfMemory>
    ensures { OnOk result (string_bytes text.new ≡ string_bytes text.old
        ++ label_text own.now.assumed own.now.guaranteed key.now) }
{
    if key.kind != KeyKind::Consistent {
        text.push_str(" \"")?;
        text.push_str(own.label(key))?;
        text.push_str("\"")?;
    }
    Ok(())
}
