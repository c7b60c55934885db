//! Replies of one line.
ghost use Rattle.std.specs.Prelude.{◌≡◌, IfOk};
ghost use Rattle.ag_report.specs.Texts.{published, settled, closed};

use crate::numbers::{push_line, push_numbered};
use ag_base::{Bytes, List, OutOfMemory};
use std::alloc::Global;

/// A revision was published: how many obligations it has, how many of them kept an earlier verdict,
/// and how many claims of workers it ended.
pub fn published_line(
    alloc: Global,
    revision: u32,
    count: u32,
    carried: u32,
    cancelled: u32,
) -> Result<Bytes, OutOfMemory>
    ensures { IfOk result (λ text. text ≡ published revision count carried cancelled) }
{
    let mut text = String::new(alloc);
    push_numbered(&mut text, "revision ", revision as usize)?;
    push_numbered(&mut text, ": ", count as usize)?;
    push_numbered(&mut text, " obligations, ", carried as usize)?;
    push_numbered(&mut text, " carried, ", cancelled as usize)?;
    text.push_str(" cancelled\n")?;
    Ok(List::from_vec(text.into_bytes()))
}

/// Each obligation of the revision has a verdict.
pub fn settled_line(alloc: Global, revision: u32) -> Result<Bytes, OutOfMemory>
    ensures { IfOk result (λ text. text ≡ settled revision) }
{
    let mut text = String::new(alloc);
    push_line(&mut text, "settled ", revision as usize)?;
    Ok(List::from_vec(text.into_bytes()))
}

/// The session ended at this revision, with so many verdicts of each kind.
pub fn closed_line(
    alloc: Global,
    revision: u32,
    proved: u32,
    refuted: u32,
    consistent: u32,
    inconsistent: u32,
    unknown: u32,
) -> Result<Bytes, OutOfMemory>
    ensures { IfOk result (λ text. text ≡ closed revision proved refuted consistent inconsistent unknown) }
{
    let mut text = String::new(alloc);
    push_numbered(&mut text, "closed ", revision as usize)?;
    push_numbered(&mut text, ": ", proved as usize)?;
    push_numbered(&mut text, " proved, ", refuted as usize)?;
    push_numbered(&mut text, " refuted, ", consistent as usize)?;
    push_numbered(&mut text, " consistent, ", inconsistent as usize)?;
    push_numbered(&mut text, " inconsistent, ", unknown as usize)?;
    text.push_str(" unknown\n")?;
    Ok(List::from_vec(text.into_bytes()))
}
