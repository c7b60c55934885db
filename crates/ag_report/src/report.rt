//! The report of a revision.
ghost use Rattle.std.specs.Prelude.{◌≡◌, ◌++◌, [], map, codes, decimal, OnOk, IfOk};
ghost use Rattle.std.specs.List.{flat_map};
ghost use Rattle.std.specs.String.{string_bytes};
ghost use Rattle.std.specs.Option.{option_copied};
ghost use Rattle.ag_report.specs.Texts.{why_text, verdict_text, answer_text, key_text, label_text, block, report_of, plain};

use crate::key::{Labels, push_key, push_label};
use crate::numbers::{push_between, push_line};
use crate::run::push_run;
use ag_base::{Bytes, List, OutOfMemory};
use ag_small::{Package, Port};
use ag_verdict::{Key, Verdict, Why};
use std::alloc::Global;
use std::sync::Arc;

/// Appends up to which depth nothing is known.
fn push_depth(text: &mut String, depth: u32) -> Result<(), OutOfMemory>
    ensures { OnOk result (string_bytes text.new ≡ string_bytes text.old
        ++ (codes "unknown depth=" ++ decimal depth ++ codes " limit=")) }
{
    push_between(text, "unknown depth=", depth as usize, " limit=")
}

/// Appends which limit was spent.
fn push_why(alloc: Global, text: &mut String, ports: &[Port], why: &Why) -> Result<(), OutOfMemory>
    ensures { OnOk result (string_bytes text.new ≡ string_bytes text.old ++ why_text ports.now why.now) }
{
    match why {
        Why::Depth { window } => {
            text.push_str("depth\n")?;
            let instants = window.run.instants.as_slice();
            push_run(alloc, text, ports, window.prior.as_ref(), instants)
        }
        Why::Work { .. } => Ok(text.push_str("work\n")?),
        Why::Leaf { .. } => Ok(text.push_str("leaf\n")?),
    }
}

/// Appends a verdict.
fn push_verdict(
    alloc: Global,
    text: &mut String,
    ports: &[Port],
    sought: u32,
    verdict: &Verdict,
) -> Result<(), OutOfMemory>
    ensures { OnOk result (string_bytes text.new ≡ string_bytes text.old
        ++ verdict_text ports.now sought verdict.now) }
{
    match verdict {
        Verdict::Proved { k } => push_line(text, "proved k=", *k as usize)?,
        Verdict::Refuted { run } => {
            push_line(text, "refuted at ", run.instants.len())?;
            push_run(alloc, text, ports, None, run.instants.as_slice())?;
        }
        Verdict::Consistent { run } => push_line(text, "consistent ", run.instants.len())?,
        Verdict::Inconsistent => push_line(text, "inconsistent ", sought as usize)?,
        Verdict::Unknown { depth, why } => {
            push_depth(text, *depth)?;
            push_why(alloc, text, ports, why)?;
        }
    }
    Ok(())
}

/// Appends what is known of an obligation.
fn push_answer(
    alloc: Global,
    text: &mut String,
    ports: &[Port],
    sought: u32,
    verdict: Option<&Verdict>,
) -> Result<(), OutOfMemory>
    ensures { OnOk result (string_bytes text.new ≡ string_bytes text.old
        ++ answer_text ports.now sought (option_copied verdict.entry)) }
{
    match verdict {
        None => Ok(text.push_str("open\n")?),
        Some(verdict) => push_verdict(alloc, text, ports, sought, verdict),
    }
}

/// Appends what stands before an answer.
fn push_head(text: &mut String, own: &Labels, key: &Key) -> Result<(), OutOfMemory>
    ensures { OnOk result (string_bytes text.new ≡ string_bytes text.old
        ++ (key_text key.now ++ label_text own.now.assumed own.now.guaranteed key.now ++ codes ": ")) }
{
    push_key(text, key)?;
    push_label(text, own, key)?;
    text.push_str(": ")?;
    Ok(())
}

/// Appends each obligation and what is known of it.
fn push_blocks(
    alloc: Global,
    text: &mut String,
    package: &Package,
    sought: u32,
    lines: &[(Key, Option<Arc<Verdict>>)],
) -> Result<(), OutOfMemory>
    ensures { OnOk result (string_bytes text.new ≡ string_bytes text.old
        ++ flat_map (block «package».now sought) (map plain lines.now)) }
{
    let ports = package.ports.as_slice();
    let labels = Labels::make(alloc, package.claims.as_slice())?;
    for (key, verdict) in lines {
        push_head(text, &labels, key)?;
        push_answer(alloc, text, ports, sought, verdict.as_deref())?;
    }
    Ok(())
}

/// The report of a revision of a package: each obligation and what is known of it. Runs of the
/// premises were sought with `sought` instants.
pub fn report_text(
    alloc: Global,
    package: &Package,
    revision: u32,
    sought: u32,
    lines: &[(Key, Option<Arc<Verdict>>)],
) -> Result<Bytes, OutOfMemory>
    ensures { IfOk result (λ text. text ≡ report_of «package».now revision sought (map plain lines.now)) }
{
    let mut text = String::new(alloc);
    push_line(&mut text, "report ", revision as usize)?;
    push_blocks(alloc, &mut text, package, sought, lines)?;
    text.push_str("end report\n")?;
    Ok(List::from_vec(text.into_bytes()))
}
