//! What declarations consist of: ports, subcomponents, connections, annexes.
ghost use Rattle.std.specs.Prelude.{◌≡◌, IfOk, map};
ghost use Rattle.ag_aadl.specs.Meaning.{port_of, ports_of, kind_of, is_outward, sub_of, subs_of, end_of, part_at, wire_of, wires_of, is_agree, annex_of, annexes_of};

use crate::find::{first_under, has_mark, segments};
use crate::idents::{category_under, class_of, ident_under};
use crate::marked::Marked;
use crate::marks::{
    ANNEX_NAME_MARK, ANNEX_TEXT_MARK, CONNECTION_MARK, DATA_MARK, DIRECTION_MARK, EVENT_MARK,
    FEATURE_MARK, KIND_MARK, SPOT_MARK, SPOT_PORT_MARK, SUB_MARK,
};
use crate::packages::{End, Port, PortKind, Sub, Wire};
use crate::terminals::OUT_WORD;
use crate::words::{own_bytes, same};
use ag_base::{List, OutOfMemory};
use ag_lex::Token;
use std::alloc::Global;

fn kind_of(has_event: bool, has_data: bool) -> PortKind
    ensures { result ≡ kind_of has_event has_data }
{
    match (has_event, has_data) {
        (true, true) => PortKind::EventPlain,
        (true, false) => PortKind::Event,
        (false, _) => PortKind::Plain,
    }
}

// Whether a port's direction is `out`.
fn is_outward(marked: &[Marked]) -> bool
    ensures { result ≡ is_outward marked.now }
{
    for token in marked {
        if token.mark == DIRECTION_MARK && token.terminal == OUT_WORD {
            return true;
        }
    }
    false
}

fn port_of(alloc: Global, bytes: &[u8], marked: &[Marked]) -> Result<Port, OutOfMemory>
    ensures { IfOk result (λ p. p ≡ port_of bytes.now marked.now) }
{
    Ok(Port {
        name: ident_under(alloc, bytes, FEATURE_MARK, marked)?,
        outward: is_outward(marked),
        kind: kind_of(has_mark(EVENT_MARK, marked), has_mark(DATA_MARK, marked)),
        carries: class_of(alloc, bytes, marked)?,
    })
}

/// The features that have a direction.
pub fn ports_of(alloc: Global, bytes: &[u8], marked: &[Marked]) -> Result<List<Port>, OutOfMemory>
    ensures { IfOk result (λ ps. ps ≡ ports_of bytes.now marked.now) }
{
    let features = segments(alloc, &[FEATURE_MARK], marked)?;
    let mut ports = List::new(alloc);
    for feature in &features {
        if has_mark(DIRECTION_MARK, feature) {
            ports.push(port_of(alloc, bytes, feature)?)?;
        }
    }
    Ok(ports)
}

fn sub_of(alloc: Global, bytes: &[u8], marked: &[Marked]) -> Result<Sub, OutOfMemory>
    ensures { IfOk result (λ s. s ≡ sub_of bytes.now marked.now) }
{
    Ok(Sub {
        name: ident_under(alloc, bytes, SUB_MARK, marked)?,
        category: category_under(KIND_MARK, marked),
        of: class_of(alloc, bytes, marked)?,
    })
}

/// The subcomponents that have a category.
pub fn subs_of(alloc: Global, bytes: &[u8], marked: &[Marked]) -> Result<List<Sub>, OutOfMemory>
    ensures { IfOk result (λ ss. ss ≡ subs_of bytes.now marked.now) }
{
    let parts = segments(alloc, &[SUB_MARK], marked)?;
    let mut subs = List::new(alloc);
    for part in &parts {
        if has_mark(KIND_MARK, part) {
            subs.push(sub_of(alloc, bytes, part)?)?;
        }
    }
    Ok(subs)
}

fn end_of(alloc: Global, bytes: &[u8], marked: &[Marked]) -> Result<End, OutOfMemory>
    ensures { IfOk result (λ e. e ≡ end_of bytes.now marked.now) }
{
    let first = ident_under(alloc, bytes, SPOT_MARK, marked)?;
    if !has_mark(SPOT_PORT_MARK, marked) {
        return Ok(End {
            sub: None,
            port: first,
        });
    }
    let port = ident_under(alloc, bytes, SPOT_PORT_MARK, marked)?;
    Ok(End {
        sub: Some(first),
        port,
    })
}

// The part at a position, and nothing past the last.
pub fn part_at<'a>(parts: &[&'a [Marked]], at: usize) -> &'a [Marked]
    ensures { result.now ≡ part_at (map (λ p. p.now) parts.now) at }
{
    match parts.get(at) {
        Some(part) => *part,
        None => &[],
    }
}

fn wire_of(alloc: Global, bytes: &[u8], marked: &[Marked]) -> Result<Wire, OutOfMemory>
    ensures { IfOk result (λ w. w ≡ wire_of bytes.now marked.now) }
{
    let spots = segments(alloc, &[SPOT_MARK], marked)?;
    Ok(Wire {
        name: ident_under(alloc, bytes, CONNECTION_MARK, marked)?,
        from: end_of(alloc, bytes, part_at(spots.as_slice(), 0))?,
        to: end_of(alloc, bytes, part_at(spots.as_slice(), 1))?,
    })
}

/// The connections that have ends.
pub fn wires_of(alloc: Global, bytes: &[u8], marked: &[Marked]) -> Result<List<Wire>, OutOfMemory>
    ensures { IfOk result (λ ws. ws ≡ wires_of bytes.now marked.now) }
{
    let parts = segments(alloc, &[CONNECTION_MARK], marked)?;
    let mut wires = List::new(alloc);
    for part in &parts {
        if has_mark(SPOT_MARK, part) {
            wires.push(wire_of(alloc, bytes, part)?)?;
        }
    }
    Ok(wires)
}

pub fn is_agree(bytes: &[u8], marked: &[Marked]) -> bool
    ensures { result ≡ is_agree bytes.now marked.now }
{
    same(
        own_bytes(bytes, &first_under(ANNEX_NAME_MARK, marked)),
        b"agree",
    )
}

pub fn annex_of(marked: &[Marked]) -> Token
    ensures { result ≡ annex_of marked.now }
{
    first_under(ANNEX_TEXT_MARK, marked)
}

/// The texts of the annexes whose name is `agree`.
pub fn annexes_of(
    alloc: Global,
    bytes: &[u8],
    marked: &[Marked],
) -> Result<List<Token>, OutOfMemory>
    ensures { IfOk result (λ ts. ts ≡ annexes_of bytes.now marked.now) }
{
    let parts = segments(alloc, &[ANNEX_NAME_MARK], marked)?;
    let mut annexes = List::new(alloc);
    for part in &parts {
        if is_agree(bytes, part) {
            annexes.push(annex_of(part))?;
        }
    }
    Ok(annexes)
}
