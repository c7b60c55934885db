//! Declarations and packages.
ghost use Rattle.std.specs.Prelude.{◌≡◌, IfOk, map};
ghost use Rattle.ag_aadl.specs.Meaning.{frame_of, body_of, item_of, name_of, begins_with, imports_in, items_in, package_of, packages_of};

use crate::find::{has_mark, segments, under};
use crate::idents::{category_under, ident_of, ident_under};
use crate::marked::Marked;
use crate::marks::{
    DECLARED_MARK, END_MARK, IMPORT_MARK, ITEM_MARK, OWNER_MARK, PACKAGE_MARK, PART_MARK,
};
use crate::packages::{Body, Frame, Ident, Item, Package};
use crate::parts::{annex_of, annexes_of, is_agree, part_at, ports_of, subs_of, wires_of};
use ag_base::{List, OutOfMemory};
use std::alloc::Global;

fn frame_of(alloc: Global, bytes: &[u8], marked: &[Marked]) -> Result<Frame, OutOfMemory>
    ensures { IfOk result (λ f. f ≡ frame_of bytes.now marked.now) }
{
    Ok(Frame {
        category: category_under(ITEM_MARK, marked),
        name: ident_under(alloc, bytes, DECLARED_MARK, marked)?,
        ports: ports_of(alloc, bytes, marked)?,
        annexes: annexes_of(alloc, bytes, marked)?,
    })
}

fn body_of(alloc: Global, bytes: &[u8], marked: &[Marked]) -> Result<Body, OutOfMemory>
    ensures { IfOk result (λ b. b ≡ body_of bytes.now marked.now) }
{
    Ok(Body {
        category: category_under(ITEM_MARK, marked),
        frame: ident_under(alloc, bytes, OWNER_MARK, marked)?,
        name: ident_under(alloc, bytes, DECLARED_MARK, marked)?,
        subs: subs_of(alloc, bytes, marked)?,
        wires: wires_of(alloc, bytes, marked)?,
        annexes: annexes_of(alloc, bytes, marked)?,
    })
}

fn item_of(alloc: Global, bytes: &[u8], marked: &[Marked]) -> Result<Option<Item>, OutOfMemory>
    ensures { IfOk result (λ i. i ≡ item_of bytes.now marked.now) }
{
    if has_mark(OWNER_MARK, marked) {
        Ok(Some(Item::Body(body_of(alloc, bytes, marked)?)))
    } else if has_mark(DECLARED_MARK, marked) {
        Ok(Some(Item::Frame(frame_of(alloc, bytes, marked)?)))
    } else if is_agree(bytes, marked) {
        Ok(Some(Item::Library(annex_of(marked))))
    } else {
        Ok(None)
    }
}

/// Whether the first of the tokens has the mark.
pub fn begins_with(mark: u8, marked: &[Marked]) -> bool
    ensures { result ≡ begins_with mark marked.now }
{
    match marked.first() {
        Some(token) => token.mark == mark,
        None => false,
    }
}

fn name_of(alloc: Global, bytes: &[u8], marked: &[Marked]) -> Result<Ident, OutOfMemory>
    ensures { IfOk result (λ i. i ≡ name_of bytes.now marked.now) }
{
    let parts = under(alloc, PART_MARK, marked)?;
    ident_of(alloc, bytes, parts.as_slice())
}

fn imports_in(alloc: Global, bytes: &[u8], parts: &[&[Marked]]) -> Result<List<Ident>, OutOfMemory>
    ensures { IfOk result (λ is. is ≡ imports_in bytes.now (map (λ p. p.now) parts.now)) }
{
    let mut imports = List::new(alloc);
    for part in parts {
        if begins_with(IMPORT_MARK, part) {
            imports.push(name_of(alloc, bytes, part)?)?;
        }
    }
    Ok(imports)
}

fn items_in(alloc: Global, bytes: &[u8], parts: &[&[Marked]]) -> Result<List<Item>, OutOfMemory>
    ensures { IfOk result (λ is. is ≡ items_in bytes.now (map (λ p. p.now) parts.now)) }
{
    let mut items = List::new(alloc);
    for part in parts {
        if begins_with(ITEM_MARK, part) {
            if let Some(item) = item_of(alloc, bytes, part)? {
                items.push(item)?;
            }
        }
    }
    Ok(items)
}

fn package_of(alloc: Global, bytes: &[u8], marked: &[Marked]) -> Result<Package, OutOfMemory>
    ensures { IfOk result (λ p. p ≡ package_of bytes.now marked.now) }
{
    let marks = [PACKAGE_MARK, IMPORT_MARK, ITEM_MARK, END_MARK];
    let parts = segments(alloc, &marks, marked)?;
    Ok(Package {
        name: name_of(alloc, bytes, part_at(parts.as_slice(), 0))?,
        imports: imports_in(alloc, bytes, parts.as_slice())?,
        items: items_in(alloc, bytes, parts.as_slice())?,
    })
}

/// The packages that a file's marked tokens declare.
pub fn packages_of(
    alloc: Global,
    bytes: &[u8],
    marked: &[Marked],
) -> Result<List<Package>, OutOfMemory>
    ensures { IfOk result (λ ps. ps ≡ packages_of bytes.now marked.now) }
{
    let parts = segments(alloc, &[PACKAGE_MARK], marked)?;
    let mut packages = List::new(alloc);
    for part in &parts {
        packages.push(package_of(alloc, bytes, part)?)?;
    }
    Ok(packages)
}
