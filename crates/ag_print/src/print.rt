//! Packages as canonical text.
ghost use Rattle.std.specs.Prelude.{◌≡◌, ◌≤◌, length, ◌∷◌, [], ◌++◌, map, take, drop, codes, Err, OnOk, IfOk};
ghost use Rattle.std.specs.List.{All, AllZip};
ghost use Rattle.std.specs.Str.{IsUtf8};
ghost use Rattle.ag_base.specs.declared.place.Refusal.{Refusal};
ghost use Rattle.ag_base.specs.declared.place.Refused.TheVariants.{Model};
ghost use Rattle.ag_aadl.specs.Marks.{features_mark, subcomponents_mark, connections_mark, close_mark, item_mark};
ghost use Rattle.ag_print.specs.Annexes.{Stated, PackagesState, IsAnnexRefused, annexes_of_packages, item_annexes};
ghost use Rattle.ag_print.specs.Canonical.{canonical_text, package_lines, import_line, items_lines, item_lines, frame_lines, port_line, body_lines, sub_line, wire_line, annex_line, annex_lines, section, word, semicolon, pname_words, parts_words, package_parts, class_words, body_words, category_word as category_bytes, direction_word as direction_bytes, kind_words, end_words, sign, name_at, sign_at};
ghost use Rattle.ag_print.specs.Printed.{IsReadOf, IsCanonical};
ghost use Rattle.ag_print.specs.Shares.{IsOneOf, joined, items_share, behind_items, shares};
ghost use Rattle.ag_print.specs.Written.{name_word, with_word, with_words, with_lines};

use crate::annexes::read_annexes;
use crate::laws::files_are_printable;
use crate::rereading::{annexes_reread, canonical_rereads};
use crate::symbol::Symbol;
use crate::writer::Writer;
use ag_aadl::packages::{
    Body, Category, End, Frame, Ident, Item, Package, Path, Port, PortKind, Sub, Wire,
};
use ag_annex::Clause;
use ag_base::{Bytes, List, OutOfMemory, Refused};
use ag_lex::{Token, files_are_text};
use std::alloc::Global;

/// The canonical text of a file's packages and of what their annexes state, or the first rule that the
/// annexes break. The bytes are the file's: the annexes are read in them.
pub fn print_file(alloc: Global, bytes: &[u8], packages: &[Package]) -> Result<Bytes, Refused>
    requires short { length bytes.now ≤ 4194304 }
    requires read { IsReadOf bytes.now packages.now }
    // What is printed is the canonical text of the packages and of what their annexes state, and it reads again.
    ensures ok { IfOk result (λ text. (stated : Stated) × PackagesState bytes.now packages.now stated × IsCanonical packages.now stated text) }
    // The refusal is the first broken rule of the annexes: first of the tokens of all, then of their grammar.
    ensures refused { (r : Refusal) → result ≡ Err (Model r) → IsAnnexRefused bytes.now packages.now r }
{
    files_are_printable();
    canonical_rereads();
    annexes_reread();
    files_are_text();
    print_packages(alloc, bytes, packages)
}

// The canonical text of packages, or the first rule that their annexes break.
fn print_packages(alloc: Global, bytes: &[u8], packages: &[Package]) -> Result<Bytes, Refused>
    requires short { length bytes.now ≤ 4194304 }
    requires text { IsUtf8 bytes.now }
    requires among { All (IsOneOf bytes.now) (annexes_of_packages packages.now) }
    ensures text { IfOk result (λ text. (stated : Stated) × PackagesState bytes.now packages.now stated × (text ≡ canonical_text packages.now stated)) }
    ensures refused { (r : Refusal) → result ≡ Err (Model r) → IsAnnexRefused bytes.now packages.now r }
{
    let clauses = match read_annexes(alloc, bytes, packages) {
        Ok(clauses) => clauses,
        Err(refused) => return Err(refused),
    };
    match write_packages(alloc, packages, clauses.as_slice()) {
        Ok(text) => Ok(text),
        Err(OutOfMemory) => Err(Refused::OutOfMemory),
    }
}

// The canonical text of packages, of whose annexes each states one of the lists.
fn write_packages(
    alloc: Global,
    packages: &[Package],
    clauses: &[List<Clause>],
) -> Result<Bytes, OutOfMemory>
    ensures { IfOk result (λ text. text ≡ canonical_text packages.now (shares packages.now clauses.now)) }
{
    let mut writer = Writer::new(alloc);
    let mut rest = clauses;
    for package in packages {
        rest = write_package(&mut writer, package, rest)?;
    }
    Ok(writer.into_bytes())
}

/// Writes a package, and answers what the annexes behind it state.
fn write_package<'a>(
    writer: &mut Writer,
    package: &Package,
    clauses: &'a [List<Clause>],
) -> Result<&'a [List<Clause>], OutOfMemory>
    ensures rest { IfOk result (λ rest. rest.now ≡ behind_items «package».now.items clauses.now) }
    ensures written { OnOk result (writer.new ≡ with_lines writer.old (package_lines «package».now (items_share «package».now.items clauses.now))) }
{
    begin_package(writer, &package.name)?;
    write_heading(writer, "public")?;
    write_imports(writer, package.imports.as_slice())?;
    let rest = write_items(writer, package.items.as_slice(), clauses)?;
    end_package(writer, &package.name)?;
    Ok(rest)
}

fn begin_package(writer: &mut Writer, name: &Ident) -> Result<(), OutOfMemory>
    ensures { OnOk result (writer.new ≡ with_lines writer.old ((word (codes "package") ∷ pname_words name.now) ∷ [])) }
{
    writer.name("package")?;
    write_package_name(writer, name)?;
    writer.end_line()
}

fn end_package(writer: &mut Writer, name: &Ident) -> Result<(), OutOfMemory>
    ensures { OnOk result (writer.new ≡ with_lines writer.old ((word (codes "end")
        ∷ (pname_words name.now ++ sign_at close_mark (codes ";") ∷ [])) ∷ [])) }
{
    writer.name("end")?;
    write_package_name(writer, name)?;
    end_statement(writer)
}

fn write_imports(writer: &mut Writer, imports: &[Ident]) -> Result<(), OutOfMemory>
    ensures { OnOk result (writer.new ≡ with_lines writer.old (map import_line imports.now)) }
{
    for import in imports {
        write_import(writer, import)?;
    }
    Ok(())
}

fn write_import(writer: &mut Writer, import: &Ident) -> Result<(), OutOfMemory>
    ensures { OnOk result (writer.new ≡ with_lines writer.old (import_line import.now ∷ [])) }
{
    writer.name("with")?;
    write_package_name(writer, import)?;
    end_statement(writer)
}

/// Writes declarations, and answers what the annexes behind them state.
fn write_items<'a>(
    writer: &mut Writer,
    items: &[Item],
    clauses: &'a [List<Clause>],
) -> Result<&'a [List<Clause>], OutOfMemory>
    ensures rest { IfOk result (λ rest. rest.now ≡ behind_items items.now clauses.now) }
    ensures written { OnOk result (writer.new ≡ with_lines writer.old (items_lines items.now (items_share items.now clauses.now))) }
{
    let mut rest = clauses;
    for item in items {
        let (own, behind) = first_of(rest, annex_count(item));
        write_item(writer, item, own)?;
        rest = behind;
    }
    Ok(rest)
}

/// The first so many lists, if there are as many, and those behind.
fn first_of(lists: &[List<Clause>], count: usize) -> (&[List<Clause>], &[List<Clause>])
    ensures first { result.0.now ≡ take count lists.now }
    ensures behind { result.1.now ≡ drop count lists.now }
{
    let count = if count < lists.len() {
        count
    } else {
        lists.len()
    };
    lists.split_at(count)
}

fn annex_count(item: &Item) -> usize
    ensures { result ≡ length (item_annexes item.now) }
{
    match item {
        Item::Frame(frame) => frame.annexes.len(),
        Item::Body(body) => body.annexes.len(),
        Item::Library(_) => 1,
    }
}

/// Writes a declaration whose annexes state these clauses.
fn write_item(writer: &mut Writer, item: &Item, clauses: &[List<Clause>]) -> Result<(), OutOfMemory>
    ensures { OnOk result (writer.new ≡ with_lines writer.old (item_lines item.now (joined clauses.now))) }
{
    match item {
        Item::Frame(frame) => write_frame(writer, frame, clauses),
        Item::Body(body) => write_body(writer, body, clauses),
        Item::Library(_) => write_annex(writer, clauses),
    }
}

/// Writes the annexes of a component as one, if it has any.
fn write_annexes(
    writer: &mut Writer,
    annexes: &[Token],
    clauses: &[List<Clause>],
) -> Result<(), OutOfMemory>
    ensures { OnOk result (writer.new ≡ with_lines writer.old (annex_lines annexes.now (joined clauses.now))) }
{
    if annexes.is_empty() {
        return Ok(());
    }
    write_annex(writer, clauses)
}

fn write_annex(writer: &mut Writer, clauses: &[List<Clause>]) -> Result<(), OutOfMemory>
    ensures { OnOk result (writer.new ≡ with_lines writer.old (annex_line item_mark (joined clauses.now) ∷ [])) }
{
    writer.name("annex")?;
    writer.name("agree")?;
    writer.annex(clauses)?;
    end_statement(writer)
}

fn write_frame(
    writer: &mut Writer,
    frame: &Frame,
    clauses: &[List<Clause>],
) -> Result<(), OutOfMemory>
    ensures { OnOk result (writer.new ≡ with_lines writer.old (frame_lines frame.now (joined clauses.now))) }
{
    begin_frame(writer, frame)?;
    write_ports(writer, frame.ports.as_slice())?;
    write_annexes(writer, frame.annexes.as_slice(), clauses)?;
    end_frame(writer, frame)
}

fn begin_frame(writer: &mut Writer, frame: &Frame) -> Result<(), OutOfMemory>
    ensures { OnOk result (writer.new ≡ with_lines writer.old ((word (category_bytes frame.now.category) ∷ word frame.now.name.text ∷ []) ∷ [])) }
{
    writer.name(category_word(frame.category))?;
    write_name(writer, &frame.name)?;
    writer.end_line()
}

fn end_frame(writer: &mut Writer, frame: &Frame) -> Result<(), OutOfMemory>
    ensures { OnOk result (writer.new ≡ with_lines writer.old ((word (codes "end") ∷ word frame.now.name.text ∷ semicolon) ∷ [])) }
{
    writer.name("end")?;
    write_name(writer, &frame.name)?;
    end_statement(writer)
}

fn write_ports(writer: &mut Writer, ports: &[Port]) -> Result<(), OutOfMemory>
    ensures { OnOk result (writer.new ≡ with_lines writer.old
        (section (name_at features_mark (codes "features")) (map port_line ports.now))) }
{
    if ports.is_empty() {
        return Ok(());
    }
    write_heading(writer, "features")?;
    for port in ports {
        write_port(writer, port)?;
    }
    Ok(())
}

fn write_port(writer: &mut Writer, port: &Port) -> Result<(), OutOfMemory>
    ensures { OnOk result (writer.new ≡ with_lines writer.old (port_line port.now ∷ [])) }
{
    write_name(writer, &port.name)?;
    writer.symbol(Symbol::Colon)?;
    writer.name(direction_word(port.outward))?;
    write_kind(writer, port.kind)?;
    writer.name("port")?;
    write_class(writer, &port.carries)?;
    end_statement(writer)
}

fn write_body(writer: &mut Writer, body: &Body, clauses: &[List<Clause>]) -> Result<(), OutOfMemory>
    ensures { OnOk result (writer.new ≡ with_lines writer.old (body_lines body.now (joined clauses.now))) }
{
    begin_body(writer, body)?;
    write_subs(writer, body.subs.as_slice())?;
    write_wires(writer, body.wires.as_slice())?;
    write_annexes(writer, body.annexes.as_slice(), clauses)?;
    end_body(writer, body)
}

fn begin_body(writer: &mut Writer, body: &Body) -> Result<(), OutOfMemory>
    ensures { OnOk result (writer.new ≡ with_lines writer.old ((word (category_bytes body.now.category) ∷ word (codes "implementation")
        ∷ word body.now.frame.text ∷ sign (codes ".") ∷ word body.now.name.text ∷ []) ∷ [])) }
{
    writer.name(category_word(body.category))?;
    writer.name("implementation")?;
    write_full_name(writer, body)?;
    writer.end_line()
}

fn end_body(writer: &mut Writer, body: &Body) -> Result<(), OutOfMemory>
    ensures { OnOk result (writer.new ≡ with_lines writer.old ((word (codes "end")
        ∷ word body.now.frame.text ∷ sign (codes ".") ∷ word body.now.name.text ∷ semicolon) ∷ [])) }
{
    writer.name("end")?;
    write_full_name(writer, body)?;
    end_statement(writer)
}

fn write_subs(writer: &mut Writer, subs: &[Sub]) -> Result<(), OutOfMemory>
    ensures { OnOk result (writer.new ≡ with_lines writer.old
        (section (name_at subcomponents_mark (codes "subcomponents")) (map sub_line subs.now))) }
{
    if subs.is_empty() {
        return Ok(());
    }
    write_heading(writer, "subcomponents")?;
    for sub in subs {
        write_sub(writer, sub)?;
    }
    Ok(())
}

fn write_sub(writer: &mut Writer, sub: &Sub) -> Result<(), OutOfMemory>
    ensures { OnOk result (writer.new ≡ with_lines writer.old (sub_line sub.now ∷ [])) }
{
    write_name(writer, &sub.name)?;
    writer.symbol(Symbol::Colon)?;
    writer.name(category_word(sub.category))?;
    write_class(writer, &sub.of)?;
    end_statement(writer)
}

fn write_wires(writer: &mut Writer, wires: &[Wire]) -> Result<(), OutOfMemory>
    ensures { OnOk result (writer.new ≡ with_lines writer.old
        (section (name_at connections_mark (codes "connections")) (map wire_line wires.now))) }
{
    if wires.is_empty() {
        return Ok(());
    }
    write_heading(writer, "connections")?;
    for wire in wires {
        write_wire(writer, wire)?;
    }
    Ok(())
}

fn write_wire(writer: &mut Writer, wire: &Wire) -> Result<(), OutOfMemory>
    ensures { OnOk result (writer.new ≡ with_lines writer.old (wire_line wire.now ∷ [])) }
{
    write_name(writer, &wire.name)?;
    writer.symbol(Symbol::Colon)?;
    writer.name("port")?;
    write_end(writer, &wire.from)?;
    writer.symbol(Symbol::Arrow)?;
    write_end(writer, &wire.to)?;
    end_statement(writer)
}

/// Writes a connection's end.
fn write_end(writer: &mut Writer, end: &End) -> Result<(), OutOfMemory>
    ensures { OnOk result (writer.new ≡ with_words writer.old (end_words end.now)) }
{
    if let Some(sub) = &end.sub {
        write_name(writer, sub)?;
        writer.symbol(Symbol::Dot)?;
    }
    write_name(writer, &end.port)
}

/// Writes an implementation's name behind that of its type.
fn write_full_name(writer: &mut Writer, body: &Body) -> Result<(), OutOfMemory>
    ensures { OnOk result (writer.new ≡ with_words writer.old (word body.now.frame.text ∷ sign (codes ".") ∷ word body.now.name.text ∷ [])) }
{
    write_name(writer, &body.frame)?;
    writer.symbol(Symbol::Dot)?;
    write_name(writer, &body.name)
}

fn write_class(writer: &mut Writer, class: &Option<Path>) -> Result<(), OutOfMemory>
    ensures { OnOk result (writer.new ≡ with_words writer.old (class_words class.now)) }
{
    if let Some(path) = class {
        write_front(writer, path)?;
        write_body_name(writer, &path.body)?;
    }
    Ok(())
}

/// Writes a classifier's package, if it has one, and the name behind it.
fn write_front(writer: &mut Writer, path: &Path) -> Result<(), OutOfMemory>
    ensures { OnOk result (writer.new ≡ with_words writer.old
        (parts_words (package_parts path.now.«package» ++ path.now.name.text ∷ []))) }
{
    let Some(package) = &path.package else {
        return write_name(writer, &path.name);
    };
    write_package_name(writer, package)?;
    writer.symbol(Symbol::Colons)?;
    write_name(writer, &path.name)
}

/// Writes the dot and the name that a classifier's name ends with.
fn write_body_name(writer: &mut Writer, body: &Option<Ident>) -> Result<(), OutOfMemory>
    ensures { OnOk result (writer.new ≡ with_words writer.old (body_words body.now)) }
{
    if let Some(body) = body {
        writer.symbol(Symbol::Dot)?;
        write_name(writer, body)?;
    }
    Ok(())
}

fn write_kind(writer: &mut Writer, kind: PortKind) -> Result<(), OutOfMemory>
    ensures { OnOk result (writer.new ≡ with_words writer.old (kind_words kind)) }
{
    match kind {
        PortKind::Plain => writer.name("data"),
        PortKind::EventPlain => {
            writer.name("event")?;
            writer.name("data")
        }
        PortKind::Event => writer.name("event"),
    }
}

fn write_name(writer: &mut Writer, ident: &Ident) -> Result<(), OutOfMemory>
    ensures { OnOk result (writer.new ≡ with_word writer.old (name_word ident.now.text)) }
{
    writer.name(ident.text.as_str())
}

fn write_package_name(writer: &mut Writer, ident: &Ident) -> Result<(), OutOfMemory>
    ensures { OnOk result (writer.new ≡ with_words writer.old (pname_words ident.now)) }
{
    writer.package_name(ident.text.as_str())
}

/// Writes a word alone on its line.
fn write_heading(writer: &mut Writer, heading: &str) -> Result<(), OutOfMemory>
    ensures { OnOk result (writer.new ≡ with_lines writer.old ((word heading.now ∷ []) ∷ [])) }
{
    writer.name(heading)?;
    writer.end_line()
}

/// Ends a line by a semicolon.
fn end_statement(writer: &mut Writer) -> Result<(), OutOfMemory>
    ensures { OnOk result (writer.new ≡ with_lines writer.old (semicolon ∷ [])) }
{
    writer.symbol(Symbol::Semicolon)?;
    writer.end_line()
}

fn category_word(category: Category) -> &'static str
    ensures { result.now ≡ category_bytes category }
{
    match category {
        Category::System => "system",
        Category::Process => "process",
        Category::Thread => "thread",
        Category::Device => "device",
        Category::Abstract => "abstract",
    }
}

fn direction_word(outward: bool) -> &'static str
    ensures { result.now ≡ direction_bytes outward }
{
    if outward { "out" } else { "in" }
}
