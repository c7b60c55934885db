//! Packages: what a file declares.
use ag_aadl::{Body, Category, Frame, Ident, Item, Package, Path, PortKind, read_file};
use ag_base::{List, Refused};
use ag_lex::file_tokens;
use std::alloc::Global;
use std::process::Abort;
use std::test::Fail;

fn packages(alloc: Global, text: &str) -> Result<List<Package>, Refused> {
    let bytes = text.as_bytes();
    if bytes.len() > 4_194_304 {
        return Err(Refused::OutOfMemory);
    }
    let tokens = file_tokens(alloc, 0, bytes)?;
    read_file(alloc, bytes, tokens.as_slice())
}

const COMPONENTS: &str = "\
package A::B public with C, D::E; with F; -- and a comment
annex agree {** const n : int = 1; **};
system S features
  a : in event data port C::Kind.i {X => (1; 2);};
  b : out event port; c : requires bus access X {d;}; e : out data port Word;
  flows none; properties p => [1;];
  annex agree {** x **}; annex other {** y **};
end s;
data D features x; end y , z; end D::E :: F.i ;
device implementation S.i
  subcomponents s : thread D::E::T.i {k;}; m : memory M; n : abstract;
  connections c : port s.b -> a {Timing => Immediate;}; d : parameter f -> g;
  annex Agree {** z **};
end S.I;
properties none; end a :: b; package G public end G;";

fn text_of(name: &Option<Ident>) -> &str {
    match name {
        Some(name) => name.text.as_str(),
        None => "",
    }
}

fn class_of(path: &Option<Path>) -> (&str, &str, &str) {
    match path {
        Some(path) => (
            text_of(&path.package),
            path.name.text.as_str(),
            text_of(&path.body),
        ),
        None => ("", "", ""),
    }
}

fn expect_frame<R: Abort>(rt: &R, frame: &Frame) {
    assert_eq!(rt; frame.category, Category::System);
    assert_eq!(rt; frame.name.text.as_str(), "S");
    assert_eq!(rt; frame.annexes.len(), 1);
    let rows = [
        ("a", false, PortKind::EventPlain, ("C", "Kind", "i")),
        ("b", true, PortKind::Event, ("", "", "")),
        ("e", true, PortKind::Plain, ("", "Word", "")),
    ];
    assert_eq!(rt; frame.ports.len(), rows.len());
    for (port, (name, outward, kind, class)) in frame.ports.as_slice().iter().zip(&rows) {
        assert_eq!(rt; port.name.text.as_str(), *name);
        assert_eq!(rt; port.outward, *outward);
        assert_eq!(rt; port.kind, *kind);
        assert_eq!(rt; class_of(&port.carries), *class);
    }
}

fn expect_body<R: Abort>(rt: &R, body: &Body) {
    assert_eq!(rt; body.category, Category::Device);
    assert_eq!(rt; body.frame.text.as_str(), "S");
    assert_eq!(rt; body.name.text.as_str(), "i");
    assert_eq!(rt; body.annexes.len(), 1);
    let subs = [
        ("s", Category::Thread, ("D::E", "T", "i")),
        ("n", Category::Abstract, ("", "", "")),
    ];
    assert_eq!(rt; body.subs.len(), subs.len());
    for (sub, (name, category, class)) in body.subs.as_slice().iter().zip(&subs) {
        assert_eq!(rt; sub.name.text.as_str(), *name);
        assert_eq!(rt; sub.category, *category);
        assert_eq!(rt; class_of(&sub.of), *class);
    }
    assert_eq!(rt; body.wires.len(), 1);
    for wire in body.wires.as_slice() {
        assert_eq!(rt; wire.name.text.as_str(), "c");
        assert_eq!(rt; text_of(&wire.from.sub), "s");
        assert_eq!(rt; wire.from.port.text.as_str(), "b");
        assert_eq!(rt; text_of(&wire.to.sub), "");
        assert_eq!(rt; wire.to.port.text.as_str(), "a");
    }
}

#[test]
fn reads_packages(rt: HostRuntime) -> Result<(), Fail> {
    let packages = packages(rt.alloc(), COMPONENTS)
        .ok()
        .ok_or("the text is a file")?;
    assert_eq!(rt; packages.len(), 2);
    let package = packages.as_slice().first().ok_or("there is one")?;
    assert_eq!(rt; package.name.text.as_str(), "A::B");
    let imports = ["C", "D::E", "F"];
    assert_eq!(rt; package.imports.len(), imports.len());
    for (import, name) in package.imports.as_slice().iter().zip(&imports) {
        assert_eq!(rt; import.text.as_str(), *name);
    }
    match package.items.as_slice() {
        [Item::Library(annex), Item::Frame(frame), Item::Body(body)] => {
            assert_eq!(rt; (annex.place.line, annex.place.column), (2, 13));
            expect_frame(&rt, frame);
            expect_body(&rt, body);
        }
        _ => assert!(rt; false),
    }
    Ok(())
}
