//! Rules on names: which one the packages of two files break first, and where.
use ag_aadl::packages::Package;
use ag_aadl::read_file;
use ag_base::{Refusal, Refused};
use ag_case_texts::{field, is_case, marked};
use ag_lex::file_tokens;
use ag_names::{Links, resolve};
use std::alloc::Global;
use std::process::Abort;
use std::test::Fail;

// A case is a rule and the texts of two files, which break it where they have their `^`. With the rule `none` they have no
// `^`, and break none.
const CASES: &str = "
-- Names that are declared twice, without regard to case.
Twice | package A public end A; | package ^a public end a;
Twice | package A::B public end A::B; package A public end A; package ^A::B public end A::B; |
Twice | package A public system S end S; process ^s end s; end A; |
Twice | package A public system S end S; system implementation S.i end S.i; system implementation s.^I end s.I; end A; |
none | package A public system S end S; system T end T; system implementation S.i end S.i; system implementation T.i end T.i; end A; | package B public system S end S; end B;
Twice | package A public system S features p : in event port; ^P : out event port; end S; end A; |
none | package A public system S features p : in event port; p : requires bus access X; end S; end A; |
Twice | package A public system S end S; system implementation S.i subcomponents s : system; ^S : device; end S.i; end A; |
Twice | package A public system S features a : in event port; b : out event port; end S; system implementation S.i connections c : port a -> b; ^C : port a -> b; end S.i; end A; |
none | package A public system S features a : in event port; b : out event port; end S; system implementation S.i subcomponents c : system; connections c : port a -> b; end S.i; end A; |
-- Packages.
NotImported | package A public system S end S; end A; | package B public system T end T; system implementation T.i subcomponents s : system ^A::S; end T.i; end B;
NoPackage | | package B public system T end T; system implementation T.i subcomponents s : system ^A::S; end T.i; end B;
none | package A public system S end S; end A; | package B public with A; system T end T; system implementation T.i subcomponents s : system A::S; end T.i; end B;
none | package A public system S end S; end A; | package B public with C, a; system T end T; system implementation T.i subcomponents s : system A::s; t : system b::T; u : system B::t.I2; end T.i; system implementation T.i2 end T.i2; end B;
NoPackage | package B public with A; system T end T; system implementation T.i subcomponents s : system ^A::S; end T.i; end B; |
none | package B public with A; system T features p : in data port A::S; q : in data port B::X.y; end T; end B; |
NotImported | package B public with A::C; system T features p : in data port A::C::S; q : in data port ^A::S; end T; end B; |
NotImported | package B public system T features p : in data port ^Base_Types::Integer; end T; end B; |
-- Classifiers.
NoClassifier | package A public system T end T; system implementation T.i subcomponents s : system ^S; end T.i; end A; |
NoClassifier | package A public system T end T; system implementation T.i subcomponents s : process ^A::T; end T.i; end A; |
NoClassifier | package A public system S end S; end A; | package B public with A; system T end T; system implementation T.j subcomponents s : system ^A::S.i; end T.j; end B;
NoClassifier | package A public process implementation ^T.i end T.i; system T end T; end A; |
NoClassifier | package A public system S end S; system T end T; system implementation T.j subcomponents s : system ^S.i; end T.j; process implementation S.i end S.i; end A; |
NoClassifier | package A public system implementation ^T.i subcomponents s : system T.i; end T.i; end A; |
-- Ends of connections.
NoPort | package A public system T features a : in event port; end T; system implementation T.i connections c : port a -> ^b; end T.i; end A; |
NoPort | package A public system T features a : in event port; end T; system implementation T.i connections c : port ^b -> d; end T.i; end A; |
NoPort | package A public system T features a : in event port; end T; system implementation T.i subcomponents s : system; connections c : port a -> ^s.a; end T.i; end A; |
NoPort | package A public system T features a : in event port; end T; system implementation T.i connections c : port a -> ^s.a; end T.i; end A; |
NoPort | package A public system T features a : in event port; end T; system implementation T.i connections c : port a -> ^s.a; subcomponents s : device T; end T.i; end A; |
NoPort | package A public system S features a : in event port; b : requires bus access X; end S; system T features a : in event port; end T; system implementation T.i subcomponents s : system S; connections d : port a -> S.a; c : port a -> ^s.b; end T.i; end A; |
-- Directions.
none | package A public system S features i : in event port; o : out event port; end S; system T features i : in event port; o : out event port; end T; system implementation T.i subcomponents s : system S; t : system S; connections c1 : port i -> s.i; c2 : port s.o -> t.i; c3 : port t.o -> o; c4 : port i -> o; end T.i; end A; |
Direction | package A public system T features i : in event port; o : out event port; end T; system implementation T.i connections c : port ^o -> i; end T.i; end A; |
Direction | package A public system T features i : in event port; o : out event port; end T; system implementation T.i connections c : port ^o -> o; end T.i; end A; |
Direction | package A public system S features i : in event port; o : out event port; end S; system implementation S.i subcomponents s : system S; connections c : port ^s.o -> S.i; end S.i; end A; |
Direction | package A public system S features i : in event port; o : out event port; end S; system implementation S.i subcomponents s : system S; connections c : port ^i -> s.o; end S.i; end A; |
Direction | package A public system S features i : in event port; o : out event port; end S; system implementation S.i subcomponents s : system S; t : system S; connections c : port ^s.i -> t.i; end S.i; end A; |
-- What ports carry.
none | package A public with base_types; system T features i : in data port Base_Types::INTEGER; o : out event data port base_types::Unsigned_8; p : in data port Base_Types::Float; q : out event port; end T; system implementation T.i connections c : port i -> o; d : port p -> q; end T.i; end A; |
PortType | package A public with Base_Types; system T features i : in data port Base_Types::Integer; o : out data port Base_Types::Boolean; end T; system implementation T.i connections c : port ^i -> o; end T.i; end A; |
PortType | package A public with Base_Types; system T features i : in data port; o : out data port Base_Types::Boolean; end T; system implementation T.i connections c : port ^i -> o; end T.i; end A; |
PortType | package A public with Base_Types; system T features i : in data port Base_Types::Integer; o : out data port Base_Types::Integer.i; end T; system implementation T.i connections c : port ^i -> o; end T.i; end A; |
-- Sources.
TwoSources | package A public with Base_Types; system T features i : in data port Base_Types::Integer; j : in data port Base_Types::Integer; o : out data port Base_Types::Integer; end T; system implementation T.i connections c : port i -> o; ^d : port j -> O; end T.i; end A; |
none | package A public with Base_Types; system T features i : in event port; j : in event port; o : out event port; end T; system implementation T.i connections c : port i -> o; d : port j -> o; end T.i; end A; |
PortType | package A public with Base_Types; system T features i : in event port; j : in data port Base_Types::Integer; o : out data port Base_Types::Integer; end T; system implementation T.i connections c : port ^i -> o; d : port j -> o; end T.i; end A; |
-- Implementations in themselves.
Recursive | package A public system S end S; system implementation S.i subcomponents ^s : system S.i; end S.i; end A; |
Recursive | package A public with B; system S end S; system implementation S.i subcomponents ^s : system B::T.i; end S.i; end A; | package B public with A; system T end T; system implementation T.i subcomponents t : system A::S.i; end T.i; end B;
Recursive | package A public with B; system S end S; system implementation S.i subcomponents x : system S; ^s : system B::T.i; end S.i; end A; | package B public system T end T; system implementation T.i subcomponents t : system T.i; end T.i; end B;
none | package A public system S end S; system implementation S.i subcomponents s : system S.j; t : system S; end S.i; system implementation S.j end S.j; end A; |
-- A file that holds the predeclared types.
none | package Base_Types public end Base_Types; package C public system S features p : in data port D::E; P : in event port; end S; system implementation S.i subcomponents s : system X::Y; end S.i; end C; | package B public with C; system T end T; end B;
NoClassifier | package BASE_types public end BASE_types; package C public system S end S; end C; | package B public with C; system T end T; system implementation T.i subcomponents s : system ^C::S; end T.i; end B;
Twice | package Base_Types public end Base_Types; package C public end C; | package ^c public end c;
-- The first of two.
Twice | package A public system S features p : in event port; ^p : in event port; end S; system implementation S.i subcomponents s : system T; end S.i; end A; |
NoClassifier | package A public system implementation S.i subcomponents s : system ^T; end S.i; system S features p : in event port; p : in event port; end S; end A; |
NoPort | package A public system S features a : out event port; end S; system implementation S.i connections c : port a -> ^b; d : port a -> a; end S.i; end A; |
Direction | package A public system S features a : out event port; end S; system implementation S.i connections d : port ^a -> a; c : port a -> b; end S.i; end A; |
Twice | package A public end A; package ^A public system S end S; system S end S; end A; | package A public end A;
Direction | package A public with Base_Types; system S features a : out event port; b : in data port Base_Types::Integer; end S; system implementation S.i connections d : port ^a -> b; end S.i; end A; |
Recursive | package A public system S end S; system implementation S.i subcomponents ^s : system S.i; t : system X; end S.i; end A; |
NoClassifier | package A public system S end S; system implementation S.i subcomponents t : system ^X; s : system S.i; end S.i; end A; |
";

fn push_packages(
    alloc: Global,
    packages: &mut Vec<Package>,
    file: u32,
    text: &str,
) -> Result<(), Fail> {
    let bytes = text.as_bytes();
    if bytes.len() > 4_194_304 {
        return Ok(());
    }
    let tokens = file_tokens(alloc, file, bytes)
        .ok()
        .ok_or("the text has tokens")?;
    let read = read_file(alloc, bytes, tokens.as_slice())
        .ok()
        .ok_or("the text is a file")?;
    for package in read.into_vec() {
        packages.push(package)?;
    }
    Ok(())
}

fn resolved(alloc: Global, first: &str, second: &str) -> Result<Result<Links, Refused>, Fail> {
    let mut packages = Vec::new(alloc);
    push_packages(alloc, &mut packages, 0, first)?;
    push_packages(alloc, &mut packages, 1, second)?;
    Ok(resolve(alloc, packages.as_slice()))
}

/// A refusal in words, with its file and column, since all stands on the first line.
fn told(alloc: Global, refusal: Refusal) -> Result<String, Fail> {
    let Refusal { place, rule } = refusal;
    Ok(format!(in alloc; "{rule:?} {}:{}:{}", place.file, place.line, place.column)?)
}

fn expect_case<R: Abort>(rt: &R, alloc: Global, case: &str) -> Result<(), Fail> {
    let (rule, texts) = field(case)?;
    let (first, second) = field(texts)?;
    let (first, place) = marked(alloc, 0, first)?;
    let (second, other) = marked(alloc, 1, second)?;
    let wanted = match place.or(other) {
        Some(place) => {
            format!(in alloc; "{rule} {}:{}:{}", place.file, place.line, place.column)?
        }
        None => format!(in alloc; "{rule}")?,
    };
    let answer = match resolved(alloc, first.as_str(), second.as_str())? {
        Ok(_) => format!(in alloc; "none")?,
        Err(Refused::Model(refusal)) => told(alloc, refusal)?,
        Err(Refused::OutOfMemory) => format!(in alloc; "no memory")?,
    };
    assert_eq!(rt; answer.as_str(), wanted.as_str(), "at {case}");
    Ok(())
}

#[test]
fn refuses_names(rt: HostRuntime) -> Result<(), Fail> {
    for case in CASES.lines() {
        if is_case(case) {
            expect_case(&rt, rt.alloc(), case)?;
        }
    }
    Ok(())
}

// Packages of which each breaks one rule, and nothing of another one: a case is the rule and the text.
const BROKEN: &str = "
Twice | package A public system S end S; system ^S end S; end A;
NoPackage | package B public system S end S; system implementation S.i subcomponents s : system ^X::Y; end S.i; end B;
NotImported | package C public system S features p : in data port ^Base_Types::Integer; end S; end C;
NoClassifier | package D public system implementation ^S.i end S.i; end D;
NoPort | package E public system S features a : in event port; end S; system implementation S.i connections c : port a -> ^b; end S.i; end E;
Direction | package F public system S features a : in event port; b : out event port; end S; system implementation S.i connections c : port ^b -> a; end S.i; end F;
PortType | package G public with Base_Types; system S features a : in data port Base_Types::Integer; b : out data port Base_Types::Boolean; end S; system implementation S.i connections c : port ^a -> b; end S.i; end G;
TwoSources | package H public with Base_Types; system S features a : in data port Base_Types::Integer; b : out data port Base_Types::Integer; end S; system implementation S.i connections c : port a -> b; ^d : port a -> b; end S.i; end H;
Recursive | package I public system S end S; system implementation S.i subcomponents ^s : system S.i; end S.i; end I;
";

fn expect_first<R: Abort>(rt: &R, alloc: Global, earlier: &str, later: &str) -> Result<(), Fail> {
    let (_, text) = field(later)?;
    let (second, _) = marked(alloc, 0, text)?;
    let both = format!(in alloc; "{earlier} {second} | ")?;
    let apart = format!(in alloc; "{earlier} | {second}")?;
    expect_case(rt, alloc, both.as_str())?;
    expect_case(rt, alloc, apart.as_str())
}

// Of two broken rules the one that stands first is answered, in one file and in two, and in both orders.
#[test]
fn answers_the_first(rt: HostRuntime) -> Result<(), Fail> {
    for earlier in BROKEN.lines() {
        for later in BROKEN.lines() {
            if is_case(earlier) && is_case(later) && earlier != later {
                expect_first(&rt, rt.alloc(), earlier, later)?;
            }
        }
    }
    Ok(())
}

const LINKED: (&str, &str) = (
    "package A public annex agree {****}; system S features i : in event port; o : out event port; end S; \
system implementation S.i end S.i; end A;",
    "package Z public end Z; package B public with A; system implementation T.j end T.j; system T features x : out event port; \
o : out event port; p : in event port; end T; system implementation T.i subcomponents n : device; t : system T.j; \
s : system a::S.I; u : system A::s; connections c : port S.O -> o; d : port p -> u.i; end T.i; end B;",
);

#[test]
fn links_names(rt: HostRuntime) -> Result<(), Fail> {
    let (first, second) = LINKED;
    let links = resolved(rt.alloc(), first, second)?
        .ok()
        .ok_or("no rule is broken")?;
    let subs = [
        (2, 2, 0, None, None),
        (2, 2, 1, Some((2, 1)), Some((2, 0))),
        (2, 2, 2, Some((0, 1)), Some((0, 2))),
        (2, 2, 3, Some((0, 1)), None),
    ];
    assert_eq!(rt; links.subs.len(), subs.len());
    for (link, wanted) in links.subs.as_slice().iter().zip(&subs) {
        let found = (link.package, link.item, link.sub, link.frame, link.body);
        assert_eq!(rt; found, *wanted);
    }
    let wires = [
        (2, 2, 0, (Some(2), 1), (None, 1)),
        (2, 2, 1, (None, 2), (Some(3), 0)),
    ];
    assert_eq!(rt; links.wires.len(), wires.len());
    for (link, wanted) in links.wires.as_slice().iter().zip(&wires) {
        let found = (link.package, link.item, link.wire, link.from, link.to);
        assert_eq!(rt; found, *wanted);
    }
    Ok(())
}
