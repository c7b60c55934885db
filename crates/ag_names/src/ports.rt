//! Which streams ports have.
ghost use Rattle.std.specs.Prelude.{◌≡◌, codes};
ghost use Rattle.std.specs.List.{list_any};
ghost use Rattle.ag_terms.specs.Names.{same};
ghost use Rattle.ag_names.specs.Ports.{stream_by_name, stream_named, stream_of, same_stream, has_stream, integer_types};

use crate::name::is_same;
use ag_aadl::packages::{Port, PortKind};
use ag_terms::Path;

/// The stream of a port.
#[derive(Clone, Copy, PartialEq, Eq)]
pub enum PortStream {
    /// Integers.
    Int,
    /// Booleans.
    Bool,
    /// Neither: there is nothing that a contract could speak of.
    Absent,
}

const INTEGER_TYPES: &[&str] = &[
    "Integer",
    "Natural",
    "Integer_8",
    "Integer_16",
    "Integer_32",
    "Integer_64",
    "Unsigned_8",
    "Unsigned_16",
    "Unsigned_32",
    "Unsigned_64",
];

/// The stream that a port has, by the name of its type alone: whether some file declares that type isn't asked.
pub fn stream_of(port: &Port) -> PortStream
    ensures { result ≡ stream_of port.now }
{
    match (port.kind, &port.carries) {
        (PortKind::Event, _) | (_, None) => PortStream::Absent,
        (PortKind::Plain | PortKind::EventPlain, Some(path)) => stream_named(path),
    }
}

fn stream_named(path: &Path) -> PortStream
    ensures { result ≡ stream_named path.now.«package» path.now.name.text path.now.body }
{
    match (&path.package, &path.body) {
        (Some(owner), None) if is_base_types(owner.text.as_bytes()) => {
            stream_by_name(path.name.text.as_bytes())
        }
        _ => PortStream::Absent,
    }
}

#[tactic(auto, unfolding(crate::specs::Ports::integer_types))]
fn stream_by_name(name: &[u8]) -> PortStream
    ensures { result ≡ stream_by_name name.now }
{
    if is_same(name, b"Boolean") {
        return PortStream::Bool;
    }
    if is_one_of(name, INTEGER_TYPES) {
        PortStream::Int
    } else {
        PortStream::Absent
    }
}

fn is_one_of(name: &[u8], names: &[&str]) -> bool
    ensures { result ≡ list_any (λ t. same name.now t.now) names.now }
{
    for one in names {
        if is_same(name, one.as_bytes()) {
            return true;
        }
    }
    false
}

/// Whether the name is that of the package of the predeclared types.
pub fn is_base_types(name: &[u8]) -> bool
    ensures { result ≡ same name.now (codes "Base_Types") }
{
    is_same(name, b"Base_Types")
}

/// Whether the streams of two ports are of one type, or neither has one.
pub fn have_same_stream(a: &Port, b: &Port) -> bool
    ensures { result ≡ same_stream (stream_of a.now) (stream_of b.now) }
{
    stream_of(a) == stream_of(b)
}

/// Whether a port has a stream.
pub fn has_stream(port: &Port) -> bool
    ensures { result ≡ has_stream port.now }
{
    stream_of(port) != PortStream::Absent
}
