//! What the ends of connections are.
ghost use Rattle.std.specs.Prelude.{◌≡◌, Some, is_some, IfOk, option_and_then, slice_get};
ghost use Rattle.ag_names.specs.Ends.{end_point, port_in, port_under, end_place, is_allowed};
ghost use Rattle.ag_names.specs.Keys.{FindsAs, sub_entries};
ghost use Rattle.ag_names.specs.Placed.{types};
ghost use Rattle.ag_names.specs.Tables.{own_type_of, sub_type};

use crate::index::{Index, TypeName};
use crate::placed::{ImplementationAt, TypeAt};
use crate::table::{Entry, Key, Table};
use ag_aadl::packages::{Body, End, Frame, Port, Sub};
use ag_base::{OutOfMemory, Place};
use std::alloc::Global;
use std::marker::Model;

/// An end that is there: the subcomponent's position, or none for an own port, the port's position, and the port.
#[derive(Drop)]
pub struct EndPoint<'a> {
    pub sub: Option<usize>,
    pub at: usize,
    pub port: &'a Port,
}

impl<'a> Model for EndPoint<'a> {
    ghost use Rattle.ag_names.specs.Ends.{EndPoint};

    ghost Value = { EndPoint };

    ghost view = { λ j. record { sub = j.sub; at = j.at; port = j.port.now } };
}

/// An implementation among all packages, with its subcomponents by their names.
#[derive(Drop)]
pub struct Component<'a, 'i> {
    pub index: &'i Index<'a>,
    pub implementation: &'i ImplementationAt<'a>,
    /// The number of its own type, if that is there.
    own_type: Option<usize>,
    subs: Table<'a>,
}

impl<'a, 'i> Model for Component<'a, 'i> {
    ghost use Rattle.ag_names.specs.Tables.{Component};
    ghost use Rattle.ag_names.specs.Keys.{AreOwn};

    ghost Value = { Component };

    ghost view = { λ c. record { all = c.index.now; implementation = c.implementation.now } };

    ghost invariant = { λ c. AreOwn c.index.now c.implementation.now c.own_type c.subs };
}

impl<'a, 'i> Component<'a, 'i> {
    pub fn make(
        alloc: Global,
        index: &'i Index<'a>,
        implementation: &'i ImplementationAt<'a>,
    ) -> Result<Component<'a, 'i>, OutOfMemory>
        ensures { IfOk result (λ c. c ≡ record { all = index.now; implementation = implementation.now }) }
    {
        let name = TypeName::own(implementation.owner, implementation.body);
        Ok(Component {
            index,
            implementation,
            own_type: index.type_number(&name),
            subs: sub_table(alloc, implementation.body)?,
        })
    }

    /// Whether its own type is there.
    pub fn has_type(&self) -> bool
        ensures { result ≡ is_some (own_type_of self.now) }
    {
        self.own_type.is_some()
    }

    /// The end of a connection, if it is there.
    pub fn end_point(&self, end: &'a End) -> Option<EndPoint<'a>>
        ensures { result ≡ end_point self.now.all self.now.implementation end.now }
    {
        let port = end.port.text.as_bytes();
        match &end.sub {
            None => self.port_in(None, self.own_type, port),
            Some(sub) => {
                let at = self.subs.find(&Key::name(0, sub.text.as_bytes()));
                self.port_under(at, port)
            }
        }
    }

    // The port of that name of the subcomponent at a position, if there is one.
    fn port_under(&self, at: Option<usize>, port: &'a [u8]) -> Option<EndPoint<'a>>
        ensures { result ≡ port_under self.now.all self.now.implementation at port.now }
    {
        let at = at?;
        let entry = self.implementation;
        let body: &'a Body = entry.body;
        let sub = body.subs.as_slice().get(at)?;
        self.port_in(Some(at), self.type_of(sub), port)
    }

    // The port of that name of the type with a number.
    fn port_in(&self, sub: Option<usize>, of: Option<usize>, port: &'a [u8]) -> Option<EndPoint<'a>>
        ensures { result ≡ port_in sub (option_and_then (slice_get (types self.now.all)) of) port.now }
    {
        let number = of?;
        let at = self.index.port_position(number, port)?;
        let entry: &TypeAt<'a> = self.index.types().get(number)?;
        let frame: &'a Frame = entry.frame;
        let port = frame.ports.as_slice().get(at)?;
        Some(EndPoint { sub, at, port })
    }

    // The number of a subcomponent's type.
    fn type_of(&self, sub: &'a Sub) -> Option<usize>
        ensures { option_and_then (slice_get (types self.now.all)) result ≡ sub_type self.now sub.now }
    {
        match &sub.of {
            None => None,
            Some(path) => {
                let entry = self.implementation;
                let name = TypeName::named(entry.owner, sub.category, path);
                self.index.type_number(&name)
            }
        }
    }
}

// The subcomponents by their names.
#[tactic(auto, using(crate::proofs::Entries::entries_more))]
fn sub_table<'a>(alloc: Global, body: &'a Body) -> Result<Table<'a>, OutOfMemory>
    ensures { IfOk result (FindsAs (sub_entries body.now)) }
{
    let mut entries = Vec::new(alloc);
    for (at, sub) in body.subs.as_slice().iter().enumerate() {
        let key = Key::name(0, sub.name.text.as_bytes());
        entries.push(Entry { key, at })?;
    }
    Table::make(entries)
}

/// The place of an end: that of its first name.
pub fn end_place(end: &End) -> Place
    ensures { result ≡ end_place end.now }
{
    match &end.sub {
        None => end.port.place,
        Some(sub) => sub.place,
    }
}

/// Whether a connection may lead from one end to another.
pub fn is_allowed(source: &EndPoint<'_>, target: &EndPoint<'_>) -> bool
    ensures { result ≡ is_allowed source.now target.now }
{
    let (outward, to_outward) = (source.port.outward, target.port.outward);
    match (source.sub, target.sub) {
        (None, None) => !outward && to_outward,
        (None, Some(_)) => !outward && !to_outward,
        (Some(_), None) => outward && to_outward,
        (Some(s), Some(t)) => s != t && outward && !to_outward,
    }
}
