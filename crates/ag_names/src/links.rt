//! The positions that names stand for, as they are answered.

use ag_base::List;

/// Where a subcomponent's type and implementation stand.
#[derive(Clone, Copy)]
pub struct SubLink {
    /// The position of the package in which the subcomponent stands.
    pub package: u32,
    /// The position of its implementation among the package's declarations.
    pub item: u32,
    /// Its own position among the subcomponents.
    pub sub: u32,
    /// The positions of its type's package and of the type there, if it has one.
    pub frame: Option<(u32, u32)>,
    /// The same of the implementation that it names, if it names one.
    pub body: Option<(u32, u32)>,
}

/// What a connection's ends are.
#[derive(Clone, Copy)]
pub struct WireLink {
    /// The position of the package in which the connection stands.
    pub package: u32,
    /// The position of its implementation among the package's declarations.
    pub item: u32,
    /// Its own position among the connections.
    pub wire: u32,
    /// The position of the subcomponent, or none for an own port, and that of the port in its type.
    pub from: (Option<u32>, u32),
    /// The same of the other end.
    pub to: (Option<u32>, u32),
}

/// All links, by packages, implementations, and subcomponents or connections, each in order.
#[derive(Drop)]
pub struct Links {
    pub subs: List<SubLink>,
    pub wires: List<WireLink>,
}
