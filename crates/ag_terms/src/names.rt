//! Names as they are written.

use ag_base::{Place, Text};

/// A name as it is written, and the place of its first byte. The parts of a package's name stand
/// apart by `::`, without spaces.
#[derive(Drop)]
pub struct Ident {
    pub text: Text,
    pub place: Place,
}

/// A use of a classifier: `package::name.body`.
#[derive(Drop)]
pub struct Path {
    pub package: Option<Ident>,
    pub name: Ident,
    pub body: Option<Ident>,
}
