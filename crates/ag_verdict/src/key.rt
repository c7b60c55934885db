//! Obligations and their names.
ghost use Rattle.std.specs.Prelude.{◌≡◌, IfOk};

use ag_base::{OutOfMemory, Text};
use ag_stream::Problem;

/// What an obligation is about.
#[derive(Clone, Copy, PartialEq)]
pub enum KeyKind {
    /// That a component's assumption holds where it is used.
    Assume,
    Lemma,
    Guarantee,
    /// That the premises can be kept.
    Consistent,
}

/// The name of an obligation: the layer, as `Package::Type.implementation`, the component whose
/// clause it is, if it isn't the layer's own, and the clause's number from 1 within its kind.
/// The one of kind `Consistent` has number 1.
#[derive(Drop)]
pub struct Key {
    pub layer: Text,
    pub member: Option<Text>,
    pub kind: KeyKind,
    pub number: u32,
}

impl Key {
    /// The same key once more. Its texts aren't copied.
    pub fn share(&self) -> Result<Key, OutOfMemory>
        ensures { IfOk result (λ key. key ≡ self.now) }
    {
        let layer = self.layer.share()?;
        let member = match &self.member {
            None => None,
            Some(name) => Some(name.share()?),
        };
        Ok(Key {
            layer,
            member,
            kind: self.kind,
            number: self.number,
        })
    }
}

/// A problem under its name, and the position of its layer.
#[derive(Drop)]
pub struct Obligation {
    pub key: Key,
    pub layer: u32,
    pub problem: Problem,
}
