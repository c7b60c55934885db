//! What an expression may name.
ghost use Rattle.std.specs.Prelude.{◌≡◌};
ghost use Rattle.std.specs.Option.{option_copied};
ghost use Rattle.ag_symbols.specs.Seen.{Names, position, var_name, node_name, sought, value_of, node_of, constant_position, is_stream};

use crate::table::{Nodes, Vars};
use ag_terms::{NodeDef, Path, Var};
use std::marker::Model;

/// The streams, constants and nodes that an expression may name. It is seen as these names.
#[derive(Drop)]
pub struct Sight<'a> {
    pub streams: &'a Vars<'a>,
    pub constants: &'a Vars<'a>,
    pub nodes: &'a Nodes<'a>,
}

impl<'a> Model for Sight<'a> {
    ghost use Rattle.std.specs.Coded.{codes};
    ghost use Rattle.ag_terms.specs.contracts.terms.Term as term;
    ghost use Rattle.ag_symbols.specs.Seen.{Names};

    ghost Value = { Names };

    ghost coded = { Prim.hlevel (codes, term.the_row.coded) };

    ghost view = { λ s. record { streams = s.streams.now; constants = s.constants.now; nodes = s.nodes.now } };
}

impl<'a> Sight<'a> {
    /// The stream or constant that a name in an expression is.
    pub fn value_of(&self, path: &Path) -> Option<&'a Var>
        ensures { option_copied result ≡ value_of self.now path.now }
    {
        match self.streams.of_path(path) {
            Some(stream) => Some(stream),
            None => self.constants.of_path(path),
        }
    }

    /// The node that a call calls.
    pub fn node_of(&self, path: &Path) -> Option<&'a NodeDef>
        ensures { option_copied result ≡ node_of self.now path.now }
    {
        self.nodes.of_path(path)
    }

    /// The position of a stream of that name.
    pub fn stream(&self, path: &Path) -> Option<usize>
        ensures { result ≡ position var_name (sought path.now path.now.«package») self.now.streams }
    {
        self.streams.position(path)
    }

    /// The position of a constant of that name, which is no stream's.
    pub fn constant(&self, path: &Path) -> Option<usize>
        ensures { result ≡ constant_position self.now (sought path.now path.now.«package») }
    {
        match self.streams.position(path) {
            Some(_) => None,
            None => self.constants.position(path),
        }
    }

    /// The position of a node of that name.
    pub fn node(&self, path: &Path) -> Option<usize>
        ensures { result ≡ position node_name (sought path.now path.now.«package») self.now.nodes }
    {
        self.nodes.position(path)
    }
}
