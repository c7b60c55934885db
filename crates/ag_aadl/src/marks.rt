//! The marks that the grammar gives its terminals: they say what a token is where it stands.

/// What no rule and no package speaks of.
pub const UNMARKED: u8 = 0;

/// The word `package`.
pub const PACKAGE_MARK: u8 = 1;

/// A name of a package's name, or of a classifier's but for the one behind the dot.
pub const PART_MARK: u8 = 2;

/// `::` between such names.
pub const JOIN_MARK: u8 = 3;

/// `with`, and `,` in its list.
pub const IMPORT_MARK: u8 = 4;

/// The word that a declaration begins with, but a foreign one.
pub const ITEM_MARK: u8 = 5;

/// In the head of an implementation the type's name.
pub const OWNER_MARK: u8 = 6;

/// The name that a declaration declares: of an implementation the one behind the dot.
pub const DECLARED_MARK: u8 = 7;

/// A feature's name.
pub const FEATURE_MARK: u8 = 8;

/// `in` or `out` of a port.
pub const DIRECTION_MARK: u8 = 9;

/// `event` of a port.
pub const EVENT_MARK: u8 = 10;

/// `data` of a port.
pub const DATA_MARK: u8 = 11;

/// The name behind the dot of a classifier.
pub const CLASS_BODY_MARK: u8 = 12;

/// A subcomponent's name.
pub const SUB_MARK: u8 = 13;

/// The category of a subcomponent.
pub const KIND_MARK: u8 = 14;

/// A connection's name.
pub const CONNECTION_MARK: u8 = 15;

/// The first name of a connection's end.
pub const SPOT_MARK: u8 = 16;

/// The name behind the dot of a connection's end.
pub const SPOT_PORT_MARK: u8 = 17;

/// The name behind `annex`.
pub const ANNEX_NAME_MARK: u8 = 18;

/// An annex's text.
pub const ANNEX_TEXT_MARK: u8 = 19;

/// `end` of a package.
pub const END_MARK: u8 = 20;

/// Behind `end` of an implementation the type's name.
pub const END_OWNER_MARK: u8 = 21;

/// Behind `end` of a declaration its own name.
pub const END_NAME_MARK: u8 = 22;

/// `;` behind the name at a package's end.
pub const CLOSE_MARK: u8 = 23;

/// The word `features`.
pub const FEATURES_MARK: u8 = 24;

/// The word `flows`.
pub const FLOWS_MARK: u8 = 25;

/// The word `properties`.
pub const PROPERTIES_MARK: u8 = 26;

/// The word `subcomponents`.
pub const SUBCOMPONENTS_MARK: u8 = 27;

/// The word `connections`.
pub const CONNECTIONS_MARK: u8 = 28;
