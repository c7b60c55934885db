//! Places in a text, and the rules that are broken there.
ghost use Rattle.std.specs.Prelude.{◌≡◌, true, false};
ghost use Rattle.ag_base.specs.Rules.{rank, word_of, is_before, rule_before, comes_before};
ghost use Rattle.ag_base.specs.declared.place.Refusal.{Refusal};

/// A place in a file: the file's position among those that were read, and line and column from 1.
/// A line ends at a line feed, and columns count bytes.
#[derive(Clone, Copy, Debug, PartialEq, Eq)]
pub struct Place {
    pub file: u32,
    pub line: u32,
    pub column: u32,
}

/// A word that the language has and this profile doesn't: its position in the profile's list.
#[derive(Clone, Copy, Debug, PartialEq, Eq)]
pub struct Word {
    pub number: u8,
}

/// A rule of the language that a text may break. They stand in the order in which, at one place,
/// the first one is answered.
#[derive(Clone, Copy, Debug, PartialEq, Eq)]
pub enum Rule {
    NotUtf8,
    BadByte,
    OpenString,
    OpenAnnex,
    LongName,
    WideNumber,
    TooDeep,
    Unsupported(Word),
    Expected,
    EndName,
    Twice,
    Misplaced,
    NoPackage,
    NotImported,
    NoClassifier,
    NoPort,
    Direction,
    PortType,
    TwoSources,
    Recursive,
    Unknown,
    Mismatch,
    Arity,
    NodeRecursion,
    NotLinear,
    BadDivisor,
    Coefficient,
    TooManyStreams,
    TooManyParts,
    Cycle,
    TooManyObligations,
    /// The text may be right, but this version doesn't handle it yet.
    NotBuilt,
}

impl Place {
    /// Whether it stands before another one: files in their order, in each the lines, in a line the columns.
    pub fn is_before(self, other: Place) -> bool
        ensures { result ≡ is_before self other }
    {
        self.file < other.file
            || (self.file == other.file
                && (self.line < other.line
                    || (self.line == other.line && self.column < other.column)))
    }
}

impl Rule {
    /// Its number in the order of the rules.
    pub fn rank(self) -> u8
        ensures { result ≡ rank self }
    {
        match self {
            Rule::NotUtf8 => 0,
            Rule::BadByte => 1,
            Rule::OpenString => 2,
            Rule::OpenAnnex => 3,
            Rule::LongName => 4,
            Rule::WideNumber => 5,
            Rule::TooDeep => 6,
            Rule::Unsupported(_) => 7,
            Rule::Expected => 8,
            Rule::EndName => 9,
            Rule::Twice => 10,
            Rule::Misplaced => 11,
            Rule::NoPackage => 12,
            Rule::NotImported => 13,
            Rule::NoClassifier => 14,
            Rule::NoPort => 15,
            Rule::Direction => 16,
            Rule::PortType => 17,
            Rule::TwoSources => 18,
            Rule::Recursive => 19,
            Rule::Unknown => 20,
            Rule::Mismatch => 21,
            Rule::Arity => 22,
            Rule::NodeRecursion => 23,
            Rule::NotLinear => 24,
            Rule::BadDivisor => 25,
            Rule::Coefficient => 26,
            Rule::TooManyStreams => 27,
            Rule::TooManyParts => 28,
            Rule::Cycle => 29,
            Rule::TooManyObligations => 30,
            Rule::NotBuilt => 31,
        }
    }

    /// The number of the word that it is about, or 0.
    fn word(self) -> u8
        ensures { result ≡ word_of self }
    {
        match self {
            Rule::Unsupported(word) => word.number,
            _ => 0,
        }
    }

    /// Whether it is answered before another one where both are broken at one place.
    pub fn is_before(self, other: Rule) -> bool
        ensures { result ≡ rule_before self other }
    {
        self.rank() < other.rank() || (self.rank() == other.rank() && self.word() < other.word())
    }
}

/// A broken rule and its place.
#[derive(Clone, Copy, Debug, PartialEq, Eq)]
pub struct Refusal {
    pub place: Place,
    pub rule: Rule,
}

impl Refusal {
    /// Whether it is answered before another one: by their places, and at one place by their rules.
    pub fn comes_before(self, other: Refusal) -> bool
        ensures { result ≡ comes_before self other }
    {
        self.place.is_before(other.place)
            || (self.place == other.place && self.rule.is_before(other.rule))
    }
}

/// Refusals stand in a row by this order: of what is broken one at most is the first.
#[tactic(auto, using(crate::proofs::Ordered::transitive, crate::proofs::Ordered::total))]
pub fn refusals_are_ordered()
    ensures never_before_itself { (r : Refusal) → comes_before r r ≡ false }
    ensures transitive { (r s t : Refusal) → comes_before r s ≡ true → comes_before s t ≡ true → comes_before r t ≡ true }
    ensures total { (r s : Refusal) → comes_before r s ≡ false → comes_before s r ≡ false → r ≡ s }
{}

/// Why there is no model.
#[derive(Clone, Copy, Debug, PartialEq, Eq)]
pub enum Refused {
    Model(Refusal),
    OutOfMemory,
}
