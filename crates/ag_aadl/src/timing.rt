//! The timing of connections isn't `delayed`.
ghost use Rattle.std.specs.Prelude.{◌≡◌, Result, Ok, Err};
ghost use Rattle.ag_aadl.specs.Rules.{region_of, watched_name, watched_after, value_after, timing_inside, obey_timing};

use crate::marked::Marked;
use crate::marks::{PROPERTIES_MARK, SPOT_MARK, SPOT_PORT_MARK, UNMARKED};
use crate::terminals::{COLONS, GIVES, NAME};
use crate::unsupported::DELAYED;
use crate::words::{own_bytes, same};
use ag_base::{Refusal, Rule, Word};

/// Where a timing is looked for.
#[derive(Clone, Copy, PartialEq, Eq)]
pub enum Region {
    Nothing,
    Connection,
    Properties,
}

/// What the last tokens were, as far as the property's name needs it.
#[derive(Clone, Copy, PartialEq, Eq)]
pub enum Watched {
    Nothing,
    /// `Communication_Properties`.
    SetName,
    /// `Communication_Properties::`.
    InSet,
    /// `::` behind anything else.
    Elsewhere,
    /// `Timing`, alone or behind `Communication_Properties::`.
    Timing,
}

/// What is known of a timing.
#[derive(Clone, Copy)]
pub struct Timing {
    pub region: Region,
    pub watched: Watched,
    /// Whether the next name is the value.
    pub value: bool,
}

fn region_of(mark: u8) -> Region
    ensures { result ≡ region_of mark }
{
    match mark {
        SPOT_MARK | SPOT_PORT_MARK => Region::Connection,
        PROPERTIES_MARK => Region::Properties,
        _ => Region::Nothing,
    }
}

fn watched_name(watched: Watched, text: &[u8]) -> Watched
    ensures { result ≡ watched_name watched text.now }
{
    if same(text, b"Timing") {
        if watched == Watched::Elsewhere {
            Watched::Nothing
        } else {
            Watched::Timing
        }
    } else if same(text, b"Communication_Properties") {
        Watched::SetName
    } else {
        Watched::Nothing
    }
}

fn watched_after(watched: Watched, terminal: u8, text: &[u8]) -> Watched
    ensures { result ≡ watched_after watched terminal text.now }
{
    match terminal {
        NAME => watched_name(watched, text),
        COLONS if watched == Watched::SetName => Watched::InSet,
        COLONS => Watched::Elsewhere,
        _ => Watched::Nothing,
    }
}

impl Timing {
    fn value_after(self, terminal: u8) -> bool
        ensures { result ≡ value_after self terminal }
    {
        match terminal {
            GIVES if self.watched == Watched::Timing => true,
            NAME => false,
            _ => self.value && self.region == Region::Connection,
        }
    }

    fn inside(self, text: &[u8], marked: Marked) -> Result<Timing, Refusal>
        ensures { result ≡ timing_inside text.now self marked }
    {
        if self.value && marked.terminal == NAME && same(text, b"delayed") {
            return Err(Refusal {
                place: marked.token.place,
                rule: Rule::Unsupported(Word { number: DELAYED }),
            });
        }
        Ok(Timing {
            region: self.region,
            watched: watched_after(self.watched, marked.terminal, text),
            value: self.value_after(marked.terminal),
        })
    }

    /// What is known behind a token.
    pub fn obey(self, bytes: &[u8], marked: Marked) -> Result<Timing, Refusal>
        ensures { result ≡ obey_timing bytes.now self marked }
    {
        if marked.mark != UNMARKED {
            return Ok(Timing {
                region: region_of(marked.mark),
                watched: Watched::Nothing,
                value: false,
            });
        }
        if self.region == Region::Nothing {
            return Ok(self);
        }
        self.inside(own_bytes(bytes, &marked.token), marked)
    }
}
