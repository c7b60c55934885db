//! The place at which a text that is no package departs from the grammar and its rules.
ghost use Rattle.std.specs.Prelude.{◌≡◌, ◌≤◌, length, take, IfOk};
ghost use Rattle.ag_small.specs.Places.{IsPlaceIn, place_behind};

use crate::walk::{Stop, package};
use ag_base::{OutOfMemory, Place};
use std::alloc::Global;

/// The place of the first token with which no package can begin, or of the first byte there that
/// begins no token. Where the text ends too early it is the place of its end.
///
/// That it is a place in the text is proved; that it is this one, tests show.
pub fn place_of_refusal(alloc: Global, bytes: &[u8]) -> Result<Place, OutOfMemory>
    requires { length bytes.now ≤ 4194304 }
    ensures { IfOk result (IsPlaceIn bytes.now) }
{
    match package(alloc, bytes) {
        Err(Stop::At(n)) => Ok(place_at(bytes, n)),
        Err(Stop::OutOfMemory) => Err(OutOfMemory),
        Ok(end) => Ok(place_at(bytes, end)),
    }
}

/// The place of the n-th byte, from 0.
fn place_at(bytes: &[u8], n: usize) -> Place
    requires within { n ≤ length bytes.now }
    requires short { length bytes.now ≤ 4194304 }
    ensures { result ≡ place_behind (take n bytes.now) }
{
    let mut place = Place {
        file: 0,
        line: 1,
        column: 1,
    };
    for byte in &bytes[..n] {
        if *byte == b'\n' {
            place.line += 1;
            place.column = 1;
        } else {
            place.column += 1;
        }
    }
    place
}
