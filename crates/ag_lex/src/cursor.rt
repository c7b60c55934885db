//! A position in a file with its place.
ghost use Rattle.std.specs.Prelude.{◌≡◌, ◌+◌, ◌^◌, ◌<◌, ℕ, List, [], ◌++◌, length};
ghost use Rattle.ag_lex.specs.Places.{place_of};

use crate::token::Token;
use ag_base::Place;

#[derive(Clone, Copy)]
pub struct Cursor {
    /// How many of the file's bytes stand before.
    pub at: usize,
    pub place: Place,
}

impl Cursor {
    /// The start of a file.
    #[tactic(auto, unfolding(crate::specs::Places::place_of))]
    pub fn of_file(file: u32) -> Cursor
        ensures at { result.at ≡ 0 }
        ensures place { result.place ≡ place_of file [] }
    {
        Cursor {
            at: 0,
            place: Place {
                file,
                line: 1,
                column: 1,
            },
        }
    }

    /// Behind the opening mark of an annex.
    pub fn of_annex(annex: &Token) -> Cursor
        requires { annex.now.place.column + 3 < 2 ^ 32 }
        ensures at { result.at ≡ annex.now.start + 3 }
        ensures place { result.place ≡ record { file = annex.now.place.file; line = annex.now.place.line; column = annex.now.place.column + 3 } }
    {
        Cursor {
            at: annex.start as usize + 3,
            place: Place {
                file: annex.place.file,
                line: annex.place.line,
                column: annex.place.column + 3,
            },
        }
    }

    /// Behind these bytes, which stand at the cursor.
    pub fn after(self, over: &[u8]) -> Cursor
        requires room { self.at + length over.now < 2 ^ 64 }
        requires lines { self.place.line + length over.now < 2 ^ 32 }
        requires columns { self.place.column + length over.now < 2 ^ 32 }
        ensures at { result.at ≡ self.at + length over.now }
        ensures place { (before : List ℕ) → self.place ≡ place_of self.place.file before → result.place ≡ place_of self.place.file (before ++ over.now) }
    {
        let mut place = self.place;
        for byte in over {
            if *byte == b'\n' {
                place.line += 1;
                place.column = 1;
            } else {
                place.column += 1;
            }
        }
        Cursor {
            at: self.at + over.len(),
            place,
        }
    }
}
