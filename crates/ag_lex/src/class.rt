//! Kinds of bytes, and the longest front of one kind.
ghost use Rattle.std.specs.Prelude.{◌≡◌, ◌≤◌, length};
ghost use Rattle.std.specs.List.{prefix_len};
ghost use Rattle.ag_lex.specs.Characters.{begins};
ghost use Rattle.ag_lex.specs.Scanning.{has};

#[derive(Clone, Copy)]
pub enum Class {
    Space,
    Letter,
    Digit,
    /// A byte that goes on a name.
    Word,
    /// A byte that goes on a number of a file.
    Based,
    /// A byte of a comment.
    Line,
    /// A byte between quotes.
    Text,
    /// A symbol by itself.
    Sign,
}

impl Class {
    pub fn has(self, byte: u8) -> bool
        ensures { result ≡ has self byte }
    {
        match self {
            Class::Space => matches!(byte, b'\t' | b'\n' | b'\r' | b' '),
            Class::Letter => byte.is_ascii_alphabetic(),
            Class::Digit => byte.is_ascii_digit(),
            Class::Word => byte.is_ascii_alphanumeric() || byte == b'_',
            Class::Based => byte.is_ascii_alphanumeric() || byte == b'_' || byte == b'#',
            Class::Line => byte != b'\n',
            Class::Text => byte != b'"' && byte != b'\n',
            Class::Sign => byte >= 33
                && byte <= 126
                && !(byte.is_ascii_alphanumeric() || byte == b'"'),
        }
    }

    /// Whether the first byte is of the class.
    pub fn begins(self, bytes: &[u8]) -> bool
        ensures { result ≡ begins (has self) bytes.now }
    {
        match bytes {
            [first, ..] => self.has(*first),
            [] => false,
        }
    }

    /// How many bytes at the front are of the class.
    pub fn front_len(self, bytes: &[u8]) -> usize
        ensures value { result ≡ prefix_len (has self) bytes.now }
        ensures within { result ≤ length bytes.now }
    {
        let mut len = 0;
        while len < bytes.len() && self.has(bytes[len]) {
            len += 1;
        }
        len
    }
}
