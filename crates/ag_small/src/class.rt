//! Kinds of bytes, and the longest front of one kind.
ghost use Rattle.std.specs.Prelude.{◌≡◌, ◌≤◌, length};
ghost use Rattle.std.specs.List.{prefix_len, list_all};
ghost use Rattle.ag_small.specs.Characters.{begins, same};
ghost use Rattle.ag_small.specs.Reading.{has, after_space};

#[derive(Clone, Copy)]
pub enum Class {
    Space,
    Letter,
    Word,
    Label,
    Quote,
}

impl Class {
    pub fn has(self, byte: u8) -> bool
        ensures { result ≡ has self byte }
    {
        match self {
            Class::Space => matches!(byte, b'\t' | b'\n' | b'\r' | b' '),
            Class::Letter => byte.is_ascii_alphabetic(),
            Class::Word => byte.is_ascii_alphanumeric() || byte == b'_',
            Class::Label => matches!(byte, 32..=126) && byte != b'"',
            Class::Quote => byte == b'"',
        }
    }

    /// Whether the first byte is of the class.
    pub fn begins(self, bytes: &[u8]) -> bool
        ensures { result ≡ begins (has self) bytes.now }
    {
        match bytes {
            [first, ..] => self.has(*first),
            [] => false,
        }
    }

    /// Whether each byte is of the class.
    pub fn holds_all(self, bytes: &[u8]) -> bool
        ensures { result ≡ list_all (has self) bytes.now }
    {
        self.front_len(bytes) == bytes.len()
    }

    /// How many bytes at the front are of the class.
    pub fn front_len(self, bytes: &[u8]) -> usize
        ensures value { result ≡ prefix_len (has self) bytes.now }
        ensures within { result ≤ length bytes.now }
    {
        let mut len = 0;
        while len < bytes.len() && self.has(bytes[len]) {
            len += 1;
        }
        len
    }
}

/// The bytes behind white space.
#[tactic(auto, unfolding(crate::specs::Reading::after_space))]
pub fn after_space(bytes: &[u8]) -> &[u8]
    ensures { result.now ≡ after_space bytes.now }
{
    &bytes[Class::Space.front_len(bytes)..]
}

/// Whether two texts differ in case at most.
pub fn same(a: &[u8], b: &[u8]) -> bool
    ensures { result ≡ same a.now b.now }
{
    a.eq_ignore_ascii_case(b)
}
