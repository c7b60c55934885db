//! The symbols of packages.
ghost use Rattle.std.specs.Prelude.{◌≡◌};
ghost use Rattle.ag_print.specs.Layout.{joins_before, joins_behind};
ghost use Rattle.ag_print.specs.Written.{symbol_bytes, symbol_word};

#[derive(Clone, Copy)]
pub enum Symbol {
    /// `::`
    Colons,
    /// `.`
    Dot,
    /// `;`
    Semicolon,
    /// `,`
    Comma,
    /// `:`
    Colon,
    /// `->`
    Arrow,
}

impl Symbol {
    pub fn as_str(self) -> &'static str
        ensures { result.now ≡ symbol_bytes self }
    {
        match self {
            Symbol::Colons => "::",
            Symbol::Dot => ".",
            Symbol::Semicolon => ";",
            Symbol::Comma => ",",
            Symbol::Colon => ":",
            Symbol::Arrow => "->",
        }
    }

    /// Whether no space stands before it.
    pub fn joins_before(self) -> bool
        ensures { result ≡ joins_before (symbol_word self) }
    {
        match self {
            Symbol::Colons | Symbol::Dot | Symbol::Semicolon | Symbol::Comma => true,
            Symbol::Colon | Symbol::Arrow => false,
        }
    }

    /// Whether no space stands behind it.
    pub fn joins_behind(self) -> bool
        ensures { result ≡ joins_behind (symbol_word self) }
    {
        match self {
            Symbol::Colons | Symbol::Dot => true,
            Symbol::Semicolon | Symbol::Comma | Symbol::Colon | Symbol::Arrow => false,
        }
    }
}
