//! What stands between the fields of a row.

ghost use Rattle.std.specs.Prelude.{◌≡◌};
ghost use Rattle.export_rows.specs.Places.{delimiter_byte};

/// What stands between the fields of a row.
#[derive(Clone, Copy, Debug, PartialEq, Eq)]
pub enum Delimiter {
    /// `,`
    Comma,
    /// `;`
    Semicolon,
    /// A tab.
    Tab,
    /// `|`
    Pipe,
}

impl Delimiter {
    /// Its byte.
    pub fn byte(self) -> u8
        ensures { result ≡ delimiter_byte self }
    {
        match self {
            Delimiter::Comma => b',',
            Delimiter::Semicolon => b';',
            Delimiter::Tab => b'\t',
            Delimiter::Pipe => b'|',
        }
    }
}
