//! Why money goes to the residue.

ghost use Rattle.std.specs.Prelude.{◌≡◌};
ghost use Rattle.line_split.specs.ReasonTexts.{reason_text};

/// Why a line's residue is what it is: the first of these that holds.
#[derive(Clone, Copy, Debug, PartialEq, Eq)]
pub enum Reason {
    /// No registration in force has the line's work.
    Work,
    /// The line's territory is not in the table of territories.
    Land,
    /// The claims come to more than 100.06 per cent.
    Over,
    /// What the claims leave open, rounding included.
    Open,
}

impl Reason {
    /// Its word in statements and explanations: `WORK`, `LAND`, `OVER` or `OPEN`.
    pub fn word(self) -> &'static str
        ensures { result.now ≡ reason_text self }
    {
        match self {
            Reason::Work => "WORK",
            Reason::Land => "LAND",
            Reason::Over => "OVER",
            Reason::Open => "OPEN",
        }
    }
}
