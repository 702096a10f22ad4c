//! The inputs of a distribution run, and what they are read as.

ghost use Rattle.std.specs.Prelude.{◌≡◌, ℕ, List};
ghost use Rattle.run_inputs.specs.Inputs.{map_inputs};

use cwr_share::Registry;
use line_split::Usage;
use tis_tree::TisTable;

/// One of each input of a distribution run: its path, say, or its bytes.
#[derive(Debug, Drop)]
pub struct Inputs<T> {
    /// The table of territories.
    pub territories: T,
    /// The table of payees, where there is one.
    pub payees: Option<T>,
    /// The registrations, a CWR file.
    pub registrations: T,
    /// The table of usage lines.
    pub usage: T,
}

impl<T> Inputs<T> {
    /// The same, lent.
    pub fn lent<'a>(&'a self) -> Inputs<&'a T>
        ensures { map_inputs (λ lent. lent.now) result ≡ self.entry.now }
    {
        Inputs {
            territories: &self.territories,
            payees: self.payees.as_ref(),
            registrations: &self.registrations,
            usage: &self.usage,
        }
    }
}

/// What the inputs of a run are read as.
#[derive(Drop)]
pub struct Tables {
    /// The territories.
    pub territories: TisTable,
    /// What parties claim of works, and who is paid it.
    pub registry: Registry,
    /// The usage lines.
    pub usage: Usage,
}

/// The bytes of an input, lent or given away.
pub trait Input {
    // these bytes
    ghost bytes: { Self → List ℕ };

    fn bytes(&self) -> &[u8]
        ensures { result.now ≡ bytes self.now };
}

impl Input for &[u8] {
    ghost bytes = { λ lent. lent.now };

    fn bytes(&self) -> &[u8] {
        self
    }
}

impl Input for Vec<u8> {
    ghost bytes = { λ given. given.items };

    fn bytes(&self) -> &[u8] {
        self.as_slice()
    }
}

impl<I: Input> Input for &I {
    ghost bytes = { λ lent. I.bytes lent.now };

    fn bytes(&self) -> &[u8] {
        (*self).bytes()
    }
}
