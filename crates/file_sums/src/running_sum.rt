//! The SHA-256 of bytes that come piece by piece.

ghost use Rattle.std.specs.Prelude.{◌≡◌, ◌++◌, []};
ghost use Rattle.sha2.specs.Sha256.{sha256};

use boxcar::tag::{Names, Tag};
use sha2::{Digest, Sha256};
use std::marker::Model;

/// The SHA-256 of the bytes so far. A clause sees those bytes, of which no more is in memory than a block.
#[derive(Drop)]
pub struct RunningSum {
    sum: Sha256,
    /// The bytes, for proofs alone: it takes no memory.
    taken: Tag,
}

impl Model for RunningSum {
    ghost use Rattle.std.specs.Prelude.{ℕ, List};
    ghost use Rattle.sha2.specs.Hashers.{Holds256};

    ghost Value = { List ℕ };

    ghost view = { λ b. b.taken.numbers };

    ghost invariant = { λ b. Holds256 b.sum b.taken.numbers };
}

impl RunningSum {
    /// Of no bytes yet.
    pub fn new() -> RunningSum
        ensures { result ≡ [] }
    {
        RunningSum {
            sum: Sha256::new(),
            taken: Tag::empty(),
        }
    }

    /// Takes these bytes too.
    pub fn add(&mut self, bytes: &[u8])
        ensures { self.new ≡ self.old ++ bytes.now }
    {
        self.sum.update(bytes);
        self.taken = with_more(&self.taken, bytes);
    }

    /// The sum of all of them.
    pub fn into_digest(self) -> [u8; 32]
        ensures { result ≡ sha256 self }
    {
        self.sum.finalize()
    }
}

#[derive(Drop)]
struct Longer<'a> {
    before: Tag,
    bytes: &'a [u8],
}

struct Behind;

impl<'a> Names<Longer<'a>> for Behind {
    ghost numbers = { λ longer. longer.before.numbers ++ longer.bytes.now };
}

struct Same;

impl Names<Tag> for Same {
    ghost numbers = { λ tag. tag.numbers };
}

/// Those bytes, and these behind them.
fn with_more(taken: &Tag, bytes: &[u8]) -> Tag
    ensures { result.numbers ≡ taken.now.numbers ++ bytes.now }
{
    let before = Tag::of::<Tag, Same>(taken);
    Tag::of::<Longer<'_>, Behind>(&Longer { before, bytes })
}
