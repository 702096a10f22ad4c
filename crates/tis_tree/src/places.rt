//! A set of places, each below 2048, as bits.

ghost use Rattle.std.specs.Prelude.{◌≡◌, ◌<◌, ◌||◌, ◌==◌, ℕ, false};
ghost use Rattle.tis_tree.specs.Compiled.{has_bit};
ghost use Rattle.tis_tree.specs.declared.TheConstants.{MOST_ROWS};

/// How many words a set has. 32 have a bit for each place. With one more, the words of neighbouring sets
/// that hold the same places are no power of two apart, so that a cache keeps more of them.
const WORDS: usize = 33;

/// A set of places of rows.
#[derive(Drop)]
pub(crate) struct Places {
    pub(crate) words: [u64; WORDS],
}

impl Places {
    /// The set that has no place.
    pub(crate) fn none() -> Places
        ensures { (place : ℕ) → place < MOST_ROWS → has_bit result.words place ≡ false }
    {
        Places { words: [0; WORDS] }
    }

    /// Whether the set has a place.
    pub(crate) fn has(&self, place: u16) -> bool
        requires { place < MOST_ROWS }
        ensures { result ≡ has_bit self.now.words place }
    {
        self.words[place as usize / 64] >> (place % 64) & 1 == 1
    }

    /// Adds a place.
    pub(crate) fn add(&mut self, place: u16)
        requires { place < MOST_ROWS }
        ensures { (other : ℕ) → other < MOST_ROWS → has_bit self.new.words other ≡ (has_bit self.old.words other || (other == place)) }
    {
        self.words[place as usize / 64] |= 1 << (place % 64);
    }

    /// Adds all places of a set.
    pub(crate) fn add_all(&mut self, places: &Places)
        ensures { (place : ℕ) → place < MOST_ROWS → has_bit self.new.words place ≡ (has_bit self.old.words place || has_bit places.now.words place) }
    {
        for word in 0..WORDS {
            self.words[word] |= places.words[word];
        }
    }
}
