//! A work as a key.

ghost use Rattle.std.specs.Prelude.{ℕ, ◌≡◌, ◌∷◌, [], List, Some, nat_eq};
ghost use Rattle.std.proofs.Common.{ap, rules};
ghost use Rattle.std.specs.Cmp.{partial_equiv_from_equiv};
ghost use Rattle.std.specs.Cmp.Lexicographic.{bytes_decides, nat_list_cmp_total, nat_list_eq_equiv, pointwise, slice_cmp, texts_po, texts_ties};
ghost use Rattle.std.specs.Ordering.{nat_cmp};

use std::cmp::Ordering;
use std::hash::{Hash, Hasher};
use std::marker::Model;

/// A text that is lent, such as a work number.
#[derive(Debug, Drop)]
pub struct Name<'a> {
    text: &'a [u8],
}

impl<'a> Model for Name<'a> {
    ghost use Rattle.std.specs.Prelude.{ℕ, List};

    ghost Value = { List ℕ };

    ghost view = { λ name. name.text.now };
}

impl<'a> Name<'a> {
    /// The name with this text.
    pub(crate) fn of(text: &'a [u8]) -> Name<'a>
        ensures { result ≡ text.now }
    {
        Name { text }
    }

    /// The text of the name.
    pub fn as_slice(&self) -> &'a [u8]
        ensures { result.now ≡ self.now }
    {
        self.text
    }
}

impl PartialEq for Name<'_> {
    ghost eq = { pointwise nat_eq };

    ghost laws = { partial_equiv_from_equiv nat_list_eq_equiv };

    fn eq(&self, other: &Self) -> bool {
        self.as_slice() == other.as_slice()
    }
}

impl Eq for Name<'_> {
    ghost laws = { nat_list_eq_equiv };
}

impl PartialOrd for Name<'_> {
    ghost partial_cmp = { λ name other. Some (slice_cmp nat_cmp name other) };

    ghost laws = { texts_po };

    fn partial_cmp(&self, other: &Self) -> Option<Ordering> {
        Some(self.cmp(other))
    }
}

/// In byte order.
impl Ord for Name<'_> {
    ghost cmp = { slice_cmp nat_cmp };

    ghost total = { nat_list_cmp_total };

    ghost matches_partial_cmp = { Prim.search rules };

    ghost matches_eq = { texts_ties };

    fn cmp(&self, other: &Self) -> Ordering {
        self.as_slice().cmp(other.as_slice())
    }
}

/// All bytes are written at one go, where those of a slice are written one by one.
impl Hash for Name<'_> {
    ghost hash_input = { λ name. name ∷ [] };

    ghost respects_eq = { λ name other same. ap (λ (text : List ℕ). text ∷ []) ((bytes_decides name other).0 same) };

    fn hash<H: Hasher>(&self, state: &mut H) {
        state.write(self.as_slice());
    }
}
