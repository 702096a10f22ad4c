//! Names in tables, and how one is found among them.

ghost use Rattle.std.specs.Prelude.{ℕ, ◌≡◌, ◌∷◌, [], IfOk, List, nat_eq};
ghost use Rattle.std.proofs.Common.{ap};
ghost use Rattle.std.specs.Cmp.{partial_equiv_from_equiv};
ghost use Rattle.std.specs.Cmp.Lexicographic.{bytes_decides, nat_list_eq_equiv, pointwise};

use indexmap::Equivalent;
use smallvec::SmallVec;
use std::alloc::{AllocError, Global};
use std::hash::{Hash, Hasher};
use std::marker::Model;

/// A name in a table, as of a party or of a payee. Up to 16 bytes lie in the value itself, and few names have more.
#[derive(Drop)]
pub struct Name {
    text: SmallVec<u8, 16>,
}

impl Model for Name {
    ghost use Rattle.std.specs.Prelude.{ℕ, List};

    ghost Value = { List ℕ };

    ghost view = { λ n. n.text.items };
}

impl Name {
    /// The name with this text.
    pub fn of(alloc: Global, text: &[u8]) -> Result<Name, AllocError>
        ensures { IfOk result (λ name. name ≡ text.now) }
    {
        Ok(Name {
            text: SmallVec::from_slice(alloc, text)?,
        })
    }

    /// Its text.
    pub fn as_slice(&self) -> &[u8]
        ensures { result.now ≡ self.now }
    {
        self.text.as_slice()
    }
}

impl PartialEq for Name {
    ghost eq = { pointwise nat_eq };

    ghost laws = { partial_equiv_from_equiv nat_list_eq_equiv };

    fn eq(&self, other: &Name) -> bool {
        self.as_slice() == other.as_slice()
    }
}

impl Eq for Name {
    ghost laws = { nat_list_eq_equiv };
}

/// All bytes are written at one go, where those of a slice are written one by one.
impl Hash for Name {
    ghost hash_input = { λ name. name ∷ [] };

    ghost respects_eq = { λ name other same. ap (λ (text : List ℕ). text ∷ []) ((bytes_decides name other).0 same) };

    fn hash<H: Hasher>(&self, state: &mut H) {
        state.write(self.as_slice());
    }
}

/// A text that a name is looked up by.
#[derive(Clone, Copy, PartialEq, Eq)]
pub struct Sought<'a>(pub &'a [u8]);

impl Hash for Sought<'_> {
    ghost hash_input = { λ sought. sought.0.now ∷ [] };

    ghost respects_eq = { λ sought other same. ap (λ (text : List ℕ). text ∷ []) ((bytes_decides sought.0.now other.0.now).0 same) };

    fn hash<H: Hasher>(&self, state: &mut H) {
        state.write(self.0);
    }
}

impl Equivalent<Name> for Sought<'_> {
    ghost equivalent = { λ sought name. pointwise nat_eq sought.0.now name };

    ghost respects_hash = { λ sought name same. ap (λ (text : List ℕ). text ∷ []) ((bytes_decides sought.0.now name).0 same) };

    ghost respects_eq = { λ sought name other. nat_list_eq_equiv.congr sought.0.now name other };

    fn equivalent(&self, key: &Name) -> bool {
        self.0 == key.as_slice()
    }
}
