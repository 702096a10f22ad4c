//! Texts by key, where the first one that says something counts.

ghost use Rattle.std.specs.Prelude.{◌≡◌, ◌∷◌, ◌++◌, [], ℕ, List, IfOk, OnOk};
ghost use Rattle.document_names.specs.FirstTexts.{AreFirstTexts, text_in};

use cwr_share::{Name, Sought};
use indexmap::IndexMap;
use std::alloc::{AllocError, Global};
use std::marker::Model;

/// A text for each of some keys: of those that were noted for it, the first that is not empty.
#[derive(Drop)]
pub struct FirstTexts {
    texts: IndexMap<Name, Name>,
}

impl Model for FirstTexts {
    ghost use Rattle.std.specs.Prelude.{ℕ, List};

    ghost Value = { List (List ℕ × List ℕ) };

    ghost view = { λ t. t.texts.entries };
}

impl FirstTexts {
    /// No texts.
    pub fn none(alloc: Global) -> FirstTexts
        ensures { AreFirstTexts [] result }
    {
        FirstTexts {
            texts: IndexMap::new(alloc),
        }
    }

    /// The text of a key, empty where it has none.
    pub fn text_of(&self, key: &[u8]) -> &[u8]
        ensures { result.now ≡ text_in self.now key.now }
    {
        match self.texts.get(Sought(key)) {
            Some(text) => text.as_slice(),
            None => b"",
        }
    }

    /// Notes a text for a key, behind those that were noted before.
    pub fn note(&mut self, alloc: Global, key: &[u8], text: &[u8]) -> Result<(), AllocError>
        ensures { OnOk result ((noted : List (List ℕ × List ℕ)) → AreFirstTexts noted self.old
            → AreFirstTexts (noted ++ (key.now, text.now) ∷ []) self.new) }
    {
        if text.is_empty() {
            return Ok(());
        }
        if self.texts.contains_key(Sought(key)) {
            return Ok(());
        }
        self.texts
            .insert(Name::of(alloc, key)?, Name::of(alloc, text)?)?;
        Ok(())
    }
}
