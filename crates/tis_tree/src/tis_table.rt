//! The table of territories, with what contains what worked out as it is read.

ghost use Rattle.std.specs.Prelude.{◌≡◌, ◌≤◌, ◌<◌, ◌+◌, ◌↔◌, ◌⊎◌, ◌++◌, ◌∷◌, [], ℕ, true, All, IfOk, IfErr, IfSome, IfNone, IsTrue, OnOk, Some, length, map};
ghost use Rattle.csv_table.specs.Forms.{IsCode, number_of};
ghost use Rattle.csv_table.specs.Table.{rows_of};
ghost use Rattle.tis_tree.specs.declared.TheConstants.{MOST_ROWS};
ghost use Rattle.tis_tree.specs.Compiled.{IsAbove, has_bit};
ghost use Rattle.tis_tree.specs.Territories.{AreTerritories, Encloses, IsKnown, encloses, row_at};
ghost use Rattle.tis_tree.specs.TisRows.{IsFaultOf, IsGroup, IsTableOf, words_of};

use crate::places::Places;
use crate::words::first_word;
use crate::{Code, MOST_ROWS, TisFault};
use csv_table::forms::{MOST_CODE, code};
use csv_table::{RowTable, Rows, read_table};
use std::alloc::{AllocError, Global};
use std::marker::Model;

/// A code, and the groups that its row names.
#[derive(Drop)]
struct Territory {
    code: u16,
    groups: Vec<u16>,
}

/// A table of territories, at most 2048. A territory may be in several groups, each of which has an
/// earlier row.
#[derive(Drop)]
pub struct TisTable {
    rows: Vec<Territory>,
    /// For each code the place of its row, from 1, or 0 where it has none.
    places: Vec<u16>,
    /// For each row the places of the rows whose codes contain its own.
    enclosing: Vec<Places>,
}

impl Model for TisTable {
    ghost use Rattle.std.specs.Prelude.{ℕ, List, map};
    ghost use Rattle.tis_tree.specs.Compiled.{IsCompiled};

    ghost Value = { List (ℕ × List ℕ) };

    ghost view = { λ t. map (λ row. (row.code, row.groups.items)) t.rows.items };

    ghost invariant = { λ t. IsCompiled (map (λ row. (row.code, row.groups.items)) t.rows.items) t.places.items (map (λ set. set.words) t.enclosing.items) };
}

impl RowTable for TisTable {
    ghost use Rattle.std.specs.Prelude.{ℕ, List};
    ghost use Rattle.tis_tree.specs.TisRows.{territory_rules};

    type Fault = TisFault;

    ghost Item = { ℕ × List ℕ };

    ghost Known = { Unit {0} };

    ghost known = { λ _. tt };

    ghost rules = { λ _. territory_rules };

    ghost items = { λ table. table };

    fn is_header(&self, rows: &Rows<'_>) -> bool {
        rows.is(&["code", "groups"])
    }

    fn headless(&self) -> TisFault {
        TisFault::Csv(0)
    }

    fn too_many(&self) -> TisFault {
        TisFault::Rows
    }

    fn memory() -> TisFault {
        TisFault::Memory
    }

    fn is_full(&self) -> bool {
        self.len() >= MOST_ROWS
    }

    fn add_row(
        &mut self,
        alloc: Global,
        number: u64,
        rows: &Rows<'_>,
    ) -> Result<Option<TisFault>, AllocError> {
        if rows.len() != 2 {
            return Ok(Some(TisFault::Csv(number)));
        }
        let Some(code) = code(rows.field(0)) else {
            return Ok(Some(TisFault::Code(number)));
        };
        if self.place(code).is_some() {
            return Ok(Some(TisFault::Twice(number)));
        }
        let mut set = Places::none();
        let Some(groups) = self.read_groups(alloc, rows.field(1), &mut set)? else {
            return Ok(Some(TisFault::Group(number)));
        };
        self.push(code, groups, set)?;
        Ok(None)
    }
}

impl TisTable {
    /// Reads a table of territories: CSV with the header `code,groups`. The groups are codes of
    /// earlier rows, with spaces between them.
    pub fn read(alloc: Global, bytes: &[u8]) -> Result<TisTable, TisFault>
        ensures table { IfOk result (IsTableOf (rows_of bytes.now)) }
        ensures fault { IfErr result (IsFaultOf (rows_of bytes.now)) }
    {
        read_table(alloc, bytes, TisTable::new(alloc)?)
    }

    /// Whether a code has a row.
    pub fn known(&self, code: Code) -> bool
        ensures { IsTrue result ↔ IsKnown self.now code }
    {
        self.place(code.number()).is_some()
    }

    /// Whether a group contains a land: both have rows, and the group is the land or contains a group
    /// of it. A look at one bit.
    pub fn contains(&self, group: Code, land: Code) -> bool
        ensures contains { IsTrue result ↔ Encloses self.now group land }
        ensures worked_out { result ≡ encloses self.now group land }
    {
        match (self.place(group.number()), self.place(land.number())) {
            (Some(group), Some(land)) => self.enclosing[land].has(group as u16),
            _ => false,
        }
    }

    /// How many rows there are.
    pub fn len(&self) -> usize
        ensures rows { result ≡ length self.now }
        ensures sound { AreTerritories self.now }
    {
        self.rows.len()
    }

    /// A table with no rows.
    pub fn new(alloc: Global) -> Result<TisTable, AllocError>
        ensures { IfOk result (λ table. table ≡ []) }
    {
        let mut places = Vec::new(alloc);
        for _ in 0..=MOST_CODE {
            places.push(0)?;
        }
        Ok(TisTable {
            rows: Vec::new(alloc),
            places,
            enclosing: Vec::new(alloc),
        })
    }

    /// The groups that a text names, with the places of all that contain one of them added to a set. None: a word names
    /// no group.
    fn read_groups(
        &self,
        alloc: Global,
        text: &[u8],
        set: &mut Places,
    ) -> Result<Option<Vec<u16>>, AllocError>
        ensures known { IfOk result (λ found. IfSome found (λ _. All (IsGroup self.now) (words_of text.now))) }
        ensures groups { IfOk result (λ found. IfSome found (λ groups.
            groups.items ≡ map number_of (words_of text.now))) }
        ensures set { IfOk result (λ found. IfSome found (λ groups. (place : ℕ) → place < MOST_ROWS
            → (has_bit set.new.words place ≡ true)
            ↔ ((has_bit set.old.words place ≡ true) ⊎ IsAbove self.now groups.items place))) }
        ensures none { IfOk result (λ found. IfNone found (¬ All (IsGroup self.now) (words_of text.now))) }
    {
        let mut groups = Vec::new(alloc);
        let mut rest = text;
        for _ in 0..text.len() {
            let (word, after) = first_word(rest);
            if word.is_empty() {
                return Ok(Some(groups));
            }
            let Some(place) = self.place_of(word) else {
                return Ok(None);
            };
            set.add_all(&self.enclosing[place]);
            groups.push(self.rows[place].code)?;
            rest = after;
        }
        Ok(Some(groups))
    }

    /// The place of the row of the code that a word writes, where there is one.
    fn place_of(&self, word: &[u8]) -> Option<usize>
        ensures some { IfSome result (λ place. IsCode word.now × (place < length self.now) × ((row_at self.now place).0 ≡ number_of word.now)) }
        ensures none { IfNone result (¬ IsGroup self.now word.now) }
    {
        match code(word) {
            Some(code) => self.place(code),
            None => None,
        }
    }

    /// The place of a code's row, where it has one.
    fn place(&self, code: u16) -> Option<usize>
        requires { code ≤ MOST_CODE }
        ensures some { IfSome result (λ place. (place < length self.now) × ((row_at self.now place).0 ≡ code)) }
        ensures none { IfNone result (¬ IsKnown self.now code) }
    {
        match self.places[code as usize] {
            0 => None,
            place => Some(place as usize - 1),
        }
    }

    /// Adds a row whose groups have rows, with the places of all that contain one of them.
    fn push(&mut self, code: u16, groups: Vec<u16>, set: Places) -> Result<(), AllocError>
        requires few { length self.old < MOST_ROWS }
        requires code { (0 < code) × (code ≤ MOST_CODE) × ¬ IsKnown self.old code }
        requires groups { All (IsKnown self.old) groups.items }
        requires set { (place : ℕ) → place < MOST_ROWS → (has_bit set.words place ≡ true) ↔ IsAbove self.old groups.items place }
        ensures { OnOk result (self.new ≡ self.old ++ (code, groups.items) ∷ []) }
    {
        let place = self.rows.len() as u16;
        let mut set = set;
        set.add(place);
        self.rows.reserve(1)?;
        self.enclosing.reserve(1)?;
        self.rows.push_reserved(Territory { code, groups });
        self.enclosing.push_reserved(set);
        self.places[code as usize] = place + 1;
        Ok(())
    }
}
