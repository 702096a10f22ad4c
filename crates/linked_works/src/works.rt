//! The table of works: which registrations are of which work.

ghost use Rattle.std.specs.Prelude.{◌≡◌, ◌≤◌, ◌<◌, ◌∷◌, ◌++◌, ℕ, List, [], All, Contains, IfErr, IfOk, OnOk, Some, filter, length, map, nat_eq, slice_index_or, zip};
ghost use Rattle.std.specs.Cmp.Lexicographic.{pointwise};
ghost use Rattle.csv_table.specs.Table.{rows_of};
ghost use Rattle.cwr_share.specs.InForce.{IsOneRegistration};
ghost use Rattle.cwr_share.specs.Joined.{qualified as qualified_text};
ghost use Rattle.cwr_share.specs.PassedOver.{IsTallyOf};
ghost use Rattle.cwr_share.specs.Registered.{IsRegistered};
ghost use Rattle.cwr_share.specs.RegistryOf.{IsRegistryOf};
ghost use Rattle.cwr_share.specs.Registrations.{ShareLine, find_work};
ghost use Rattle.cwr_share.specs.declared.TheConstants.{MOST_SHARE_LINES};
ghost use Rattle.cwr_share.specs.declared.numbers.TheConstants.{MOST_SUBMITTER_BYTES, MOST_WORK_BYTES, MOST_WORK_NAME_BYTES};
ghost use Rattle.cwr_share.specs.declared.payees.TheConstants.{MOST_NAME_BYTES};
ghost use Rattle.linked_works.specs.Linked as linked;
ghost use Rattle.linked_works.specs.Linked.{finds_among, shares_linked};
ghost use Rattle.linked_works.specs.ManyPayees.{IsFaultOfLinks};
ghost use Rattle.linked_works.specs.PassedOver.{is_linked as has_link, rows_not_in_force};
ghost use Rattle.linked_works.specs.Rows.{IsKnownRow, key_of, link_by, link_shown, names_by};
ghost use Rattle.linked_works.specs.declared.TheConstants.{MOST_LINKS};
ghost use Rattle.linked_works.specs.WorksTable.{IsFaultOf, IsTableOf};

use crate::linking::{Link, link_all};
use crate::many_payees::{first_many, have_few_payees};
use crate::passed_over::{is_linked, not_in_force};
use crate::submitters::{place_of, qualified};
use crate::{MOST_LINKS, Submitters, WorksFault};
use csv_table::forms::is_printable;
use csv_table::{RowTable, Rows, read_table};
use cwr_share::{
    CwrFault, InForce, MOST_WORK_BYTES, MOST_WORK_NAME_BYTES, Name, Payees, Registry, Sought,
    Tally, trimmed,
};
use indexmap::IndexSet;
use std::alloc::{AllocError, Global};
use std::marker::Model;

/// A table of works, over the names of the submitters.
#[derive(Drop)]
pub struct Works<'a> {
    names: &'a [Vec<u8>],
    links: Vec<Link>,
    /// The registrations that are linked.
    seen: IndexSet<Name>,
}

impl<'a> Model for Works<'a> {
    ghost use Rattle.linked_works.specs.Rows.{AreLinks, Table, links_by, names_by};

    ghost Value = { Table };

    ghost view = { λ w. record {
      names = names_by w.names.now;
      links = links_by (names_by w.names.now) w.links.items;
    } };

    ghost invariant = { λ w. AreLinks (names_by w.names.now) w.links.items w.seen.keys };
}

impl<'a> RowTable for Works<'a> {
    ghost use Rattle.std.specs.Prelude.{◌≡◌, ℕ, List};
    ghost use Rattle.linked_works.specs.Linked as linked;
    ghost use Rattle.linked_works.specs.WorksTable.{works_rules};

    type Fault = WorksFault;

    ghost Item = { linked.Link };

    ghost Known = { List (List ℕ) };

    ghost known = { λ works. works.names };

    ghost rules = { works_rules };

    ghost items = { λ works. works.links };

    fn is_header(&self, rows: &Rows<'_>) -> bool {
        rows.is(&["work", "submitter", "number", "title"])
    }

    fn headless(&self) -> WorksFault {
        WorksFault::Csv(0)
    }

    fn too_many(&self) -> WorksFault {
        WorksFault::Rows
    }

    fn memory() -> WorksFault
        ensures { (names : List (List ℕ)) → result ≡ (works_rules names).memory }
    {
        WorksFault::Memory
    }

    fn is_full(&self) -> bool {
        self.links.len() >= MOST_LINKS
    }

    fn add_row(
        &mut self,
        alloc: Global,
        number: u64,
        rows: &Rows<'_>,
    ) -> Result<Option<WorksFault>, AllocError> {
        if rows.len() != 4 {
            return Ok(Some(WorksFault::Csv(number)));
        }
        let work = rows.field(0);
        if !is_printable(work, MOST_WORK_NAME_BYTES) {
            return Ok(Some(WorksFault::Work(number)));
        }
        let Some(submitter) = place_of(self.names, rows.field(1)) else {
            return Ok(Some(WorksFault::Submitter(number)));
        };
        let registration = trimmed(rows.field(2));
        if !is_printable(registration, MOST_WORK_BYTES) {
            return Ok(Some(WorksFault::Number(number)));
        }
        let key = key_text(alloc, self.names[submitter].as_slice(), registration)?;
        if self.seen.contains(Sought(key.as_slice())) {
            return Ok(Some(WorksFault::Twice(number)));
        }
        let link = Link {
            work: Name::of(alloc, work)?,
            submitter,
            number: Name::of(alloc, registration)?,
        };
        self.add(link, key)?;
        Ok(None)
    }
}

/// A row of a work: a registration that is of it.
#[derive(Clone, Copy, Debug)]
pub struct WorksRow<'a> {
    /// The name of the work, as usage lines have it.
    pub work: &'a [u8],
    /// The place of the submitter among the names.
    pub submitter: usize,
    /// The name of the submitter.
    pub name: &'a [u8],
    /// The submitter work number.
    pub number: &'a [u8],
}

impl<'a> Works<'a> {
    /// Reads a table of works: CSV with the header `work,submitter,number,title`. Each submitter is one of these.
    pub fn read(
        alloc: Global,
        submitters: &'a Submitters,
        bytes: &[u8],
    ) -> Result<Works<'a>, WorksFault>
        ensures works { IfOk result (λ works. IsTableOf submitters.entry.now (rows_of bytes.now) works.links) }
        ensures names { IfOk result (λ works. works.names ≡ submitters.entry.now) }
        ensures fault { IfErr result (IsFaultOf submitters.entry.now (rows_of bytes.now)) }
    {
        read_table(alloc, bytes, Works::none(alloc, submitters))
    }

    /// A table without rows.
    pub fn none(alloc: Global, submitters: &'a Submitters) -> Works<'a>
        ensures names { result.names ≡ submitters.entry.now }
        ensures links { result.links ≡ [] }
    {
        Works {
            names: submitters.as_slice(),
            links: Vec::new(alloc),
            seen: IndexSet::new(alloc),
        }
    }

    /// Adds a link, whose registration has this key and no link.
    fn add(&mut self, link: Link, key: Name) -> Result<(), AllocError>
        requires room { length self.old.links < MOST_LINKS }
        requires known { link.submitter < length self.old.names }
        requires work { length link.work ≤ MOST_WORK_NAME_BYTES }
        requires key { key ≡ qualified_text (slice_index_or self.old.names link.submitter []) link.number }
        requires new { ¬ Contains (map key_of self.old.links) key }
        ensures names { self.new.names ≡ self.old.names }
        ensures links { OnOk result (self.new.links ≡ self.old.links ++ link_by self.old.names link ∷ []) }
    {
        self.links.push(link)?;
        match self.seen.insert(key) {
            Ok(_) => Ok(()),
            Err(_) => {
                let _ = self.links.pop();
                Err(AllocError)
            }
        }
    }

    /// The works that the rows name, each with its registrations in force, one behind the other in the order of the
    /// rows, by what the submitters have in force. A work without one is not among them.
    pub fn link(&self, alloc: Global, files: &[InForce]) -> Result<InForce, AllocError>
        requires files { length files.now ≡ length self.now.names }
        requires registrations { All (λ works. (number : List ℕ) (shares : List ShareLine)
            → find_work number works ≡ Some shares → IsOneRegistration shares) files.now }
        ensures works { IfOk result (λ joined. (work : List ℕ) → find_work work joined
            ≡ shares_linked (finds_among (zip self.now.names files.now)) self.now.links work) }
        ensures lines { IfOk result (λ joined. (work : List ℕ) (shares : List ShareLine)
            → find_work work joined ≡ Some shares → length shares ≤ MOST_SHARE_LINES) }
    {
        link_all(alloc, self.names, files, self.links.as_slice())
    }

    /// The registry of these works, where what a party claims is paid to its payee. The parties of a submitter stand in
    /// the table of payees behind its name and a colon.
    pub fn registry(
        &self,
        alloc: Global,
        files: &[InForce],
        payees: &Payees,
    ) -> Result<Registry, WorksFault>
        requires files { length files.now ≡ length self.now.names }
        requires registrations { All (λ works. (number : List ℕ) (shares : List ShareLine)
            → find_work number works ≡ Some shares → IsOneRegistration shares) files.now }
        ensures registry { IfOk result (IsRegistryOf payees.now
            (shares_linked (finds_among (zip self.now.names files.now)) self.now.links)) }
        ensures sound { IfOk result IsRegistered }
        ensures fault { IfErr result (IsFaultOfLinks payees.now
            (finds_among (zip self.now.names files.now)) self.now.links) }
    {
        let joined = self.link(alloc, files)?;
        let links = self.links.as_slice();
        if !have_few_payees(alloc, &joined, links, payees)? {
            drop(joined);
            let place = first_many(alloc, self.names, files, links, payees)?;
            return Err(WorksFault::Many(place as u64 + 1));
        }
        match joined.registry(alloc, payees) {
            Ok(registry) => Ok(registry),
            Err(CwrFault::Accounts) => Err(WorksFault::Accounts),
            Err(_) => Err(WorksFault::Memory),
        }
    }

    /// The rows, from 1, whose registration is not in force, by what the submitters have in force.
    pub fn not_in_force(&self, files: &[InForce]) -> Tally
        requires { length files.now ≡ length self.now.names }
        ensures { IsTallyOf (rows_not_in_force (finds_among (zip self.now.names files.now)) self.now.links) result }
    {
        not_in_force(self.names, files, self.links.as_slice())
    }

    /// Whether a row links what the submitter at a place has under a number.
    pub fn is_linked(&self, submitter: usize, number: &[u8]) -> bool
        requires known { submitter < length self.now.names }
        requires number { length number.now ≤ MOST_NAME_BYTES }
        ensures { result ≡ has_link self.now.links (slice_index_or self.now.names submitter []) number.now }
    {
        is_linked(self.names, submitter, number, &self.seen)
    }

    /// The name of the work of the row at a place.
    pub fn work_at(&self, place: usize) -> &[u8]
        requires { place < length self.now.links }
        ensures { (d : linked.Link) → result.now ≡ (slice_index_or self.now.links place d).work }
    {
        self.links[place].work.as_slice()
    }

    /// The rows of a work, in their order.
    pub fn of_work(&self, alloc: Global, work: &[u8]) -> Result<Vec<WorksRow<'_>>, AllocError>
        ensures rows { IfOk result (λ rows. map link_shown rows.items
            ≡ filter (λ link. pointwise nat_eq link.work work.now) self.now.links) }
        ensures known { IfOk result (λ rows. All (IsKnownRow self.now.names) rows.items) }
        ensures few { IfOk result (λ rows. length rows.items ≤ MOST_LINKS) }
    {
        let mut rows = Vec::new(alloc);
        for link in &self.links {
            if link.work.as_slice() == work {
                rows.push(row_of(self.names, link))?;
            }
        }
        Ok(rows)
    }

    /// How many submitters there are, each with or without a row.
    pub fn submitters(&self) -> usize
        ensures { result ≡ length self.now.names }
    {
        self.names.len()
    }

    /// How many rows there are.
    pub fn len(&self) -> usize
        ensures { result ≡ length self.now.links }
    {
        self.links.len()
    }
}

/// A link as a row of its work.
fn row_of<'a>(names: &'a [Vec<u8>], link: &'a Link) -> WorksRow<'a>
    requires { link.now.submitter < length names.now }
    ensures shown { link_shown result ≡ link_by (names_by names.now) link.now }
    ensures known { IsKnownRow (names_by names.now) result }
{
    WorksRow {
        work: link.work.as_slice(),
        submitter: link.submitter,
        name: names[link.submitter].as_slice(),
        number: link.number.as_slice(),
    }
}

/// The text that a registration is known by.
fn key_text(alloc: Global, submitter: &[u8], number: &[u8]) -> Result<Name, AllocError>
    requires submitter { length submitter.now ≤ MOST_SUBMITTER_BYTES }
    requires number { length number.now ≤ MOST_WORK_BYTES }
    ensures { IfOk result (λ key. key ≡ qualified_text submitter.now number.now) }
{
    Name::of(alloc, qualified(submitter, number).as_slice())
}
