//! The rows of an explanation that a run over the files of several submitters alone has.

ghost use Rattle.std.specs.Prelude.{◌≡◌, ◌<◌, ◌∷◌, ◌++◌, [], ℕ, List, IfOk, OnOk, Some, codes, flat_map, length, map, slice_get, slice_index_or};
ghost use Rattle.std.specs.List.{enumerate_from};
ghost use Rattle.cwr_share.specs.Filed.{IsFiled};
ghost use Rattle.cwr_share.specs.Joined.{qualified};
ghost use Rattle.cwr_share.specs.Registrations.{ShareLine};
ghost use Rattle.explain_line.specs.Explanation.{AddsRow, AddsRows, share_fields};
ghost use Rattle.explain_line.specs.LookedAt.{AreFiledBy};
ghost use Rattle.explain_line.specs.Submitted.{file_by, link_rows, reason_row, submitted_share_row};
ghost use Rattle.explain_line.specs.Shares.{shown_by};
ghost use Rattle.linked_works.specs.Rows.{link_shown};

use crate::claimed::payee_by;
use crate::rows::{Shown, reason_word, shown_share};
use csv_table::RowWriter;
use cwr_share::{FiledRegistration, Registry, ShareRecord};
use itoa::Buffer;
use line_split::{Reason, Right};
use linked_works::WorksRow;
use std::alloc::{AllocError, Global};
use tis_tree::{Code, TisTable};

/// Why no claim counts.
pub(crate) fn write_reason(rows: &mut RowWriter, reason: Option<Reason>) -> Result<(), AllocError>
    ensures { OnOk result (AddsRow rows.old.text rows.new.text (reason_row reason)) }
{
    rows.row(&[b"R", reason_word(reason).as_bytes()])
}

/// The rows of a work in the table of works, each with the share lines of its registration in force.
pub(crate) fn write_linked(
    alloc: Global,
    rows: &mut RowWriter,
    tis: &TisTable,
    registry: &Registry,
    land: Code,
    right: Right,
    linked: &[WorksRow<'_>],
    filed: &[Option<FiledRegistration>],
) -> Result<(), AllocError>
    requires { length filed.now ≡ length linked.now }
    ensures { (files : List (List ℕ × List (List ℕ))) → AreFiledBy (λ row. file_by files row.name.now) linked.now filed.now
        → OnOk result (AddsRows rows.old.text rows.new.text
        (flat_map (link_rows tis.now registry.now land right files) (map link_shown linked.now))) }
{
    for place in 0..linked.len() {
        write_link(
            alloc,
            rows,
            tis,
            registry,
            land,
            right,
            &linked[place],
            &filed[place],
        )?;
    }
    Ok(())
}

/// One of them.
fn write_link(
    alloc: Global,
    rows: &mut RowWriter,
    tis: &TisTable,
    registry: &Registry,
    land: Code,
    right: Right,
    link: &WorksRow<'_>,
    filed: &Option<FiledRegistration>,
) -> Result<(), AllocError>
    ensures { (files : List (List ℕ × List (List ℕ))) → IsFiled (file_by files link.now.name.now) link.now.number.now filed.now
        → OnOk result (AddsRows rows.old.text rows.new.text
        (link_rows tis.now registry.now land right files (link_shown link.now))) }
{
    let Some(filed) = filed else {
        return rows.row(&[b"W", link.name, link.number, b""]);
    };
    let mut number = Buffer::new();
    rows.row(&[
        b"W",
        link.name,
        link.number,
        number.format(filed.line).as_bytes(),
    ])?;
    write_submitted_shares(
        alloc,
        rows,
        tis,
        registry,
        land,
        right,
        link.name,
        filed.numbers.as_slice(),
        filed.shares.as_slice(),
    )
}

/// The share lines of a submitter's registration, which have these numbers.
fn write_submitted_shares(
    alloc: Global,
    rows: &mut RowWriter,
    tis: &TisTable,
    registry: &Registry,
    land: Code,
    right: Right,
    submitter: &[u8],
    numbers: &[u64],
    shares: &[ShareRecord],
) -> Result<(), AllocError>
    ensures { OnOk result (AddsRows rows.old.text rows.new.text
        (map (submitted_share_row tis.now registry.now land right submitter.now numbers.now shares.now)
        (enumerate_from 0 shares.now))) }
{
    for place in 0..shares.len() {
        let party = qualified_party(alloc, submitter, shares[place].party())?;
        let payee = payee_by(registry, party.as_slice());
        let shown = shown_share(tis, land, right, payee, numbers, shares, place);
        write_submitted_share(rows, submitter, &shown)?;
    }
    Ok(())
}

/// A party of a submitter: the submitter's name, a colon, and its own.
fn qualified_party(alloc: Global, submitter: &[u8], party: &[u8]) -> Result<Vec<u8>, AllocError>
    ensures { IfOk result (λ name. name.items ≡ qualified submitter.now party.now) }
{
    let mut name = Vec::from_slice(alloc, submitter)?;
    name.push(b':')?;
    name.extend_from_slice(party)?;
    Ok(name)
}

/// A share line of a submitter.
fn write_submitted_share(
    rows: &mut RowWriter,
    submitter: &[u8],
    shown: &Shown<'_>,
) -> Result<(), AllocError>
    ensures { OnOk result (AddsRow rows.old.text rows.new.text (codes "C" ∷ submitter.now ∷ share_fields (shown_by shown.now))) }
{
    let mut line = Buffer::new();
    let mut place = Buffer::new();
    let mut share = Buffer::new();
    let mut code = Buffer::new();
    rows.row(&[
        b"C",
        submitter,
        line.format(shown.number).as_bytes(),
        place.format(shown.interest).as_bytes(),
        shown.party,
        shown.payee,
        share.format(shown.recorded).as_bytes(),
        shown.mark,
        code.format(shown.territory).as_bytes(),
        shown.covers,
        shown.decides,
    ])
}
