//! What a payee's total is made of: by right, and by territory.

ghost use Rattle.std.specs.Prelude.{◌≡◌, ◌≤◌, ◌<◌, ◌++◌, ◌^◌, All, IfOk, OnOk, decimal, length, map, unsigned_abs};
ghost use Rattle.line_split.specs.declared.TheConstants.{MOST_AMOUNT, MOST_LINES};
ghost use Rattle.page_parts.specs.Bars.{row_shown};
ghost use Rattle.page_text.specs.declared.figures.TheConstants.{MOST_DECIMALS};
ghost use Rattle.payee_documents.specs.Breakdowns.{HasBreakdowns, HasLands, land_row as row_of_land, rights_text};
ghost use Rattle.payee_documents.specs.Breakdowns.{right_row as row_of_right, right_rows as rows_of_rights};
ghost use Rattle.payee_portions.specs.Shown.{portions_shown};

use crate::heads::due_label;
use document_names::TerritoryNames;
use explain_line::right_word;
use itoa::Buffer;
use line_split::Right;
use page_parts::{BarRow, BarTable, Others, add_bars, right_name, shorten};
use payee_portions::{Portion, count_for, count_in, sum_for, sum_in, sum_of, territories_of};
use std::alloc::{AllocError, Global};

/// How many territories a page shows by themselves.
const MOST_TERRITORIES: usize = 8;

/// Adds what portions are made of.
pub(crate) fn add_breakdowns(
    alloc: Global,
    page: &mut Vec<u8>,
    names: &TerritoryNames,
    decimals: u32,
    portions: &[Portion<'_>],
) -> Result<(), AllocError>
    requires decimals { decimals ≤ MOST_DECIMALS }
    requires few { length portions.now ≤ MOST_LINES }
    requires small { All (λ portion. unsigned_abs portion.amount ≤ MOST_AMOUNT) portions.now }
    ensures { OnOk result (HasBreakdowns names.now decimals
        (portions_shown portions.now) page.old.items page.new.items) }
{
    page.extend_from_slice(b"<section><h2>What it is made of</h2><div class=\"stack\"><div>")?;
    add_rights(alloc, page, decimals, portions)?;
    page.extend_from_slice(b"</div><div>")?;
    add_lands(alloc, page, names, decimals, portions)?;
    page.extend_from_slice(b"</div></div></section>\n")
}

/// Adds what is of each right.
fn add_rights(
    alloc: Global,
    page: &mut Vec<u8>,
    decimals: u32,
    portions: &[Portion<'_>],
) -> Result<(), AllocError>
    requires decimals { decimals ≤ MOST_DECIMALS }
    requires few { length portions.now ≤ MOST_LINES }
    requires small { All (λ portion. unsigned_abs portion.amount ≤ MOST_AMOUNT) portions.now }
    ensures { OnOk result (page.new.items ≡ page.old.items ++ rights_text decimals (portions_shown portions.now)) }
{
    let rows = right_rows(alloc, portions)?;
    let total = i128::from(sum_of(portions));
    let table = BarTable {
        caption: "By right",
        head: "Right",
        rows: rows.as_slice(),
        rest: "",
        others: Others {
            rows: 0,
            count: 0,
            amount: 0,
        },
        total: due_label(total < 0),
        count: portions.len() as u64,
        amount: total,
    };
    add_bars(alloc, page, decimals, &table)
}

/// The rows of the rights that there are portions of.
fn right_rows(alloc: Global, portions: &[Portion<'_>]) -> Result<Vec<BarRow<'static>>, AllocError>
    requires few { length portions.now ≤ MOST_LINES }
    requires small { All (λ portion. unsigned_abs portion.amount ≤ MOST_AMOUNT) portions.now }
    ensures rows { IfOk result (λ rows. map row_shown rows.items ≡ rows_of_rights (portions_shown portions.now)) }
    ensures small { IfOk result (λ rows. All (λ row. unsigned_abs row.amount ≤ 2 ^ 64) rows.items) }
{
    let mut rows = Vec::new(alloc);
    for right in [Right::P, Right::M, Right::S] {
        let row = right_row(portions, right);
        if row.count > 0 {
            rows.push(row)?;
        }
    }
    Ok(rows)
}

/// The row of a right.
fn right_row(portions: &[Portion<'_>], right: Right) -> BarRow<'static>
    requires few { length portions.now ≤ MOST_LINES }
    requires small { All (λ portion. unsigned_abs portion.amount ≤ MOST_AMOUNT) portions.now }
    ensures row { row_shown result ≡ row_of_right (portions_shown portions.now) right }
    ensures small { unsigned_abs result.amount ≤ 2 ^ 64 }
{
    BarRow {
        name: right_name(right).as_bytes(),
        code: right_word(right).as_bytes(),
        page: b"",
        count: count_for(portions, right),
        amount: i128::from(sum_for(portions, right)),
    }
}

/// Adds what is of the territories with the highest amounts, and of the others.
fn add_lands(
    alloc: Global,
    page: &mut Vec<u8>,
    names: &TerritoryNames,
    decimals: u32,
    portions: &[Portion<'_>],
) -> Result<(), AllocError>
    requires decimals { decimals ≤ MOST_DECIMALS }
    requires few { length portions.now ≤ MOST_LINES }
    requires small { All (λ portion. unsigned_abs portion.amount ≤ MOST_AMOUNT) portions.now }
    ensures { OnOk result (HasLands names.now decimals (portions_shown portions.now) page.old.items page.new.items) }
{
    let codes = territories_of(alloc, portions)?;
    let texts = texts_of(alloc, codes.as_slice())?;
    let mut rows = land_rows(alloc, names, portions, codes.as_slice(), texts.as_slice())?;
    let others = shorten(&mut rows, MOST_TERRITORIES);
    let total = i128::from(sum_of(portions));
    let table = BarTable {
        caption: "By territory",
        head: "Territory",
        rows: rows.as_slice(),
        rest: "other territories",
        others,
        total: due_label(total < 0),
        count: portions.len() as u64,
        amount: total,
    };
    add_bars(alloc, page, decimals, &table)
}

/// Codes by their digits.
fn texts_of(alloc: Global, codes: &[u16]) -> Result<Vec<Vec<u8>>, AllocError>
    ensures texts { IfOk result (λ texts. map (λ text. text.items) texts.items ≡ map decimal codes.now) }
    ensures fit { OnOk result (All (λ code. code < 2 ^ 16) codes.now) }
{
    let mut texts = Vec::new(alloc);
    for place in 0..codes.len() {
        let mut digits = Buffer::new();
        texts.push(Vec::from_slice(alloc, digits.format(codes[place]).as_bytes())?)?;
    }
    Ok(texts)
}

/// The rows of territories, in the order of their codes.
fn land_rows<'a>(
    alloc: Global,
    names: &'a TerritoryNames,
    portions: &[Portion<'_>],
    codes: &[u16],
    texts: &'a [Vec<u8>],
) -> Result<Vec<BarRow<'a>>, AllocError>
    requires few { length portions.now ≤ MOST_LINES }
    requires small { All (λ portion. unsigned_abs portion.amount ≤ MOST_AMOUNT) portions.now }
    requires texts { map (λ text. text.items) texts.now ≡ map decimal codes.now }
    ensures rows { IfOk result (λ rows. map row_shown rows.items
        ≡ map (row_of_land names.entry.now (portions_shown portions.now)) codes.now) }
    ensures small { IfOk result (λ rows. All (λ row. unsigned_abs row.amount ≤ 2 ^ 64) rows.items) }
    ensures counts { IfOk result (λ rows. All (λ row. row.count ≤ MOST_LINES) rows.items) }
{
    let mut rows = Vec::new(alloc);
    for place in 0..codes.len() {
        rows.push(land_row(names, portions, codes[place], texts[place].as_slice()))?;
    }
    Ok(rows)
}

/// The row of a territory, by its name and its code, or by its code alone.
fn land_row<'a>(
    names: &'a TerritoryNames,
    portions: &[Portion<'_>],
    code: u16,
    text: &'a [u8],
) -> BarRow<'a>
    requires few { length portions.now ≤ MOST_LINES }
    requires small { All (λ portion. unsigned_abs portion.amount ≤ MOST_AMOUNT) portions.now }
    requires text { text.now ≡ decimal code }
    ensures row { row_shown result ≡ row_of_land names.entry.now (portions_shown portions.now) code }
    ensures small { unsigned_abs result.amount ≤ 2 ^ 64 }
    ensures count { result.count ≤ MOST_LINES }
{
    let name = names.name_of(code);
    let (name, behind): (&'a [u8], &'a [u8]) = if name.is_empty() {
        (text, b"")
    } else {
        (name, text)
    };
    BarRow {
        name,
        code: behind,
        page: b"",
        count: count_in(portions, code),
        amount: i128::from(sum_in(portions, code)),
    }
}
