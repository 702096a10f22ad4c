//! Reasons why money is held back, in words, and the table of them.

ghost use Rattle.std.specs.Prelude.{◌≡◌, ◌≤◌, ◌++◌, OnOk};
ghost use Rattle.page_text.specs.declared.figures.TheConstants.{MOST_DECIMALS};
ghost use Rattle.residue_documents.specs.Reasons.{CanBeAdded, amount_in, lines_in, link_text, linked_name_text};
ghost use Rattle.residue_documents.specs.Reasons.{meaning_of as meaning_of_reason};
ghost use Rattle.residue_documents.specs.Reasons.{reason_name, reason_row_text, reasons_head, reasons_text};
ghost use Rattle.residue_documents.specs.Reasons.{reasons_total_text, sums_shown, todo_of as todo_of_reason};
ghost use Rattle.residue_documents.specs.Sums.{sum_shown};

use crate::sums::HeldSum;
use line_split::Reason;
use page_parts::{Piece, add, row_tag};
use std::alloc::{AllocError, Global};

const WORK_MEANS: &str = "\
    Nobody has registered these works under this name, or the table of works does not link their registrations, so \
    their whole amounts are held back.";

const LAND_MEANS: &str =
    "The table of territories does not have these codes, so nobody’s claim can be read.";

const OVER_MEANS: &str =
    "The claims come to more than 100.06 %. Nobody is paid before it is settled who claims too much.";

const OPEN_MEANS: &str = "\
    Nobody claims this part of the work. The rest of each use has been divided. A very small part is often left where \
    shares were registered rounded, as 33.33 % three times.";

const WORK_TODO: &str = "\
    Find the registration: ask the publisher for it, or look for the work under another number. Where the number is \
    mistyped, correct the usage line; where a registration is not linked, add a row to the table of works.";

const LAND_TODO: &str =
    "Correct the territory of the usage line, or add its code to the table of territories with its groups.";

const OVER_TODO: &str = "Put the claims to the parties, and ask for corrected registrations.";

const OPEN_TODO: &str = "\
    Look for another registration: a co-publisher’s file, a writer without a publisher, or a territory that a \
    registration leaves out.";

/// A reason in words.
pub(crate) fn name_of(reason: Reason) -> &'static str
    ensures { result.now ≡ reason_name reason }
{
    match reason {
        Reason::Work => "Unregistered",
        Reason::Land => "Territory unknown",
        Reason::Over => "Overclaimed",
        Reason::Open => "Unclaimed",
    }
}

/// What it means.
pub(crate) fn meaning_of(reason: Reason) -> &'static str
    ensures { result.now ≡ meaning_of_reason reason }
{
    match reason {
        Reason::Work => WORK_MEANS,
        Reason::Land => LAND_MEANS,
        Reason::Over => OVER_MEANS,
        Reason::Open => OPEN_MEANS,
    }
}

/// What to do about it.
pub(crate) fn todo_of(reason: Reason) -> &'static str
    ensures { result.now ≡ todo_of_reason reason }
{
    match reason {
        Reason::Work => WORK_TODO,
        Reason::Land => LAND_TODO,
        Reason::Over => OVER_TODO,
        Reason::Open => OPEN_TODO,
    }
}

/// What is held back for each reason.
#[derive(Clone, Copy, Debug)]
pub struct ReasonSums {
    pub work: HeldSum,
    pub land: HeldSum,
    pub over: HeldSum,
    pub open: HeldSum,
}

/// Adds the table of the residue by reason. A reason that lines have leads to its section of the residue page, which
/// `link` names.
pub fn add_reasons(
    alloc: Global,
    page: &mut Vec<u8>,
    decimals: u32,
    link: &'static str,
    sums: &ReasonSums,
) -> Result<(), AllocError>
    requires decimals { decimals ≤ MOST_DECIMALS }
    requires few { CanBeAdded sums.now }
    ensures { OnOk result (page.new.items ≡ page.old.items ++ reasons_text decimals link.entry.now
        (sums_shown sums.now)) }
{
    add_head(alloc, page)?;
    add_row(alloc, page, decimals, link, Reason::Work, sums.work)?;
    add_row(alloc, page, decimals, link, Reason::Land, sums.land)?;
    add_row(alloc, page, decimals, link, Reason::Over, sums.over)?;
    add_row(alloc, page, decimals, link, Reason::Open, sums.open)?;
    add_total(alloc, page, decimals, sums)
}

/// Adds the head of the table.
fn add_head(alloc: Global, page: &mut Vec<u8>) -> Result<(), AllocError>
    ensures { OnOk result (page.new.items ≡ page.old.items ++ reasons_head) }
{
    add(
        alloc,
        page,
        0,
        &[
            Piece::Tag(
                "<table><caption>The residue by reason</caption><thead><tr><th scope=\"col\">Reason</th>",
            ),
            Piece::Tag(
                "<th scope=\"col\" class=\"n\">Lines</th><th scope=\"col\" class=\"n opt\">Works</th>",
            ),
            Piece::Tag("<th scope=\"col\" class=\"n\">Amount</th></tr></thead><tbody>\n"),
        ],
    )
}

/// Adds the row of a reason.
fn add_row(
    alloc: Global,
    page: &mut Vec<u8>,
    decimals: u32,
    link: &'static str,
    reason: Reason,
    sum: HeldSum,
) -> Result<(), AllocError>
    requires { decimals ≤ MOST_DECIMALS }
    ensures { OnOk result (page.new.items
        ≡ page.old.items ++ reason_row_text decimals link.entry.now reason (sum_shown sum)) }
{
    add_name(alloc, page, link, reason, sum)?;
    add(
        alloc,
        page,
        decimals,
        &[
            Piece::Tag("</th><td class=\"n\">"),
            Piece::Count(sum.lines),
            Piece::Tag("</td><td class=\"n opt\">"),
            Piece::Count(sum.works),
            Piece::Tag("</td><td class=\"n\">"),
            Piece::Amount(i128::from(sum.amount)),
            Piece::Tag("</td></tr>\n"),
        ],
    )
}

/// Begins the row of a reason. Its name leads to its section, where lines have it.
fn add_name(
    alloc: Global,
    page: &mut Vec<u8>,
    link: &'static str,
    reason: Reason,
    sum: HeldSum,
) -> Result<(), AllocError>
    ensures { OnOk result (page.new.items ≡ page.old.items ++ linked_name_text link.entry.now reason (sum_shown sum)) }
{
    let word = reason.word();
    add(
        alloc,
        page,
        0,
        &[
            Piece::Tag(row_tag(sum.amount < 0)),
            Piece::Tag("<th scope=\"row\"><svg class=\"key "),
            Piece::Tag(word),
            Piece::Tag(
                "\" viewBox=\"0 0 1 1\" aria-hidden=\"true\"><rect width=\"1\" height=\"1\"/></svg>",
            ),
        ],
    )?;
    if sum.lines == 0 {
        page.extend_from_slice(name_of(reason).as_bytes())?;
    } else {
        add_link(alloc, page, link, reason)?;
    }
    add(
        alloc,
        page,
        0,
        &[
            Piece::Tag(" <span class=\"code\">"),
            Piece::Tag(word),
            Piece::Tag("</span>"),
        ],
    )
}

/// Adds the name of a reason, which leads to its section.
fn add_link(
    alloc: Global,
    page: &mut Vec<u8>,
    link: &'static str,
    reason: Reason,
) -> Result<(), AllocError>
    ensures { OnOk result (page.new.items ≡ page.old.items ++ link_text link.entry.now reason) }
{
    let word = reason.word();
    let name = name_of(reason);
    add(
        alloc,
        page,
        0,
        &[
            Piece::Tag("<a href=\""),
            Piece::Tag(link),
            Piece::Tag("#"),
            Piece::Tag(word),
            Piece::Tag("\">"),
            Piece::Tag(name),
            Piece::Tag("</a>"),
        ],
    )
}

/// How many lines all reasons have.
pub fn lines_of(sums: &ReasonSums) -> u64
    requires { CanBeAdded sums.now }
    ensures { result ≡ lines_in (sums_shown sums.now) }
{
    sums.work.lines + sums.land.lines + sums.over.lines + sums.open.lines
}

/// What all reasons come to, in minor units.
pub fn amount_of(sums: &ReasonSums) -> i128
    requires { CanBeAdded sums.now }
    ensures { result ≡ amount_in (sums_shown sums.now) }
{
    i128::from(sums.work.amount)
        + i128::from(sums.land.amount)
        + i128::from(sums.over.amount)
        + i128::from(sums.open.amount)
}

/// Adds what all reasons come to. A work may have several reasons, so works are not added.
fn add_total(
    alloc: Global,
    page: &mut Vec<u8>,
    decimals: u32,
    sums: &ReasonSums,
) -> Result<(), AllocError>
    requires decimals { decimals ≤ MOST_DECIMALS }
    requires few { CanBeAdded sums.now }
    ensures { OnOk result (page.new.items ≡ page.old.items ++ reasons_total_text decimals (sums_shown sums.now)) }
{
    let amount = amount_of(sums);
    add(
        alloc,
        page,
        decimals,
        &[
            Piece::Tag("</tbody><tfoot>"),
            Piece::Tag(row_tag(amount < 0)),
            Piece::Tag("<th scope=\"row\">Residue</th><td class=\"n\">"),
            Piece::Count(lines_of(sums)),
            Piece::Tag("</td><td class=\"n opt\"></td><td class=\"n\">"),
            Piece::Amount(amount),
            Piece::Tag("</td></tr></tfoot></table>\n"),
        ],
    )
}
