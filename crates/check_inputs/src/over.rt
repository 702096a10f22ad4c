//! The works of several submitters with most money of the lines that are claimed over, and who claims what, in words.

ghost use Rattle.std.specs.Prelude.{◌≡◌, ◌≤◌, ◌<◌, ◌+◌, ◌*◌, ◌^◌, ◌&&◌, ◌++◌, [], ℕ, List, All, AllPairs};
ghost use Rattle.std.specs.Prelude.{IfNone, IfOk, IfSome, None, OnOk, Some, if◌then◌else◌, length, map, nat_eq};
ghost use Rattle.std.specs.Prelude.{slice_index_or, unwrap_or, zip};
ghost use Rattle.std.specs.Cmp.Lexicographic.{pointwise};
ghost use Rattle.std.specs.List.{filter_map};
ghost use Rattle.std.specs.Option.{option_map, option_map_or};
ghost use Rattle.cwr_share.specs.InForce.{IsOneRegistration};
ghost use Rattle.cwr_share.specs.Registrations.{ShareLine, find_work};
ghost use Rattle.cwr_share.specs.declared.TheConstants.{MOST_SHARES};
ghost use Rattle.line_split.specs.UsageLine.{UsageLine, usage_line_of};
ghost use Rattle.line_split.specs.UsageLines.{IsUsageLine};
ghost use Rattle.line_split.specs.declared.TheConstants.{MOST_CLAIMS};
ghost use Rattle.line_split.specs.declared.reason.Reason.TheVariants.{Over};
ghost use Rattle.linked_works.specs.Linked.{finds_among};
ghost use Rattle.linked_works.specs.Rows.{IsKnownRow, link_shown, names_by};
ghost use Rattle.linked_works.specs.declared.TheConstants.{MOST_LINKS};
ghost use Rattle.usage_totals.specs.Totals.{is_same, reason_of};
ghost use Rattle.check_inputs.specs.LinksSoFar.{ArePaired, finds_in_force};
ghost use Rattle.check_inputs.specs.OverSoFar.{claim_by_row, registrations_of};
ghost use Rattle.check_inputs.specs.SubmittedOver.{claim_of_submitter, claims_of, claims_of_submitters, first_over};
ghost use Rattle.check_inputs.specs.SubmittedOver.{over_line, over_text, row_text};

use crate::lists::{Listed, add_list};
use crate::submitted_sources::Sources;
use crate::summary::begin_claimed_over;
use crate::words::{add, add_number};
use cwr_share::{InForce, Registry, ShareRecord, claimed_in};
use line_split::{Claims, Line, Reason, Right, Usage};
use linked_works::WorksRow;
use std::alloc::{AllocError, Global};
use std::marker::Model;
use tis_tree::{Code, TisTable};
use usage_totals::{Name, Total};

/// A submitter, and what it claims on a usage line, in hundredths of a per cent.
#[derive(Drop)]
struct Claim<'a> {
    submitter: &'a [u8],
    claim: u64,
}

impl<'a> Model for Claim<'a> {
    ghost use Rattle.std.specs.Prelude.{ℕ, List};

    ghost Value = { List ℕ × ℕ };

    ghost view = { λ claim. (claim.submitter.now, claim.claim) };
}

/// The claim in parts of 10000, behind its submitter.
impl Listed for Claim<'_> {
    ghost use Rattle.check_inputs.specs.SubmittedOver.{claim_text};

    ghost words = { claim_text };

    fn add_to(&self, text: &mut Vec<u8>) -> Result<(), AllocError> {
        text.extend_from_slice(self.submitter)?;
        add(text, " claims ")?;
        add_number(text, self.claim)?;
        add(text, " of 10000")
    }
}

/// Adds a line about each of these works: the lines that are claimed over, and what each submitter claims on the first
/// of them.
pub(crate) fn add_over(
    alloc: Global,
    text: &mut Vec<u8>,
    path: &str,
    sources: &Sources<'_>,
    registry: &Registry,
    lines: &Usage,
    over: &[(Name<'_>, Total)],
) -> Result<(), AllocError>
    requires { ArePaired sources.now }
    ensures { OnOk result (text.new.items ≡ text.old.items
        ++ over_text path.now sources.now.tables.territories registry.now
        (finds_in_force sources.now) sources.now.tables.works.links sources.now.tables.works.names lines.now over.now) }
{
    for place in 0..over.len() {
        let (work, total) = (over[place].0.as_slice(), over[place].1);
        add_over_work(alloc, text, path, sources, registry, lines, work, total)?;
    }
    Ok(())
}

/// Adds a line about one of them.
fn add_over_work(
    alloc: Global,
    text: &mut Vec<u8>,
    path: &str,
    sources: &Sources<'_>,
    registry: &Registry,
    lines: &Usage,
    work: &[u8],
    total: Total,
) -> Result<(), AllocError>
    requires { ArePaired sources.now }
    ensures { OnOk result (text.new.items ≡ text.old.items
        ++ over_line path.now sources.now.tables.territories registry.now
        (finds_in_force sources.now) sources.now.tables.works.links sources.now.tables.works.names lines.now
        (work.now, total)) }
{
    begin_claimed_over(text, path, work, total)?;
    add_who_claims(alloc, text, sources, registry, lines, work)?;
    add(text, "\n")?;
    Ok(())
}

/// Adds what each submitter claims on the first line of a work that is claimed over.
fn add_who_claims(
    alloc: Global,
    text: &mut Vec<u8>,
    sources: &Sources<'_>,
    registry: &Registry,
    lines: &Usage,
    work: &[u8],
) -> Result<(), AllocError>
    requires { ArePaired sources.now }
    ensures { OnOk result (text.new.items ≡ text.old.items ++ option_map_or (λ first. row_text first
        (claims_of_submitters sources.now.tables.territories (finds_in_force sources.now) sources.now.tables.works.links
        sources.now.tables.works.names first.1))
        (first_over sources.now.tables.territories registry.now lines.now work.now) []) }
{
    let Some(place) = find_over(alloc, &sources.tables.territories, registry, lines, work)? else {
        return Ok(());
    };
    let claims = claims_on(alloc, sources, &lines.line(place))?;
    add_row(text, place as u64 + 1, claims.as_slice())?;
    Ok(())
}

/// The place of the first line of a work that is claimed over.
fn find_over(
    alloc: Global,
    tis: &TisTable,
    registry: &Registry,
    lines: &Usage,
    work: &[u8],
) -> Result<Option<usize>, AllocError>
    ensures some { IfOk result (λ found. IfSome found (λ place. (place < length lines.now) × ((d : UsageLine)
        → first_over tis.now registry.now lines.now work.now ≡ Some (place + 1, slice_index_or lines.now place d)))) }
    ensures row { IfOk result (λ found. IfSome found (λ place. place + 1 < 2 ^ 64)) }
    ensures none { IfOk result (λ found. IfNone found (first_over tis.now registry.now lines.now work.now ≡ None)) }
{
    let mut claims = registry.scratch(alloc)?;
    for place in 0..lines.len() {
        let line = lines.line(place);
        if is_over_of(tis, registry, &line, work, &mut claims) {
            return Ok(Some(place));
        }
    }
    Ok(None)
}

/// Whether a line is of a work, and is claimed over.
fn is_over_of(
    tis: &TisTable,
    registry: &Registry,
    line: &Line<'_>,
    work: &[u8],
    claims: &mut Claims,
) -> bool
    requires { MOST_CLAIMS ≤ claims.old.room }
    ensures over { result ≡ (pointwise nat_eq line.now.work.now work.now
        && is_same Over (reason_of tis.now registry.now (usage_line_of line.now))) }
    ensures room { claims.new.room ≡ claims.old.room }
{
    line.work == work && is_over(tis, registry, line, claims)
}

/// Whether a line is claimed over.
fn is_over(tis: &TisTable, registry: &Registry, line: &Line<'_>, claims: &mut Claims) -> bool
    requires { MOST_CLAIMS ≤ claims.old.room }
    ensures over { result ≡ is_same Over (reason_of tis.now registry.now (usage_line_of line.now)) }
    ensures room { claims.new.room ≡ claims.old.room }
{
    registry.claims(tis, line, claims).unwrap_or(Reason::Open) == Reason::Over
}

/// What each submitter with a registration in force of a line's work claims on the line.
fn claims_on<'a>(
    alloc: Global,
    sources: &'a Sources<'_>,
    line: &Line<'_>,
) -> Result<Vec<Claim<'a>>, AllocError>
    requires sources { ArePaired sources.now }
    requires line { IsUsageLine (usage_line_of line.now) }
    ensures { IfOk result (λ claims. claims.items
        ≡ claims_of_submitters sources.entry.now.tables.territories
        (finds_in_force sources.entry.now) sources.entry.now.tables.works.links
        sources.entry.now.tables.works.names (usage_line_of line.now)) }
{
    let rows = sources.tables.works.of_work(alloc, line.work)?;
    let files = sources.files.in_force.as_slice();
    let claims = claims_of_rows(
        alloc,
        &sources.tables.territories,
        files,
        line,
        rows.as_slice(),
    )?;
    add_up(alloc, sources.names, claims.as_slice())
}

/// What the registrations in force that these rows link claim on a line, each with its submitter.
fn claims_of_rows<'a>(
    alloc: Global,
    tis: &TisTable,
    files: &[InForce],
    line: &Line<'_>,
    rows: &[WorksRow<'a>],
) -> Result<Vec<Claim<'a>>, AllocError>
    requires known { All (λ row. row.submitter < length files.now) rows.now }
    requires registrations { All (λ works. (number : List ℕ) (shares : List ShareLine)
        → find_work number works ≡ Some shares → IsOneRegistration shares) files.now }
    requires line { IsUsageLine (usage_line_of line.now) }
    ensures claims { IfOk result (λ claims. (names : List (List ℕ))
        → AllPairs (λ name later. ¬ (name ≡ later)) names → length files.now ≡ length names
        → All (IsKnownRow names) rows.now
        → claims.items ≡ claims_of tis.now (usage_line_of line.now)
        (registrations_of (finds_among (zip names files.now)) (map link_shown rows.now))) }
    ensures few { IfOk result (λ claims. length claims.items ≤ length rows.now) }
    ensures small { IfOk result (λ claims. All (λ claim. claim.1 ≤ u16.MAX * MOST_SHARES) claims.items) }
{
    let Some(land) = Code::of(line.territory) else {
        unreachable!()
    };
    let mut claims = Vec::new(alloc);
    for place in 0..rows.len() {
        if let Some(claim) = claim_of_row(tis, files, land, line.right, &rows[place]) {
            claims.push(claim)?;
        }
    }
    Ok(claims)
}

/// What the registration in force that a row links claims in a land, with its submitter, where there is one.
fn claim_of_row<'a>(
    tis: &TisTable,
    files: &[InForce],
    land: Code,
    right: Right,
    row: &WorksRow<'a>,
) -> Option<Claim<'a>>
    requires known { row.now.submitter < length files.now }
    requires registrations { All (λ works. (number : List ℕ) (shares : List ShareLine)
        → find_work number works ≡ Some shares → IsOneRegistration shares) files.now }
    ensures claim { result ≡ claim_by_row tis.now files.now land right row.now }
    ensures small { IfSome result (λ claim. claim.1 ≤ u16.MAX * MOST_SHARES) }
{
    let shares = shares_of(files, row)?;
    Some(Claim {
        submitter: row.name,
        claim: claimed_in(tis, land, right, shares),
    })
}

/// The share lines of the registration in force that a row links, where there is one.
fn shares_of<'a>(files: &'a [InForce], row: &WorksRow<'_>) -> Option<&'a [ShareRecord]>
    requires { row.now.submitter < length files.now }
    ensures { option_map (λ shares. shares.now) result
        ≡ find_work row.now.number.now (slice_index_or files.entry.now row.now.submitter []) }
{
    files[row.submitter].find(row.number)
}

/// What each submitter with one of these names claims by these claims, where any is its own.
fn add_up<'a>(
    alloc: Global,
    names: &'a [Vec<u8>],
    claims: &[Claim<'_>],
) -> Result<Vec<Claim<'a>>, AllocError>
    requires few { length claims.now ≤ MOST_LINKS }
    requires small { All (λ claim. claim.1 ≤ u16.MAX * MOST_SHARES) claims.now }
    ensures { IfOk result (λ sums. sums.items
        ≡ filter_map (claim_of_submitter claims.now) (names_by names.entry.now)) }
{
    let mut sums = Vec::new(alloc);
    for place in 0..names.len() {
        let submitter = names[place].as_slice();
        if let Some(claim) = claim_of(submitter, claims) {
            sums.push(Claim { submitter, claim })?;
        }
    }
    Ok(sums)
}

/// What a submitter claims, where one of these claims is its own.
fn claim_of(submitter: &[u8], claims: &[Claim<'_>]) -> Option<u64>
    requires few { length claims.now ≤ MOST_LINKS }
    requires small { All (λ claim. claim.1 ≤ u16.MAX * MOST_SHARES) claims.now }
    ensures { option_map (λ claim. (submitter.now, claim)) result
        ≡ claim_of_submitter claims.now submitter.now }
{
    let mut sum = None;
    for place in 0..claims.len() {
        sum = with_claim(sum, submitter, &claims[place]);
    }
    sum
}

/// A submitter's sum, with one claim more if that is its own.
fn with_claim(sum: Option<u64>, submitter: &[u8], claim: &Claim<'_>) -> Option<u64>
    requires { unwrap_or sum 0 + claim.now.1 < 2 ^ 64 }
    ensures { result ≡ (if pointwise nat_eq claim.now.0 submitter.now
        then Some (unwrap_or sum 0 + claim.now.1) else sum) }
{
    if claim.submitter == submitter {
        Some(sum.unwrap_or(0) + claim.claim)
    } else {
        sum
    }
}

/// Adds what submitters claim on the line of a row.
fn add_row(text: &mut Vec<u8>, row: u64, claims: &[Claim<'_>]) -> Result<(), AllocError>
    ensures { OnOk result ((line : UsageLine)
        → text.new.items ≡ text.old.items ++ row_text (row, line) claims.now) }
{
    add(text, "; in row ")?;
    add_number(text, row)?;
    add(text, ": ")?;
    add_list(text, claims)
}
