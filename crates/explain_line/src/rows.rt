//! The rows of an explanation.

ghost use Rattle.std.specs.Prelude.{◌≡◌, ◌≤◌, ◌<◌, ◌+◌, ◌∷◌, [], ℕ, List, OnOk, IfSome, Option, codes, decimal, drop, length, map, slice_index, slice_index_or, unsigned_abs};
ghost use Rattle.std.specs.Fmt.{signed_decimal};
ghost use Rattle.std.specs.List.{enumerate_from};
ghost use Rattle.std.specs.Option.{option_map_or};
ghost use Rattle.cwr_share.specs.ClaimsOn.{claims_among};
ghost use Rattle.cwr_share.specs.Filed.{IsFiled};
ghost use Rattle.cwr_share.specs.Payees.{payee_of};
ghost use Rattle.cwr_share.specs.Registrations.{ShareLine};
ghost use Rattle.cwr_share.specs.declared.TheConstants.{MOST_SHARE_LINES, MOST_SHARES};
ghost use Rattle.explain_line.specs.Explanation.{AddsRow, AddsRows, base_row, claim_row, division_rows, line_row, mark_text, participant_fields};
ghost use Rattle.explain_line.specs.Explanation.{participant_row, payee_at, registration_rows, right_text, share_fields, share_row, shown_of, yes_or_no};
ghost use Rattle.explain_line.specs.Shares.{shown_by};
ghost use Rattle.line_split.specs.Claims.{participants_of};
ghost use Rattle.line_split.specs.ReasonTexts.{reason_text};
ghost use Rattle.line_split.specs.Signs.{with_sign_of};
ghost use Rattle.line_split.specs.UsageLine.{usage_line_of};
ghost use Rattle.line_split.specs.declared.TheConstants.{MOST_AMOUNT};

use crate::claimed::{claim_of, payee_by, payees_by};
use csv_table::RowWriter;
use cwr_share::{FiledRegistration, Registry, ShareRecord, covers_land, decides};
use itoa::Buffer;
use line_split::{
    Account, Claims, Line, RESIDUE, Reason, Right, Working, base_for, units_left_of, working_of,
};
use std::alloc::{AllocError, Global};
use tis_tree::{Code, TisTable};

/// The usage line.
pub(crate) fn write_line(rows: &mut RowWriter, row: u64, line: &Line<'_>) -> Result<(), AllocError>
    ensures { OnOk result (AddsRow rows.old.text rows.new.text (line_row row (usage_line_of line.now))) }
{
    write_line_fields(
        rows,
        row,
        line.usage,
        line.work,
        line.territory,
        right_word(line.right).as_bytes(),
        line.amount,
    )
}

fn write_line_fields<'a>(
    rows: &mut RowWriter,
    row: u64,
    usage: &'a [u8],
    work: &'a [u8],
    territory: u16,
    right: &'a [u8],
    amount: i64,
) -> Result<(), AllocError>
    ensures { OnOk result (AddsRow rows.old.text rows.new.text (codes "U" ∷ decimal row ∷ usage.now ∷ work.now ∷ decimal territory ∷ right.now ∷ signed_decimal amount ∷ [])) }
{
    let mut number = Buffer::new();
    let mut code = Buffer::new();
    let mut digits = Buffer::new();
    rows.row(&[
        b"U",
        number.format(row).as_bytes(),
        usage,
        work,
        code.format(territory).as_bytes(),
        right,
        digits.format(amount).as_bytes(),
    ])
}

/// The letter of a right.
pub fn right_word(right: Right) -> &'static str
    ensures { result.now ≡ right_text right }
{
    match right {
        Right::P => "P",
        Right::M => "M",
        Right::S => "S",
    }
}

/// The registration in force, its share lines and what they come to, for a line of this land; or that there is none.
pub(crate) fn write_filed(
    alloc: Global,
    rows: &mut RowWriter,
    tis: &TisTable,
    registry: &Registry,
    line: &Line<'_>,
    land: Code,
    filed: &Option<FiledRegistration>,
    reason: Option<Reason>,
) -> Result<(), AllocError>
    requires land { land ≡ line.now.territory }
    requires few { IfSome filed.now (λ filed. length filed.shares.items ≤ MOST_SHARES) }
    ensures { (file : List (List ℕ)) → IsFiled file line.now.work.now filed.now
        → OnOk result (AddsRows rows.old.text rows.new.text (registration_rows tis.now registry.now file (usage_line_of line.now) reason)) }
{
    let reason = reason_word(reason).as_bytes();
    let Some(filed) = filed else {
        return write_registration(rows, b"", reason);
    };
    let mut number = Buffer::new();
    write_registration(rows, number.format(filed.line).as_bytes(), reason)?;
    let shares = filed.shares.as_slice();
    write_shares(
        rows,
        tis,
        registry,
        land,
        line.right,
        filed.numbers.as_slice(),
        shares,
    )?;
    write_claims(alloc, rows, tis, registry, land, line.right, shares)
}

/// The line of the file that a registration begins in, and why no claim counts.
fn write_registration<'a>(
    rows: &mut RowWriter,
    line: &'a [u8],
    reason: &'a [u8],
) -> Result<(), AllocError>
    ensures { OnOk result (AddsRow rows.old.text rows.new.text (codes "N" ∷ line.now ∷ reason.now ∷ [])) }
{
    rows.row(&[b"N", line, reason])
}

/// The word for a reason; nothing where there is none.
pub(crate) fn reason_word(reason: Option<Reason>) -> &'static str
    ensures { result.now ≡ option_map_or reason_text reason [] }
{
    match reason {
        Some(reason) => reason.word(),
        None => "",
    }
}

/// The share lines of a registration, which have these numbers.
fn write_shares(
    rows: &mut RowWriter,
    tis: &TisTable,
    registry: &Registry,
    land: Code,
    right: Right,
    numbers: &[u64],
    shares: &[ShareRecord],
) -> Result<(), AllocError>
    ensures { OnOk result (AddsRows rows.old.text rows.new.text (map (share_row tis.now registry.now land right numbers.now shares.now) (enumerate_from 0 shares.now))) }
{
    for place in 0..shares.len() {
        write_share(rows, tis, registry, land, right, numbers, shares, place)?;
    }
    Ok(())
}

/// One of them.
fn write_share(
    rows: &mut RowWriter,
    tis: &TisTable,
    registry: &Registry,
    land: Code,
    right: Right,
    numbers: &[u64],
    shares: &[ShareRecord],
    place: usize,
) -> Result<(), AllocError>
    requires { place < length shares.now }
    ensures { (d : ShareLine) → OnOk result (AddsRow rows.old.text rows.new.text (share_row tis.now registry.now land right numbers.now shares.now (place, slice_index_or shares.now place d))) }
{
    let payee = payee_by(registry, shares[place].party());
    let shown = shown_share(tis, land, right, payee, numbers, shares, place);
    write_share_fields(rows, &shown)
}

/// What a row says of a share line.
#[derive(Clone, Copy, Debug)]
pub(crate) struct Shown<'a> {
    /// The number of its line in the file.
    pub(crate) number: u64,
    /// Its interest: how many SPU and SWR records stand before it in its registration.
    pub(crate) interest: usize,
    /// Its party.
    pub(crate) party: &'a [u8],
    /// The payee of its party.
    pub(crate) payee: &'a [u8],
    /// Its share for the right of the usage line, also where it excludes.
    pub(crate) recorded: u16,
    /// Whether it includes or excludes.
    pub(crate) mark: &'a [u8],
    /// The code of its territory.
    pub(crate) territory: u16,
    /// Whether its territory contains the land of the usage line.
    pub(crate) covers: &'a [u8],
    /// Whether it decides there.
    pub(crate) decides: &'a [u8],
}

/// What a row says of the share line at a place, whose party is paid to this payee.
pub(crate) fn shown_share<'a>(
    tis: &TisTable,
    land: Code,
    right: Right,
    payee: &'a [u8],
    numbers: &[u64],
    shares: &'a [ShareRecord],
    place: usize,
) -> Shown<'a>
    requires { place < length shares.now }
    ensures { (d : ShareLine) → shown_by result ≡ shown_of tis.now land right payee.now numbers.now shares.now (place, slice_index_or shares.now place d) }
{
    let share = &shares[place];
    Shown {
        number: number_at(numbers, place),
        interest: share.interest(),
        party: share.party(),
        payee,
        recorded: share.recorded(right),
        mark: mark_word(share.includes()).as_bytes(),
        territory: share.territory().number(),
        covers: yes_or_no_word(covers_land(tis, land, share)).as_bytes(),
        decides: yes_or_no_word(decides(tis, land, shares, place)).as_bytes(),
    }
}

fn write_share_fields(rows: &mut RowWriter, shown: &Shown<'_>) -> Result<(), AllocError>
    ensures { OnOk result (AddsRow rows.old.text rows.new.text (codes "C" ∷ share_fields (shown_by shown.now))) }
{
    let mut line = Buffer::new();
    let mut place = Buffer::new();
    let mut share = Buffer::new();
    let mut code = Buffer::new();
    rows.row(&[
        b"C",
        line.format(shown.number).as_bytes(),
        place.format(shown.interest).as_bytes(),
        shown.party,
        shown.payee,
        share.format(shown.recorded).as_bytes(),
        shown.mark,
        code.format(shown.territory).as_bytes(),
        shown.covers,
        shown.decides,
    ])
}

/// The number at a place.
fn number_at(numbers: &[u64], place: usize) -> u64
    ensures { result ≡ slice_index numbers.now place }
{
    match numbers.get(place) {
        Some(number) => *number,
        None => 0,
    }
}

fn mark_word(includes: bool) -> &'static str
    ensures { result.now ≡ mark_text includes }
{
    if includes { "I" } else { "E" }
}

fn yes_or_no_word(holds: bool) -> &'static str
    ensures { result.now ≡ yes_or_no holds }
{
    if holds { "yes" } else { "no" }
}

/// What each account claims by share lines, where that is not nothing.
pub(crate) fn write_claims(
    alloc: Global,
    rows: &mut RowWriter,
    tis: &TisTable,
    registry: &Registry,
    land: Code,
    right: Right,
    shares: &[ShareRecord],
) -> Result<(), AllocError>
    requires { length shares.now ≤ MOST_SHARE_LINES }
    ensures { OnOk result (AddsRows rows.old.text rows.new.text (map (claim_row registry.now)
        (claims_among tis.now land right (payee_of registry.now.payees) shares.now (drop 1 registry.now.accounts)))) }
{
    let payees = payees_by(alloc, registry, shares)?;
    for account in 1..registry.accounts() {
        let payee = registry.party(account);
        let claim = claim_of(tis, land, right, shares, payees.as_slice(), payee);
        if claim > 0 {
            write_claim(rows, account, payee, claim)?;
        }
    }
    Ok(())
}

/// What an account claims.
fn write_claim(
    rows: &mut RowWriter,
    account: Account,
    payee: &[u8],
    claim: u64,
) -> Result<(), AllocError>
    ensures { OnOk result (AddsRow rows.old.text rows.new.text (codes "A" ∷ decimal account ∷ payee.now ∷ decimal claim ∷ [])) }
{
    let mut number = Buffer::new();
    let mut digits = Buffer::new();
    rows.row(&[
        b"A",
        number.format(account).as_bytes(),
        payee,
        digits.format(claim).as_bytes(),
    ])
}

/// How an amount is divided by claims: the base, and each participant.
pub(crate) fn write_division(
    rows: &mut RowWriter,
    registry: &Registry,
    amount: i64,
    claims: &Claims,
) -> Result<(), AllocError>
    requires { unsigned_abs amount ≤ MOST_AMOUNT }
    ensures { OnOk result (AddsRows rows.old.text rows.new.text (division_rows registry.now amount claims.now.list)) }
{
    write_base(rows, amount.unsigned_abs(), claims)?;
    for place in 0..claims.list().len() + 1 {
        write_participant(rows, registry, amount, claims, place)?;
    }
    Ok(())
}

/// What a share is a share of, the residue's share, and how many units the quotas leave.
fn write_base(rows: &mut RowWriter, size: u64, claims: &Claims) -> Result<(), AllocError>
    requires { size ≤ MOST_AMOUNT }
    ensures { OnOk result (AddsRow rows.old.text rows.new.text (base_row size claims.now.list)) }
{
    let residue = working_of(size, claims, claims.list().len()).share;
    let mut base = Buffer::new();
    let mut share = Buffer::new();
    let mut left = Buffer::new();
    rows.row(&[
        b"B",
        base.format(base_for(claims)).as_bytes(),
        share.format(residue).as_bytes(),
        left.format(units_left_of(size, claims)).as_bytes(),
    ])
}

/// How the participant at a place comes to its portion.
fn write_participant(
    rows: &mut RowWriter,
    registry: &Registry,
    amount: i64,
    claims: &Claims,
    place: usize,
) -> Result<(), AllocError>
    requires in_range { unsigned_abs amount ≤ MOST_AMOUNT }
    requires place { place ≤ length claims.now.list }
    ensures { (d : ℕ × ℕ) → OnOk result (AddsRow rows.old.text rows.new.text (participant_row registry.now amount claims.now.list
        (place, slice_index_or (participants_of claims.now.list) place d))) }
{
    let account = account_at(claims, place);
    let working = working_of(amount.unsigned_abs(), claims, place);
    let payee = payee_of_account(registry, account);
    let portion = signed(amount, working.portion);
    write_participant_fields(rows, account, payee, working, portion)
}

fn write_participant_fields<'a>(
    rows: &mut RowWriter,
    account: Account,
    payee: &'a [u8],
    working: Working,
    portion: i64,
) -> Result<(), AllocError>
    requires { working.rank < 1000 }
    ensures { OnOk result (AddsRow rows.old.text rows.new.text (participant_fields account payee.now working.share working.quota working.remainder (working.rank + 1) portion)) }
{
    let mut number = Buffer::new();
    let mut share = Buffer::new();
    let mut quota = Buffer::new();
    let mut remainder = Buffer::new();
    let mut rank = Buffer::new();
    let mut digits = Buffer::new();
    rows.row(&[
        b"P",
        number.format(account).as_bytes(),
        payee,
        share.format(working.share).as_bytes(),
        quota.format(working.quota).as_bytes(),
        remainder.format(working.remainder).as_bytes(),
        rank.format(working.rank + 1).as_bytes(),
        digits.format(portion).as_bytes(),
    ])
}

/// The account of the participant at a place.
fn account_at(claims: &Claims, place: usize) -> Account
    requires { place ≤ length claims.now.list }
    ensures { (d : ℕ × ℕ) → result ≡ (slice_index_or (participants_of claims.now.list) place d).0 }
{
    match claims.list().get(place) {
        Some(claim) => claim.0,
        None => RESIDUE,
    }
}

/// The payee of an account; the residue's has an empty name.
fn payee_of_account(registry: &Registry, account: Account) -> &[u8]
    ensures { result.now ≡ payee_at registry.now account }
{
    match registry.parties().get(account as usize) {
        Some(payee) => payee.as_slice(),
        None => b"",
    }
}

/// A size with the sign of an amount.
fn signed(amount: i64, size: u64) -> i64
    requires { size ≤ MOST_AMOUNT }
    ensures { result ≡ with_sign_of amount size }
{
    let size = size as i64;
    if amount < 0 { -size } else { size }
}
