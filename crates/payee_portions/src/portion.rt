//! A portion of a payee.

ghost use Rattle.std.specs.Prelude.{◌≡◌, ◌≤◌, ◌<◌, Some, length, slice_get};
ghost use Rattle.document_names.specs.FirstTexts.{text_in};
ghost use Rattle.line_split.specs.UsageLine.{UsageLine};
ghost use Rattle.line_split.specs.declared.TheConstants.{MOST_CLAIMS, MOST_LINES};
ghost use Rattle.payee_portions.specs.Portions.{portion_by, share_in};
ghost use Rattle.payee_portions.specs.Shown.{portion_shown};

use cwr_share::Registry;
use document_names::FirstTexts;
use line_split::{Account, Claims, Line, Usage, base_for};
use payee_book::Posting;
use tis_tree::TisTable;

/// A portion of a payee: its usage line, and what the payee claims there.
#[derive(Clone, Copy, Debug)]
pub struct Portion<'a> {
    /// The title of the work, empty where none is known.
    pub title: &'a [u8],
    /// The usage line.
    pub line: Line<'a>,
    /// Its row of the usage list, from 1.
    pub row: u64,
    /// What the payee claims, in hundredths of a per cent.
    pub share: u32,
    /// What the share is a share of: 10000, or what all claims come to where that is more.
    pub base: u32,
    /// The portion, in minor units. It is negative where money is taken back.
    pub amount: i64,
}

/// The portion that a posting of an account is.
pub(crate) fn portion_of<'a>(
    tis: &TisTable,
    registry: &Registry,
    usage: &'a Usage,
    titles: &'a FirstTexts,
    account: Account,
    posting: Posting,
    claims: &mut Claims,
) -> Portion<'a>
    requires line { posting.0 < length usage.now }
    requires few { length usage.now ≤ MOST_LINES }
    requires room { MOST_CLAIMS ≤ claims.old.room }
    ensures portion { (line : UsageLine) → slice_get usage.entry.now posting.0 ≡ Some line
        → portion_shown result ≡ portion_by tis.now registry.now (text_in titles.entry.now) account posting line }
    ensures amount { result.amount ≡ posting.1 }
    ensures room { claims.new.room ≡ claims.old.room }
{
    let line = usage.line(posting.0 as usize);
    registry.claims(tis, &line, claims);
    Portion {
        title: titles.text_of(line.work),
        line,
        row: posting.0 + 1,
        share: share_of(claims.list(), account),
        base: base_for(claims),
        amount: posting.1,
    }
}

/// What an account claims, by the claims on a line.
fn share_of(claims: &[(Account, u32)], account: Account) -> u32
    ensures { result ≡ share_in claims.now account }
{
    for place in 0..claims.len() {
        if claims[place].0 == account {
            return claims[place].1;
        }
    }
    0
}
