//! One word `PARTY=SHARE` of the command line.

ghost use Rattle.std.specs.Prelude.{◌≡◌, ◌≤◌, ◌<◌, ◌↔◌, length, map, All, IsTrue, string_bytes};
ghost use Rattle.std.specs.Char.{IsAsciiDigit};
ghost use Rattle.pair_split.specs.Pair.{IsPair, digits_of as digits_text, party_of as party_text, share_of as share_value, word_at};

/// What separates a party from its share: `=`. A party has none, so the first one counts.
pub const SEPARATOR: u8 = b'=';

/// The longest name of a party, in bytes.
pub const MOST_PARTY_BYTES: usize = 9;

/// The most digits that a share is written with.
pub const MOST_SHARE_DIGITS: usize = 5;

/// The word at a place of a command line.
pub fn word(words: &[String], place: usize) -> &str
    requires { place < length words.now }
    ensures { result.now ≡ word_at (map string_bytes words.now) place }
{
    words[place].as_str()
}

/// Whether a word is PARTY=SHARE: 1 to 9 printable ASCII bytes, a `=`, and one to five digits.
pub fn is_pair(word: &str) -> bool
    ensures { IsTrue result ↔ IsPair word.now }
{
    match word.split_once('=') {
        Some((party, digits)) => is_party(party.as_bytes()) && is_share(digits.as_bytes()),
        None => false,
    }
}

/// The party of a word PARTY=SHARE.
pub fn party_of(word: &str) -> &str
    requires { IsPair word.now }
    ensures { result.now ≡ party_text word.now }
{
    let (party, _) = word.split_once('=').unwrap();
    party
}

/// The share of a word PARTY=SHARE, in hundredths of a per cent.
pub fn share_of(word: &str) -> u32
    requires { IsPair word.now }
    ensures { result ≡ share_value word.now }
{
    digits_of(word).parse::<u32>().unwrap()
}

fn digits_of(word: &str) -> &str
    requires { IsPair word.now }
    ensures { result.now ≡ digits_text word.now }
{
    let (_, digits) = word.split_once('=').unwrap();
    digits
}

fn is_party(name: &[u8]) -> bool
    ensures { IsTrue result ↔ (0 < length name.now) × (length name.now ≤ MOST_PARTY_BYTES) × All (λ byte. (32 ≤ byte) × (byte ≤ 126)) name.now }
{
    !name.is_empty()
        && name.len() <= MOST_PARTY_BYTES
        && name.iter().all(|byte| *byte >= 32 && *byte <= 126)
}

fn is_share(digits: &[u8]) -> bool
    ensures { IsTrue result ↔ (0 < length digits.now) × (length digits.now ≤ MOST_SHARE_DIGITS) × All IsAsciiDigit digits.now }
{
    !digits.is_empty()
        && digits.len() <= MOST_SHARE_DIGITS
        && digits.iter().all(|byte| byte.is_ascii_digit())
}
