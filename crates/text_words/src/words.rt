// What a run of characters is: a reserved word, a fresh symbol, a name, a number, or none of these.
ghost use Rattle.std.specs.Prelude.{◌≡◌};
ghost use Rattle.gil.specs.Text;
ghost use Rattle.gil.specs.Text.{numeral, symbol, identifier};
ghost use Rattle.text_words.specs.Mirror.Numbers.{counted, worth};
ghost use Rattle.text_words.specs.Mirror.Words.{said};

use crate::keys::Key;
use crate::{classes, keys};
use gil::limits::{LARGEST_NUMBER, LARGEST_SITE, MOST_CHARACTERS};

// what a run is; `USite` and `ISite` are fresh symbols, by their numbers
#[derive(Clone, Copy, PartialEq, Eq)]
pub enum Word {
    Name,
    Number(u32),
    Reserved(Key),
    USite(u32),
    ISite(u32),
}

// Two runs are the same. By places, and not by `==`, which is a call for each pair of bytes: a text's check took 11 % longer (docs/DESIGN-PASS.md).
pub fn same(a: &[u8], b: &[u8]) -> bool
    ensures { result ≡ Text.same a.now b.now }
{
    if a.len() != b.len() {
        return false;
    }
    for i in 0..a.len() {
        if a[i] != b[i] {
            return false;
        }
    }
    true
}

// the number that the digits are, where all are digits and the limit is kept
fn value(digits: &[u8], limit: u32) -> Option<u32>
    ensures { result ≡ worth limit 0 digits.now }
{
    let most = limit as u64;
    let mut n: u64 = 0;
    for digit in digits {
        if !classes::is_digit(*digit) {
            return None;
        }
        n = n * 10 + (*digit - b'0') as u64;
        if n > most {
            return None;
        }
    }
    Some(n as u32)
}

// "with no leading zero but in `0` itself": the number up to a limit that the characters are
fn decimal(digits: &[u8], limit: u32) -> Option<u32>
    ensures { numeral limit digits.now ≡ counted result }
{
    if digits.is_empty() {
        return None;
    }
    if digits.len() > 1 && digits[0] < b'1' {
        return None;
    }
    value(digits, limit)
}

// "`v := uSym_j`, `v := iSym_j`, j a number as above, 0 to 255"
fn symbol_of(run: &[u8]) -> Option<Word>
    ensures { symbol run.now ≡ said run.now result }
{
    if let Some(digits) = run.strip_prefix(b"uSym_") {
        return Some(Word::USite(decimal(digits, LARGEST_SITE)?));
    }
    if let Some(digits) = run.strip_prefix(b"iSym_") {
        return Some(Word::ISite(decimal(digits, LARGEST_SITE)?));
    }
    Some(Word::Name)
}

// "An identifier starts with a letter and has 1 to 16 characters"
fn identifier_of(run: &[u8]) -> Option<Word>
    ensures { identifier run.now ≡ said run.now result }
{
    if run.len() > MOST_CHARACTERS {
        return None;
    }
    if let Some(key) = keys::find(run) {
        return Some(Word::Reserved(key));
    }
    symbol_of(run)
}

// what a run of characters is, by its first; `None` where it is none of these
pub fn word_of(run: &[u8]) -> Option<Word>
    ensures { Text.word_of run.now ≡ said run.now result }
{
    if run.is_empty() {
        return None;
    }
    if classes::is_letter(run[0]) {
        return identifier_of(run);
    }
    Some(Word::Number(decimal(run, LARGEST_NUMBER)?))
}
