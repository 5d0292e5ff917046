// The token at a place of the text, and the place after it.
ghost use Rattle.std.specs.Prelude.{◌≡◌, true, ◌+◌, ◌≤◌, ◌<◌, length, drop, get_or};
ghost use Rattle.gil.specs.Text.{lexeme, token_from, in_run};
ghost use Rattle.text_tokens.specs.Mirror.Marks.{lone, Marked};
ghost use Rattle.text_tokens.specs.Mirror.Seen.{Found};
ghost use Rattle.gil.specs.Numbers.{most_bytes, most_characters};

use crate::scan;
use crate::texts::Text;
use crate::tokens::{Lexeme, Place, Token};
use gil::limits::MOST_CHARACTERS;
use text_words::words::Word;
use text_words::{classes, words};

// the place of the name or property that stands from `start` to `end`
fn between(start: usize, end: usize) -> Place
    requires within { (start ≤ end) × (end ≤ most_bytes) }
    requires short { end ≤ start + most_characters }
    ensures { (result.start ≡ start) × (result.start + result.size ≡ end) }
{
    Place {
        start: start as u32,
        size: (end - start) as u32,
    }
}

// "A property is 1 to 16 letters, digits or underscores in double quotes": the quote at `i`
fn quoted(text: &Text, i: usize) -> Lexeme
    requires { (i < length text.now) × (get_or text.now i 0 ≡ 34) }
    ensures { Found text.now i (token_from text.now i (drop i text.now)) result.token result.next }
{
    let bytes = text.bytes();
    let from = i + 1;
    let end = scan::past(bytes, from, classes::in_run);
    let n = end - from;
    if end < bytes.len() && bytes[end] == b'"' && n > 0 && n <= MOST_CHARACTERS {
        return Lexeme {
            token: Token::Property(between(from, end)),
            next: end + 1,
        };
    }
    Lexeme {
        token: Token::Mark(b'"'),
        next: from,
    }
}

// "`:=` is one": the colon at `i`
fn coloned(text: &Text, i: usize) -> Lexeme
    requires { (i < length text.now) × (get_or text.now i 0 ≡ 58) }
    ensures { Found text.now i (token_from text.now i (drop i text.now)) result.token result.next }
{
    let bytes = text.bytes();
    let from = i + 1;
    if from < bytes.len() && bytes[from] == b'=' {
        return Lexeme {
            token: Token::Becomes,
            next: from + 1,
        };
    }
    Lexeme {
        token: Token::Mark(b':'),
        next: from,
    }
}

// A run of characters from `i` on. It stands by itself, so that a mark, as most tokens are, costs none of what a run's reading needs.
fn run(text: &Text, i: usize) -> Lexeme
    requires { (i < length text.now) × (in_run (get_or text.now i 0) ≡ true) }
    ensures { Found text.now i (token_from text.now i (drop i text.now)) result.token result.next }
{
    let bytes = text.bytes();
    let end = scan::past(bytes, i, classes::in_run);
    let token = match words::word_of(&bytes[i..end]) {
        Some(Word::Name) => Token::Name(between(i, end)),
        Some(Word::Number(n)) => Token::Number(n),
        Some(Word::Reserved(key)) => Token::Reserved(key),
        Some(Word::USite(n)) => Token::USite(n),
        Some(Word::ISite(n)) => Token::ISite(n),
        None => Token::Fault,
    };
    Lexeme { token, next: end }
}

// the token that begins at `i`
fn token_from(text: &Text, i: usize) -> Lexeme
    ensures { Found text.now i (token_from text.now i (drop i text.now)) result.token result.next }
{
    let bytes = text.bytes();
    if i >= bytes.len() {
        return Lexeme {
            token: Token::Ended,
            next: i,
        };
    }
    let b = bytes[i];
    if classes::in_run(b) {
        return run(text, i);
    }
    match b {
        b'"' => quoted(text, i),
        b':' => coloned(text, i),
        _ => Lexeme {
            token: Token::Mark(b),
            next: i + 1,
        },
    }
}

// The place after the next token of any bytes where that is the mark `b`. Its byte tells, as no other token starts with it: so no run is read
// through only to see that it is no such mark.
pub fn past_mark(bytes: &[u8], at: usize, b: u8) -> Option<usize>
    requires { lone b ≡ true }
    ensures { Marked bytes.now at b result }
{
    let i = scan::past(bytes, at, classes::is_white);
    if i >= bytes.len() {
        return None;
    }
    if bytes[i] == b { Some(i + 1) } else { None }
}

impl<'a> Text<'a> {
    // the next token from a place on, past any white space
    pub fn token(&self, at: usize) -> Lexeme
        ensures { Found self.now at (lexeme self.now at) result.token result.next }
    {
        token_from(self, scan::past(self.bytes(), at, classes::is_white))
    }

    // the place after the next token where that is the mark `b`
    pub fn past_mark(&self, at: usize, b: u8) -> Option<usize>
        requires { lone b ≡ true }
        ensures { Marked self.now at b result }
    {
        past_mark(self.bytes(), at, b)
    }
}
