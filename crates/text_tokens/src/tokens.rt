// What a token is to the code.
ghost use Rattle.std.specs.Prelude.{◌<◌};

use text_words::keys::Key;

// Where a name or a property stands in the text: its first byte's place and its size. Neither is longer than 16 characters, so each place is of
// fewer than 32 bytes.
#[derive(Clone, Copy, PartialEq, Eq)]
pub struct Place {
    pub start: u32,
    pub size: u32,
    pub ghost short: { size < 32 },
}

// the place of what no text has
pub const NOWHERE: Place = Place { start: 0, size: 0 };

// A token: what a run of characters is, or `Fault` where it is none of a text's forms; a property, `:=`, another mark by its byte, or the end.
#[derive(Clone, Copy, PartialEq, Eq)]
pub enum Token {
    Name(Place),
    Number(u32),
    Reserved(Key),
    USite(u32),
    ISite(u32),
    Fault,
    Property(Place),
    Becomes,
    Mark(u8),
    Ended,
}

// a token and the place after it
#[derive(Clone, Copy)]
pub struct Lexeme {
    pub token: Token,
    pub next: usize,
}
