// A text that may be read: "at most 16,384 bytes".
ghost use Rattle.std.specs.Prelude.{◌≡◌, ◌+◌, ◌≤◌, ◌<◌, length, MatchOption};
ghost use Rattle.gil.specs.Numbers.{most_bytes};
ghost use Rattle.gil.specs.Text.{part};
ghost use Rattle.text_tokens.specs.Mirror.Seen.{name_at};

use crate::tokens::Place;
use gil::limits::MOST_BYTES;
use std::marker::Model;

// what stands from a byte on, of any size, as far as it lies in the bytes
pub fn part(bytes: &[u8], start: u32, size: u32) -> &[u8]
    ensures { result.now ≡ part bytes.now start size }
{
    let rest = &bytes[bytes.len().min(start as usize)..];
    &rest[..rest.len().min(size as usize)]
}

// what stands at a place, as far as it lies in the bytes
pub fn name(bytes: &[u8], place: Place) -> &[u8]
    ensures { result.now ≡ name_at bytes.now place }
{
    part(bytes, place.start, place.size)
}

#[derive(Drop)]
pub struct Text<'a> {
    bytes: &'a [u8],
}

impl<'a> Model for Text<'a> {
    ghost use Rattle.std.specs.Prelude.{ℕ, List, ◌≤◌, length};
    ghost use Rattle.gil.specs.Numbers.{most_bytes};

    ghost Value = { List ℕ };

    ghost view = { λ t. t.bytes.now };

    ghost invariant = { λ t. length t.bytes.now ≤ most_bytes };
}

impl<'a> Text<'a> {
    // the text that the bytes are, where they are not too many
    pub fn new(bytes: &'a [u8]) -> Option<Self>
        ensures { MatchOption result (most_bytes < length bytes.now) (λ t. (t ≡ bytes.now) × (length bytes.now ≤ most_bytes)) }
    {
        if bytes.len() > MOST_BYTES {
            return None;
        }
        Some(Text { bytes })
    }

    pub fn bytes(&self) -> &'a [u8]
        ensures { (result.now ≡ self.now) × (length self.now ≤ most_bytes) }
    {
        self.bytes
    }

    pub fn len(&self) -> usize
        ensures { (result ≡ length self.now) × (result ≤ most_bytes) }
    {
        self.bytes.len()
    }

    // the name or property at a place, as far as it lies in the text
    pub fn name(&self, place: Place) -> &'a [u8]
        ensures { result.now ≡ name_at self.now place }
    {
        name(self.bytes, place)
    }
}
