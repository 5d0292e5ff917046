// Buffers that are lent, and what is known of a part of one.
ghost use Rattle.std.specs.Prelude.{◌≡◌, length};

// The byte that fills a buffer before it is lent.
pub const FILLED: u8 = 165;

// A buffer, filled; the `ensures` gives the length, which lending it as a slice needs.
pub fn filled<const N: usize>() -> [u8; N]
    ensures { N ≡ length result }
{
    [FILLED; N]
}

// Whether every byte from a place on is as before the call.
pub fn kept(b: &[u8], from: usize) -> bool {
    b.iter().skip(from).all(|x| *x == FILLED)
}

// Whether the bytes from one place to another are there, and all zero: there are none where the second place is before the first.
pub fn zero(b: &[u8], from: usize, to: usize) -> bool {
    b.get(from.min(to)..to)
        .is_some_and(|part| part.iter().all(|x| *x == 0))
}

// The bytes from a place on: none past the end, so that each word there is 0 (crates/lent_words).
pub(crate) fn rest(b: &[u8], from: usize) -> &[u8] {
    b.get(from..).unwrap_or(&[])
}
