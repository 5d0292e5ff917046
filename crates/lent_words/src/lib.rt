// Words in bytes, "four a word, lowest first": read, written and zeroed where they stand in lent memory. All but `set_word` are total: a word
// that does not lie in the memory whole reads as 0, and a store of one does nothing. Beside them what every reader of such words needs.
#![tactic(auto)]

ghost use Rattle.std.specs.Prelude.{◌≡◌, ◌+◌, ◌<◌, ◌≤◌, length, replicate};
ghost use Rattle.std.proofs.lemmas.List.Edits.{sets};
ghost use Rattle.gil.specs.Layout.{word_bytes};
ghost use Rattle.lent_words.specs.Mirror.{word_at, put_word, at_most};

// A count that is read, and never more than there is room for
pub fn at_most(most: u32, n: u32) -> u32
    ensures { (result ≡ at_most most n) × (result ≤ most) }
{
    n.min(most)
}

// The word at a place.
pub fn word_at(b: &[u8], at: usize) -> u32
    ensures { result ≡ word_at b.now at }
{
    if at.saturating_add(4) > b.len() {
        return 0;
    }
    u32::from_le_bytes([b[at], b[at + 1], b[at + 2], b[at + 3]])
}

// A word stored where there is room for it.
pub fn set_word(b: &mut [u8], at: usize, x: u32)
    requires { at + 4 ≤ length b.old }
    ensures { b.new ≡ sets b.old at (word_bytes x) }
{
    b[at..at + 4].copy_from_slice(&x.to_le_bytes());
}

// A word stored at a place.
pub fn put_word(b: &mut [u8], at: usize, x: u32)
    ensures { b.new ≡ put_word b.old at x }
{
    if at.saturating_add(4) <= b.len() {
        set_word(b, at, x);
    }
}

// All of it zero.
pub fn zero(b: &mut [u8])
    ensures { b.new ≡ replicate (length b.old) 0 }
{
    b.fill(0);
}
