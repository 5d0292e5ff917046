// "A letter is A to Z or a to z": the classes of characters, each a match on a byte.
ghost use Rattle.std.specs.Prelude.{◌≡◌};
ghost use Rattle.gil.specs.Text.{letter, digit, in_run, white};

pub fn is_letter(b: u8) -> bool
    ensures { result ≡ letter b }
{
    match b {
        b'A'..=b'Z' => true,
        b'a'..=b'z' => true,
        _ => false,
    }
}

pub fn is_digit(b: u8) -> bool
    ensures { result ≡ digit b }
{
    match b {
        b'0'..=b'9' => true,
        _ => false,
    }
}

// What stands in a run: letters, digits and underscores. Most are small letters, so these are asked for first: one `matches!` alone cost a
// text's check 13 % (docs/DECISIONS.md).
pub fn in_run(b: u8) -> bool
    ensures { result ≡ in_run b }
{
    if b >= b'a' {
        return b <= b'z';
    }
    matches!(b, b'A'..=b'Z' | b'0'..=b'9' | b'_')
}

// Each in an arm of its own, which makes one test of bits: as one `matches!` it took reading tokens 7 % more.
pub fn is_white(b: u8) -> bool
    ensures { result ≡ white b }
{
    match b {
        b' ' => true,
        b'\n' => true,
        b'\r' => true,
        b'\t' => true,
        _ => false,
    }
}
