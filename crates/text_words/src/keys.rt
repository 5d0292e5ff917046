// The reserved words, listed in one place, for whoever reads or writes them.
ghost use Rattle.std.specs.Prelude.{◌≡◌, map};
ghost use Rattle.gil.specs.Text;
ghost use Rattle.gil.specs.Text.{reserved_words};
ghost use Rattle.text_words.specs.Mirror.Keys.{entry, keyed, taken_in};

use crate::words::same;

#[derive(Clone, Copy, PartialEq, Eq)]
pub enum Key {
    Ifgoto,
    Return,
    Fail,
    Vanish,
    True,
    False,
    Not,
    And,
    Or,
    Lookup,
    Mutate,
    Dispose,
}

// Each reserved word in its bytes, with its key, in the definitions' order: what `find` promises names the whole table, as it can of a `const`
pub const RESERVED: [(&[u8], Key); 12] = [
    (b"ifgoto", Key::Ifgoto),
    (b"return", Key::Return),
    (b"fail", Key::Fail),
    (b"vanish", Key::Vanish),
    (b"true", Key::True),
    (b"false", Key::False),
    (b"not", Key::Not),
    (b"and", Key::And),
    (b"or", Key::Or),
    (b"lookup", Key::Lookup),
    (b"mutate", Key::Mutate),
    (b"dispose", Key::Dispose),
];

// The key of an entry of the table where the run is its word. Each call names the entry, so that the word's own bytes are compared with.
#[inline(always)]
fn taken(run: &[u8], entry: (&[u8], Key)) -> Option<Key>
    ensures { result ≡ taken_in run.now entry.entry.0.now entry.entry.1 }
{
    let (word, key) = entry;
    if same(run, word) { Some(key) } else { None }
}

// Which reserved word the run is. By its first letter and its length it may be one: to compare it with each of the table in turn would cost a
// text's check more than it may take.
fn looked_up(run: &[u8]) -> Option<Key>
    ensures { Text.find run.now reserved_words ≡ keyed result }
{
    if run.is_empty() {
        return None;
    }
    match run[0] {
        b'i' => taken(run, RESERVED[0]),
        b'r' => taken(run, RESERVED[1]),
        b'f' => {
            if run.len() == 5 {
                taken(run, RESERVED[5])
            } else {
                taken(run, RESERVED[2])
            }
        }
        b'v' => taken(run, RESERVED[3]),
        b't' => taken(run, RESERVED[4]),
        b'n' => taken(run, RESERVED[6]),
        b'a' => taken(run, RESERVED[7]),
        b'o' => taken(run, RESERVED[8]),
        b'l' => taken(run, RESERVED[9]),
        b'm' => taken(run, RESERVED[10]),
        b'd' => taken(run, RESERVED[11]),
        _ => None,
    }
}

// which reserved word the run is; the table holds the definitions' words and no other
pub fn find(run: &[u8]) -> Option<Key>
    ensures listed { map entry RESERVED ≡ reserved_words }
    ensures found { Text.find run.now reserved_words ≡ keyed result }
{
    looked_up(run)
}
