// Text written forward into lent memory, byte after byte. All writers are total: what finds no room is dropped, and counts. So two texts written
// one after the other are their join, whatever the room, and a page over no memory gives a text's length.
#![tactic(auto)]

ghost use Rattle.std.specs.Prelude.{◌≡◌, ◌≤◌, ℕ, List, [], ◌∷◌, length};
ghost use Rattle.gil.specs.Text.{part};
ghost use Rattle.gil.specs.Printed.{digits, decimal};
ghost use Rattle.print_writing.specs.Mirror.{last_place, Wrote, Writes};

use itoa::Buffer;

// Lent memory, and the place of the next byte
#[derive(Drop)]
pub struct Page<'a> {
    out: &'a mut [u8],
    at: usize,
}

// A byte at a place, and the place after it. The two go by value, since a page's own place would be loaded and stored at each byte.
fn put(out: &mut [u8], at: usize, x: u8) -> usize
    ensures { Wrote out.old at (x ∷ []) out.new result }
{
    if at < out.len() {
        out[at] = x;
    }
    at.saturating_add(1)
}

fn put_all(out: &mut [u8], at: usize, s: &[u8]) -> usize
    ensures { Wrote out.old at s.now out.new result }
{
    let mut place = at;
    for &x in s {
        place = put(out, place, x);
    }
    place
}

impl<'a> Page<'a> {
    pub fn new(out: &'a mut [u8]) -> Page<'a>
        ensures same { result.out.ghost_name ≡ out.entry.ghost_name }
        ensures bytes { result.out.now ≡ out.old }
        ensures front { result.at ≡ 0 }
    {
        Page::at(out, 0)
    }

    // A page that goes on at any place, also past the memory's end
    pub fn at(out: &'a mut [u8], at: usize) -> Page<'a>
        ensures same { result.out.ghost_name ≡ out.entry.ghost_name }
        ensures bytes { result.out.now ≡ out.old }
        ensures place { result.at ≡ at }
    {
        Page { out, at }
    }

    // The place of the next byte, which counts those that found no room too
    pub fn count(&self) -> usize
        ensures { result ≡ self.now.at }
    {
        self.at
    }

    pub fn put(&mut self, x: u8)
        ensures { Writes self.old (x ∷ []) self.new }
    {
        self.at = put(self.out, self.at, x);
    }

    pub fn put_all(&mut self, s: &[u8])
        ensures { Writes self.old s.now self.new }
    {
        self.at = put_all(self.out, self.at, s);
    }

    // The `n` bytes of a text from a place, or those of them that are there
    pub fn put_part(&mut self, s: &[u8], from: u32, n: u32)
        ensures { Writes self.old (part s.now from n) self.new }
    {
        let start = from as usize;
        let end = start + n as usize;
        self.put_all(&s[start.min(s.len())..end.min(s.len())]);
    }

    // Decimal, with at most `more` digits more than one: of a number that has more of them the last ones
    pub fn put_digits(&mut self, n: u32, more: u8)
        ensures { Writes self.old (digits more n) self.new }
    {
        if more == 0 {
            self.put((48 + n % 10) as u8);
            return;
        }
        if n < 10 {
            self.put((48 + n) as u8);
            return;
        }
        self.put_digits(n / 10, more - 1);
        self.put((48 + n % 10) as u8);
    }
}

// What has a text of its own. (A `Display` with `write!` gives a `Result`, and no clause of std's rules out its `Err`, where less would be written.)
pub trait Text {
    ghost text: { Self → List ℕ };

    fn put_on(&self, page: &mut Page)
        ensures { Writes page.old (text self.now) page.new };
}

impl Text for u32 {
    ghost text = { decimal };

    fn put_on(&self, page: &mut Page) {
        page.put_all(Buffer::new().format(*self).as_bytes());
    }
}

// How long a text is: a page over no memory counts
pub fn size_of<T: Text>(x: &T) -> usize
    requires { length (T.text x.now) ≤ last_place }
    ensures { result ≡ length (T.text x.now) }
{
    let mut page = Page::new(&mut []);
    x.put_on(&mut page);
    page.count()
}
