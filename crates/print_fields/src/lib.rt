// A field: a value's text, or `large`. A term's text is never built: one pass over the pool takes every text's size, each term once, and
// only a text of at most 200 bytes is written, by crates/print_values. Kinds and tags are docs/LAYOUT.md's. What each function
// answers or writes, on any bytes, is specs/Mirror.antt's; crates/print_laws shows that this is document 01's printed form.
#![tactic(auto)]

ghost use Rattle.std.specs.Prelude.{◌≡◌, ◌≤◌, ◌<◌, length};
ghost use Rattle.gil.specs.Codes.{kind_number};
ghost use Rattle.gil.specs.Numbers.{most_terms};
ghost use Rattle.lent_words.specs.Mirror.{at_most};
ghost use Rattle.print_writing.specs.Mirror.{Writes};
ghost use Rattle.print_fields.specs.Mirror.{no_sizes, size_at, value_size, node_size, term_size, sizes_to, field_form};

use gil::kinds::TermKind;
use gil::layout::TERM_BYTES;
use gil::limits::MOST_TERMS;
use gil::tags::Tag;
use lent_words::{at_most, word_at};
use machine_values::Input;
use print_values::{Leaf, constant, kind, op_text, put_value};
use print_writing::Page;

// The most bytes a term's text may have
const LONGEST: u32 = 200;

// The size that stands for every larger one. (Not a None: in `sizes_to`, by which crates/print_laws reads the sizes, it is a number.)
pub const LARGE: u8 = 201;

pub const TERMS: usize = MOST_TERMS as usize;

// A pool, and the sizes of its terms' texts: any sizes, as `over` takes and leaves them
#[derive(Drop)]
pub struct Fields<'a> {
    pub pool: &'a [u8],
    pub sizes: [u8; TERMS],
}

impl<'a> Fields<'a> {
    // Takes the sizes of the pool's terms, front to back, each once
    pub fn new(pool: &'a [u8], terms: u32) -> Fields<'a>
        ensures pool { result.pool.now ≡ pool.now }
        ensures sizes { result.sizes ≡ sizes_to pool.now no_sizes (at_most most_terms terms) }
    {
        Fields::over(pool, [LARGE; TERMS], terms)
    }

    // The same over sizes that are there already: those of the terms after stay
    pub fn over(pool: &'a [u8], sizes: [u8; TERMS], terms: u32) -> Fields<'a>
        ensures pool { result.pool.now ≡ pool.now }
        ensures sizes { result.sizes ≡ sizes_to pool.now sizes (at_most most_terms terms) }
    {
        let mut fields = Fields { pool, sizes };
        for k in 0..at_most(MOST_TERMS, terms) {
            let size = fields.term_size(k);
            fields.sizes[k as usize] = size;
        }
        fields
    }

    // The size of term k's text, where that is taken already
    fn size_at(&self, k: u32) -> u32
        ensures same { result ≡ size_at self.now.sizes k }
        ensures small { result < 256 }
    {
        self.sizes.get(k as usize).copied().unwrap_or(LARGE) as u32
    }

    fn value_size(&self, tag: u32, x: u32) -> u32
        ensures same { result ≡ value_size self.now.sizes tag x }
        ensures small { result < 256 }
    {
        // a number, as in `put_value`: in `value_size` every number from a number term's on is a term's
        if tag < Tag::NumberTerm as u32 {
            constant(tag, x).size()
        } else {
            self.size_at(x)
        }
    }

    // The size of a term's text, from its kind, its four words and the sizes of the terms before
    fn node_size(&self, kind: TermKind, t: u32, x: u32, u: u32, y: u32) -> u32
        ensures { result ≡ node_size self.now.sizes (kind_number kind) t x u y }
    {
        match kind {
            TermKind::Input => Leaf::Input(Input(x)).size(),
            TermKind::Not => 4 + self.value_size(t, x),
            op => 2 + self.value_size(t, x) + op_text(op).len() as u32 + self.value_size(u, y),
        }
    }

    fn term_size(&self, k: u32) -> u8
        ensures { result ≡ term_size self.now.pool.now self.now.sizes k }
    {
        let at = TERM_BYTES * (k as usize);
        let kind = kind(word_at(self.pool, at));
        let t = word_at(self.pool, at + 4);
        let x = word_at(self.pool, at + 8);
        let u = word_at(self.pool, at + 12);
        let y = word_at(self.pool, at + 16);
        self.node_size(kind, t, x, u, y).min(LARGE as u32) as u8
    }

    // "one whose text would pass 200 bytes prints as `large`"
    pub fn put(&self, page: &mut Page, tag: u32, x: u32)
        ensures { Writes page.old (field_form self.now.pool.now self.now.sizes tag x) page.new }
    {
        if LONGEST < self.value_size(tag, x) {
            page.put_all(b"large");
        } else {
            put_value(page, self.pool, LONGEST, tag, x);
        }
    }
}
