// Values and terms as document 01 prints them, from a pool's bytes, by recursion. Kinds and tags are docs/LAYOUT.md's. What each function writes,
// on any bytes, is specs/Mirror.antt's; crates/print_laws shows that this is document 01's printed form.
#![tactic(auto)]

ghost use Rattle.std.specs.Prelude.{◌≡◌};
ghost use Rattle.gil.specs.Codes.{kind_number};
ghost use Rattle.print_writing.specs.Mirror.{Writes};
ghost use Rattle.print_values.specs.Mirror.{constant_form, op_form, value_form};
ghost use Rattle.print_values.specs.Kinds.{known_kind};
ghost use Rattle.print_values.specs.Leaves.{leaf_form};

mod leaf;

use gil::kinds::TermKind;
use gil::layout::TERM_BYTES;
use gil::tags::Tag;
pub use leaf::Leaf;
use lent_words::word_at;
use machine_values::{Input, Location};
use print_writing::{Page, Text};

// A constant, by its tag and its word: a number, a truth, and what has any other tag a location
pub fn constant(tag: u32, x: u32) -> Leaf
    ensures { leaf_form result ≡ constant_form tag x }
{
    let Ok(tag) = Tag::try_from(tag) else {
        return Leaf::Location(Location(x));
    };
    match tag {
        Tag::Number => Leaf::Number(x),
        Tag::Boolean => Leaf::Truth(x != 0),
        _ => Leaf::Location(Location(x)),
    }
}

// What a term is: one of no kind is shown as `or`
pub fn kind(code: u32) -> TermKind
    ensures { kind_number result ≡ known_kind code }
{
    TermKind::try_from(code).unwrap_or(TermKind::Or)
}

// An operator with one space around it
pub fn op_text(kind: TermKind) -> &'static [u8]
    ensures { result.now ≡ op_form (kind_number kind) }
{
    match kind {
        TermKind::Plus => b" + ",
        TermKind::Minus => b" - ",
        TermKind::Equal => b" = ",
        TermKind::Less => b" < ",
        TermKind::And => b" and ",
        TermKind::Or | TermKind::Input | TermKind::Not => b" or ",
    }
}

// A value, its operators at most `deep` deep. A text of at most 200 bytes is no deeper than that: each operator adds a byte or more.
pub fn put_value(page: &mut Page, pool: &[u8], deep: u32, tag: u32, x: u32)
    ensures { Writes page.old (value_form pool.now deep tag x) page.new }
{
    // a number, and no match on a `Tag`: in `value_form` every number from a number term's on is a term's, also one that is no tag
    if tag < Tag::NumberTerm as u32 {
        return constant(tag, x).put_on(page);
    }
    if deep == 0 {
        return;
    }
    let k = TERM_BYTES * (x as usize);
    let t = word_at(pool, k + 4);
    let a = word_at(pool, k + 8);
    match kind(word_at(pool, k)) {
        TermKind::Input => Leaf::Input(Input(a)).put_on(page),
        TermKind::Not => {
            page.put_all(b"not ");
            put_value(page, pool, deep - 1, t, a);
        }
        op => {
            let u = word_at(pool, k + 12);
            let b = word_at(pool, k + 16);
            page.put(b'(');
            put_value(page, pool, deep - 1, t, a);
            page.put_all(op_text(op));
            put_value(page, pool, deep - 1, u, b);
            page.put(b')');
        }
    }
}
