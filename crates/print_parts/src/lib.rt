// The parts of a line of the printed table: an outcome with its value, and the conditions, from the bytes of a row and of the pool. Everything is
// total: on bytes that are no table something is written, in bounded time. Places are docs/LAYOUT.md's. What each function writes is
// specs/Mirror.antt's; crates/print_laws shows that this is document 01's printed form.
#![tactic(auto)]

ghost use Rattle.std.specs.Prelude.{◌≡◌, ◌<◌};
ghost use Rattle.gil.specs.Numbers.{most_branches, outcome_word, tag_word, value_word, conditions_word};
ghost use Rattle.lent_words.specs.Mirror.{at_most};
ghost use Rattle.print_writing.specs.Mirror.{Writes};
ghost use Rattle.print_parts.specs.Mirror.{cut_form, outcome_form, unless_form, row_word, condition_form, conditions_form};

use gil::outcomes::{Outcome, Reason};
use gil::tags::Tag;
use gil::{layout, limits};
use lent_words::{at_most, word_at};
use print_fields::Fields;
use print_writing::{Page, Text};

// Where a row's conditions begin, in words: a term's place, and after it the truth that it must have
const CONDITIONS: u32 = (layout::CONDITIONS_AT / 4) as u32;

const TRUTHS: u32 = CONDITIONS + 1;

// A path that was cut, by its reason's number: what is no reason is shown as branches
fn put_cut(page: &mut Page, why: u32)
    ensures { Writes page.old (cut_form why) page.new }
{
    match Reason::try_from(why).unwrap_or(Reason::Branches) {
        Reason::Steps => page.put_all(b"cut,steps"),
        Reason::Branches => page.put_all(b"cut,branches"),
    }
}

// "A condition that must be false has `not ` before it."
fn put_unless(page: &mut Page, truth: u32)
    ensures { Writes page.old (unless_form truth) page.new }
{
    if truth == 0 {
        page.put_all(b"not ");
    }
}

// A row of a table, and the fields of the table's pool
#[derive(Drop)]
pub struct Row<'a> {
    pub table: &'a [u8],
    pub fields: &'a Fields<'a>,
    pub number: u32,
}

impl Row<'_> {
    // Word m of the row
    pub fn word(&self, m: u32) -> u32
        ensures { result ≡ row_word self.now.table.now self.now.number m }
    {
        word_at(
            self.table,
            layout::HEADING_BYTES + layout::ROW_BYTES * (self.number as usize) + 4 * (m as usize),
        )
    }

    // Outcome and value: what is no outcome is shown as cut
    pub fn put_outcome(&self, page: &mut Page)
        ensures { let word = row_word self.now.table.now self.now.number in
            Writes page.old (outcome_form self.now.fields.now.pool.now self.now.fields.now.sizes (word outcome_word) (word tag_word) (word value_word)) page.new }
    {
        let tag = self.word(layout::TAG_WORD);
        let x = self.word(layout::VALUE_WORD);
        match Outcome::try_from(self.word(layout::OUTCOME_WORD)).unwrap_or(Outcome::Cut) {
            Outcome::Returned => {
                page.put_all(b"returned,");
                self.fields.put(page, tag, x);
            }
            Outcome::Failed => {
                page.put_all(b"failed,");
                self.fields.put(page, tag, x);
            }
            Outcome::Vanished => page.put_all(b"vanished,"),
            Outcome::Error => {
                page.put_all(b"error,");
                x.put_on(page);
            }
            Outcome::Cut => put_cut(page, x),
        }
    }

    fn put_condition(&self, page: &mut Page, i: u32)
        requires { i < most_branches }
        ensures { Writes page.old (condition_form self.now.table.now self.now.fields.now.pool.now self.now.fields.now.sizes self.now.number i) page.new }
    {
        let k = self.word(CONDITIONS + 2 * i);
        put_unless(page, self.word(TRUTHS + 2 * i));
        self.fields.put(page, Tag::BooleanTerm as u32, k);
    }

    // "conditions joined by `; `, or `true` where there are none"
    pub fn put_conditions(&self, page: &mut Page)
        ensures { let count = at_most most_branches (row_word self.now.table.now self.now.number conditions_word) in
            Writes page.old (conditions_form self.now.table.now self.now.fields.now.pool.now self.now.fields.now.sizes self.now.number count) page.new }
    {
        let n = at_most(limits::MOST_BRANCHES, self.word(layout::CONDITIONS_WORD));
        if n == 0 {
            page.put_all(b"true");
            return;
        }
        self.put_condition(page, 0);
        for i in 1..n {
            page.put_all(b"; ");
            self.put_condition(page, i);
        }
    }
}
