// The row writer: "A finished row is written into its own part of the lent table". It gets the part of the table that begins at the row, and
// writes the words that hold something over the zeros there. Counts past their limits and a part that is too short do no harm.
// Layout: docs/LAYOUT.md. specs/Laws/Row.antt shows that what is left is document 01's row, specs/Laws/Table.antt where rows stand in the table.
#![tactic(auto)]

ghost use Rattle.std.specs.Prelude.{◌≡◌, ℕ, List, [], ◌∷◌, ◌+◌, ◌*◌, ◌^◌, ◌<◌, length};
ghost use Rattle.std.specs.Fn.{FnReturnsAt};
ghost use Rattle.gil.specs.Names.{gather};
ghost use Rattle.gil.specs.Numbers.{conditions_at, variables_at, cells_at};
ghost use Rattle.lent_words.specs.Mirror.{put_words};
ghost use Rattle.table_rows.specs.Mirror.{head_of, conditions_held, variables_held, cells_held, with_row, with_row_at};

use gil::layout::{CELLS_AT, CONDITIONS_AT, HEADING_BYTES, ROW_BYTES, VARIABLES_AT};
use gil::limits::{MOST_BRANCHES, MOST_CELLS, MOST_FRAMES, MOST_ROWS, MOST_VARIABLES};
use lent_words::put_word;
use machine_cells::Cell;
use machine_code::{FRAME_WORDS, STORE_WORDS};
use machine_values::{tag, word};

const CONDITIONS: usize = MOST_BRANCHES as usize;

// A row's first words: its outcome, with its value's tag and word, its error number or its reason, in numbers, since C reads them so from the row
// (docs/LAYOUT.md); its steps and position; and how many inputs, conditions and variables there are. Conditions and variables have their count here
// and not a slice's length, as it may be past their limit (specs/Mirror: conditions_held, variables_held). The outcome is a number too, and no
// `Outcome`: a row is written of any number, as of any tag and word; table_head's are an `Outcome`'s.
#[derive(Clone, Copy)]
pub struct Head {
    pub outcome: u32,
    pub tag: u32,
    pub word: u32,
    pub steps: u32,
    pub procedure: u32,
    pub command: u32,
    pub inputs: u32,
    pub conditions: u32,
    pub variables: u32,
}

// A finished row: its head, the conditions (2 × term + truth each), the store and the frame whose variables are written, and the cells in use
#[derive(Clone, Copy)]
pub struct Row<'a> {
    pub head: Head,
    pub conditions: &'a [u32; CONDITIONS],
    pub store: &'a [u64; STORE_WORDS],
    pub frame: u32,
    pub cells: &'a [Cell],
}

impl Row<'_> {
    // Written into its own part of the table: that of its number, from 0
    pub fn finish(&self, table: &mut [u8], number: u32)
        ensures { table.new ≡ with_row_at table.old number self.now.head self.now.conditions.now self.now.store.now self.now.frame self.now.cells.now }
    {
        if number >= MOST_ROWS {
            return;
        }
        let at = HEADING_BYTES + ROW_BYTES * number as usize;
        if at > table.len() {
            return;
        }
        self.write(&mut table[at..]);
    }

    // Written where `part` begins
    pub fn write(&self, part: &mut [u8])
        ensures { part.new ≡ with_row part.old self.now.head self.now.conditions.now self.now.store.now self.now.frame self.now.cells.now }
    {
        self.write_head(part);
        self.write_conditions(part);
        self.write_variables(part);
        self.write_cells(part);
    }

    fn write_head(&self, part: &mut [u8])
        ensures { part.new ≡ put_words part.old 0 (head_of self.now.head self.now.cells.now) }
    {
        let h = self.head;
        let cells = self.cells.len().min(MOST_CELLS) as u32;
        put_words(
            part,
            0,
            &[
                h.outcome,
                h.tag,
                h.word,
                h.steps,
                h.procedure,
                h.command,
                h.inputs,
                h.conditions,
                h.variables,
                cells,
            ],
        );
    }

    fn write_conditions(&self, part: &mut [u8])
        ensures { part.new ≡ put_words part.old conditions_at (conditions_held self.now.head.conditions self.now.conditions.now) }
    {
        let conditions = self.conditions;
        let n = self.head.conditions.min(MOST_BRANCHES) as usize;
        write_pairs(part, CONDITIONS_AT, &conditions[..n], |c| (*c / 2, *c % 2));
    }

    fn write_variables(&self, part: &mut [u8])
        ensures { part.new ≡ put_words part.old variables_at (variables_held self.now.head.variables self.now.store.now self.now.frame) }
    {
        if self.frame >= MOST_FRAMES {
            return;
        }
        let store = self.store;
        let first = FRAME_WORDS * self.frame as usize;
        let n = (self.head.variables as usize).min(MOST_VARIABLES);
        write_pairs(
            part,
            VARIABLES_AT,
            &store[first..first + n],
            |v| (tag(*v), word(*v)),
        );
    }

    fn write_cells(&self, part: &mut [u8])
        ensures { part.new ≡ put_words part.old cells_at (cells_held self.now.cells.now) }
    {
        let cells = self.cells;
        for (i, c) in cells[..cells.len().min(MOST_CELLS)].iter().enumerate() {
            put_words(
                part,
                CELLS_AT + 16 * i,
                &[c.location.0, c.property, tag(c.value), word(c.value)],
            );
        }
    }
}

// The heading of the table
pub fn write_heading(table: &mut [u8], rows: u32, terms: u32)
    ensures { table.new ≡ put_words table.old 0 (rows ∷ terms ∷ []) }
{
    put_words(table, 0, &[rows, terms]);
}

// Things one after another from a place, each as two words. Cells, of four words, have a loop of their own: a bound of `Fn` that names a const
// parameter, as `[u32; N]`, has no generated proof.
fn write_pairs<T, F: Fn(&T) -> (u32, u32)>(part: &mut [u8], at: usize, things: &[T], pair: F)
    requires callable { F.IsAlwaysCallable pair }
    requires within { at + 8 * length things.now < 2 ^ 63 }
    ensures { (f : T → List ℕ) → ((x : T) (r : ℕ × ℕ) → FnReturnsAt F.Fn pair x r → r.0 ∷ r.1 ∷ [] ≡ f x) → part.new ≡ put_words part.old at (gather f things.now) }
{
    for (i, thing) in things.iter().enumerate() {
        let (first, second) = pair(thing);
        put_words(part, at + 8 * i, &[first, second]);
    }
}

// Words one after another from a place
fn put_words(part: &mut [u8], at: usize, words: &[u32])
    requires { at + 4 * length words.now < 2 ^ 63 }
    ensures { part.new ≡ put_words part.old at words.now }
{
    for (i, w) in words.iter().enumerate() {
        put_word(part, at + 4 * i, *w);
    }
}
