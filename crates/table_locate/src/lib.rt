// "Says which row a list of inputs falls in": one pass over the pool, each term once, and one over the rows' conditions. Reads the bytes
// of table and pool as docs/LAYOUT.md sets them out, and is total: on other bytes it answers something, in bounded time. What it
// answers is specs/Mirror.antt's; proofs/Laws/Rows.antt shows that for a sound table this is document 01's row.
#![tactic(auto)]

ghost use Rattle.std.specs.Prelude.{◌≡◌, ◌≤◌};
ghost use Rattle.gil.specs.Numbers.{most_rows, most_terms};
ghost use Rattle.lent_words.specs.Mirror.{at_most};
ghost use Rattle.table_locate.specs.Mirror.{value_word, operand_word, op_value, input_value, term_value, values_to, condition_holds, row_holds, first_row, rows_in, locate_in, found};

use gil::kinds::TermKind;
use gil::layout::{CONDITIONS_AT, CONDITIONS_WORD, HEADING_BYTES, ROW_BYTES, TERM_BYTES};
use gil::limits::{MOST_BRANCHES, MOST_ROWS, MOST_TERMS};
use gil::tags::Tag;
use lent_words as words;
use machine_code::kinds::Operator;
use machine_values as values;
use machine_values::Input;

const TERMS: usize = MOST_TERMS as usize;

// Where a row counts its conditions; a condition is its term and its truth
const COUNT_AT: usize = 4 * CONDITIONS_WORD as usize;

const TRUTHS_AT: usize = CONDITIONS_AT + 4;

// An operator's kind in the program's words is so much more than its term's kind
const NODE_ABOVE_TERM: u32 = Operator::Plus as u32 - TermKind::Plus as u32;

// The word of term k's value
fn value_word(values: &[u64; TERMS], k: u32) -> u32
    ensures { result ≡ value_word values.now k }
{
    values.get(k as usize).map_or(0, |v| values::word(*v))
}

// An operand's word: its own where it is a constant
fn operand(values: &[u64; TERMS], tag: u32, w: u32) -> u32
    ensures { result ≡ operand_word values.now tag w }
{
    if tag < Tag::NumberTerm as u32 {
        return w;
    }
    value_word(values, w)
}

// `not` or an operator on its operands' words; their sorts are right in a sound pool. Any number is a kind here, 0 too, and no TermKind is read: on
// all bytes this is specs/Mirror's op_value, by which demands' specs/FromBytes reads a table.
fn op_value(kind: u32, x: u32, y: u32) -> u64
    ensures { result ≡ op_value kind x y }
{
    if kind == TermKind::Not as u32 {
        return values::truth(x == 0);
    }
    if kind > TermKind::Or as u32 {
        return 0;
    }
    values::work(kind + NODE_ABOVE_TERM, x, y)
}

// The value of an input: the word that the list has for it
fn input_value(inputs: &[u8], k: Input) -> u64
    ensures { result ≡ input_value inputs.now k.0 }
{
    values::number(words::word_at(inputs, 4 * (k.0 as usize)))
}

// The value of term k, by the values of the terms before
fn term_value(pool: &[u8], inputs: &[u8], values: &[u64; TERMS], k: u32) -> u64
    ensures { result ≡ term_value pool.now inputs.now values.now k }
{
    let at = TERM_BYTES * (k as usize);
    let kind = words::word_at(pool, at);
    let w = words::word_at(pool, at + 8);
    if kind == TermKind::Input as u32 {
        return input_value(inputs, Input(w));
    }
    let x = operand(values, words::word_at(pool, at + 4), w);
    let y = operand(
        values,
        words::word_at(pool, at + 12),
        words::word_at(pool, at + 16),
    );
    op_value(kind, x, y)
}

// The values of the pool's terms, front to back, each once
fn evaluate(pool: &[u8], inputs: &[u8], values: &mut [u64; TERMS], terms: u32)
    ensures { values.new ≡ values_to pool.now inputs.now values.old (at_most most_terms terms) }
{
    for k in 0..words::at_most(MOST_TERMS, terms) {
        values[k as usize] = term_value(pool, inputs, values, k);
    }
}

// Does condition i of a row hold?
fn condition_holds(table: &[u8], values: &[u64; TERMS], row: u32, i: u32) -> bool
    ensures { result ≡ condition_holds table.now values.now row i }
{
    let at = HEADING_BYTES + ROW_BYTES * (row as usize) + 8 * (i as usize);
    let v = value_word(values, words::word_at(table, at + CONDITIONS_AT));
    v == words::word_at(table, at + TRUTHS_AT)
}

// Do all conditions of a row hold?
fn row_holds(table: &[u8], values: &[u64; TERMS], row: u32) -> bool
    ensures { result ≡ row_holds table.now values.now row }
{
    let count = words::word_at(table, HEADING_BYTES + ROW_BYTES * (row as usize) + COUNT_AT);
    (0..words::at_most(MOST_BRANCHES, count)).all(|i| condition_holds(table, values, row, i))
}

// The first row whose conditions hold
fn first_row(table: &[u8], values: &[u64; TERMS], rows: u32) -> Option<u32>
    ensures { found result (at_most most_rows rows) (first_row table.now values.now (at_most most_rows rows) 0) }
{
    (0..words::at_most(MOST_ROWS, rows)).find(|r| row_holds(table, values, *r))
}

// The number of the row that the inputs fall in
pub fn locate(table: &[u8], pool: &[u8], inputs: &[u8]) -> Option<u32>
    ensures { found result (rows_in table.now) (locate_in table.now pool.now inputs.now) }
{
    let mut values = [0u64; TERMS];
    evaluate(pool, inputs, &mut values, words::word_at(table, 4));
    first_row(table, &values, words::word_at(table, 0))
}
