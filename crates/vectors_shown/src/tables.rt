// A table and its pool: a row a line, a term a line. Of more than 20 rows or 40 terms the first two and the last two are shown; all of
// them are looked at for words that hold nothing.
ghost use Rattle.std.specs.Prelude.{◌≤◌, ◌<◌};

use crate::bytes::{rest, zero};
use crate::rows::Row;
use crate::values::Term;
use gil::layout::{HEADING_BYTES, POOL_BYTES, ROW_BYTES, TABLE_BYTES, TERM_BYTES};
use gil::limits::{MOST_ROWS, MOST_TERMS};
use lent_words::word_at;
use std::io;
use std::io::Write;

// Whether the i-th of n is shown.
fn is_shown(i: usize, n: usize, most: usize) -> bool {
    n <= most || i < 2 || n.saturating_sub(2) <= i
}

// A table and its pool, as they were lent.
#[derive(Clone, Copy)]
pub struct Table<'a> {
    pub table: &'a [u8],
    pub pool: &'a [u8],
}

impl<'a> Table<'a> {
    // How many rows and terms there are, and never more than there may be.
    fn row_count(&self) -> usize
        ensures { result ≤ 64 }
    {
        word_at(self.table, 0).min(MOST_ROWS) as usize
    }

    fn term_count(&self) -> usize
        ensures { result ≤ 2048 }
    {
        word_at(self.table, 4).min(MOST_TERMS) as usize
    }

    // Row i, also where the table ends before it.
    fn row(&self, i: usize) -> Row<'a>
        requires { i < 64 }
    {
        Row(rest(self.table, HEADING_BYTES + ROW_BYTES * i))
    }

    fn term(&self, i: usize) -> Term<'a>
        requires { i < 2048 }
    {
        Term(rest(self.pool, TERM_BYTES * i))
    }

    // Whether every word of heading, rows and pool that holds nothing is zero.
    fn rest_zero(&self) -> bool {
        let rows = self.row_count();
        let terms = self.term_count();
        zero(self.table, 8, HEADING_BYTES)
            && (0..rows).all(|i| self.row(i).rest_zero())
            && zero(self.table, HEADING_BYTES + ROW_BYTES * rows, TABLE_BYTES)
            && zero(self.pool, TERM_BYTES * terms, POOL_BYTES)
    }

    // How many rows and terms there are.
    pub fn put_counts<W: Write>(&self, out: &mut W) -> io::Result<()> {
        let rows = word_at(self.table, 0);
        let terms = word_at(self.table, 4);
        write!(out, ", rows {rows}, terms {terms}")?;
        if !self.rest_zero() {
            write!(out, ", NOT ZERO where it holds nothing")?;
        }
        Ok(())
    }

    // The rows and the terms.
    pub fn put_lines<W: Write>(&self, out: &mut W) -> io::Result<()> {
        let rows = self.row_count();
        for i in 0..rows {
            if is_shown(i, rows, 20) {
                writeln!(out, "  row {i}: {}", self.row(i))?;
            }
        }
        let terms = self.term_count();
        for i in 0..terms {
            if is_shown(i, terms, 40) {
                writeln!(out, "  term {i}: {}", self.term(i))?;
            }
        }
        Ok(())
    }
}
