// "The printed table": a table and its pool, from their bytes to CSV in lent memory. Everything is total: on bytes that are no table
// something is written, in bounded time, and what finds no room is dropped, and counted. Places are docs/LAYOUT.md's. What each function writes is
// specs/Mirror.antt's; crates/print_laws shows that this is document 01's printed form.
#![tactic(auto)]

ghost use Rattle.gil.specs.Printed.{refusal_line};
ghost use Rattle.print_writing.specs.Mirror.{Wrote, Writes};
ghost use Rattle.print_parts.specs.Mirror.{runs};
ghost use Rattle.print_lines.specs.Mirror.{name_form, start_form, place_form, row_form, table_form};

use gil::{layout, limits};
use lent_words::{at_most, word_at};
use print_fields::Fields;
use print_parts::Row;
use print_writing::{Page, Text};
use text_names::Names;
use text_tokens::tokens::NOWHERE;

// A text, and where it has the names of its procedures (crates/text_names)
#[derive(Drop)]
struct Named<'a> {
    text: &'a [u8],
    names: &'a Names,
}

impl Named<'_> {
    // The name of procedure f
    fn put_name(&self, page: &mut Page, f: u32)
        ensures { Writes page.old (name_form self.now.text.now self.now.names.now f) page.new }
    {
        let k = f as usize;
        if k < limits::MOST_PROCEDURES {
            let place = self.names.places.get(k).copied().unwrap_or(NOWHERE);
            page.put_part(self.text, place.start, place.size);
        }
    }
}

// A row's number, outcome and value
fn put_start(page: &mut Page, row: &Row)
    ensures { Writes page.old (start_form row.now.table.now row.now.fields.now.pool.now row.now.fields.now.sizes row.now.number) page.new }
{
    row.number.put_on(page);
    page.put(b',');
    row.put_outcome(page);
}

// Its steps, procedure and command
fn put_place(page: &mut Page, named: &Named, row: &Row)
    ensures { Writes page.old (place_form named.now.text.now named.now.names.now row.now.table.now row.now.number) page.new }
{
    page.put(b',');
    row.word(layout::STEPS_WORD).put_on(page);
    page.put(b',');
    named.put_name(page, row.word(layout::PROCEDURE_WORD));
    page.put(b',');
    row.word(layout::COMMAND_WORD).put_on(page);
}

fn put_row(page: &mut Page, named: &Named, row: &Row)
    ensures { Writes page.old (row_form named.now.text.now named.now.names.now row.now.table.now row.now.fields.now.pool.now row.now.fields.now.sizes row.now.number) page.new }
{
    put_start(page, row);
    put_place(page, named, row);
    page.put(b',');
    row.put_conditions(page);
    page.put_all(b"\r\n");
}

fn put_rows<'a>(page: &mut Page, named: &Named, table: &'a [u8], fields: &'a Fields<'a>, n: u32)
    ensures { Writes page.old (runs (row_form named.now.text.now named.now.names.now table.now fields.now.pool.now fields.now.sizes) 0 n) page.new }
{
    for number in 0..n {
        let row = Row {
            table,
            fields,
            number,
        };
        put_row(page, named, &row);
    }
}

// The whole table: as much of its text as `out` has room for stands at the front; and the length of all of it. On the bytes of a table and
// its pool that is document 01's printed table, for which 262,144 bytes are always enough.
pub fn render<'a>(
    text: &'a [u8],
    names: &'a Names,
    table: &'a [u8],
    pool: &'a [u8],
    out: &mut [u8],
) -> usize
    ensures { Wrote out.old 0 (table_form text.now names.now table.now pool.now) out.new result }
{
    let named = Named { text, names };
    let fields = Fields::new(pool, word_at(table, 4));
    let rows = at_most(limits::MOST_ROWS, word_at(table, 0));
    let mut page = Page::new(out);
    page.put_all(b"row,outcome,value,steps,procedure,command,conditions\r\n");
    put_rows(&mut page, &named, table, &fields, rows);
    page.count()
}

// "A refusal prints one line, `refused,` and the number."
pub fn render_refusal(n: u32, out: &mut [u8]) -> usize
    ensures { Wrote out.old 0 (refusal_line n) out.new result }
{
    let mut page = Page::new(out);
    page.put_all(b"refused,");
    n.put_on(&mut page);
    page.put_all(b"\r\n");
    page.count()
}
