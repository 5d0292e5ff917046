// "The printed table" of a text, whole: explored with 1,024 steps and 16 branches, and printed into lent memory.
#![tactic(auto)]

ghost use Rattle.print_text.specs.Promise.{Prints};

use gil::layout::{POOL_BYTES, TABLE_BYTES};
use gil::limits::{MOST_BRANCHES, MOST_PROCEDURES, MOST_STEPS};
use machine_code::CODE_WORDS;
use print_lines as printing;
use text_names::Names;
use text_programs as programs;

// "At most 262,144 bytes"
pub const PRINTED_BYTES: usize = 262144;

// The text's table, or the line of its refusal: as much of it as `out` has room for stands at the front; and the length of all of it.
// `PRINTED_BYTES` are always enough.
pub fn print_table(text: &[u8], out: &mut [u8]) -> usize
    ensures { Prints text.now out.old out.new result }
{
    let mut table = [0u8; TABLE_BYTES];
    let mut pool = [0u8; POOL_BYTES];
    let explored = call_explore::explore(text, MOST_STEPS, MOST_BRANCHES, &mut table, &mut pool);
    if let Err(refusal) = explored {
        return printing::render_refusal(refusal as u32, out);
    }
    let mut code = [0u32; CODE_WORDS];
    let mut names = Names::new(MOST_PROCEDURES);
    // a text that was explored is accepted
    let _ = programs::verdict::read_program(text, &mut code, &mut names);
    printing::render(text, &names, &table, &pool, out)
}
