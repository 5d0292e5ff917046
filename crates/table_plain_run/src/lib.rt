// The plain run: the one engine with known inputs, so that no term is made and no fork taken. Its answer is a row without conditions.
// specs/Mirror.antt has the words; specs/Laws.antt shows that on a program's words they are document 01's plain run.
#![tactic(auto)]

ghost use Rattle.std.specs.Prelude.{◌≡◌, ◌≤◌, ◌<◌, length};
ghost use Rattle.gil.specs.Numbers.{answer_length};
ghost use Rattle.table_plain_run.specs.Mirror.{Answered};

use gil::layout::ANSWER_BYTES;
use gil::limits::{MOST_BRANCHES, MOST_INPUTS};
use lent_words as words;
use machine_cells::Memory;
use machine_code::CODE_WORDS;
use machine_commands as commands;
use table_head::head;
use table_path as path;
use table_rows::Row;

const ANSWER: usize = ANSWER_BYTES;

const INPUTS: usize = MOST_INPUTS as usize;

const CONDITIONS: usize = MOST_BRANCHES as usize;

// Runs on sixteen inputs, within so many steps; an answer shorter than is needed stays as it was
pub fn run(code: &[u32; CODE_WORDS], inputs: &[u32; INPUTS], budget: u32, answer: &mut [u8])
    ensures answered { answer_length ≤ length answer.old → Answered code.now inputs.now budget answer.old answer.new }
    ensures answer_unchanged { length answer.old < answer_length → answer.new ≡ answer.old }
{
    if answer.len() < ANSWER {
        return;
    }
    words::zero(&mut answer[..ANSWER]);
    let mut memory = Memory::new();
    let mut store = commands::start_store();
    let mut no_pool = [0u8; 1];
    let mut no_terms = 0;
    let stop = path::follow(
        code,
        commands::start(code),
        0,
        budget,
        Some(inputs),
        &mut memory,
        &mut store,
        &mut no_pool,
        &mut no_terms,
    );
    let at = stop.control;
    let row = Row {
        head: head(code, stop.next, at, stop.steps, 0),
        conditions: &[0; CONDITIONS],
        store: &store,
        frame: at.frame,
        cells: memory.cells(),
    };
    row.write(answer);
}
