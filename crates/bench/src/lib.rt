// The calls, each under the name that C knows it by (crates/bench_c exports them): each is the call of its name in a crate of its own, with its
// outcome as a number. A promise cites document 01's definitions alone (crates/gil/specs/Promises.antt, Calls.antt), and asks nothing. A call tests
// what it was given "in the order tested", and writes nothing before its last test. What each number refuses, in document 01's words:
//   1   "explore/place: steps not 1 to 1,024, or branches above 16; plain run: steps above 1,024"
//   2   "a lent buffer is shorter than the call needs, or the input list is not sixteen long"
//   3   "text longer than 16,384 bytes"
//   4   "text is not of the form above"
//   5   "over 16 procedures, 512 commands in all, 16 variables in a procedure (parameter included), or 32 distinct properties"
//   6   "two procedures of one name, a call of a procedure that is not there, or no `main`"
//   7   "a jump number not below its procedure's count of commands"
//   8   "a procedure whose last command is not return, fail or vanish"
//   9   "a 65th row would be finished"
//   10  "a 2,049th term would be made"
#![tactic(auto)]

ghost use Rattle.gil.specs.Promises.{Promise, check, plain_run, explore, place};

use gil::numbers::FIRST_ROW;
use gil::refusals;

// check: 0 where a text is accepted, or its refusal, 3 to 8
pub fn chomphurek_check(text: &[u8]) -> u32
    ensures { Promise (check text.now) result }
{
    refusals::answer(call_check::check(text))
}

// plain run: 0, and the answer's first 1,024 bytes are those of the run on the sixteen inputs; or 1 to 8, and the answer is untouched
pub fn chomphurek_plain_run(text: &[u8], inputs: &[u8], steps: u32, answer: &mut [u8]) -> u32
    ensures { Promise (plain_run text.now inputs.now steps answer.old) (record { returns = result; answer = answer.new }) }
{
    refusals::answer(call_plain_run::plain_run(text, inputs, steps, answer))
}

// explore: 0, and table and pool hold the rows and their terms; 1 to 8, and both are untouched; or 9 or 10, and the needed part of both
// is zero
pub fn chomphurek_explore(
    text: &[u8],
    steps: u32,
    branches: u32,
    table: &mut [u8],
    pool: &mut [u8],
) -> u32
    ensures { Promise (explore text.now steps branches table.old pool.old) (record { returns = result; table = table.new; pool = pool.new }) }
{
    refusals::answer(call_explore::explore(text, steps, branches, table, pool))
}

// place: 256 more than the number of the row that the inputs fall in, and table and pool as explore leaves them; or 1 to 10, as explore
pub fn chomphurek_place(
    text: &[u8],
    inputs: &[u8],
    steps: u32,
    branches: u32,
    table: &mut [u8],
    pool: &mut [u8],
) -> u32
    ensures { Promise (place text.now inputs.now steps branches table.old pool.old) (record { returns = result; table = table.new; pool = pool.new }) }
{
    match call_place::place(text, inputs, steps, branches, table, pool) {
        Ok(row) => FIRST_ROW + row,
        Err(refusal) => refusal as u32,
    }
}
