// What every call begins with: refusals 1 to 8, "in the order tested". Budgets come first (1), then lent memory and the input list (2), then
// the text (3 to 8), which is read into a program's words. And the sixteen inputs of a list that passed. No lent memory is written here.
#![tactic(auto)]

ghost use Rattle.std.specs.Prelude.{◌≡◌, ◌||◌, length, replicate, ltb};
ghost use Rattle.gil.specs.Numbers.{table_length, pool_length, inputs_length};
ghost use Rattle.gil.specs.Layout.{input_words};
ghost use Rattle.gil.specs.Refusals.{answer_of};
ghost use Rattle.gil.specs.Calls.{wrong_budget, wrong_budgets, wrong_inputs};
ghost use Rattle.machine_code.specs.Code.{code_words};
ghost use Rattle.call_given.specs.Mirror.{Begun};

use gil::layout::{INPUTS_BYTES, POOL_BYTES, TABLE_BYTES};
use gil::limits::{MOST_BRANCHES, MOST_INPUTS, MOST_PROCEDURES, MOST_STEPS};
use gil::refusals::Refusal;
use lent_words as words;
use machine_code::CODE_WORDS;
use text_names::Names;
use text_programs::verdict;

const INPUTS: usize = MOST_INPUTS as usize;

// 1: "plain run: steps above 1,024"
pub fn wrong_budget(steps: u32) -> bool
    ensures { result ≡ wrong_budget steps }
{
    steps > MOST_STEPS
}

// 1: "explore/place: steps not 1 to 1,024, or branches above 16"
pub fn wrong_budgets(steps: u32, branches: u32) -> bool
    ensures { result ≡ wrong_budgets steps branches }
{
    if steps < 1 || steps > MOST_STEPS {
        return true;
    }
    branches > MOST_BRANCHES
}

// 2: "a lent buffer is shorter than the call needs", by the lengths of table and pool
pub fn short_tables(table: usize, pool: usize) -> bool
    ensures { result ≡ ltb table table_length || ltb pool pool_length }
{
    table < TABLE_BYTES || pool < POOL_BYTES
}

// 2: "the input list is not sixteen long"
pub fn wrong_inputs(inputs: &[u8]) -> bool
    ensures { result ≡ wrong_inputs inputs.now }
{
    inputs.len() != INPUTS_BYTES
}

// The calls' common beginning, given whether the tests of 1 and of 2 refuse: a refusal of 1 to 8, or the words of the text's program. `code`
// is lent zeroed.
pub fn begin(
    budgets: bool,
    lists: bool,
    text: &[u8],
    code: &mut [u32; CODE_WORDS],
) -> Result<(), Refusal>
    ensures { code.old ≡ replicate code_words 0 → Begun budgets lists text.now code.new (answer_of result) }
{
    if budgets {
        return Err(Refusal::Budgets);
    }
    if lists {
        return Err(Refusal::Lists);
    }
    let mut names = Names::new(MOST_PROCEDURES);
    verdict::read_program(text, code, &mut names)
}

// The sixteen inputs, a word from four bytes each
pub fn input_words(inputs: &[u8]) -> [u32; INPUTS]
    requires { length inputs.now ≡ inputs_length }
    ensures { result ≡ input_words inputs.now }
{
    let mut out = [0u32; INPUTS];
    for (i, word) in out.iter_mut().enumerate() {
        *word = words::word_at(inputs, 4 * i);
    }
    out
}
