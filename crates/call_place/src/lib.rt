// place: the number of the row that the inputs fall in, and table and pool as explore leaves them; or a refusal of 1 to 10, as explore. Assumes
// nothing.
#![tactic(auto)]

ghost use Rattle.std.specs.Prelude.{◌≡◌, ◌||◌, ◌<◌, ltb, IfOk};
ghost use Rattle.gil.specs.Numbers.{most_rows, table_length, pool_length};
ghost use Rattle.gil.specs.Calls.{wrong_inputs};
ghost use Rattle.gil.specs.Promises.{Promise, place};
ghost use Rattle.call_place.specs.Answers.{row_answer};

use call_explore::tables;
use call_given as given;
use gil::refusals::Refusal;
use machine_code::CODE_WORDS;
use table_explore::Budgets;
use table_locate as locate;

// 2: "a lent buffer is shorter than the call needs, or the input list is not sixteen long", by the lengths of table and pool
fn wrong_lists(inputs: &[u8], table: usize, pool: usize) -> bool
    ensures { result ≡ wrong_inputs inputs.now || (ltb table table_length || ltb pool pool_length) }
{
    given::wrong_inputs(inputs) || given::short_tables(table, pool)
}

pub fn place(
    text: &[u8],
    inputs: &[u8],
    steps: u32,
    branches: u32,
    table: &mut [u8],
    pool: &mut [u8],
) -> Result<u32, Refusal>
    ensures promise { Promise (place text.now inputs.now steps branches table.old pool.old) (record { returns = row_answer result; table = table.new; pool = pool.new }) }
    ensures row { IfOk result (λ row. row < most_rows) }
{
    let budgets = given::wrong_budgets(steps, branches);
    let lists = wrong_lists(inputs, table.len(), pool.len());
    let mut code = [0u32; CODE_WORDS];
    given::begin(budgets, lists, text, &mut code)?;
    tables::explore(&code, Budgets { steps, branches }, table, pool)?;
    Ok(locate::locate(table, pool, inputs).unwrap())
}
