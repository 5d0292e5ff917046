// explore: table and pool hold the rows and their terms; or a refusal of 1 to 8, and both are untouched, or of 9 or 10, and the needed part of
// both is zero. Assumes nothing.
#![tactic(auto)]

pub mod tables;

ghost use Rattle.gil.specs.Promises.{Promise, explore};
ghost use Rattle.gil.specs.Refusals.{answer_of};

use call_given as given;
use gil::refusals::Refusal;
use machine_code::CODE_WORDS;
use table_explore::Budgets;

pub fn explore(
    text: &[u8],
    steps: u32,
    branches: u32,
    table: &mut [u8],
    pool: &mut [u8],
) -> Result<(), Refusal>
    ensures { Promise (explore text.now steps branches table.old pool.old) (record { returns = answer_of result; table = table.new; pool = pool.new }) }
{
    let budgets = given::wrong_budgets(steps, branches);
    let lists = given::short_tables(table.len(), pool.len());
    let mut code = [0u32; CODE_WORDS];
    given::begin(budgets, lists, text, &mut code)?;
    tables::explore(&code, Budgets { steps, branches }, table, pool)
}
