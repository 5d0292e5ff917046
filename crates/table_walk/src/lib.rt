// From fork to fork: a path is followed to the next fork; there it recurses, "true branch first, to its end, and then the false one", and the
// waiting branch stands on the call stack with its store, its cells and its conditions. Each finished row is written into its own part of the
// lent table, and terms into the lent pool in the order made. Mirror has the words.
#![tactic(auto)]

ghost use Rattle.std.specs.Prelude.{◌≡◌};
ghost use Rattle.gil.specs.Refusals.{answer_of};
ghost use Rattle.table_walk.specs.Mirror.{reached, walks_in};

use gil::refusals::Refusal;
use machine_cells::Memory;
use machine_code::{CODE_WORDS, STORE_WORDS};
use table_branch as branch;
use table_branch::Branch;
use table_path as path;

#[derive(Clone, Copy)]
pub struct Budgets {
    pub steps: u32,
    pub branches: u32,
}

// The rows that a path adds, to its end, or the refusal that comes first. Table and pool go with their counts as a parameter each: a struct of
// `&mut`s would need a clause on each one's ghost name in every function.
pub fn walk(
    code: &[u32; CODE_WORDS],
    budgets: Budgets,
    from: &Branch,
    cells: &Memory,
    begun: &[u64; STORE_WORDS],
    table: &mut [u8],
    rows: &mut u32,
    pool: &mut [u8],
    count: &mut u32,
) -> Result<(), Refusal>
    ensures { reached (answer_of result) rows.new table.new pool.new count.new ≡ walks_in code.now budgets from.now begun.now cells.now rows.old table.old pool.old count.old }
{
    let mut memory = cells.copied();
    let mut store = *begun;
    let stop = path::follow(
        code,
        from.control,
        from.steps,
        budgets.steps,
        None,
        &mut memory,
        &mut store,
        pool,
        count,
    );
    branch::room(&stop, *count)?;
    match from.split(&stop, budgets.branches) {
        None => from.finish(code, &stop, &memory, &store, table, rows),
        Some((yes, no)) => {
            walk(
                code, budgets, &yes, &memory, &store, table, rows, pool, count,
            )?;
            walk(
                code, budgets, &no, &memory, &store, table, rows, pool, count,
            )
        }
    }
}
