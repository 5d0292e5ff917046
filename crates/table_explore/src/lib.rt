// The exploration: "As the plain run, over terms", from where every path begins. crates/table_walk goes from fork to fork; here table and pool are
// zeroed before it, and after a refusal, and the heading is written last. specs/Mirror.antt has the words; crates/table_explore_laws shows that
// on a program's words they are document 01's table and pool.
#![tactic(auto)]

ghost use Rattle.std.specs.Prelude.{◌≡◌};
ghost use Rattle.gil.specs.Refusals.{answer_of};
ghost use Rattle.table_explore.specs.Mirror.{begin_in, explored, explore_in};

use gil::refusals::Refusal;
use machine_cells::Memory;
use machine_code::CODE_WORDS;
use machine_commands as commands;
use table_branch::{Branch, CONDITIONS};
use table_rows as rows;
pub use table_walk::Budgets;
use table_walk::walk;

// Where every path begins
#[tactic(auto, unfolding(crate::specs::Mirror::begin_in))]
fn begin(code: &[u32; CODE_WORDS]) -> Branch
    ensures { result ≡ begin_in code.now }
{
    Branch {
        control: commands::start(code),
        steps: 0,
        branches: 0,
        conditions: [0; CONDITIONS],
    }
}

// Explores into a table and a pool of exactly the needed length; a refusal, 9 or 10, leaves both zero
pub fn explore(
    code: &[u32; CODE_WORDS],
    budgets: Budgets,
    table: &mut [u8],
    pool: &mut [u8],
) -> Result<(), Refusal>
    ensures { explored (answer_of result) table.new pool.new ≡ explore_in code.now budgets.steps budgets.branches table.old pool.old }
{
    table.fill(0);
    pool.fill(0);
    let mut rows = 0;
    let mut count = 0;
    let walked = walk(
        code,
        budgets,
        &begin(code),
        &Memory::new(),
        &commands::start_store(),
        table,
        &mut rows,
        pool,
        &mut count,
    );
    match walked {
        Ok(()) => {
            rows::write_heading(table, rows, count);
            Ok(())
        }
        Err(refusal) => {
            table.fill(0);
            pool.fill(0);
            Err(refusal)
        }
    }
}
