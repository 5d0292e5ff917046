// An accepted program explored into lent memory that may be longer than is needed: the surplus stays as it was. It assumes that neither
// buffer is shorter.
ghost use Rattle.std.specs.Prelude.{◌≤◌, length};
ghost use Rattle.gil.specs.Numbers.{table_length, pool_length};
ghost use Rattle.gil.specs.Refusals.{answer_of};
ghost use Rattle.call_explore.specs.Mirror.{Leaves};

use gil::layout::{POOL_BYTES, TABLE_BYTES};
use gil::refusals::Refusal;
use machine_code::CODE_WORDS;
use table_explore as walk;
use table_explore::Budgets;

// Done, or refused by 9 or 10, which leave the needed part of both zero
pub fn explore(
    code: &[u32; CODE_WORDS],
    budgets: Budgets,
    table: &mut [u8],
    pool: &mut [u8],
) -> Result<(), Refusal>
    requires { (table_length ≤ length table.old) × (pool_length ≤ length pool.old) }
    ensures { Leaves code.now budgets.steps budgets.branches table.old pool.old (answer_of result) table.new pool.new }
{
    walk::explore(
        code,
        budgets,
        &mut table[..TABLE_BYTES],
        &mut pool[..POOL_BYTES],
    )
}
