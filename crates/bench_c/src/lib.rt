// The static library that C links: the four calls of crates/bench, exported under their names, each with the clauses that it has there.
// include/chomphurek.h declares them; machine/archive builds the library.
#![tactic(auto)]

ghost use Rattle.gil.specs.Promises.{Promise, check, plain_run, explore, place};

#[unsafe(no_mangle)]
pub extern "C" fn chomphurek_check(text: &[u8]) -> u32
    ensures { Promise (check text.now) result }
{
    bench::chomphurek_check(text)
}

#[unsafe(no_mangle)]
pub extern "C" fn chomphurek_plain_run(
    text: &[u8],
    inputs: &[u8],
    steps: u32,
    answer: &mut [u8],
) -> u32
    ensures { Promise (plain_run text.now inputs.now steps answer.old) (record { returns = result; answer = answer.new }) }
{
    bench::chomphurek_plain_run(text, inputs, steps, answer)
}

#[unsafe(no_mangle)]
pub extern "C" fn chomphurek_explore(
    text: &[u8],
    steps: u32,
    branches: u32,
    table: &mut [u8],
    pool: &mut [u8],
) -> u32
    ensures { Promise (explore text.now steps branches table.old pool.old) (record { returns = result; table = table.new; pool = pool.new }) }
{
    bench::chomphurek_explore(text, steps, branches, table, pool)
}

#[unsafe(no_mangle)]
pub extern "C" fn chomphurek_place(
    text: &[u8],
    inputs: &[u8],
    steps: u32,
    branches: u32,
    table: &mut [u8],
    pool: &mut [u8],
) -> u32
    ensures { Promise (place text.now inputs.now steps branches table.old pool.old) (record { returns = result; table = table.new; pool = pool.new }) }
{
    bench::chomphurek_place(text, inputs, steps, branches, table, pool)
}
