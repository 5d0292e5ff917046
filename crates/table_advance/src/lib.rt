// One command of a path, and how a path stops. Control goes by value; the cells, the store, the pool and the count of terms are lent.
// crates/table_path follows a path by it, from one fork to the next.
#![tactic(auto)]

ghost use Rattle.std.specs.Prelude.{◌≡◌, is_ok};
ghost use Rattle.machine_terms.specs.Laws.Engine.{known_in};
ghost use Rattle.machine_actions.specs.Laws.Changed.{kept, changed};
ghost use Rattle.table_advance.specs.Mirror.Followed.{spot, one_in, next_of, goes_in};

use gil::limits::{MOST_INPUTS, MOST_TERMS};
use machine_actions as actions;
use machine_cells::Memory;
use machine_code::{CODE_WORDS, STORE_WORDS};
use machine_commands::{Control, Next};

const INPUTS: usize = MOST_INPUTS as usize;

// Where a path stopped: what the command that stopped it came to, or none where the steps are used up first; where that command stands, and the
// steps before it
#[derive(Clone, Copy)]
pub struct Stop {
    pub next: Option<Next>,
    pub control: Control,
    pub steps: u32,
}

// One command: where the path goes on, within the terms that there is room for, or what stops it. What is lent goes by a parameter each: a struct
// of `&mut`s would need a clause on each one's ghost name in every function.
pub fn advance(
    code: &[u32; CODE_WORDS],
    at: Control,
    known: Option<&[u32; INPUTS]>,
    memory: &mut Memory,
    store: &mut [u64; STORE_WORDS],
    pool: &mut [u8],
    count: &mut u32,
) -> Result<Control, Next>
    ensures moved { changed (kept (next_of result) store.new memory.new) pool.new count.new ≡ one_in code.now (known_in known.entry) (spot at store.old memory.old pool.old count.old) }
    ensures goes { is_ok result ≡ goes_in (next_of result) count.new }
{
    let next = actions::step(code, at, known, memory, store, pool, count);
    let Next::On(to) = next else {
        return Err(next);
    };
    if *count > MOST_TERMS {
        return Err(next);
    }
    Ok(to)
}
