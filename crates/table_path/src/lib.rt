// A path on a program's words, from one fork to the next: commands one after another, by the one engine, for the plain run and for the
// exploration. crates/table_advance has one command and the words; specs/Laws/Path.antt shows that on a program's words they are document 01's path
// and, with crates/table_head, its row.
#![tactic(auto)]

ghost use Rattle.std.specs.Prelude.{◌≡◌, ◌-◌};
ghost use Rattle.machine_terms.specs.Laws.Engine.{known_in};
ghost use Rattle.table_advance.specs.Mirror.Followed.{one_in, follow_in, spot, stopped};

use gil::limits::MOST_INPUTS;
use machine_cells::Memory;
use machine_code::{CODE_WORDS, STORE_WORDS};
use machine_commands::Control;
use table_advance::{Stop, advance};

// Commands in a row, until one does anything but go on or the steps are used up
pub fn follow(
    code: &[u32; CODE_WORDS],
    from: Control,
    taken: u32,
    budget: u32,
    known: Option<&[u32; MOST_INPUTS as usize]>,
    memory: &mut Memory,
    store: &mut [u64; STORE_WORDS],
    pool: &mut [u8],
    count: &mut u32,
) -> Stop
    ensures { stopped result store.new memory.new pool.new count.new ≡ follow_in (one_in code.now (known_in known.entry)) (budget - taken) taken (spot from store.old memory.old pool.old count.old) }
{
    let mut control = from;
    for steps in taken..budget {
        match advance(code, control, known, memory, store, pool, count) {
            Ok(to) => control = to,
            Err(next) => {
                return Stop {
                    next: Some(next),
                    control,
                    steps,
                };
            }
        }
    }
    Stop {
        next: None,
        control,
        steps: taken.max(budget),
    }
}
