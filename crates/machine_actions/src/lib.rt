// One command of the engine, whole: an action on the cells, or any other by `commands::step`. An action evaluates its operands left to right, tests
// their sorts, asks the memory (crates/machine_cells) and gives its variable what that answers. One that errs leaves variables and cells as they were.
#![tactic(auto)]

ghost use Rattle.std.specs.Prelude.{◌≡◌};
ghost use Rattle.machine_terms.specs.Mirror.{did};
ghost use Rattle.machine_terms.specs.Laws.Engine.{known_in};
ghost use Rattle.machine_commands.specs.Mirror.{acted, fetch_in};
ghost use Rattle.machine_actions.specs.Mirror.{located_in, ask_in, told_in, kept, acting_in};
ghost use Rattle.machine_actions.specs.Laws.Changed.{changed, engine_in};

use gil::errors::Error;
use gil::limits::MOST_INPUTS;
use gil::tags::Tag;
use machine_cells::{Ask, Memory};
use machine_code::kinds::CommandKind;
use machine_code::{CODE_WORDS, STORE_WORDS};
use machine_commands as commands;
use machine_commands::{Command, Control, Next};
use machine_evaluate as evaluate;
use machine_values as values;
use machine_values::Location;

#[tactic(auto, unfolding(crate::specs::Mirror::located_in))]
fn located(v: u64) -> Result<Location, Error>
    ensures { result ≡ located_in v }
{
    if values::tag(v) == Tag::Location as u32 {
        Ok(Location(values::word(v)))
    } else {
        Err(Error::WrongSort)
    }
}

// What is asked of the cells, or the error that comes before: "each operand in full, left to right", and then the sorts
#[tactic(auto, unfolding(crate::specs::Mirror::ask_in, crate::specs::Mirror::ask_second, crate::specs::Mirror::on_word))]
pub fn ask(
    code: &[u32; CODE_WORDS],
    c: Control,
    m: Command,
    store: &[u64; STORE_WORDS],
    pool: &mut [u8],
    count: &mut u32,
) -> Result<Ask, Error>
    ensures { did result pool.new count.new ≡ ask_in code.now c m store.now pool.old count.old }
{
    let v = evaluate::evaluate(code, m.first, store, c.frame, pool, count)?;
    match m.kind {
        CommandKind::Lookup => Ok(Ask::Lookup {
            location: located(v)?,
            property: m.other,
        }),
        CommandKind::Mutate => {
            let value = evaluate::evaluate(code, m.second, store, c.frame, pool, count)?;
            Ok(Ask::Mutate {
                location: located(v)?,
                property: m.other,
                value,
            })
        }
        _ => Ok(Ask::Dispose {
            location: located(v)?,
        }),
    }
}

// What an action comes to once the cells have answered: "3 no such cell", "7 a thirty-third cell", or a value for its variable
pub fn conclude(
    c: Control,
    x: u32,
    given: Result<u64, Error>,
    store: &mut [u64; STORE_WORDS],
) -> Next
    ensures { acted result store.new ≡ told_in c x store.old given }
{
    match given {
        Ok(v) => commands::assign(c, x, v, store),
        Err(e) => Next::Error(e),
    }
}

// An action on the cells
#[tactic(auto, unfolding(crate::specs::Mirror::acting_in))]
fn act(
    code: &[u32; CODE_WORDS],
    c: Control,
    m: Command,
    memory: &mut Memory,
    store: &mut [u64; STORE_WORDS],
    pool: &mut [u8],
    count: &mut u32,
) -> Next
    ensures { changed (kept result store.new memory.new) pool.new count.new ≡ acting_in code.now c m memory.old store.old pool.old count.old }
{
    match ask(code, c, m, store, pool, count) {
        Ok(asked) => conclude(c, m.target, memory.serve(asked), store),
        Err(e) => Next::Error(e),
    }
}

// The next command, done
pub fn step(
    code: &[u32; CODE_WORDS],
    c: Control,
    known: Option<&[u32; MOST_INPUTS as usize]>,
    memory: &mut Memory,
    store: &mut [u64; STORE_WORDS],
    pool: &mut [u8],
    count: &mut u32,
) -> Next
    ensures { changed (kept result store.new memory.new) pool.new count.new ≡ engine_in code.now c (fetch_in code.now c.procedure c.command) (known_in known.entry) memory.old store.old pool.old count.old }
{
    let m = commands::fetch(code, c);
    match m.kind {
        CommandKind::Lookup | CommandKind::Mutate | CommandKind::Dispose => {
            act(code, c, m, memory, store, pool, count)
        }
        _ => commands::step(code, c, m, known, store, pool, count),
    }
}
