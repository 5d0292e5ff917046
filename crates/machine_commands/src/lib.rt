// One command of the engine. Control goes in and comes back by value; variables and return places stand in the lent store, terms in the lent
// pool. `step` takes every command but the three actions on cells, which crates/machine_actions has, so that nothing here sees a cell. Each
// command's errors come in document 01's order, and a command that errs, ends or forks leaves the store as it was. With known inputs `iSym`
// yields the input itself, so that no term is made and no fork taken. Words are read as they stand; crates/machine_laws shows that on a program's
// words one command here is one move of document 01's machine.
#![tactic(auto)]

ghost use Rattle.std.specs.Prelude.{◌≡◌, ◌<◌};
ghost use Rattle.gil.specs.Numbers.{most_variables, most_inputs, most_locations};
ghost use Rattle.machine_terms.specs.Mirror.{did};
ghost use Rattle.machine_terms.specs.Laws.Engine.{fresh_in, known_in};
ghost use Rattle.machine_commands.specs.Mirror.{moved_in, with_location_in, with_input_in, locate_in, after, receive_in, act_in, step_in, start_in, start_store, goto_in, onward_in, put_in, word_in, zeros_in, vanish_command, kind_of, command_in, fetch_in, acted, assign_in, jump_in, enter_in, leave_in};

use gil::errors::Error;
use gil::limits::{MOST_FRAMES, MOST_INPUTS, MOST_LOCATIONS, MOST_VARIABLES};
use gil::tags::Tag;
use machine_code::kinds::CommandKind;
use machine_code::{
    CODE_WORDS, COMMAND_WORDS, COMMANDS_AT, FRAME_WORDS, PROCEDURE_WORDS, RETURNS_AT, STORE_WORDS,
    code_word,
};
use machine_evaluate as evaluate;
use machine_terms as terms;
use machine_values as values;
use machine_values::{Input, Location, VALUES};

// main's frame is 0
const LAST_FRAME: u32 = MOST_FRAMES - 1;

// Where a path stands and what it has used up: the frame (main is the first, 0), the procedure and the number of its next command
#[derive(Clone, Copy)]
pub struct Control {
    pub frame: u32,
    pub inputs: Input,
    pub locations: Location,
    pub procedure: u32,
    pub command: u32,
}

// A command's five words (crates/machine_code), the first of them as its kind
#[derive(Clone, Copy)]
pub struct Command {
    pub kind: CommandKind,
    pub target: u32,
    pub first: u32,
    pub other: u32,
    pub second: u32,
}

// What a command comes to. A value is its tag and its word; a fork has its term's place and where each branch goes on. Every field is of 32
// bits, but an error's, of 8: so none lies across two others and the compiler keeps each in a register.
#[derive(Clone, Copy)]
pub enum Next {
    On(Control),
    Returned(u32, u32),
    Failed(u32, u32),
    Vanished,
    Error(Error),
    Fork(u32, Control, Control),
}

fn moved(c: Control, frame: u32, procedure: u32, command: u32) -> Control
    ensures { result ≡ moved_in c frame procedure command }
{
    Control {
        frame,
        procedure,
        command,
        ..c
    }
}

#[tactic(auto, unfolding(crate::specs::Mirror::goto_in))]
fn goto(c: Control, n: u32) -> Control
    ensures { result ≡ goto_in n c }
{
    moved(c, c.frame, c.procedure, n)
}

#[tactic(auto, unfolding(crate::specs::Mirror::onward_in))]
fn onward(c: Control) -> Control
    ensures { result ≡ onward_in c }
{
    goto(c, std::num::wrapping_add_u32(c.command, 1))
}

// Not by `get_mut`, after which a proof does not know the words.
#[tactic(auto, unfolding(crate::specs::Mirror::put_in))]
fn put(store: &mut [u64; STORE_WORDS], at: usize, v: u64)
    ensures { store.new ≡ put_in at v store.old }
{
    if at < STORE_WORDS {
        store[at] = v;
    }
}

#[tactic(auto, unfolding(crate::specs::Mirror::word_in))]
fn word(store: &[u64; STORE_WORDS], at: usize) -> u32
    ensures { result ≡ word_in at store.now }
{
    match store.get(at) {
        Some(&v) => values::word(v),
        None => 0,
    }
}

// "`main` starts with its parameter at 0": where a path begins, and its store
#[tactic(auto, unfolding(crate::specs::Mirror::start_in))]
pub fn start(code: &[u32; CODE_WORDS]) -> Control
    ensures { result ≡ start_in code.now }
{
    Control {
        frame: 0,
        procedure: code_word(code, 1),
        command: 0,
        inputs: Input(0),
        locations: Location(0),
    }
}

#[tactic(auto, unfolding(crate::specs::Mirror::start_store))]
pub fn start_store() -> [u64; STORE_WORDS]
    ensures { result ≡ start_store }
{
    let mut store = [0u64; STORE_WORDS];
    store[0] = VALUES;
    store
}

fn vanish() -> Command
    ensures { result ≡ vanish_command }
{
    Command {
        kind: CommandKind::Vanish,
        target: 0,
        first: 0,
        other: 0,
        second: 0,
    }
}

// A word that is no command's kind, which no accepted program has, is read as that of `fail`. Public, so that a command can be made of any word, as
// `fetch` makes it.
pub fn kind(word: u32) -> CommandKind
    ensures { result ≡ kind_of word }
{
    CommandKind::try_from(word).unwrap_or(CommandKind::Fail)
}

#[tactic(auto, unfolding(crate::specs::Mirror::command_in))]
fn command_at(code: &[u32; CODE_WORDS], at: usize) -> Command
    ensures { result ≡ command_in code.now at }
{
    if at < CODE_WORDS - 4 {
        Command {
            kind: kind(code[at]),
            target: code[at + 1],
            first: code[at + 2],
            other: code[at + 3],
            second: code[at + 4],
        }
    } else {
        vanish()
    }
}

// The next command; `vanish` past the end of the procedure
#[tactic(auto, unfolding(crate::specs::Mirror::fetch_in))]
pub fn fetch(code: &[u32; CODE_WORDS], c: Control) -> Command
    ensures { result ≡ fetch_in code.now c.procedure c.command }
{
    let procedure = PROCEDURE_WORDS * (c.procedure as usize);
    let count = code_word(code, procedure + 4);
    if c.command < count {
        let first = code_word(code, procedure + 2);
        return command_at(
            code,
            COMMANDS_AT + COMMAND_WORDS * (first as usize + c.command as usize),
        );
    }
    vanish()
}

#[tactic(auto, unfolding(crate::specs::Mirror::assign_in))]
pub fn assign(c: Control, x: u32, v: u64, store: &mut [u64; STORE_WORDS]) -> Next
    ensures { acted result store.new ≡ assign_in c x v store.old }
{
    put(store, FRAME_WORDS * (c.frame as usize) + x as usize, v);
    Next::On(onward(c))
}

// "`ifgoto` on true goes to n, on false to the next command"; a number term is error 2
#[tactic(auto, unfolding(crate::specs::Mirror::jump_in))]
fn jump(c: Control, n: u32, v: u64) -> Next
    ensures { result ≡ jump_in c n v }
{
    let tag = values::tag(v);
    if tag == Tag::Boolean as u32 {
        if values::word(v) == 0 {
            return Next::On(onward(c));
        }
        return Next::On(goto(c, n));
    }
    if tag == Tag::BooleanTerm as u32 {
        return Next::Fork(values::word(v), goto(c, n), onward(c));
    }
    Next::Error(Error::WrongSort)
}

fn clear(store: &mut [u64; STORE_WORDS], base: usize)
    requires { base < 100000000000 }
    ensures { store.new ≡ zeros_in most_variables base store.old }
{
    for i in 0..MOST_VARIABLES {
        put(store, base + i, 0);
    }
}

// "A call .. opens a frame in which only the parameter is bound"
#[tactic(auto, unfolding(crate::specs::Mirror::enter_in, crate::specs::Mirror::frame_in))]
fn enter(c: Control, x: u32, f: u32, v: u64, store: &mut [u64; STORE_WORDS]) -> Next
    ensures { acted result store.new ≡ enter_in c x f v store.old }
{
    if LAST_FRAME <= c.frame {
        return Next::Error(Error::NinthFrame);
    }
    let base = FRAME_WORDS * (c.frame as usize + 1);
    clear(store, base);
    put(store, base, v);
    put(store, base + RETURNS_AT, c.procedure as u64);
    put(store, base + RETURNS_AT + 1, c.command as u64 + 1);
    put(store, base + RETURNS_AT + 2, x as u64);
    Next::On(moved(c, c.frame + 1, f, 0))
}

// "return in the first frame ends the run, in any other it assigns to the caller's variable and goes on after the call"
#[tactic(auto, unfolding(crate::specs::Mirror::leave_in))]
fn leave(c: Control, v: u64, store: &mut [u64; STORE_WORDS]) -> Next
    ensures { acted result store.new ≡ leave_in c v store.old }
{
    if c.frame == 0 {
        return Next::Returned(values::tag(v), values::word(v));
    }
    let base = FRAME_WORDS * (c.frame as usize);
    let procedure = word(store, base + RETURNS_AT);
    let command = word(store, base + RETURNS_AT + 1);
    let x = word(store, base + RETURNS_AT + 2);
    put(store, base - FRAME_WORDS + x as usize, v);
    Next::On(moved(c, c.frame - 1, procedure, command))
}

fn with_location(c: Control) -> Control
    requires { c.locations.0 < most_locations }
    ensures { result ≡ with_location_in c }
{
    Control {
        locations: Location(c.locations.0 + 1),
        ..c
    }
}

fn with_input(c: Control) -> Control
    requires { c.inputs.0 < most_inputs }
    ensures { result ≡ with_input_in c }
{
    Control {
        inputs: Input(c.inputs.0 + 1),
        ..c
    }
}

// "`uSym` gives the next location of this path"
#[tactic(auto, unfolding(crate::specs::Mirror::locate_in))]
fn locate(c: Control, x: u32, store: &mut [u64; STORE_WORDS]) -> Next
    ensures { acted result store.new ≡ locate_in c x store.old }
{
    if MOST_LOCATIONS <= c.locations.0 {
        return Next::Error(Error::SeventeenthLocation);
    }
    let l = c.locations;
    assign(with_location(c), x, values::located(l), store)
}

#[tactic(auto, unfolding(machine_terms::specs::Laws::Engine::fresh_in))]
fn input(
    known: Option<&[u32; MOST_INPUTS as usize]>,
    i: Input,
    pool: &mut [u8],
    count: &mut u32,
) -> u64
    requires { i.0 < most_inputs }
    ensures { did result pool.new count.new ≡ fresh_in (known_in known.entry) i.0 pool.old count.old }
{
    match known {
        Some(inputs) => values::number(inputs[i.0 as usize]),
        None => terms::input(pool, count, i),
    }
}

// "`iSym` the next input": known, or a term
#[tactic(auto, unfolding(crate::specs::Mirror::receive_in))]
fn receive(
    c: Control,
    x: u32,
    known: Option<&[u32; MOST_INPUTS as usize]>,
    store: &mut [u64; STORE_WORDS],
    pool: &mut [u8],
    count: &mut u32,
) -> Next
    ensures { after result store.new pool.new count.new ≡ receive_in c x (known_in known.entry) store.old pool.old count.old }
{
    if MOST_INPUTS <= c.inputs.0 {
        return Next::Error(Error::SeventeenthInput);
    }
    let v = input(known, c.inputs, pool, count);
    assign(with_input(c), x, v, store)
}

// A command whose expression has the value v
#[tactic(auto, unfolding(crate::specs::Mirror::act_in))]
fn act(c: Control, m: Command, v: u64, store: &mut [u64; STORE_WORDS]) -> Next
    ensures { acted result store.new ≡ act_in c m v store.old }
{
    match m.kind {
        CommandKind::Assign => assign(c, m.target, v, store),
        CommandKind::Jump => jump(c, m.target, v),
        CommandKind::Call => enter(c, m.target, m.other, v, store),
        CommandKind::Return => leave(c, v, store),
        _ => Next::Failed(values::tag(v), values::word(v)),
    }
}

// One command that is no action on cells
#[tactic(auto, unfolding(crate::specs::Mirror::step_in, crate::specs::Mirror::on_value))]
pub fn step(
    code: &[u32; CODE_WORDS],
    c: Control,
    m: Command,
    known: Option<&[u32; MOST_INPUTS as usize]>,
    store: &mut [u64; STORE_WORDS],
    pool: &mut [u8],
    count: &mut u32,
) -> Next
    ensures { after result store.new pool.new count.new ≡ step_in code.now c m (known_in known.entry) store.old pool.old count.old }
{
    match m.kind {
        CommandKind::USym => locate(c, m.target, store),
        CommandKind::ISym => receive(c, m.target, known, store, pool, count),
        CommandKind::Vanish => Next::Vanished,
        _ => match evaluate::value(code, m.first, store, c.frame, pool, count) {
            Ok(v) => act(c, m, v, store),
            Err(e) => Next::Error(e),
        },
    }
}
