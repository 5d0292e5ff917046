// Evaluation of an expression that stands in the program's words (crates/machine_code), over the variables of a frame in the lent store: a value's
// word, or an error. By recursion with the remaining depth as the falling number; an operand that is a number, a truth or a variable is no call
// of its own. A variable that is not bound is 0 in the store (machine_values says why). Words are read as they stand; specs/Laws.antt shows that on a program's words this is document 01's evaluation.
#![tactic(auto)]

ghost use Rattle.std.specs.Prelude.{◌≡◌, ◌+◌, ◌*◌, ◌/◌, ◌%◌, ◌<◌, IfSome};
ghost use Rattle.machine_code.specs.Code.{kind_range};
ghost use Rattle.machine_terms.specs.Mirror.{did};
ghost use Rattle.machine_evaluate.specs.Mirror.{variable_in, number_in, leaf_in, operand_in, operator_in, evaluate_in, WorkedOut};

use gil::errors::Error;
use gil::limits::MOST_DEPTH;
use machine_code::{
    CODE_WORDS, FRAME_WORDS, KIND, NEXT_WORD, NOT, NOT_NODE, PLUS_NODE, STORE_WORDS, VARIABLE, wide,
};
use machine_terms as terms;
use machine_values as values;
use machine_values::VALUES;

#[tactic(auto, unfolding(crate::specs::Mirror::variable_in))]
fn variable(store: &[u64; STORE_WORDS], frame: u32, x: u32) -> Result<u64, Error>
    ensures { result ≡ variable_in store.now frame x }
{
    match store.get(FRAME_WORDS * (frame as usize) + x as usize) {
        Some(&v) if v != 0 => Ok(v),
        _ => Err(Error::NotBound),
    }
}

// A number in a word of its own
#[tactic(auto, unfolding(crate::specs::Mirror::number_in))]
fn number_at(code: &[u32; CODE_WORDS], at: usize) -> Result<u64, Error>
    ensures { result ≡ number_in code.now at }
{
    match code.get(at) {
        Some(&n) => Ok(values::number(n)),
        None => Err(Error::NotBound),
    }
}

// A number or a truth: the tags of their values are one more than the kinds of their nodes
fn constant(node: u32) -> u64
    requires { node < 536870912 }
    ensures { result ≡ 4294967296 * (node / kind_range + 1) + node % kind_range }
{
    VALUES * (node / KIND + 1) as u64 + (node % KIND) as u64
}

// A number, a truth or a variable; None where an operator stands. The tests stand in the order that runs fastest.
#[tactic(auto, unfolding(crate::specs::Mirror::leaf_in, crate::specs::Mirror::leaf_of))]
fn leaf(
    code: &[u32; CODE_WORDS],
    at: usize,
    store: &[u64; STORE_WORDS],
    frame: u32,
) -> Result<Option<u64>, Error>
    ensures { result ≡ leaf_in code.now store.now frame at }
{
    let Some(&node) = code.get(at) else {
        return Err(Error::NotBound);
    };
    if node < VARIABLE {
        return Ok(Some(constant(node)));
    }
    if node < NEXT_WORD {
        return Ok(Some(variable(store, frame, node - VARIABLE)?));
    }
    if NOT <= node {
        return Ok(None);
    }
    Ok(Some(number_at(code, at + 1)?))
}

// Taken into `operator`, so that a leaf costs no call. Here and in `value` the answer is `Ok(..?)`: passed through, it would be kept in memory.
#[cycle(operand_operator)]
#[tactic(auto, unfolding(crate::specs::Mirror::operand_in, crate::specs::Mirror::operand_by))]
#[inline(always)]
fn operand(
    code: &[u32; CODE_WORDS],
    at: usize,
    depth: u32,
    store: &[u64; STORE_WORDS],
    frame: u32,
    pool: &mut [u8],
    count: &mut u32,
) -> Result<u64, Error>
    ensures { did result pool.new count.new ≡ operand_in code.now store.now frame depth at pool.old count.old }
{
    match leaf(code, at, store, frame)? {
        Some(v) => Ok(v),
        None => Ok(operator(code, at, depth, store, frame, pool, count)?),
    }
}

// "Both operands are always evaluated, left first, and only then are their sorts tested."
#[cycle(operand_operator)]
fn operator(
    code: &[u32; CODE_WORDS],
    at: usize,
    depth: u32,
    store: &[u64; STORE_WORDS],
    frame: u32,
    pool: &mut [u8],
    count: &mut u32,
) -> Result<u64, Error>
    ensures { did result pool.new count.new ≡ operator_in code.now store.now frame depth at pool.old count.old }
{
    if depth == 0 || CODE_WORDS <= at {
        return Err(Error::NotBound);
    }
    let node = code[at];
    let kind = node / KIND;
    let a = operand(code, at + 1, depth - 1, store, frame, pool, count)?;
    if kind == NOT_NODE {
        return terms::negate(pool, count, a);
    }
    let second = at + 1 + wide(node % KIND);
    let b = operand(code, second, depth - 1, store, frame, pool, count)?;
    terms::operate(pool, count, kind, a, b)
}

// An operator on two leaves of the sort that it needs, worked out without a call; None where anything else stands, `not` as well
fn simple(
    code: &[u32; CODE_WORDS],
    at: usize,
    store: &[u64; STORE_WORDS],
    frame: u32,
) -> Option<u64>
    ensures { IfSome result (WorkedOut code.now store.now frame at) }
{
    if CODE_WORDS <= at {
        return None;
    }
    let node = code[at];
    let kind = node / KIND;
    let Ok(Some(a)) = leaf(code, at + 1, store, frame) else {
        return None;
    };
    if kind < PLUS_NODE {
        return None;
    }
    let second = at + 1 + wide(node % KIND);
    let Ok(Some(b)) = leaf(code, second, store, frame) else {
        return None;
    };
    if terms::needed(kind, a, b) {
        return Some(values::work(kind, values::word(a), values::word(b)));
    }
    None
}

// As `evaluate`, with the common case first. Called at one place, where the compiler takes it in whole. For an action's operands, or inside
// `operator`, the common case first is slower (docs/ENGINE.md, Speed).
#[tactic(auto, unfolding(crate::specs::Mirror::evaluate_in, crate::specs::Mirror::operand_in, crate::specs::Mirror::operand_by))]
pub fn value(
    code: &[u32; CODE_WORDS],
    at: u32,
    store: &[u64; STORE_WORDS],
    frame: u32,
    pool: &mut [u8],
    count: &mut u32,
) -> Result<u64, Error>
    ensures { did result pool.new count.new ≡ evaluate_in code.now store.now frame at pool.old count.old }
{
    if let Some(v) = leaf(code, at as usize, store, frame)? {
        return Ok(v);
    }
    if let Some(v) = simple(code, at as usize, store, frame) {
        return Ok(v);
    }
    Ok(operator(code, at as usize, MOST_DEPTH, store, frame, pool, count)?)
}

#[tactic(auto, unfolding(crate::specs::Mirror::evaluate_in))]
pub fn evaluate(
    code: &[u32; CODE_WORDS],
    at: u32,
    store: &[u64; STORE_WORDS],
    frame: u32,
    pool: &mut [u8],
    count: &mut u32,
) -> Result<u64, Error>
    ensures { did result pool.new count.new ≡ evaluate_in code.now store.now frame at pool.old count.old }
{
    operand(code, at as usize, MOST_DEPTH, store, frame, pool, count)
}
