// Terms: the operators on values while exploring. "An operator is worked out at once exactly if all its operands are constants, or if it
// is `=` on two sorts. Otherwise, where the sorts are right, it makes one term". A term is five words in the lent pool, 20 bytes at 20 × its
// place, written where the pool has room; the count goes on past the room, so that the caller can see refusal 10. The words are specs/Mirror.antt's; specs/Laws/Engine.antt shows that they are the definitions' terms.
#![tactic(auto)]

ghost use Rattle.std.specs.Prelude.{◌≡◌, ◌+◌, ◌≤◌, length};
ghost use Rattle.std.proofs.lemmas.List.Edits.{sets};
ghost use Rattle.gil.specs.Numbers.{term_length};
ghost use Rattle.machine_terms.specs.Mirror.{did, node_of, made_in, term_in, needed_in, operate_in, negate_in, input_in};

use gil::errors::Error;
use gil::kinds::TermKind;
use gil::layout::TERM_BYTES;
use gil::tags::Tag;
use lent_words as words;
use machine_code::EQUAL_NODE;
use machine_values as values;
use machine_values::{BOOLEAN_TERMS, FALSE, Fit, Input, TERMS};

fn put_node(pool: &mut [u8], at: usize, kind: u32, a: u64, b: u64)
    requires { at + term_length ≤ length pool.old }
    ensures { pool.new ≡ sets pool.old at (node_of kind a b) }
{
    words::set_word(pool, at, kind);
    words::set_word(pool, at + 4, values::tag(a));
    words::set_word(pool, at + 8, values::word(a));
    words::set_word(pool, at + 12, values::tag(b));
    words::set_word(pool, at + 16, values::word(b));
}

// One more term; answers its place.
#[tactic(auto, unfolding(crate::specs::Mirror::made_in, crate::specs::Mirror::pool_with))]
fn make(pool: &mut [u8], count: &mut u32, kind: u32, a: u64, b: u64) -> u32
    ensures { did result pool.new count.new ≡ made_in kind a b pool.old count.old }
{
    let k = *count;
    let at = TERM_BYTES * (k as usize);
    *count = std::num::wrapping_add_u32(k, 1);
    if at + TERM_BYTES <= pool.len() {
        put_node(pool, at, kind, a, b);
    }
    k
}

// "`iSym` the next input, always a number"
#[tactic(auto, unfolding(crate::specs::Mirror::input_in, crate::specs::Mirror::made_in))]
pub fn input(pool: &mut [u8], count: &mut u32, i: Input) -> u64
    ensures { did result pool.new count.new ≡ input_in i.0 pool.old count.old }
{
    let k = make(pool, count, TermKind::Input as u32, values::number(i.0), 0);
    TERMS + k as u64
}

// An operator's term: `+` and `-` make a number, the others a boolean. Its kind is two below its node's.
#[tactic(auto, unfolding(crate::specs::Mirror::term_in, crate::specs::Mirror::made_in))]
fn term(pool: &mut [u8], count: &mut u32, kind: u32, a: u64, b: u64) -> u64
    ensures { did result pool.new count.new ≡ term_in kind a b pool.old count.old }
{
    let k = make(pool, count, std::num::wrapping_sub_u32(kind, 2), a, b);
    if kind < EQUAL_NODE {
        TERMS + k as u64
    } else {
        BOOLEAN_TERMS + k as u64
    }
}

// Two constants of the sort that the operator needs: the common case, told by their tags alone
#[tactic(auto, unfolding(crate::specs::Mirror::needed_in))]
pub fn needed(kind: u32, a: u64, b: u64) -> bool
    ensures { result ≡ needed_in kind a b }
{
    let sort = values::needed(kind);
    values::tag(a) == sort && values::tag(b) == sort
}

#[tactic(auto, unfolding(crate::specs::Mirror::operate_in, crate::specs::Mirror::combine_in))]
#[inline(always)]
pub fn operate(pool: &mut [u8], count: &mut u32, kind: u32, a: u64, b: u64) -> Result<u64, Error>
    ensures { did result pool.new count.new ≡ operate_in kind a b pool.old count.old }
{
    if needed(kind, a, b) {
        return Ok(values::work(kind, values::word(a), values::word(b)));
    }
    match values::fitting(kind, values::sort(a), values::sort(b)) {
        Fit::Wrong => Err(Error::WrongSort),
        Fit::Unlike => Ok(FALSE),
        Fit::Right => {
            if a < TERMS && b < TERMS {
                Ok(values::work(kind, values::word(a), values::word(b)))
            } else {
                Ok(term(pool, count, kind, a, b))
            }
        }
    }
}

#[tactic(auto, unfolding(crate::specs::Mirror::negate_in, crate::specs::Mirror::made_in))]
pub fn negate(pool: &mut [u8], count: &mut u32, a: u64) -> Result<u64, Error>
    ensures { did result pool.new count.new ≡ negate_in a pool.old count.old }
{
    if values::sort(a) != Tag::Boolean as u32 {
        return Err(Error::WrongSort);
    }
    if a < TERMS {
        return Ok(values::truth(values::word(a) == 0));
    }
    let k = make(pool, count, TermKind::Not as u32, a, 0);
    Ok(BOOLEAN_TERMS + k as u64)
}
