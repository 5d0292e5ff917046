// Values as the engine holds them: a tag and a word in one u64, tag × 2^32 + word. Tags: 1 number, 2 boolean, 3 location, 4 number term,
// 5 boolean term. Below 2^32 there is no value, and 0 in a path's store is a variable that is not bound. One word and not an enum, which was tried:
// an Option of it has no niche, calls took 53 % longer and most other runs about 20 %. The operators on constants, and how the sorts of two
// operands fit; an operator's kind is that of its node, read as it stands: kinds 11 to 15 are no operator's, and what they answer is
// specs/Mirror.antt's. specs/Laws.antt shows that the words are document 01's values and operators.
#![tactic(auto)]

ghost use Rattle.std.specs.Prelude.{◌≡◌, ◌+◌, ◌/◌, ◌%◌};
ghost use Rattle.machine_values.specs.Mirror.{truth_word, sort_word, needed_word, fit_in, both_word, either_word, work_word};

use gil::tags::Tag;
use machine_code::{AND_NODE, EQUAL_NODE, LESS_NODE, MINUS_NODE, PLUS_NODE};

// "Uninterpreted symbols and interpreted ones are never confused": the number of a location, and that of an input
#[derive(Clone, Copy, PartialEq, Eq)]
pub struct Location(pub u32);

#[derive(Clone, Copy, PartialEq, Eq)]
pub struct Input(pub u32);

pub const VALUES: u64 = 4294967296;

pub const FALSE: u64 = 8589934592;

pub const LOCATIONS: u64 = 12884901888;

pub const TERMS: u64 = 17179869184;

pub const BOOLEAN_TERMS: u64 = 21474836480;

pub fn tag(v: u64) -> u32
    ensures { result ≡ v / 4294967296 }
{
    (v / 4294967296) as u32
}

pub fn word(v: u64) -> u32
    ensures { result ≡ v % 4294967296 }
{
    (v % 4294967296) as u32
}

pub fn number(n: u32) -> u64
    ensures { result ≡ 4294967296 + n }
{
    VALUES + n as u64
}

#[tactic(auto, unfolding(crate::specs::Mirror::truth_word))]
pub fn truth(b: bool) -> u64
    ensures { result ≡ truth_word b }
{
    if b { FALSE + 1 } else { FALSE }
}

pub fn located(l: Location) -> u64
    ensures { result ≡ 12884901888 + l.0 }
{
    LOCATIONS + l.0 as u64
}

// A value's sort: 1 number, 2 boolean, 3 location. A term's tag is three above its sort. A number and not an enum, which would need a case for words
// that are no value.
#[tactic(auto, unfolding(crate::specs::Mirror::sort_word))]
pub fn sort(v: u64) -> u32
    ensures { result ≡ sort_word v }
{
    let t = tag(v);
    if t > Tag::Location as u32 {
        t - Tag::Location as u32
    } else {
        t
    }
}

// The sort that an operator other than `=` needs; `=` takes every sort, and most often numbers
#[tactic(auto, unfolding(crate::specs::Mirror::needed_word))]
pub fn needed(kind: u32) -> u32
    ensures { result ≡ needed_word kind }
{
    if kind < AND_NODE {
        Tag::Number as u32
    } else {
        Tag::Boolean as u32
    }
}

// How two sorts fit an operator. Other operators than `=` err where they don't; `=` is false of unlike ones.
#[derive(Clone, Copy)]
pub enum Fit {
    Right,
    Wrong,
    Unlike,
}

#[tactic(auto, unfolding(crate::specs::Mirror::fit_in))]
pub fn fitting(kind: u32, s: u32, t: u32) -> Fit
    ensures { result ≡ fit_in kind s t }
{
    if kind == EQUAL_NODE {
        return if s == t { Fit::Right } else { Fit::Unlike };
    }
    let n = needed(kind);
    if s == n && t == n {
        Fit::Right
    } else {
        Fit::Wrong
    }
}

// An operator on the words of two constants of the right sorts. A truth's word is 0 or 1.
#[tactic(auto, unfolding(crate::specs::Mirror::work_word))]
#[inline(always)]
pub fn work(kind: u32, x: u32, y: u32) -> u64
    ensures { result ≡ work_word kind x y }
{
    match kind {
        PLUS_NODE => number(std::num::wrapping_add_u32(x, y)),
        MINUS_NODE => number(std::num::wrapping_sub_u32(x, y)),
        EQUAL_NODE => truth(x == y),
        LESS_NODE => truth(x < y),
        AND_NODE => both(x, y),
        _ => either(x, y),
    }
}

#[tactic(auto, unfolding(crate::specs::Mirror::both_word))]
fn both(x: u32, y: u32) -> u64
    ensures { result ≡ both_word x y }
{
    if x == 0 { FALSE } else { FALSE + y as u64 }
}

#[tactic(auto, unfolding(crate::specs::Mirror::either_word))]
fn either(x: u32, y: u32) -> u64
    ensures { result ≡ either_word x y }
{
    if x == 0 { FALSE + y as u64 } else { FALSE + 1 }
}
