// How an accepted program stands in an array of words (specs/Code.antt: the reader writes it and the engine reads it), and the sizes of a
// path's store. A word is read as it stands, 0 past the end.
#![tactic(auto)]

pub mod kinds;

ghost use Rattle.std.specs.Prelude.{◌≡◌, ◌<◌};
ghost use Rattle.machine_code.specs.Mirror.{code_word};

pub const CODE_WORDS: usize = 10802;

// From where on the procedures, the commands and the nodes of expressions stand, and how many words a procedure and a command have
pub const PROCEDURES_AT: usize = 2;

pub const PROCEDURE_WORDS: usize = 3;

pub const COMMANDS_AT: usize = 50;

pub const COMMAND_WORDS: usize = 5;

pub const NODES_AT: usize = 2610;

// A node is its kind times KIND and a number below KIND; of kind 0 it is that number.
pub const KIND: u32 = 268435456;

// The kinds of nodes after the numbers
pub const TRUTH_NODE: u32 = 1;

pub const VARIABLE_NODE: u32 = 2;

pub const NEXT_WORD_NODE: u32 = 3;

pub const NOT_NODE: u32 = 4;

pub const PLUS_NODE: u32 = 5;

pub const MINUS_NODE: u32 = 6;

pub const EQUAL_NODE: u32 = 7;

pub const LESS_NODE: u32 = 8;

pub const AND_NODE: u32 = 9;

// The first node of a kind: a truth, a variable, a number in the next word, `not`
pub const TRUTH: u32 = TRUTH_NODE * KIND;

pub const VARIABLE: u32 = VARIABLE_NODE * KIND;

pub const NEXT_WORD: u32 = NEXT_WORD_NODE * KIND;

pub const NOT: u32 = NOT_NODE * KIND;

// The store of a path: for each of 8 frames its 16 variables, and from RETURNS_AT the procedure, command and variable that it returns to
pub const FRAME_WORDS: usize = 19;

pub const STORE_WORDS: usize = 152;

pub const RETURNS_AT: usize = 16;

// A word as an index. Written as a function, it asks nothing of the place where it is called.
pub fn wide(w: u32) -> usize
    ensures { (result ≡ w) × (result < 4294967296) }
{
    w as usize
}

// The program's word at a place
pub fn code_word(code: &[u32; CODE_WORDS], at: usize) -> u32
    ensures { result ≡ code_word code.now at }
{
    code.get(at).copied().unwrap_or(0)
}
