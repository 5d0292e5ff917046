// Where things stand in table, pool, answer and input list (docs/LAYOUT.md), in bytes; the words of a row's head by their number.
pub const TERM_BYTES: usize = 20;

pub const ROW_BYTES: usize = 1024;

pub const HEADING_BYTES: usize = 64;

pub const TABLE_BYTES: usize = 65600;

pub const POOL_BYTES: usize = 40960;

pub const ANSWER_BYTES: usize = 1024;

pub const INPUTS_BYTES: usize = 64;

pub const CONDITIONS_AT: usize = 64;

pub const VARIABLES_AT: usize = 192;

pub const CELLS_AT: usize = 320;

pub const OUTCOME_WORD: u32 = 0;

pub const TAG_WORD: u32 = 1;

pub const VALUE_WORD: u32 = 2;

pub const STEPS_WORD: u32 = 3;

pub const PROCEDURE_WORD: u32 = 4;

pub const COMMAND_WORD: u32 = 5;

pub const INPUTS_WORD: u32 = 6;

pub const CONDITIONS_WORD: u32 = 7;

pub const VARIABLES_WORD: u32 = 8;

pub const CELLS_WORD: u32 = 9;
