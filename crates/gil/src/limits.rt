// What a text, a call, an exploration and a path may have.
pub const MOST_CHARACTERS: usize = 16;

pub const LARGEST_NUMBER: u32 = 4294967295;

pub const LARGEST_SITE: u32 = 255;

pub const MOST_BYTES: usize = 16384;

pub const MOST_PROCEDURES: usize = 16;

pub const MOST_COMMANDS: usize = 512;

pub const MOST_VARIABLES: usize = 16;

pub const MOST_PROPERTIES: usize = 32;

pub const MOST_DEPTH: u32 = 8;

pub const MOST_STEPS: u32 = 1024;

pub const MOST_BRANCHES: u32 = 16;

pub const MOST_ROWS: u32 = 64;

pub const MOST_TERMS: u32 = 2048;

pub const MOST_FRAMES: u32 = 8;

pub const MOST_INPUTS: u32 = 16;

pub const MOST_LOCATIONS: u32 = 16;

pub const MOST_CELLS: usize = 32;
