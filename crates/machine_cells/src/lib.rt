// The memory: "Cells are kept in order of location, then of property by its first place in the text". Up to 32 cells stand in an array, the
// first `held` of them in use and in order (specs/Laws/Order.antt). Contracts see a memory as the list of the cells in use; what is found in it, put
// in and taken out is Machine's `cell_at`, `put_cell` and `without_cells` over that list (specs/Laws/Done.antt).
#![tactic(auto)]

ghost use Rattle.std.specs.Prelude.{◌≡◌, ◌<◌, ◌≤◌, true, false, [], length, map, drop, MatchResult};
ghost use Rattle.gil.specs.Numbers.{most_cells};
ghost use Rattle.gil.specs.Machine.{without_cells};
ghost use Rattle.machine_cells.specs.Mirror.{cell_of, held_in, against, StandsAt, LacksAt, EndsAt, carried_in};
ghost use Rattle.machine_cells.specs.Laws.Order.{Ordered};
ghost use Rattle.machine_cells.specs.Laws.Served.{looked_in, mutated_in, put_in, given_by, left_by};

use gil::errors::Error;
use gil::limits::MOST_CELLS;
use machine_values as values;
use machine_values::Location;
use std::cmp::Ordering;
use std::marker::Model;

// as many as a path may have
pub const CELLS: usize = MOST_CELLS;

#[derive(Clone, Copy)]
pub struct Cell {
    pub location: Location,
    pub property: u32,
    pub value: u64,
}

impl Cell {
    // Whether it stands before the place, there, or beyond it
    fn against(&self, l: Location, q: u32) -> Ordering
        ensures { result ≡ against l.0 q self.now }
    {
        self.location.0.cmp(&l.0).then(self.property.cmp(&q))
    }
}

// What an action asks of the cells; `value` is what `mutate` writes
#[derive(Clone, Copy)]
pub enum Ask {
    Lookup {
        location: Location,
        property: u32,
    },
    Mutate {
        location: Location,
        property: u32,
        value: u64,
    },
    Dispose {
        location: Location,
    },
}

// An array with a count, since a map needs the heap. It is stepped in place, and copied where a path forks.
#[derive(Drop)]
pub struct Memory {
    cells: [Cell; CELLS],
    held: usize,
}

impl Model for Memory {
    ghost use Rattle.std.specs.Prelude.{ℕ, List};
    ghost use Rattle.gil.specs.Machine.{Cell};

    ghost Value = { List (Cell ℕ) };

    ghost use Rattle.machine_cells.specs.Mirror.{held_in};
    ghost use Rattle.machine_cells.specs.Laws.Served.{Tidy};

    ghost view = { λ m. held_in m.held m.cells };

    ghost invariant = { λ m. Tidy m.held m.cells };
}

impl Memory {
    // No cells: where a path begins
    pub fn new() -> Self
        ensures { result ≡ [] }
    {
        Memory {
            cells: [Cell {
                location: Location(0),
                property: 0,
                value: 0,
            }; CELLS],
            held: 0,
        }
    }

    // The cells in use, in order
    pub fn cells(&self) -> &[Cell]
        ensures all { map cell_of result.now ≡ self.now }
        ensures few { length self.now ≤ most_cells }
    {
        &self.cells[..self.held]
    }

    // For the second branch of a fork
    pub fn copied(&self) -> Self
        ensures { result ≡ self.now }
    {
        Memory {
            cells: self.cells,
            held: self.held,
        }
    }

    // Where the cell stands, or where it would be put
    fn find(&self, l: Location, q: u32) -> Result<usize, usize>
        ensures { MatchResult result (StandsAt l.0 q self.now) (LacksAt l.0 q self.now) }
    {
        search(&self.cells[..self.held], l, q)
    }

    // "`lookup` gives the cell's value": "3 no such cell"
    fn lookup(&self, l: Location, q: u32) -> Result<u64, Error>
        ensures { result ≡ looked_in l.0 q self.now }
    {
        match self.find(l, q) {
            Ok(at) => Ok(self.cells[at].value),
            Err(_) => Err(Error::NoSuchCell),
        }
    }

    // "`mutate` writes the cell, adding it if absent": "7 a thirty-third cell"
    fn mutate(&mut self, cell: Cell) -> Result<u64, Error>
        ensures gives { result ≡ mutated_in cell.location.0 cell.property self.old }
        ensures leaves { self.new ≡ put_in cell.location.0 cell.property cell.value self.old }
    {
        match self.find(cell.location, cell.property) {
            Ok(at) => self.cells[at] = cell,
            Err(at) => {
                if self.held == CELLS {
                    return Err(Error::ThirtyThirdCell);
                }
                insert(&mut self.cells, at, self.held, cell);
                self.held += 1;
            }
        }
        Ok(values::truth(true))
    }

    // "`dispose` removes all cells of the location"
    fn dispose(&mut self, l: Location)
        ensures { self.new ≡ without_cells l.0 self.old }
    {
        self.held = remove(&mut self.cells, self.held, l);
    }

    // What an action's variable is given, or the error; "Both of the last give `true`". Whatever is asked, the cells stay in order and at most 32.
    pub fn serve(&mut self, ask: Ask) -> Result<u64, Error>
        ensures gives { result ≡ given_by ask self.old }
        ensures leaves { self.new ≡ left_by ask self.old }
        ensures ordered { Ordered self.new }
        ensures few { length self.new ≤ most_cells }
    {
        // so that this function's proof knows that they are so before
        let _ = &self.held;
        match ask {
            Ask::Lookup { location, property } => self.lookup(location, property),
            Ask::Mutate {
                location,
                property,
                value,
            } => self.mutate(Cell {
                location,
                property,
                value,
            }),
            Ask::Dispose { location } => {
                self.dispose(location);
                Ok(values::truth(true))
            }
        }
    }
}

// Where the cell sought stands among cells in order, or the place before the first beyond it: each look halves what is left
pub fn search(cells: &[Cell], l: Location, q: u32) -> Result<usize, usize>
    requires { Ordered (map cell_of cells.now) }
    ensures found { MatchResult result (StandsAt l.0 q (map cell_of cells.now)) (LacksAt l.0 q (map cell_of cells.now)) }
    ensures ends { MatchResult result (EndsAt l.0 q true (map cell_of cells.now)) (EndsAt l.0 q false (map cell_of cells.now)) }
{
    cells.binary_search_by(|c| c.against(l, q))
}

// A cell put in at a place; those from there up to `last` move up by one, and the last of them drops out
pub fn insert(cells: &mut [Cell], at: usize, last: usize, cell: Cell)
    requires { last < length cells.old }
    ensures { cells.new ≡ carried_in at last cell cells.old }
{
    if at <= last {
        cells.copy_within(at..last, at + 1);
        cells[at] = cell;
    }
}

// The cells of a location taken out of those in use, the others kept in order and those behind as they were; how many are kept
pub fn remove(cells: &mut [Cell], held: usize, l: Location) -> usize
    requires { held ≤ length cells.old }
    ensures kept { result ≡ length (without_cells l.0 (held_in held cells.old)) }
    ensures cells { held_in result cells.new ≡ without_cells l.0 (held_in held cells.old) }
    ensures behind { drop held cells.new ≡ drop held cells.old }
    ensures whole { length cells.new ≡ length cells.old }
{
    let mut n: usize = 0;
    for i in 0..held {
        let c = cells[i];
        if l != c.location {
            cells[n] = c;
            n += 1;
        }
    }
    n
}
