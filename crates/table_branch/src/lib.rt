// What an exploration does at a path's end and at a fork: the row of a path that stopped, whether the pool is overfull, and the two branches of a
// fork. Mirror has the words. All are total.
#![tactic(auto)]

ghost use Rattle.std.specs.Prelude.{◌≡◌, ◌+◌, ◌^◌, ◌<◌};
ghost use Rattle.gil.specs.Refusals.{answer_of};
ghost use Rattle.table_branch.specs.Mirror.{finished, finish_in, room_in, condition_on, conditions_with, branch_in, split_in};

use gil::limits::{MOST_BRANCHES, MOST_ROWS, MOST_TERMS};
use gil::refusals::Refusal;
use machine_cells::Memory;
use machine_code::{CODE_WORDS, STORE_WORDS};
use machine_commands::{Control, Next};
use table_advance::Stop;
use table_head::head;
use table_rows::Row;

pub const CONDITIONS: usize = MOST_BRANCHES as usize;

// Where a branch stands: the steps and branches so far, and a condition for each of these, in an array, since nothing here has a heap; `branches`
// is tested against the budget, and counts them. Its store and its cells go beside it, lent, so that each is copied once.
#[derive(Clone, Copy)]
pub struct Branch {
    pub control: Control,
    pub steps: u32,
    pub branches: u32,
    pub conditions: [u32; CONDITIONS],
}

// 10: "a 2,049th term would be made". A path whose steps are used up makes none.
pub fn room(stop: &Stop, count: u32) -> Result<(), Refusal>
    ensures { result ≡ room_in stop.now.next count }
{
    match stop.next {
        Some(_) if count > MOST_TERMS => Err(Refusal::Terms),
        _ => Ok(()),
    }
}

// 2 × term + truth, of any two numbers
pub fn condition(t: u32, truth: u32) -> u32
    ensures { result ≡ condition_on t truth }
{
    std::num::wrapping_add_u32(std::num::wrapping_add_u32(t, t), truth)
}

impl Branch {
    // The two branches of a path that stopped at a fork, true before false, while there are branches left
    pub fn split(&self, stop: &Stop, most: u32) -> Option<(Branch, Branch)>
        ensures { result ≡ split_in self.now stop.now.next stop.now.steps most }
    {
        let next = stop.next?;
        let Next::Fork(term, yes, no) = next else {
            return None;
        };
        if most <= self.branches {
            return None;
        }
        Some((
            self.with(yes, stop.steps, condition(term, u32::from(true))),
            self.with(no, stop.steps, condition(term, u32::from(false))),
        ))
    }

    fn with(&self, control: Control, steps: u32, condition: u32) -> Branch
        requires { self.now.branches + 1 < 2 ^ 32 }
        ensures { result ≡ branch_in self.now control steps condition }
    {
        Branch {
            control,
            steps: std::num::wrapping_add_u32(steps, 1),
            branches: self.branches + 1,
            conditions: self.gained(condition),
        }
    }

    // "each branch gains one condition: the term and the truth it must have"
    fn gained(&self, condition: u32) -> [u32; CONDITIONS]
        ensures { result ≡ conditions_with self.now.branches condition self.now.conditions }
    {
        let mut conditions = self.conditions;
        let at = self.branches as usize;
        if at < CONDITIONS {
            conditions[at] = condition;
        }
        conditions
    }

    // The row of a path that stopped so, written into its own part of the table; 9 where it would be the 65th
    pub fn finish(
        &self,
        code: &[u32; CODE_WORDS],
        stop: &Stop,
        memory: &Memory,
        store: &[u64; STORE_WORDS],
        table: &mut [u8],
        rows: &mut u32,
    ) -> Result<(), Refusal>
        ensures { finished (answer_of result) rows.new table.new ≡ finish_in code.now self.now.branches self.now.conditions rows.old table.old stop.now.next stop.now.control stop.now.steps store.now memory.now }
    {
        if *rows >= MOST_ROWS {
            return Err(Refusal::Rows);
        }
        let at = stop.control;
        let row = Row {
            head: head(code, stop.next, at, stop.steps, self.branches),
            conditions: &self.conditions,
            store,
            frame: at.frame,
            cells: memory.cells(),
        };
        row.finish(table, *rows);
        *rows += 1;
        Ok(())
    }
}
