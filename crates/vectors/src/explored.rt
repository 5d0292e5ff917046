// Vectors of explore and place: six arguments, the file of the text, the file of the inputs (empty where explore is called), steps, branches,
// and the lengths of the buffers lent for table and pool.
ghost use Rattle.std.specs.Prelude.{◌<◌};

use crate::given::{LARGE, SMALL, decimal, file};
use gil::layout::{POOL_BYTES, TABLE_BYTES};
use gil::numbers::FIRST_ROW;
use gil::refusals::Refusal;
use std::io;
use std::io::Write;
use std::rt::{Env, Files};
use vectors_shown::bytes::{filled, kept, zero};
use vectors_shown::tables::Table;

// The memory after a refusal: all zero in the needed part after 9 and 10, and else untouched.
fn refused<W: Write>(out: &mut W, code: u32, lent: Table) -> io::Result<()> {
    if code < Refusal::Rows as u32 {
        if !kept(lent.table, 0) {
            write!(out, ", table TOUCHED")?;
        }
        if !kept(lent.pool, 0) {
            write!(out, ", pool TOUCHED")?;
        }
        return Ok(());
    }
    if !zero(lent.table, 0, TABLE_BYTES) {
        write!(out, ", table NOT ZERO")?;
    }
    if !zero(lent.pool, 0, POOL_BYTES) {
        write!(out, ", pool NOT ZERO")?;
    }
    Ok(())
}

fn surplus<W: Write>(out: &mut W, lent: Table) -> io::Result<()> {
    if !kept(lent.table, TABLE_BYTES) {
        write!(out, ", surplus of the table CHANGED")?;
    }
    if !kept(lent.pool, POOL_BYTES) {
        write!(out, ", surplus of the pool CHANGED")?;
    }
    writeln!(out)
}

// What the buffers hold after the call; before it they were filled.
fn answered<W: Write>(out: &mut W, code: u32, lent: Table) -> io::Result<()> {
    write!(out, "= {code}")?;
    // numbers: they are what C gets
    if code != 0 && code < FIRST_ROW {
        refused(out, code, lent)?;
        surplus(out, lent)
    } else {
        lent.put_counts(out)?;
        surplus(out, lent)?;
        lent.put_lines(out)
    }
}

// What the call is given, apart from its buffers.
#[derive(Drop)]
struct Asked<'a> {
    program: &'a [u8],
    inputs: &'a [u8],
    steps: u32,
    branches: u32,
}

impl Asked<'_> {
    fn call(&self, table: &mut [u8], pool: &mut [u8]) -> u32 {
        if self.inputs.is_empty() {
            return bench::chomphurek_explore(self.program, self.steps, self.branches, table, pool);
        }
        bench::chomphurek_place(
            self.program,
            self.inputs,
            self.steps,
            self.branches,
            table,
            pool,
        )
    }
}

// The first bytes of each buffer are lent.
#[derive(Drop)]
struct Lent {
    table: usize,
    pool: usize,
}

fn lend(asked: &Asked, lent: Lent, table: &mut [u8], pool: &mut [u8]) -> u32 {
    let Some(table) = table.get_mut(..lent.table) else {
        return 0;
    };
    let Some(pool) = pool.get_mut(..lent.pool) else {
        return 0;
    };
    asked.call(table, pool)
}

fn run<W: Write>(out: &mut W, asked: &Asked, lent: Lent) -> io::Result<()> {
    let mut table = filled::<65664>();
    let mut pool = filled::<41024>();
    let code = lend(asked, lent, &mut table, &mut pool);
    let left = Table {
        table: &table,
        pool: &pool,
    };
    answered(out, code, left)
}

// The vector whose arguments begin at i.
pub fn vector<R: Env + Files, W: Write>(rt: &R, out: &mut W, i: usize) -> io::Result<()>
    requires { i < 131072 }
{
    let mut program = [0u8; LARGE];
    let n = file(rt, out, i, &mut program)?;
    let mut inputs = [0u8; SMALL];
    let m = file(rt, out, i + 1, &mut inputs)?;
    let steps = decimal(rt, out, i + 2)?;
    let branches = decimal(rt, out, i + 3)?;
    let lent = Lent {
        table: decimal(rt, out, i + 4)? as usize,
        pool: decimal(rt, out, i + 5)? as usize,
    };
    let asked = Asked {
        program: &program[..n],
        inputs: &inputs[..m],
        steps,
        branches,
    };
    run(out, &asked, lent)
}
