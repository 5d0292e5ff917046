// A row of a table, or the plain run's answer, as one part of a line.
use crate::bytes::{rest, zero};
use crate::values::{Truth, Value};
use gil::layout;
use gil::layout::{CELLS_AT, CONDITIONS_AT, ROW_BYTES, VARIABLES_AT};
use gil::limits::{MOST_BRANCHES, MOST_CELLS, MOST_VARIABLES};
use gil::outcomes::{Outcome, Reason};
use lent_words::word_at;
use std::fmt;

// The bytes of a condition, a variable and a cell.
const CONDITION_BYTES: usize = 8;

const VARIABLE_BYTES: usize = 8;

const CELL_BYTES: usize = 16;

// A condition, by the bytes from it on: its term, and the truth it must have.
#[derive(Clone, Copy)]
struct Condition<'a>(&'a [u8]);

impl fmt::Display for Condition<'_> {
    fn fmt<W: fmt::Write>(&self, f: &mut fmt::Formatter<W>) -> fmt::Result {
        let term = word_at(self.0, 0);
        let truth = Truth(word_at(self.0, 4));
        write!(f, "{term}={truth}")
    }
}

// A cell, by the bytes from it on: its location and property, and its value.
#[derive(Clone, Copy)]
struct Cell<'a>(&'a [u8]);

impl fmt::Display for Cell<'_> {
    fn fmt<W: fmt::Write>(&self, f: &mut fmt::Formatter<W>) -> fmt::Result {
        let location = word_at(self.0, 0);
        let property = word_at(self.0, 4);
        let value = Value {
            tag: word_at(self.0, 8),
            word: word_at(self.0, 12),
        };
        write!(f, "${location}.{property}={value}")
    }
}

// How many of something there are, and the first of them, `most` at most, each of `size` bytes; also those that the bytes end before.
fn list<'a, W: fmt::Write, D: fmt::Display + Drop, F: Fn(&'a [u8]) -> D>(
    f: &mut fmt::Formatter<W>,
    name: &str,
    count: u32,
    most: usize,
    bytes: &'a [u8],
    size: usize,
    shown: F,
) -> fmt::Result
    requires { F.IsAlwaysCallable shown }
{
    write!(f, ", {name} {count}")?;
    if count > 0 {
        write!(f, ":")?;
    }
    let mut bytes = bytes;
    for _ in 0..most.min(count as usize) {
        write!(f, " {}", shown(bytes))?;
        bytes = rest(bytes, size);
    }
    Ok(())
}

// The number of an error, or of a reason, stands behind a tag of 0.
fn no_tag<W: fmt::Write>(f: &mut fmt::Formatter<W>, tag: u32) -> fmt::Result {
    if tag != 0 {
        write!(f, "tag:{tag}")?;
    }
    Ok(())
}

fn reason<W: fmt::Write>(f: &mut fmt::Formatter<W>, w: u32) -> fmt::Result {
    match Reason::try_from(w) {
        Ok(Reason::Steps) => write!(f, "cut for steps"),
        Ok(Reason::Branches) => write!(f, "cut for branches"),
        Err(_) => write!(f, "cut for reason:{w}"),
    }
}

// A row, by the bytes from it on: how it ended, its position as procedure and command, steps, inputs read, conditions as terms with their truth,
// variables, cells.
#[derive(Clone, Copy)]
pub struct Row<'a>(pub &'a [u8]);

impl<'a> Row<'a> {
    // Word k of the row.
    pub fn word(&self, k: u32) -> u32 {
        word_at(self.0, 4 * (k as usize))
    }

    // How the path ended.
    fn ending<W: fmt::Write>(&self, f: &mut fmt::Formatter<W>) -> fmt::Result {
        let tag = self.word(layout::TAG_WORD);
        let word = self.word(layout::VALUE_WORD);
        let value = Value { tag, word };
        match Outcome::try_from(self.word(layout::OUTCOME_WORD)) {
            Ok(Outcome::Returned) => write!(f, "returned {value}"),
            Ok(Outcome::Failed) => write!(f, "failed {value}"),
            Ok(Outcome::Vanished) => write!(f, "vanished {value}"),
            Ok(Outcome::Error) => {
                no_tag(f, tag)?;
                write!(f, "error {word}")
            }
            Ok(Outcome::Cut) => {
                no_tag(f, tag)?;
                reason(f, word)
            }
            Err(code) => write!(f, "outcome:{}", code.0),
        }
    }

    // Where it ended, steps and inputs read.
    fn counters<W: fmt::Write>(&self, f: &mut fmt::Formatter<W>) -> fmt::Result {
        let procedure = self.word(layout::PROCEDURE_WORD);
        let command = self.word(layout::COMMAND_WORD);
        let steps = self.word(layout::STEPS_WORD);
        let inputs = self.word(layout::INPUTS_WORD);
        write!(
            f,
            " at {procedure}.{command}, steps {steps}, inputs {inputs}"
        )
    }

    // Conditions, variables and cells.
    fn lists<W: fmt::Write>(&self, f: &mut fmt::Formatter<W>) -> fmt::Result {
        let conditions = rest(self.0, CONDITIONS_AT);
        let count = self.word(layout::CONDITIONS_WORD);
        list(
            f,
            "conditions",
            count,
            MOST_BRANCHES as usize,
            conditions,
            CONDITION_BYTES,
            Condition,
        )?;
        let variables = rest(self.0, VARIABLES_AT);
        let count = self.word(layout::VARIABLES_WORD);
        list(
            f,
            "variables",
            count,
            MOST_VARIABLES,
            variables,
            VARIABLE_BYTES,
            |b| Value {
                tag: word_at(b, 0),
                word: word_at(b, 4),
            },
        )?;
        let cells = rest(self.0, CELLS_AT);
        let count = self.word(layout::CELLS_WORD);
        list(f, "cells", count, MOST_CELLS, cells, CELL_BYTES, Cell)
    }

    // Whether every word of the row that holds nothing is zero.
    pub fn rest_zero(&self) -> bool {
        let b = self.0;
        let conditions = self.word(layout::CONDITIONS_WORD).min(MOST_BRANCHES) as usize;
        let variables = (self.word(layout::VARIABLES_WORD) as usize).min(MOST_VARIABLES);
        let cells = (self.word(layout::CELLS_WORD) as usize).min(MOST_CELLS);
        zero(b, 4 * (layout::CELLS_WORD as usize + 1), CONDITIONS_AT)
            && zero(
                b,
                CONDITIONS_AT + CONDITION_BYTES * conditions,
                VARIABLES_AT,
            )
            && zero(b, VARIABLES_AT + VARIABLE_BYTES * variables, CELLS_AT)
            && zero(b, CELLS_AT + CELL_BYTES * cells, ROW_BYTES)
    }
}

impl fmt::Display for Row<'_> {
    fn fmt<W: fmt::Write>(&self, f: &mut fmt::Formatter<W>) -> fmt::Result {
        self.ending(f)?;
        self.counters(f)?;
        self.lists(f)?;
        if !self.rest_zero() {
            write!(f, ", NOT ZERO where it holds nothing")?;
        }
        Ok(())
    }
}
