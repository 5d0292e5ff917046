// Vectors of the plain run: four arguments, the file of the text, the file of the inputs, the steps, and the length of the buffer lent for
// the answer.
ghost use Rattle.std.specs.Prelude.{◌<◌};

use crate::given::{LARGE, SMALL, decimal, file};
use gil::layout::ANSWER_BYTES;
use std::io;
use std::io::Write;
use std::rt::{Env, Files};
use vectors_shown::bytes::{filled, kept};
use vectors_shown::rows::Row;

// What the buffer holds after the call; before it was filled.
fn answered<W: Write>(out: &mut W, code: u32, answer: &[u8]) -> io::Result<()> {
    if code != 0 {
        let touched = if kept(answer, 0) {
            "untouched"
        } else {
            "TOUCHED"
        };
        return writeln!(out, "= {code} {touched}");
    }
    write!(out, "= {code} {}", Row(answer))?;
    if !kept(answer, ANSWER_BYTES) {
        write!(out, ", surplus CHANGED")?;
    }
    writeln!(out)
}

// The call with the first bytes of a buffer lent.
fn call(program: &[u8], inputs: &[u8], steps: u32, length: usize, buffer: &mut [u8]) -> u32 {
    let Some(lent) = buffer.get_mut(..length) else {
        return 0;
    };
    bench::chomphurek_plain_run(program, inputs, steps, lent)
}

fn run<W: Write>(
    out: &mut W,
    program: &[u8],
    inputs: &[u8],
    steps: u32,
    length: usize,
) -> io::Result<()> {
    let mut answer = filled::<2048>();
    let code = call(program, inputs, steps, length, &mut answer);
    answered(out, code, &answer)
}

// The vector whose arguments begin at i.
pub fn vector<R: Env + Files, W: Write>(rt: &R, out: &mut W, i: usize) -> io::Result<()>
    requires { i < 131072 }
{
    let mut program = [0u8; LARGE];
    let n = file(rt, out, i, &mut program)?;
    let mut inputs = [0u8; SMALL];
    let m = file(rt, out, i + 1, &mut inputs)?;
    let steps = decimal(rt, out, i + 2)?;
    let length = decimal(rt, out, i + 3)?;
    run(out, &program[..n], &inputs[..m], steps, length as usize)
}
