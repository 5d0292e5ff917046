// Runs the vectors of every call and writes a line for each, and for a table its rows and terms. The first argument of a vector says which
// call: check, run (the plain run), explore or place; the others are what the call is given. The vectors and their lines, worked out by hand
// from document 01, are listed under tests/ (vectors.py). crates/vectors_shown shows what a call left.
#![tactic(auto)]

mod checked;
mod explored;
mod given;
mod ran;

ghost use Rattle.std.specs.Prelude.{◌<◌, IfOk};

use std::io;
use std::io::Write;
use std::rt::{Env, Files};

// The vector whose arguments begin at i; and where the next one's begin. Its first letter tells the call.
fn vector<R: Env + Files, W: Write>(rt: &R, out: &mut W, i: usize) -> io::Result<usize>
    requires { i < 65536 }
    ensures { IfOk result (λ next. i < next) }
{
    match given::letter(rt, out, i)? {
        b'c' => {
            checked::vector(rt, out, i + 1)?;
            Ok(i + 2)
        }
        b'r' => {
            ran::vector(rt, out, i + 1)?;
            Ok(i + 5)
        }
        _ => {
            explored::vector(rt, out, i + 1)?;
            Ok(i + 7)
        }
    }
}

fn main(rt: HostRuntime) -> io::Result<()> {
    let mut out = rt.stdout();
    let mut i = 1;
    // no `for`: how many arguments a vector takes shows only at its call
    while i < 65536 && given::is_given(&rt, i) {
        i = vector(&rt, &mut out, i)?;
    }
    Ok(())
}
