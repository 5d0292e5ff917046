// Vectors of check: one argument, the file of the text.
ghost use Rattle.std.specs.Prelude.{◌<◌};

use crate::given::{LARGE, file};
use std::io;
use std::io::Write;
use std::rt::{Env, Files};

// The vector whose arguments begin at i.
pub fn vector<R: Env + Files, W: Write>(rt: &R, out: &mut W, i: usize) -> io::Result<()>
    requires { i < 131072 }
{
    let mut program = [0u8; LARGE];
    let n = file(rt, out, i, &mut program)?;
    let code = bench::chomphurek_check(&program[..n]);
    writeln!(out, "{code}")
}
