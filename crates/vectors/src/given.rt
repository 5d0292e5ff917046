// The program's arguments: the names of calls and of files, and numbers. Each is printed where it is read, so that a vector's line begins with what
// it was given.
ghost use Rattle.std.specs.Prelude.{◌≡◌, ◌<◌, length, OnErr};
ghost use Rattle.std.specs.Io.{ReadsAtMost};

use lent_reads::read_full;
use std::env::FillError;
use std::io::Write;
use std::rt::{Env, Files};
use std::{fs, io};

// room for an argument, or for an input list
pub const SMALL: usize = 4096;

// room for a handler's text, and more than any that is accepted
pub const LARGE: usize = 65536;

// Whether there is an argument i.
pub fn is_given<R: Env>(rt: &R, i: usize) -> bool {
    !matches!(rt.arg(i, &mut []), Err(FillError::NotPresent))
}

// Puts what a file holds at the start of buf, as much as it has room for, and answers how many bytes. Where the file cannot be opened or read, or its
// name is no text, that is the error; buf then holds what was read before it, in its own length.
fn read<R: Files>(rt: &R, path: &[u8], buf: &mut [u8]) -> io::Result<usize>
    ensures ok { ReadsAtMost result buf.new }
    ensures err { OnErr result (length buf.new ≡ length buf.old) }
{
    let Ok(path) = str::from_utf8(path) else {
        return Err(io::Error::from(io::ErrorKind::InvalidInput));
    };
    let mut file = fs::open(rt, path)?;
    read_full(&mut file, buf)
}

// Puts argument i at the start of buf, prints it, and answers how many bytes it has: none where it is missing or has no room. (An argument is bytes,
// which need be no text: `write!` can't show it.)
fn word<R: Env, W: Write>(rt: &R, out: &mut W, i: usize, buf: &mut [u8]) -> io::Result<usize>
    ensures ok { ReadsAtMost result buf.new }
    ensures err { OnErr result (length buf.new ≡ length buf.old) }
{
    let length = rt.arg(i, buf).unwrap_or(0);
    out.write_all(&buf[..length])?;
    out.write_all(b" ")?;
    Ok(length)
}

// Argument i names a file: puts what it holds at the start of buf, and answers how many bytes.
pub fn file<R: Env + Files, W: Write>(
    rt: &R,
    out: &mut W,
    i: usize,
    buf: &mut [u8],
) -> io::Result<usize>
    ensures ok { ReadsAtMost result buf.new }
    ensures err { OnErr result (length buf.new ≡ length buf.old) }
{
    let mut path = [0u8; SMALL];
    let length = word(rt, out, i, &mut path)?;
    read(rt, &path[..length], buf)
}

// A number in decimal, modulo 2^32.
fn value_of(s: &[u8]) -> u32 {
    s.iter().fold(0, |n: u32, b| {
        n.wrapping_mul(10)
            .wrapping_add(b.saturating_sub(b'0') as u32)
    })
}

// Argument i is a number.
pub fn decimal<R: Env, W: Write>(rt: &R, out: &mut W, i: usize) -> io::Result<u32> {
    let mut digits = [0u8; SMALL];
    let length = word(rt, out, i, &mut digits)?;
    Ok(value_of(&digits[..length]))
}

// Argument i names a call: its first letter.
pub fn letter<R: Env, W: Write>(rt: &R, out: &mut W, i: usize) -> io::Result<u8> {
    let mut name = [0u8; SMALL];
    let length = word(rt, out, i, &mut name)?;
    Ok(name[..length].first().copied().unwrap_or(0))
}
