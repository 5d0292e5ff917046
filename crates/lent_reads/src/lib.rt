// Reading into lent memory, for the programs that read a text whole.
#![tactic(auto)]

ghost use Rattle.std.specs.Prelude.{◌≡◌, length, OnErr};
ghost use Rattle.std.specs.Io.{ReadsAtMost};

use std::io;
use std::io::Read;

// Reads until the input ends, `buf` is full or a read fails: how many bytes stand at the start of `buf`. (std's `read_to_end` wants memory to grow
// in, and its `read_exact` says nothing of a shorter input.)
pub fn read_full<R: Read>(input: &mut R, buf: &mut [u8]) -> io::Result<usize>
    ensures ok { ReadsAtMost result buf.new }
    ensures err { OnErr result (length buf.new ≡ length buf.old) }
{
    let mut done = 0;
    while done < buf.len() {
        let n = input.read(&mut buf[done..])?;
        if n == 0 {
            return Ok(done);
        }
        done += n;
    }
    Ok(done)
}
