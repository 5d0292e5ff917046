// "The program reads standard input, explores with 1,024 steps and 16 branches, and prints CSV." Exploring and printing are
// crates/print_text's; here is only what no contract can speak of: reading and writing. A text of 16,385 bytes is refused whatever comes
// after them, so no more is read.
#![tactic(auto)]

use gil::limits::MOST_BYTES;
use lent_reads::read_full;
use print_text as printed;
use std::io;

const ROOM: usize = MOST_BYTES + 1;

fn print(rt: &impl Print, text: &[u8]) -> io::Result<()> {
    let mut out = [0u8; printed::PRINTED_BYTES];
    let end = printed::print_table(text, &mut out);
    rt.write_all(&out[..end])
}

fn main(rt: HostRuntime) -> io::Result<()> {
    let mut text = [0u8; ROOM];
    let n = read_full(&mut rt.reader(), &mut text)?;
    print(&rt, &text[..n])
}
