// The bench program: reads standard input and prints what report makes of it. What follows the longest input is not
// read.

#![tactic(auto)]

ghost use Rattle.std.specs.Prelude.{◌≤◌, length};

use std::io;
use std::io::{Read, Write};

/// Reads until `input` is full or nothing is left, and answers how many bytes came. A read that fails is the end too.
fn fill(reader: &mut impl Read, input: &mut [u8]) -> usize
    ensures { result ≤ length input.old }
{
    let mut filled = 0;
    while filled < input.len() {
        match reader.read(&mut input[filled..]) {
            Ok(0) | Err(_) => break,
            Ok(more) => filled += more,
        }
    }
    filled
}

fn main(rt: HostRuntime) -> io::Result<()> {
    let mut input = [0; report::INPUT];
    let filled = fill(&mut rt.stdin(), &mut input);
    let mut text = [0; report::ROOM];
    let length = report::text(&input[..filled], &mut text);
    rt.stdout().write_all(&text[..length])
}
