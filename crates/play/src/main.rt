// Plays one session: its bytes from standard input, its text to standard output. A read or a write that fails ends the
// program with its error.
#![tactic(auto)]

ghost use Rattle.std.specs.Prelude.{◌≡◌, ◌≤◌, IfOk, length};

use sessions::play::play;
use std::io;
use std::io::{ErrorKind, Read, Write};

// Reads until the buffer is full or the input ends; the answer is how many bytes stand at its start.
fn read_full<I: Read>(input: &mut I, bytes: &mut [u8]) -> io::Result<usize>
    ensures { IfOk result (λ n. n ≤ length bytes.new) }
{
    let mut size = 0;
    for _ in 0..u64::MAX {
        match input.read(&mut bytes[size..]) {
            Ok(0) => return Ok(size),
            Ok(n) => size += n,
            Err(e) if e.kind() == ErrorKind::Interrupted => {}
            Err(e) => return Err(e),
        }
    }
    Ok(size)
}

// Bytes of the longest text that a session can have (`text_short`), and one more than a session may have, so that too long a one is seen.
const TEXT: usize = 204032;

const INPUT: usize = 16385;

fn room() -> [u8; TEXT]
    ensures { 204032 ≡ length result }
{
    [0; TEXT]
}

fn main(rt: HostRuntime) -> io::Result<()> {
    let (mut stdin, mut stdout) = (rt.stdin(), rt.stdout());
    let mut input = [0; INPUT];
    let mut output = room();
    let n = read_full(&mut stdin, &mut input)?;
    // What is left is read too, so that whoever writes to us is not cut off
    io::copy(&mut stdin, &mut io::sink())?;
    let size = play(&input[..n], &mut output);
    stdout.write_all(&output[..size])
}
