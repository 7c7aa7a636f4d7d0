// Prints the verdict of the case on standard input. One byte more than the longest case has is read at most, enough to refuse a longer one.
#![tactic(auto)]

ghost use Rattle.std.specs.Prelude.{◌<◌, ◌≤◌, length, take, IfOk};
ghost use Rattle.std.specs.Io.KnownBytes.{Consumes, IsAtEnd};

use std::io;
use std::io::{Read, Write};

const MOST_INPUT: usize = casefile::LONGEST_CASE + 1;

// Fills buf until it is full or the input ends, and answers how many bytes were read. It asks for no byte more.
fn read_full<R: Read>(input: &mut R, buf: &mut [u8]) -> io::Result<usize>
    ensures within { IfOk result (λ n. n ≤ length buf.new) }
    ensures bytes { IfOk result (λ n. Consumes (R.remaining input.old) (R.remaining input.new) (take n buf.new)) }
    ensures whole { IfOk result (λ n. n < length buf.new → IsAtEnd (R.remaining input.new)) }
{
    // the library's read_exact fails at an early end, and its read_to_end needs memory
    let mut done = 0;
    while done < buf.len() {
        let n = input.read(&mut buf[done..])?;
        if n == 0 {
            return Ok(done);
        }
        done += n;
    }
    Ok(done)
}

fn main(rt: HostRuntime) -> io::Result<()> {
    let mut input = [0u8; MOST_INPUT];
    let n = read_full(&mut rt.stdin(), &mut input)?;
    let mut text = [0u8; report::TEXT_ROOM];
    let outcome = verdict_text::verdict_text(&input[..n], &mut text);
    // the text has its room, so there is always a count
    if let Ok(m) = outcome {
        rt.stdout().write_all(&text[..m])?;
    }
    Ok(())
}
