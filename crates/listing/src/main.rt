// The listing program: reads one plan file on standard input, and prints its rows in decimal, or why there are none. One byte more
// than the longest file has is read, so that a file that is too long is told from others.
#![tactic(auto)]

ghost use Rattle.std.specs.Prelude.{◌≤◌, length};

use std::io::{self, Read, Write};

fn main(rt: HostRuntime) -> io::Result<()> {
    let mut input = rt.stdin();
    let mut out = rt.stdout();
    let mut file = [0u8; trailer::LONGEST_FILE + 1];
    let size = fill(&mut input, &mut file);
    let mut text = [0u8; lines::LONGEST_LISTING];
    let end = lines::list(&file[..size], &mut text);
    out.write_all(&text[..end])
}

// Reads until the buffer is full, the input ends or a read fails, and tells how many bytes stand at its front.
// A loop by hand: `read_to_end` needs a heap, and the other methods tell no count, or try again where a read is interrupted.
fn fill<R: Read>(input: &mut R, buffer: &mut [u8]) -> usize
    ensures { result ≤ length buffer.new }
{
    let mut size = 0;
    while size < buffer.len() {
        match input.read(&mut buffer[size..]) {
            Ok(0) | Err(_) => break,
            Ok(count) => size += count,
        }
    }
    size
}
