// Replays recorded Matrix Market cases (oracle/README.md): texts through the reader (read.txt), matrices through the writer (write.txt). All of a case is read before
// it is told whether it is whole.

#![tactic(auto)]

mod compare;
mod over;
mod reading;
mod writing;

ghost use Rattle.std.specs.Prelude.{◌≤◌, length, IfOk};

use replay::{Cut, Reader, tally};
use std::fs::File;

// How many digits the word of a float has.
const WORD_DIGITS: u32 = 16;

// The most floats that a case lends: some more than the widest record of the largest matrix has.
const MOST_FLOATS: usize = 4200;

// The numbers that a case begins with.
fn read_head(reader: &mut Reader<File>) -> Result<[u64; 6], Cut> {
    let mut head = [0u64; 6];
    reader.read_words(8, &mut head)?;
    Ok(head)
}

// The text of a case, so long, without the newline that ends it.
fn read_text<'a>(
    reader: &mut Reader<File>,
    count: u64,
    bytes: &'a mut [u8],
) -> Result<&'a [u8], Cut>
    ensures { IfOk result (λ text. length text.now ≤ length bytes.old) }
{
    let mut last = [0u8; 1];
    let text = reader.read_text(count, bytes);
    reader.read_text(1, &mut last)?;
    if last == [b'\n'] { text } else { Err(Cut) }
}

fn main(rt: HostRuntime) -> std::io::Result<()> {
    tally::replay_file(&rt, "read.txt", "read", reading::case)?;
    tally::replay_file(&rt, "write.txt", "write", writing::case)
}
