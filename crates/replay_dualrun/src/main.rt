// Replays recorded texts of dualrun: the runner's output is to be the file's, byte for byte.

#![tactic(auto)]

use replay::{Cut, Reader, tally};
use std::fs::File;

// The most bytes of an input, and of an output.
const MOST_BYTES: usize = 65536;

// One case: the lengths of the input and the output, the input, the output. It is read to its end before it is told whether it is whole.
fn case(reader: &mut Reader<File>) -> Result<bool, Cut> {
    let mut lengths = [0u64; 2];
    let mut input = [0u8; MOST_BYTES];
    let mut output = [0u8; MOST_BYTES];
    let mut out = [0u8; MOST_BYTES];
    let read = reader.read_words(8, &mut lengths);
    let text = reader.read_text(lengths[0], &mut input);
    let wanted = reader.read_text(lengths[1], &mut output);
    read?;
    let written = dualrun_text::run(text?, &mut out);
    Ok(wanted? == &out[..written])
}

fn main(rt: HostRuntime) -> std::io::Result<()> {
    tally::replay_file(&rt, "dualrun.txt", "dualrun", case)?;
    tally::replay_file(&rt, "damaged.txt", "damaged", case)
}
