// Replays the recorded roots: each line is a word and the word of its root.

#![tactic(auto)]

ghost use Rattle.std.specs.Prelude.{◌≡◌, eqb};
ghost use Rattle.std.specs.Float.{binary64};
ghost use Rattle.std.specs.Float.Ieee.{to_bits};

use replay::{Cut, Reader, tally};
use std::fs::File;

// Whether the word is that of the root.
fn same_root(word: u64, root: f64) -> bool
    ensures { result ≡ eqb word (to_bits binary64 root) }
{
    word == real::word_of_float(root)
}

// One line.
fn case(reader: &mut Reader<File>) -> Result<bool, Cut> {
    let mut words = [0u64; 2];
    reader.read_words(16, &mut words)?;
    let root = real::sqrt(real::float_of_word(words[0]));
    Ok(same_root(words[1], root))
}

fn main(rt: HostRuntime) -> std::io::Result<()> {
    tally::replay_file(&rt, "root.txt", "root", case)
}
