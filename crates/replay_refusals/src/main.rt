// Replays refusals.txt (oracle/README.md): calls that are refused, and their neighbours that are not, through the library's exports. Each must give document 01's
// number, and leave what it is lent as the number says: as it was, or with the Rust's answer.

#![tactic(auto)]

mod entries;

use entries::Case;
use replay::{Cut, Reader, tally};
use replay_outcomes::Outcome;
use replay_outcomes::filling::Order;
use std::fs::File;

// One case: the numbers of a call, of one to sixteen digits each, and what must come of it.
fn case(reader: &mut Reader<File>) -> Result<bool, Cut> {
    let mut numbers = [0u64; 16];
    reader.read_words_if(&mut numbers, |word| word.digits <= 16)?;
    let [
        entry,
        size,
        style,
        first,
        second,
        rows,
        result,
        values,
        one,
        other,
        place,
        value,
        count,
        number,
        beside,
        digest,
    ] = numbers;
    let order = Order {
        one,
        other,
        place,
        value,
    };
    let got = entries::call(&Case {
        entry,
        size,
        style,
        first,
        second,
        rows,
        result,
        values,
        order,
        count,
    });
    let wanted = Outcome {
        number,
        beside,
        digest,
    };
    Ok(replay_outcomes::same(wanted, got))
}

fn main(rt: HostRuntime) -> std::io::Result<()> {
    tally::replay_file(&rt, "refusals.txt", "refusals", case)
}
