// Replays the recorded answers of LU, solve, determinant and inverse, over `Dual` (lu.txt, solve.txt, determinant.txt, inverse.txt) and over `HyperDual`
// (lu-hyperdual.txt and so on).

#![tactic(auto)]

mod cases;
mod reading;

use dual::Dual;
use hyperdual::HyperDual;
use records::Record;
use replay::tally::replay_file;

// The floats of the widest record whose matrices the files have, and of the largest row and matrix of it.
const WIDEST: usize = 4;

const MOST_IN_ROW: usize = refusals::LARGEST_N * WIDEST;

const MOST_FLOATS: usize = refusals::LARGEST_N * MOST_IN_ROW;

// The files of LU, solve, determinant and inverse over one record. The rooms are one set for all of them, since each would keep its own on the stack.
fn replay<R: Record>(
    rt: &HostRuntime,
    files: [&str; 4],
    names: [&str; 4],
    words: &mut [u64],
    a: &mut [f64],
    factors: &mut [f64],
) -> std::io::Result<()> {
    replay_file(rt, files[0], names[0], |reader| {
        cases::lu::<R>(reader, words, a, factors)
    })?;
    replay_file(rt, files[1], names[1], |reader| {
        cases::solve::<R>(reader, words, factors)
    })?;
    replay_file(rt, files[2], names[2], |reader| {
        cases::determinant::<R>(reader, words, factors)
    })?;
    replay_file(rt, files[3], names[3], |reader| {
        cases::inverse::<R>(reader, words, a, factors)
    })
}

fn main(rt: HostRuntime) -> std::io::Result<()> {
    let mut words = [0u64; MOST_FLOATS];
    let mut a = [0.0f64; MOST_FLOATS];
    let mut factors = [0.0f64; MOST_FLOATS];
    replay::<Dual>(
        &rt,
        ["lu.txt", "solve.txt", "determinant.txt", "inverse.txt"],
        ["lu", "solve", "determinant", "inverse"],
        &mut words,
        &mut a,
        &mut factors,
    )?;
    replay::<HyperDual>(
        &rt,
        [
            "lu-hyperdual.txt",
            "solve-hyperdual.txt",
            "determinant-hyperdual.txt",
            "inverse-hyperdual.txt",
        ],
        [
            "hyperdual lu",
            "hyperdual solve",
            "hyperdual determinant",
            "hyperdual inverse",
        ],
        &mut words,
        &mut a,
        &mut factors,
    )
}
