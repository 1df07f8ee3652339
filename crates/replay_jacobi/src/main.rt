// Replays the recorded answers of Jacobi over `Dual`: jacobi.txt. A case is run as the file has it and again with (NaN, 42) below the diagonal; both
// runs are to give the file's answer.

#![tactic(auto)]

ghost use Rattle.std.specs.Prelude.{◌≡◌, ◌≤◌, ◌&&◌, IfOk};
ghost use Rattle.refusals.specs.Largest as largest;
ghost use Rattle.algebra.specs.Outcome.{outcome};
ghost use Rattle.dual.specs.Rules.{dual_algebra, dual_layout};
ghost use Rattle.jacobi.specs.Entry.{jacobi_answered, jacobi_left};
ghost use Rattle.replay_jacobi.specs.Runs.{spoiled_at, spoiled_of, same_ran};

use refusals::Refusal;
use replay::same::same_words;
use replay::{Cut, Reader, tally};
use std::fs::File;

const NAN: u64 = 0x7ff8_0000_0000_0000;

// The floats of the largest row, and of the largest matrix: of records of two floats, as all cases here have.
const MOST_IN_ROW: usize = refusals::LARGEST_N * 2;

const MOST_FLOATS: usize = refusals::LARGEST_N * MOST_IN_ROW;

// What a case begins with. Its numbers of rotations and whether the run settled are passed over: the port does not report them.
#[derive(Clone, Copy)]
struct Head {
    size: usize,
    limit: usize,
    sweeps: u64,
}

fn read_head(reader: &mut Reader<File>) -> Result<Head, Cut>
    ensures { IfOk result (λ head. head.size ≤ largest.n) }
{
    let mut size = [0u64; 1];
    let mut counts = [0u64; 2];
    let mut rotations = [0u64; 1];
    let mut settled = [0u64; 1];
    let first = reader.read_words(2, &mut size);
    let second = reader.read_words(4, &mut counts);
    let third = reader.read_words(8, &mut rotations);
    let fourth = reader.read_words(2, &mut settled);
    first.and(second).and(third).and(fourth)?;
    if size[0] > refusals::LARGEST_N as u64 {
        return Err(Cut);
    }
    Ok(Head {
        size: size[0] as usize,
        limit: counts[0] as usize,
        sweeps: counts[1],
    })
}

// Float number k of a matrix of n by n records of two, which is x: of (NaN, 42) below the diagonal.
#[tactic(auto, unfolding(crate::specs::Runs::spoiled_at))]
fn spoiled(n: usize, k: usize, x: f64) -> f64
    ensures { result ≡ spoiled_at n k x }
{
    if n == 0 {
        return x;
    }
    if k / 2 / n <= k / 2 % n {
        return x;
    }
    if k % 2 == 0 {
        return real::float_of_word(NAN);
    }
    42.0
}

// Puts (NaN, 42) below the diagonal.
fn spoil(n: usize, a: &mut [f64])
    ensures { a.new ≡ spoiled_of n a.old }
{
    for (k, x) in a.iter_mut().enumerate() {
        *x = spoiled(n, k, *x);
    }
}

// What the file has of a case.
#[derive(Clone, Copy)]
struct Recorded<'a> {
    sweeps: u64,
    values: &'a [u64],
    vectors: &'a [u64],
}

// What a run answers and leaves.
#[derive(Clone, Copy)]
struct Ran<'a> {
    answer: Result<usize, Refusal>,
    values: &'a [f64],
    vectors: &'a [f64],
}

// Runs a matrix of n by n, in lent buffers.
fn run<'a>(
    n: usize,
    a: &[f64],
    limit: usize,
    values: &'a mut [f64],
    vectors: &'a mut [f64],
) -> Ran<'a>
    ensures { jacobi_answered (outcome result.answer) result.values.now result.vectors.now ≡ jacobi_left dual_algebra dual_layout n a.now limit values.old vectors.old }
{
    let answer = jacobi::jacobi_eigenvalue(n, a, limit, values, vectors);
    Ran {
        answer,
        values,
        vectors,
    }
}

// Whether a run gives the file's sweeps, values and vectors.
fn same_run(wanted: Recorded, run: Ran) -> bool
    ensures { result ≡ same_ran wanted.entry run.entry }
{
    let Ok(sweeps) = run.answer else {
        return false;
    };
    wanted.sweeps == sweeps as u64
        && same_words(wanted.values, run.values)
        && same_words(wanted.vectors, run.vectors)
}

// Whether both runs do.
fn same_runs(wanted: Recorded, first: Ran, again: Ran) -> bool
    ensures { result ≡ (same_ran wanted.entry first.entry && same_ran wanted.entry again.entry) }
{
    same_run(wanted, first) && same_run(wanted, again)
}

// One case, in buffers full of what must not stay.
fn case(reader: &mut Reader<File>) -> Result<bool, Cut> {
    let head = read_head(reader)?;
    let n = head.size;
    let row = n * 2;
    let full = n * row;
    let mut words = [7u64; MOST_FLOATS];
    let mut a = [7.0f64; MOST_FLOATS];
    let mut values = [7u64; MOST_IN_ROW];
    let mut first_values = [7.0f64; MOST_IN_ROW];
    let mut first_vectors = [7.0f64; MOST_FLOATS];
    let mut values_again = [5.0f64; MOST_IN_ROW];
    let mut vectors_again = [5.0f64; MOST_FLOATS];
    let words = &mut words[..full];
    let a = &mut a[..full];
    let values = &mut values[..row];
    let matrix = reader.read_words(16, words);
    floats::words::read(words, a);
    let eigenvalues = reader.read_words(16, values);
    let eigenvectors = reader.read_words(16, words);
    matrix.and(eigenvalues).and(eigenvectors)?;
    let first_values = &mut first_values[..row];
    let first = run(n, a, head.limit, first_values, &mut first_vectors[..full]);
    spoil(n, a);
    let values_again = &mut values_again[..row];
    let again = run(n, a, head.limit, values_again, &mut vectors_again[..full]);
    let wanted = Recorded {
        sweeps: head.sweeps,
        values,
        vectors: words,
    };
    Ok(same_runs(wanted, first, again))
}

fn main(rt: HostRuntime) -> std::io::Result<()> {
    tally::replay_file(&rt, "jacobi.txt", "jacobi", case)
}
