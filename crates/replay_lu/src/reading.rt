// What the files have of matrices, read into lent buffers. All that is asked for is read, also where a part before it is cut.
// Kept: n within the limit is what `head` answers, and is asked here alone: a type of it would be taken apart at once.
ghost use Rattle.std.specs.Prelude.{◌*◌, ◌≡◌, ◌≤◌, IfOk, length};
ghost use Rattle.refusals.specs.Largest as largest;
ghost use Rattle.replay_matrices.specs.Room.{most_floats, most_in_row};
ghost use Rattle.replay_lu.specs.Entries.{numbers_of};

use records::Record;
use replay::{Cut, Reader};
use std::fs::File;

// How many digits the word of a float has; a size, an entry of an order, a number of an answer.
const FLOAT: u32 = 16;

const NUMBER: u32 = 2;

// The entry that a file is of.
#[derive(Clone, Copy)]
pub(crate) enum Entry {
    Lu,
    Solve,
    Determinant,
    Inverse,
}

impl Entry {
    // How many numbers a case begins with: the size, and for LU the two of its answer, for the determinant the swap count.
    fn numbers(self) -> usize
        ensures value { result ≡ numbers_of self }
        ensures few { result ≤ 3 }
    {
        match self {
            Entry::Lu => 3,
            Entry::Determinant => 2,
            Entry::Solve | Entry::Inverse => 1,
        }
    }
}

// How many floats a matrix of n by n records has, and a row of it.
pub(crate) fn floats_in<R: Record>(n: usize) -> usize
    requires { n ≤ largest.n }
    ensures { result ≤ most_floats }
{
    replay_matrices::floats_in(n, R::width())
}

pub(crate) fn floats_in_row<R: Record>(n: usize) -> usize
    requires { n ≤ largest.n }
    ensures { result ≤ most_in_row }
{
    replay_matrices::floats_in_row(n, R::width())
}

// The numbers that a case begins with: the size, and with those beside it, 0 in place of each that it has not.
pub(crate) fn head(reader: &mut Reader<File>, entry: Entry) -> Result<(usize, [u64; 3]), Cut>
    ensures { IfOk result (λ head. head.0 ≤ largest.n) }
{
    let mut numbers = [0u64; 3];
    reader.read_words(NUMBER, &mut numbers[..entry.numbers()])?;
    let size = numbers[0];
    if size > refusals::LARGEST_N as u64 {
        return Err(Cut);
    }
    Ok((size as usize, numbers))
}

// Floats, by their words.
pub(crate) fn words(reader: &mut Reader<File>, words: &mut [u64]) -> Result<(), Cut> {
    reader.read_words(FLOAT, words)
}

// The entries of an order, then the words of a matrix.
pub(crate) fn order_and_words(
    reader: &mut Reader<File>,
    entries: &mut [u64],
    words: &mut [u64],
) -> Result<(), Cut> {
    let order = reader.read_words(NUMBER, entries);
    let floats = reader.read_words(FLOAT, words);
    order.and(floats)
}

// The order and the factors that solve, determinant and inverse are handed, from the entries and the words that the file has of them.
pub(crate) fn factors(
    reader: &mut Reader<File>,
    entries: &mut [u64],
    words: &mut [u64],
    order: &mut [usize],
    factors: &mut [f64],
) -> Result<(), Cut> {
    let read = order_and_words(reader, entries, words);
    replay_matrices::order_of(entries, order);
    floats::words::read(words, factors);
    read
}
