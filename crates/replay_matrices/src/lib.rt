// The cases of the matrices' files (oracle/README.md), once they are read: words as the floats and orders that an entry is handed, and what an entry leaves compared
// with the words and numbers that the file has.

#![tactic(auto)]

ghost use Rattle.std.specs.Prelude.{◌≡◌, ◌*◌, ◌≤◌, length, get_or};
ghost use Rattle.refusals.specs.Largest as largest;
ghost use Rattle.algebra.specs.Flat.{tabulate};
ghost use Rattle.algebra.specs.Outcome.{map_outcome, outcome};
ghost use Rattle.replay_matrices.specs.Room.{widest, most_floats, most_in_row};
ghost use Rattle.replay_matrices.specs.Cases.{same_floats, lu_numbers, same_lu, same_outcome};

use matrices::LuRefusal;
use records::Record;
use refusals::Refusal;
use replay::same::{all_have, same_words};

// Document 01's number, and the swap count or the column that stands beside it.
#[derive(Clone, Copy, PartialEq, Eq)]
pub struct Numbers {
    pub number: u64,
    pub swaps_or_column: u64,
}

// The floats of the widest record, and of the largest matrix and row of it.
pub const WIDEST: usize = refusals::LARGEST_WIDTH;

pub const MOST_FLOATS: usize = refusals::LARGEST_N * MOST_IN_ROW;

pub const MOST_IN_ROW: usize = refusals::LARGEST_N * WIDEST;

// How many floats a matrix of n by n records has.
pub fn floats_in(n: usize, width: usize) -> usize
    requires { (n ≤ largest.n) × (width ≤ widest) }
    ensures { (result ≡ n * n * width) × (result ≤ most_floats) }
{
    n * n * width
}

// How many floats a row of n records has.
pub fn floats_in_row(n: usize, width: usize) -> usize
    requires { (n ≤ largest.n) × (width ≤ widest) }
    ensures { (result ≡ n * width) × (result ≤ most_in_row) }
{
    n * width
}

// The words as the entries of an order, as many as are lent: 0 where there is no word.
pub fn order_of(words: &[u64], order: &mut [usize])
    ensures { order.new ≡ tabulate (λ i. get_or words.now i 0) (length order.old) 0 }
{
    for (i, entry) in order.iter_mut().enumerate() {
        *entry = words.get(i).copied().unwrap_or(0) as usize;
    }
}

// Whether the words are those of the parts of a record.
pub fn same_record<R: Record>(words: &[u64], x: R) -> bool
    ensures { result ≡ same_floats words.now (R.layout.parts x) }
{
    let mut parts = [0.0; WIDEST];
    let parts = &mut parts[..R::width()];
    R::write(parts, 0, x);
    same_words(words, parts)
}

// What LU answers, as two numbers.
pub fn lu_numbers(answer: Result<usize, LuRefusal>) -> Numbers
    ensures { result ≡ lu_numbers answer }
{
    match answer {
        Ok(swaps) => Numbers {
            number: 0,
            swaps_or_column: swaps as u64,
        },
        Err(_) => Numbers {
            number: u64::from(matrices::lu_number(answer)),
            swaps_or_column: matrices::lu_column(answer) as u64,
        },
    }
}

// Whether LU answers the file's numbers and leaves the file's order and factors, or zeros where the file has a refusal.
#[tactic(auto, unfolding(crate::specs::Cases::same_lu))]
pub fn same_lu(
    wanted: Numbers,
    numbers: &[u64],
    words: &[u64],
    answer: Result<usize, LuRefusal>,
    order: &[usize],
    factors: &[f64],
) -> bool
    ensures { result ≡ same_lu wanted numbers.now words.now (lu_numbers answer) order.now factors.now }
{
    if wanted != lu_numbers(answer) {
        return false;
    }
    if wanted.number == 0 {
        same_words(numbers, order) && same_words(words, factors)
    } else {
        all_have(0, order) && all_have(0, factors)
    }
}

// Whether solve or inverse is done and leaves the file's floats.
pub fn same_solved(words: &[u64], answer: Result<(), Refusal>, left: &[f64]) -> bool
    ensures { result ≡ same_outcome words.now (map_outcome (λ _. left.now) (outcome answer)) }
{
    answer.is_ok() && same_words(words, left)
}
