// A case of each entry over any record: read, called, compared, in lent rooms. As much of them is used as a case of n has, full of what must not stay. A case
// that has more than there is room for is one that the file does not have whole.
ghost use Rattle.std.specs.Prelude.{◌≡◌};
ghost use Rattle.algebra.specs.Outcome.{map_outcome};
ghost use Rattle.matrices.specs.Entries.{determinant_left};
ghost use Rattle.replay_matrices.specs.Cases.{same_outcome};

use crate::reading::Entry;
use crate::{MOST_IN_ROW, reading};
use records::Record;
use replay::{Cut, Reader};
use replay_matrices::Numbers;
use std::fs::File;

pub(crate) fn lu<R: Record>(
    reader: &mut Reader<File>,
    words: &mut [u64],
    a: &mut [f64],
    factors: &mut [f64],
) -> Result<bool, Cut> {
    let (n, [_, number, swaps_or_column]) = reading::head(reader, Entry::Lu)?;
    let full = reading::floats_in::<R>(n);
    let mut entries = [7u64; refusals::LARGEST_N];
    let mut order = [7usize; refusals::LARGEST_N];
    let words = words.get_mut(..full).ok_or(Cut)?;
    let a = a.get_mut(..full).ok_or(Cut)?;
    let factors = factors.get_mut(..full).ok_or(Cut)?;
    words.fill(7);
    a.fill(7.0);
    factors.fill(7.0);
    let (entries, order) = (&mut entries[..n], &mut order[..n]);
    let matrix = reading::words(reader, words);
    floats::words::read(words, a);
    let left = if number == 0 {
        reading::order_and_words(reader, entries, words)
    } else {
        Ok(())
    };
    matrix.and(left)?;
    let wanted = Numbers {
        number,
        swaps_or_column,
    };
    let answer = lu::lu::<R>(n, a, factors, order);
    Ok(replay_matrices::same_lu(wanted, entries, words, answer, order, factors))
}

pub(crate) fn solve<R: Record>(
    reader: &mut Reader<File>,
    words: &mut [u64],
    factors: &mut [f64],
) -> Result<bool, Cut> {
    let (n, _) = reading::head(reader, Entry::Solve)?;
    let full = reading::floats_in::<R>(n);
    let row = reading::floats_in_row::<R>(n);
    let mut entries = [7u64; refusals::LARGEST_N];
    let mut order = [7usize; refusals::LARGEST_N];
    let mut column = [7u64; MOST_IN_ROW];
    let mut b = [7.0f64; MOST_IN_ROW];
    let mut x = [7.0f64; MOST_IN_ROW];
    let words = words.get_mut(..full).ok_or(Cut)?;
    let factors = factors.get_mut(..full).ok_or(Cut)?;
    words.fill(7);
    factors.fill(7.0);
    let (entries, order) = (&mut entries[..n], &mut order[..n]);
    let column = column.get_mut(..row).ok_or(Cut)?;
    let b = b.get_mut(..row).ok_or(Cut)?;
    let x = x.get_mut(..row).ok_or(Cut)?;
    let given = reading::factors(reader, entries, words, order, factors);
    let right = reading::words(reader, column);
    floats::words::read(column, b);
    let solution = reading::words(reader, column);
    given.and(right).and(solution)?;
    let answer = lu::solve::<R>(n, factors, order, b, x);
    Ok(replay_matrices::same_solved(column, answer, x))
}

// Whether the determinant is a record of the file's words.
fn same_determinant<R: Record>(
    words: &[u64],
    n: usize,
    factors: &[f64],
    order: &[usize],
    swaps: usize,
) -> bool
    ensures { result ≡ same_outcome words.now (map_outcome R.layout.parts (determinant_left R.algebra R.layout n factors.now order.now swaps)) }
{
    match lu::determinant::<R>(n, factors, order, swaps) {
        Ok(x) => replay_matrices::same_record(words, x),
        Err(_) => false,
    }
}

pub(crate) fn determinant<R: Record>(
    reader: &mut Reader<File>,
    words: &mut [u64],
    factors: &mut [f64],
) -> Result<bool, Cut> {
    let (n, [_, swaps, _]) = reading::head(reader, Entry::Determinant)?;
    let full = reading::floats_in::<R>(n);
    let mut entries = [7u64; refusals::LARGEST_N];
    let mut order = [7usize; refusals::LARGEST_N];
    let mut record = [7u64; refusals::LARGEST_WIDTH];
    let words = words.get_mut(..full).ok_or(Cut)?;
    let factors = factors.get_mut(..full).ok_or(Cut)?;
    words.fill(7);
    factors.fill(7.0);
    let (entries, order) = (&mut entries[..n], &mut order[..n]);
    let record = &mut record[..R::width()];
    let given = reading::factors(reader, entries, words, order, factors);
    let wanted = reading::words(reader, record);
    given.and(wanted)?;
    Ok(same_determinant::<R>(record, n, factors, order, swaps as usize))
}

pub(crate) fn inverse<R: Record>(
    reader: &mut Reader<File>,
    words: &mut [u64],
    out: &mut [f64],
    factors: &mut [f64],
) -> Result<bool, Cut> {
    let (n, _) = reading::head(reader, Entry::Inverse)?;
    let full = reading::floats_in::<R>(n);
    let mut entries = [7u64; refusals::LARGEST_N];
    let mut order = [7usize; refusals::LARGEST_N];
    let words = words.get_mut(..full).ok_or(Cut)?;
    let factors = factors.get_mut(..full).ok_or(Cut)?;
    let out = out.get_mut(..full).ok_or(Cut)?;
    words.fill(7);
    factors.fill(7.0);
    out.fill(7.0);
    let (entries, order) = (&mut entries[..n], &mut order[..n]);
    let given = reading::factors(reader, entries, words, order, factors);
    let wanted = reading::words(reader, words);
    given.and(wanted)?;
    let answer = lu::inverse::<R>(n, factors, order, out);
    Ok(replay_matrices::same_solved(words, answer, out))
}
