// LU column by column, and the determinant, over any record.
// Inner: for `lu`, which has the entries. Its functions have a `requires`, which that crate shows.
// Kept: n stands beside a, and `Square` in the contracts: a is lent to be written, to `matrices` too, so a type over `&mut [f64]` would be made anew at each call.

#![tactic(auto)]

ghost use Rattle.std.specs.Prelude.{◌≡◌, ◌+◌, ◌<◌, ◌≤◌, length};
ghost use Rattle.algebra.specs.Flat.{decode};
ghost use Rattle.algebra.specs.Outcome.{outcome};
ghost use Rattle.matrices.specs.Matrix.{Square, RowPlace, cell};
ghost use Rattle.matrices.specs.Lu.{going, subtract_multiple, subtract_row, reduce_row, reduce, column, count_up, lu_of};
ghost use Rattle.matrices.specs.RunAfter.{run_after, swaps_of};
ghost use Rattle.matrices.specs.Determinant.{signed};
ghost use Rattle.matrices.specs.Entries.{determinant_left};

use matrices::NoPivot;
use orders::Marks;
use records::Record;
use refusals::Refusal;

// Record `to` less x times record `from`.
#[inline]
fn subtract_record<R: Record>(a: &mut [f64], to: usize, from: usize, x: R)
    requires to_held { to < length (decode R.layout a.old) }
    requires from_held { from < length (decode R.layout a.old) }
    ensures { decode R.layout a.new ≡ subtract_multiple R.algebra to from x (decode R.layout a.old) }
{
    let u = R::read(a, to);
    let v = R::read(a, from);
    R::write(a, to, u.sub(x.mul(v)));
}

// The rest of row j, whose multiplier is x.
fn subtract_row<R: Record>(n: usize, a: &mut [f64], i: usize, j: usize, x: R)
    requires row_place { RowPlace R.layout.width n i a.old }
    requires row_place_2 { RowPlace R.layout.width n j a.old }
    requires i_value { cell R.algebra n (decode R.layout a.old) j i ≡ x }
    ensures { decode R.layout a.new ≡ subtract_row R.algebra n i j (decode R.layout a.old) }
{
    let to = j * n;
    let from = i * n;
    // Kept: here and over the rows below, two rows of one slice are read while one is written, record by record, so that no iterator is plainer than the range.
    for k in i + 1..n {
        subtract_record(a, to + k, from + k, x);
    }
}

// The multiplier of row j, then the rest of the row.
fn reduce_row<R: Record>(n: usize, a: &mut [f64], i: usize, j: usize)
    requires row_place { RowPlace R.layout.width n i a.old }
    requires row_place_2 { RowPlace R.layout.width n j a.old }
    ensures { decode R.layout a.new ≡ reduce_row R.algebra n i j (decode R.layout a.old) }
{
    let at = j * n + i;
    let x = R::read(a, at).div(R::read(a, i * n + i));
    R::write(a, at, x);
    subtract_row(n, a, i, j, x);
}

// Every row below i.
fn reduce_rows<R: Record>(n: usize, a: &mut [f64], i: usize)
    requires square { Square R.layout.width n a.old }
    requires i_lt_n { i < n }
    ensures { decode R.layout a.new ≡ reduce R.algebra n i (decode R.layout a.old) }
{
    for j in i + 1..n {
        reduce_row::<R>(n, a, i, j);
    }
}

// Column i: the pivot, the exchange, the rows below.
// Kept: here and in reduce_rows, i and the order's length are those of one column of one run: a type of them would be made anew at each call.
fn run_column<R: Record>(
    n: usize,
    a: &mut [f64],
    order: &mut [usize],
    i: usize,
    swaps: usize,
) -> Result<usize, NoPivot>
    requires square { Square R.layout.width n a.old }
    requires order_len { length order.old ≡ n }
    requires i_lt_n { i < n }
    requires swaps_le_i { swaps ≤ i }
    ensures result_bound { swaps_of result ≤ i + 1 }
    ensures swaps_value { column R.algebra n i (going (decode R.layout a.old) order.old swaps) ≡ run_after result (decode R.layout a.new) order.new }
{
    let swaps = matrices::rows::bring_pivot(R::width(), n, a, order, i, swaps)?;
    reduce_rows::<R>(n, a, i);
    Ok(swaps)
}

// Every column in turn, from the matrix in a and the order 0, 1, .., n - 1.
pub fn run_columns<R: Record>(
    n: usize,
    a: &mut [f64],
    order: &mut [usize],
) -> Result<usize, NoPivot>
    requires square { Square R.layout.width n a.old }
    requires order_value { order.old ≡ count_up n }
    ensures { lu_of R.algebra n (decode R.layout a.old) ≡ run_after result (decode R.layout a.new) order.new }
{
    let mut swaps = 0;
    for i in 0..n {
        swaps = run_column::<R>(n, a, order, i, swaps)?;
    }
    Ok(swaps)
}

// Negated where the count is odd.
fn signed<R: Record>(x: R, swaps: usize) -> R
    ensures { result ≡ signed R.algebra swaps x }
{
    if swaps % 2 == 1 { x.neg() } else { x }
}

// The Product of the diagonal with its sign, once the lengths are right. The order is tested in the same loop, where the tests cost next to nothing. Refused: 7, 8.
pub fn determinant_of<R: Record>(
    n: usize,
    a: &[f64],
    order: &[usize],
    swaps: usize,
) -> Result<R, Refusal>
    requires square { Square R.layout.width n a.now }
    requires order_len { length order.now ≡ n }
    ensures { outcome result ≡ determinant_left R.algebra R.layout n a.now order.now swaps }
{
    let mut marks = Marks::none();
    let mut x = R::one();
    for (i, &k) in order.iter().enumerate() {
        if k >= n {
            return Err(Refusal::NotAnOrder);
        }
        marks.mark(k);
        x = x.mul(R::read(a, i * n + i));
    }
    matrices::refusal::walked(n, marks, swaps)?;
    Ok(signed(x, swaps))
}
