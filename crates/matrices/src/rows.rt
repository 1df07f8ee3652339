// The rows of a matrix in flat floats: the choice of a pivot, by real parts alone, and its row brought up.
// Kept: the sizes stand beside the floats, and `Square` in the contracts: floats are lent to be written by the crates above too, so a type over them would be made anew at each call.
ghost use Rattle.std.specs.Prelude.{◌≡◌, ◌+◌, ◌*◌, ◌<◌, ◌≤◌, length};
ghost use Rattle.real.specs.Operations as float;
ghost use Rattle.algebra.specs.Algebra.{reals};
ghost use Rattle.algebra.specs.Flat.{real_parts};
ghost use Rattle.matrices.specs.Matrix.{Square, exchange_rows};
ghost use Rattle.matrices.specs.Lu.{better, pivot_of, bring_pivot_flat};
ghost use Rattle.matrices.specs.RunAfter.{run_after, swaps_of};

use super::{NoPivot, Pivot, order};

// Row k with the real part x looked at.
fn better_row(x: f64, k: usize, b: Pivot) -> Pivot
    ensures { result ≡ better x k b }
{
    let magnitude = real::abs(x);
    if b.magnitude < magnitude {
        Pivot { magnitude, row: k }
    } else {
        b
    }
}

// The first row from i on with the greatest real part in column i, by magnitude; magnitude 0 where none exceeds 0.
// Kept: a magnitude of 0 where there is none, as pivot_of, which this function is equal to, has it.
fn find_pivot(w: usize, n: usize, a: &[f64], i: usize) -> Pivot
    requires square { Square w n a.now }
    requires i_lt_n { i < n }
    ensures { result ≡ pivot_of reals n (real_parts w a.now) i }
{
    let row = n * w;
    let column = i * w;
    let mut b = Pivot {
        magnitude: 0.0,
        row: i,
    };
    // Kept: the range of rows is plainer than `(i..n).zip(a[i * row + column..].iter().step_by(row))`, which says the same place.
    for k in i..n {
        b = better_row(a[k * row + column], k, b);
    }
    b
}

// Row p exchanged with a later one, q, at k floats a row.
fn exchange_rows(k: usize, a: &mut [f64], p: usize, q: usize)
    requires p_lt_q { p < q }
    requires whole { q * k + k ≤ length a.old }
    ensures { a.new ≡ exchange_rows float.zero k p q a.old }
{
    let (above, below) = a.split_at_mut(q * k);
    above[p * k..p * k + k].swap_with_slice(&mut below[..k]);
}

// Column i: its pivot's row exchanged with row i, whole and in the order, if they differ; nothing where no pivot exceeds zero.
// Kept: here and in find_pivot, i and the order's length are those of one column of one run: a type of them would be made anew at each call.
pub fn bring_pivot(
    w: usize,
    n: usize,
    a: &mut [f64],
    order: &mut [usize],
    i: usize,
    swaps: usize,
) -> Result<usize, NoPivot>
    requires square { Square w n a.old }
    requires order_len { length order.old ≡ n }
    requires i_lt_n { i < n }
    requires swaps_le_i { swaps ≤ i }
    ensures result_bound { swaps_of result ≤ i + 1 }
    ensures order_after { run_after result a.new order.new ≡ bring_pivot_flat w n i a.old order.old swaps }
{
    let pivot = find_pivot(w, n, a, i);
    if pivot.magnitude == 0.0 {
        return Err(NoPivot { column: i });
    }
    if pivot.row == i {
        return Ok(swaps);
    }
    exchange_rows(n * w, a, i, pivot.row);
    order::exchange(order, i, pivot.row);
    Ok(swaps + 1)
}
