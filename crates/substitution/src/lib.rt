// Solve, and inverse column by column, over any record. The starts of a vector are written first; then each element is made from what stands in its place.
// Inner: for `lu`, which has the entries. Its functions have a `requires`, which that crate shows.
// Kept: `Order n order` stands in four contracts, two of which hand it on: a type for it would be made in two places and taken apart at once, so it is no plainer.

#![tactic(auto)]

ghost use Rattle.std.specs.Prelude.{◌≡◌, ◌+◌, ◌*◌, ◌^◌, ◌<◌, ◌≤◌, length};
ghost use Rattle.algebra.specs.Flat.{decode};
ghost use Rattle.matrices.specs.Matrix.{Square, RowPlace};
ghost use Rattle.matrices.specs.Solve.{Strided, less_product, less_row, forward_row_from, forward_from, back_row, back, substitute_from, solve_starts, solve_of};
ghost use Rattle.matrices.specs.Inverse.{units, inverse_of};
ghost use Rattle.orders.specs.Order.{Order};

use records::Record;
use std::marker::PhantomData;

// The factors of LU: n by n records in lent floats, row by row.
#[derive(Drop)]
struct Factors<'a, R: Record> {
    n: usize,
    floats: &'a [f64],
    of: PhantomData<R>,
    ghost square: { Square R.layout.width n floats.now },
}

// Where a vector lies among the records of x: its element i is record i * stride + base. That is all of x (1, 0), or column j of a matrix (n, j).
#[derive(Clone, Copy, Debug)]
struct Vector {
    stride: usize,
    base: usize,
}

impl Vector {
    // The record of element i.
    #[inline]
    fn at(self, i: usize) -> usize
        requires { i * self.stride + self.base < 2 ^ 64 }
        ensures { result ≡ i * self.stride + self.base }
    {
        i * self.stride + self.base
    }
}

// v less record p of a times record q of x.
#[inline]
fn less_product<R: Record>(v: R, a: &[f64], p: usize, x: &[f64], q: usize) -> R
    requires p_held { p < length (decode R.layout a.now) }
    requires q_held { q < length (decode R.layout x.now) }
    ensures { result ≡ less_product R.algebra v (decode R.layout a.now) p (decode R.layout x.now) q }
{
    v.sub(R::read(a, p).mul(R::read(x, q)))
}

// v less the products of row i with x, columns lo..hi.
// Kept: here and below, a, x and place come apart: a is read while x is lent, here to be read and below to be written, and `inverse_run` has a place for each column: a struct of them would be made anew for each.
// Kept: here and below, `i < n` is asked of the turn of a loop, which a type of i would be made for and taken apart in.
fn less_row<R: Record>(
    a: &Factors<R>,
    x: &[f64],
    place: Vector,
    i: usize,
    lo: usize,
    hi: usize,
    v: R,
) -> R
    requires i_lt_n { i < a.now.n }
    requires strided { Strided R.layout.width a.now.n place.stride place.base x.now }
    requires hi_le_n { hi ≤ a.now.n }
    ensures { result ≡ less_row R.algebra a.now.n (decode R.layout a.now.floats.now) place.stride place.base i (decode R.layout x.now) lo hi v }
{
    let row = i * a.n;
    let mut r = v;
    // Kept: here and over the rows below, a row's records and a vector's lie at different distances, and x is read while it is written: no iterator is plainer than the range.
    for k in lo..hi {
        r = less_product(r, a.floats, row + k, x, place.at(k));
    }
    r
}

// x[i], less the products with the elements before it.
fn forward_row<R: Record>(a: &Factors<R>, x: &mut [f64], place: Vector, i: usize)
    requires i_lt_n { i < a.now.n }
    requires strided { Strided R.layout.width a.now.n place.stride place.base x.old }
    ensures { decode R.layout x.new ≡ forward_row_from R.algebra a.now.n (decode R.layout a.now.floats.now) place.stride place.base i (decode R.layout x.old) }
{
    let at = place.at(i);
    let r = less_row(a, x, place, i, 0, i, R::read(x, at));
    R::write(x, at, r);
}

// From the first element down.
fn run_forward<R: Record>(a: &Factors<R>, x: &mut [f64], place: Vector)
    requires strided { Strided R.layout.width a.now.n place.stride place.base x.old }
    ensures { decode R.layout x.new ≡ forward_from R.algebra a.now.n (decode R.layout a.now.floats.now) place.stride place.base (decode R.layout x.old) }
{
    for i in 0..a.n {
        forward_row(a, x, place, i);
    }
}

// x[i], less the products with the elements after it, over a[(i, i)].
fn back_row<R: Record>(a: &Factors<R>, x: &mut [f64], place: Vector, i: usize)
    requires i_lt_n { i < a.now.n }
    requires strided { Strided R.layout.width a.now.n place.stride place.base x.old }
    ensures { decode R.layout x.new ≡ back_row R.algebra a.now.n (decode R.layout a.now.floats.now) place.stride place.base i (decode R.layout x.old) }
{
    let at = place.at(i);
    let r = less_row(a, x, place, i, i + 1, a.n, R::read(x, at));
    R::write(x, at, r.div(R::read(a.floats, i * a.n + i)));
}

// From the last element up.
fn run_back<R: Record>(a: &Factors<R>, x: &mut [f64], place: Vector)
    requires strided { Strided R.layout.width a.now.n place.stride place.base x.old }
    ensures { decode R.layout x.new ≡ back R.algebra a.now.n (decode R.layout a.now.floats.now) place.stride place.base (decode R.layout x.old) }
{
    for i in (0..a.n).rev() {
        back_row(a, x, place, i);
    }
}

// Forward, then back, from the starts that stand in x.
fn substitute<R: Record>(a: &Factors<R>, x: &mut [f64], place: Vector)
    requires strided { Strided R.layout.width a.now.n place.stride place.base x.old }
    ensures { decode R.layout x.new ≡ substitute_from R.algebra a.now.n (decode R.layout a.now.floats.now) place.stride place.base (decode R.layout x.old) }
{
    run_forward(a, x, place);
    run_back(a, x, place);
}

// x[k] starts as b[order[k]].
fn solve_starts<R: Record>(n: usize, order: &[usize], b: &[f64], x: &mut [f64])
    requires order { Order n order.now }
    requires b_len { length b.now ≡ n * R.layout.width }
    requires x_len { length x.old ≡ n * R.layout.width }
    ensures { decode R.layout x.new ≡ solve_starts R.algebra n order.now (decode R.layout b.now) }
{
    for (k, &p) in order.iter().enumerate() {
        R::write(x, k, R::read(b, p));
    }
}

// Solve once the size, the lengths and the order are right.
pub fn solve_run<R: Record>(n: usize, a: &[f64], order: &[usize], b: &[f64], x: &mut [f64])
    requires square { Square R.layout.width n a.now }
    requires order { Order n order.now }
    requires b_len { length b.now ≡ n * R.layout.width }
    requires x_len { length x.old ≡ n * R.layout.width }
    ensures { decode R.layout x.new ≡ solve_of R.algebra n (decode R.layout a.now) order.now (decode R.layout b.now) }
{
    solve_starts::<R>(n, order, b, x);
    let whole = Vector { stride: 1, base: 0 };
    let factors: Factors<R> = Factors {
        n,
        floats: a,
        of: PhantomData,
    };
    substitute(&factors, x, whole);
}

// Row i of the starts of inverse is one at column order[i], else zero.
fn inverse_starts<R: Record>(n: usize, order: &[usize], x: &mut [f64])
    requires order { Order n order.now }
    requires square { Square R.layout.width n x.old }
    ensures { decode R.layout x.new ≡ units R.algebra n order.now }
{
    x.fill(0.0);
    for (i, &p) in order.iter().enumerate() {
        R::write(x, i * n + p, R::one());
    }
}

// Inverse once the size, the lengths and the order are right.
pub fn inverse_run<R: Record>(n: usize, a: &[f64], order: &[usize], x: &mut [f64])
    requires square { Square R.layout.width n a.now }
    requires order { Order n order.now }
    requires square_2 { Square R.layout.width n x.old }
    ensures { decode R.layout x.new ≡ inverse_of R.algebra n (decode R.layout a.now) order.now }
{
    let factors: Factors<R> = Factors {
        n,
        floats: a,
        of: PhantomData,
    };
    inverse_starts::<R>(n, order, x);
    for j in 0..n {
        let column = Vector { stride: n, base: j };
        substitute(&factors, x, column);
    }
}
