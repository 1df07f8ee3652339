// LU, solve, determinant and inverse of matrices of records in lent floats: linalg.rs. Matrices lie row by row, the record at row r and column c at
// (r * n + c) * `R::width()`, real part first. n is 0 to 32. A call that is refused by its number writes nothing, but for 6 (see `lu`).
// Kept: n, the factors and the order come apart, as they are lent to the exports: a struct of them would be made for one call and taken apart in it.

#![tactic(auto)]

ghost use Rattle.std.specs.Prelude.{◌≡◌, length};
ghost use Rattle.algebra.specs.Flat.{decode};
ghost use Rattle.algebra.specs.Outcome.{outcome};
ghost use Rattle.matrices.specs.Matrix.{Square};
ghost use Rattle.matrices.specs.Lu.{lu_of};
ghost use Rattle.matrices.specs.Entries.{lu_answered, solve_answered, lu_finish, lu_left, solve_left, inverse_left, determinant_left};
ghost use Rattle.matrices.specs.Answers.{lu_outcome, lu_column, solve_outcome};

pub use matrices::LuRefusal;
use records::Record;
use refusals::Refusal;

// LU once the size and the lengths are right.
fn factor<R: Record>(
    n: usize,
    a: &[f64],
    factors: &mut [f64],
    order: &mut [usize],
) -> Result<usize, LuRefusal>
    requires square { Square R.layout.width n a.now }
    requires square_2 { Square R.layout.width n factors.old }
    requires order_len { length order.old ≡ n }
    ensures { lu_answered (lu_outcome result) (lu_column result) factors.new order.new ≡ lu_finish R.algebra R.layout n (lu_of R.algebra n (decode R.layout a.now)) }
{
    floats::copy(a, factors);
    matrices::order::count_up(order);
    match columns::run_columns::<R>(n, factors, order) {
        Ok(swaps) => Ok(swaps),
        Err(none) => {
            factors.fill(0.0);
            order.fill(0);
            Err(LuRefusal::Singular {
                column: none.column,
            })
        }
    }
}

// The factors of a and the order of its rows: `LU::new`. Refused: 1, 2; 6 with the column in which no pivot exceeds zero, factors all +0.0 and order all 0.
pub fn lu<R: Record>(
    n: usize,
    a: &[f64],
    factors: &mut [f64],
    order: &mut [usize],
) -> Result<usize, LuRefusal>
    ensures { lu_answered (lu_outcome result) (lu_column result) factors.new order.new ≡ lu_left R.algebra R.layout n a.now factors.old order.old }
{
    matrices::refusal::lu(R::width(), n, a.len(), factors.len(), order.len())?;
    factor::<R>(n, a, factors, order)
}

// x with a * x = b, from the factors and the order of a. Refused: 1, 2, 7.
pub fn solve<R: Record>(
    n: usize,
    factors: &[f64],
    order: &[usize],
    b: &[f64],
    x: &mut [f64],
) -> Result<(), Refusal>
    ensures { solve_answered (solve_outcome result) x.new ≡ solve_left R.algebra R.layout n factors.now order.now b.now x.old }
{
    matrices::refusal::solve(R::width(), n, factors.len(), order, b.len(), x.len())?;
    substitution::solve_run::<R>(n, factors, order, b, x);
    Ok(())
}

// The determinant, from the factors, the order and the swap count. Refused: 1, 2, 7, 8.
pub fn determinant<R: Record>(
    n: usize,
    factors: &[f64],
    order: &[usize],
    swaps: usize,
) -> Result<R, Refusal>
    ensures { outcome result ≡ determinant_left R.algebra R.layout n factors.now order.now swaps }
{
    matrices::refusal::determinant(R::width(), n, factors.len(), order.len())?;
    columns::determinant_of(n, factors, order, swaps)
}

// The inverse, from the factors and the order. Refused: 1, 2, 7.
pub fn inverse<R: Record>(
    n: usize,
    factors: &[f64],
    order: &[usize],
    out: &mut [f64],
) -> Result<(), Refusal>
    ensures { solve_answered (solve_outcome result) out.new ≡ inverse_left R.algebra R.layout n factors.now order.now out.old }
{
    matrices::refusal::inverse(R::width(), n, factors.len(), order, out.len())?;
    substitution::inverse_run::<R>(n, factors, order, out);
    Ok(())
}
