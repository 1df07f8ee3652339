// LU, solve, determinant, inverse and Jacobi of matrices of `Dual`: row by row, two floats a record, real part first.
// Kept: the parameters and the numbers that are answered are those of the C interface.
ghost use Rattle.std.specs.Prelude.{◌≡◌};
ghost use Rattle.dual.specs.Rules.{dual_algebra, dual_layout};
ghost use Rattle.matrices.specs.Entries.{lu_left, solve_left, inverse_left, determinant_left};
ghost use Rattle.jacobi.specs.Entry.{jacobi_left};
ghost use Rattle.algebra.specs.Outcome.{number_of, outcome};
ghost use Rattle.matrices.specs.Answers.{lu_outcome, lu_column};
ghost use Rattle.exports.specs.Numbered.{count_of, swap_count_or_column, lu_numbered, solve_numbered, determinant_numbered, jacobi_numbered};

use dual::Dual;
use matrices::LuRefusal;
use refusals::Refusal;

// The number of an answer of LU; with it the swap count, or at 6 the column.
pub(crate) fn lu_number(answer: Result<usize, LuRefusal>, swaps_or_column: &mut usize) -> u32
    ensures value { result ≡ number_of (lu_outcome answer) }
    ensures swaps_or_column_after { swaps_or_column.new ≡ swap_count_or_column swaps_or_column.old (lu_outcome answer) (lu_column answer) }
{
    match answer {
        Ok(swaps) => *swaps_or_column = swaps,
        Err(LuRefusal::Singular { column: _ }) => *swaps_or_column = matrices::lu_column(answer),
        Err(LuRefusal::Refused(_)) => {}
    }
    matrices::lu_number(answer)
}

// The number of an answer with a count, which is written where the call is done.
pub(crate) fn count_number(answer: Result<usize, Refusal>, count: &mut usize) -> u32
    ensures value { result ≡ number_of (outcome answer) }
    ensures count_after { count.new ≡ count_of count.old (outcome answer) }
{
    if let Ok(told) = answer {
        *count = told;
    }
    refusals::answer_number(answer)
}

// The factors of a and the order of its rows. `swaps_or_column` is written at 0, with the swap count, and at 6, with the column in which no pivot exceeds zero.
pub fn evindrast_lu(
    n: usize,
    a: &[f64],
    factors: &mut [f64],
    order: &mut [usize],
    swaps_or_column: &mut usize,
) -> u32
    ensures { (result, (swaps_or_column.new, (factors.new, order.new))) ≡ lu_numbered swaps_or_column.old (lu_left dual_algebra dual_layout n a.now factors.old order.old) }
{
    lu_number(lu::lu::<Dual>(n, a, factors, order), swaps_or_column)
}

// x with a * x = b, from the factors and the order of a.
pub fn evindrast_solve(n: usize, factors: &[f64], order: &[usize], b: &[f64], x: &mut [f64]) -> u32
    ensures { (result, x.new) ≡ solve_numbered (solve_left dual_algebra dual_layout n factors.now order.now b.now x.old) }
{
    refusals::answer_number(lu::solve::<Dual>(n, factors, order, b, x))
}

// The determinant, from the factors, the order and the swap count, in re and eps.
pub fn evindrast_determinant(
    n: usize,
    factors: &[f64],
    order: &[usize],
    swaps: usize,
    re: &mut f64,
    eps: &mut f64,
) -> u32
    ensures { (result, (re.new, eps.new)) ≡ determinant_numbered re.old eps.old (determinant_left dual_algebra dual_layout n factors.now order.now swaps) }
{
    match lu::determinant::<Dual>(n, factors, order, swaps) {
        Ok(x) => {
            *re = x.re;
            *eps = x.eps;
            0
        }
        Err(refusal) => refusal.number(),
    }
}

// The inverse, from the factors and the order.
pub fn evindrast_inverse(n: usize, factors: &[f64], order: &[usize], out: &mut [f64]) -> u32
    ensures { (result, out.new) ≡ solve_numbered (inverse_left dual_algebra dual_layout n factors.now order.now out.old) }
{
    refusals::answer_number(lu::inverse::<Dual>(n, factors, order, out))
}

// Eigenvalues and eigenvectors (a column each), with the number of sweeps that did not stop at the threshold, at most `limit`.
pub fn evindrast_jacobi_eigenvalue(
    n: usize,
    a: &[f64],
    limit: usize,
    values: &mut [f64],
    vectors: &mut [f64],
    sweeps: &mut usize,
) -> u32
    ensures { (result, (sweeps.new, (values.new, vectors.new))) ≡ jacobi_numbered sweeps.old (jacobi_left dual_algebra dual_layout n a.now limit values.old vectors.old) }
{
    let answer = jacobi::jacobi_eigenvalue(n, a, limit, values, vectors);
    count_number(answer, sweeps)
}
