// LU, solve, determinant, inverse and Jacobi of matrices of `Dual`: row by row, two floats a record, real part first.
// Kept: the parameters and the numbers that are answered are those of the C interface.
ghost use Rattle.std.specs.Prelude.{◌≡◌};
ghost use Rattle.dual.specs.Rules.{dual_algebra, dual_layout};
ghost use Rattle.matrices.specs.Entries.{lu_left, solve_left, inverse_left, determinant_left};
ghost use Rattle.jacobi.specs.Entry.{jacobi_left};
ghost use Rattle.exports.specs.Numbered.{lu_numbered, solve_numbered, determinant_numbered, jacobi_numbered};

// The factors of a and the order of its rows. `swaps_or_column` is written at 0, with the swap count, and at 6, with the column in which no pivot exceeds zero.
#[unsafe(no_mangle)]
pub extern "C" fn evindrast_lu(
    n: usize,
    a: &[f64],
    factors: &mut [f64],
    order: &mut [usize],
    swaps_or_column: &mut usize,
) -> u32
    ensures { (result, (swaps_or_column.new, (factors.new, order.new))) ≡ lu_numbered swaps_or_column.old (lu_left dual_algebra dual_layout n a.now factors.old order.old) }
{
    exports::linalg::evindrast_lu(n, a, factors, order, swaps_or_column)
}

// x with a * x = b, from the factors and the order of a.
#[unsafe(no_mangle)]
pub extern "C" fn evindrast_solve(
    n: usize,
    factors: &[f64],
    order: &[usize],
    b: &[f64],
    x: &mut [f64],
) -> u32
    ensures { (result, x.new) ≡ solve_numbered (solve_left dual_algebra dual_layout n factors.now order.now b.now x.old) }
{
    exports::linalg::evindrast_solve(n, factors, order, b, x)
}

// The determinant, from the factors, the order and the swap count, in re and eps.
#[unsafe(no_mangle)]
pub extern "C" fn evindrast_determinant(
    n: usize,
    factors: &[f64],
    order: &[usize],
    swaps: usize,
    re: &mut f64,
    eps: &mut f64,
) -> u32
    ensures { (result, (re.new, eps.new)) ≡ determinant_numbered re.old eps.old (determinant_left dual_algebra dual_layout n factors.now order.now swaps) }
{
    exports::linalg::evindrast_determinant(n, factors, order, swaps, re, eps)
}

// The inverse, from the factors and the order.
#[unsafe(no_mangle)]
pub extern "C" fn evindrast_inverse(
    n: usize,
    factors: &[f64],
    order: &[usize],
    out: &mut [f64],
) -> u32
    ensures { (result, out.new) ≡ solve_numbered (inverse_left dual_algebra dual_layout n factors.now order.now out.old) }
{
    exports::linalg::evindrast_inverse(n, factors, order, out)
}

// Eigenvalues and eigenvectors (a column each), with the number of sweeps that did not stop at the threshold, at most `limit`.
#[unsafe(no_mangle)]
pub extern "C" fn evindrast_jacobi_eigenvalue(
    n: usize,
    a: &[f64],
    limit: usize,
    values: &mut [f64],
    vectors: &mut [f64],
    sweeps: &mut usize,
) -> u32
    ensures { (result, (sweeps.new, (values.new, vectors.new))) ≡ jacobi_numbered sweeps.old (jacobi_left dual_algebra dual_layout n a.now limit values.old vectors.old) }
{
    exports::linalg::evindrast_jacobi_eigenvalue(n, a, limit, values, vectors, sweeps)
}
