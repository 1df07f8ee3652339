// LU, solve, determinant and inverse of matrices of `HyperDual`: row by row, four floats a record in the order re, eps1, eps2, eps1eps2.
// Kept: the parameters and the numbers that are answered are those of the C interface.
ghost use Rattle.std.specs.Prelude.{◌≡◌};
ghost use Rattle.hyperdual.specs.Rules.{hyper_dual_algebra, hyper_dual_layout};
ghost use Rattle.matrices.specs.Entries.{lu_left, solve_left, inverse_left, determinant_left};
ghost use Rattle.exports.specs.Numbered.{lu_numbered, solve_numbered, hyper_dual_determinant_numbered};

// The factors of a and the order of its rows. `swaps_or_column` is written at 0, with the swap count, and at 6, with the column in which no pivot exceeds zero.
#[unsafe(no_mangle)]
pub extern "C" fn evindrast_hyperdual_lu(
    n: usize,
    a: &[f64],
    factors: &mut [f64],
    order: &mut [usize],
    swaps_or_column: &mut usize,
) -> u32
    ensures { (result, (swaps_or_column.new, (factors.new, order.new))) ≡ lu_numbered swaps_or_column.old (lu_left hyper_dual_algebra hyper_dual_layout n a.now factors.old order.old) }
{
    exports::hyperdual_linalg::evindrast_hyperdual_lu(n, a, factors, order, swaps_or_column)
}

// x with a * x = b, from the factors and the order of a.
#[unsafe(no_mangle)]
pub extern "C" fn evindrast_hyperdual_solve(
    n: usize,
    factors: &[f64],
    order: &[usize],
    b: &[f64],
    x: &mut [f64],
) -> u32
    ensures { (result, x.new) ≡ solve_numbered (solve_left hyper_dual_algebra hyper_dual_layout n factors.now order.now b.now x.old) }
{
    exports::hyperdual_linalg::evindrast_hyperdual_solve(n, factors, order, b, x)
}

// The determinant, from the factors, the order and the swap count, in its four parts.
#[unsafe(no_mangle)]
pub extern "C" fn evindrast_hyperdual_determinant(
    n: usize,
    factors: &[f64],
    order: &[usize],
    swaps: usize,
    re: &mut f64,
    eps1: &mut f64,
    eps2: &mut f64,
    eps1eps2: &mut f64,
) -> u32
    ensures { (result, (re.new, (eps1.new, (eps2.new, eps1eps2.new)))) ≡ hyper_dual_determinant_numbered re.old eps1.old eps2.old eps1eps2.old (determinant_left hyper_dual_algebra hyper_dual_layout n factors.now order.now swaps) }
{
    exports::hyperdual_linalg::evindrast_hyperdual_determinant(
        n, factors, order, swaps, re, eps1, eps2, eps1eps2,
    )
}

// The inverse, from the factors and the order.
#[unsafe(no_mangle)]
pub extern "C" fn evindrast_hyperdual_inverse(
    n: usize,
    factors: &[f64],
    order: &[usize],
    out: &mut [f64],
) -> u32
    ensures { (result, out.new) ≡ solve_numbered (inverse_left hyper_dual_algebra hyper_dual_layout n factors.now order.now out.old) }
{
    exports::hyperdual_linalg::evindrast_hyperdual_inverse(n, factors, order, out)
}
