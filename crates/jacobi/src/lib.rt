// Eigenvalues and eigenvectors of a symmetric matrix of `Dual` records: `jacobi_eigenvalue` of linalg.rs.

#![tactic(auto)]

mod prepare;
mod sort;
mod sweeps;

ghost use Rattle.std.specs.Prelude.{◌≡◌, ◌*◌, ◌<◌, ◌≤◌};
ghost use Rattle.refusals.specs.Largest as largest;
ghost use Rattle.refusals.specs.Refused.{answer_number};
ghost use Rattle.algebra.specs.Outcome.{outcome};
ghost use Rattle.dual.specs.Rules.{dual_algebra, dual_layout, dual_records};
ghost use Rattle.matrices.specs.Matrix.{Square};
ghost use Rattle.rotations.specs.Vector.{Vector};
ghost use Rattle.jacobi.specs.Sort.{jacobi_of};
ghost use Rattle.jacobi.specs.Entry.{jacobi_refusal, jacobi_answered, jacobi_left};

use refusals::Refusal;
use rotations::work::Work;

// The floats of a row, and of a matrix, at the largest n.
const LARGEST_ROW: usize = refusals::LARGEST_N * 2;

const LARGEST_MATRIX: usize = refusals::LARGEST_N * LARGEST_ROW;

// An n whose scratch is cleared in no time, and the floats of its row and of its matrix.
const SMALL_N: usize = 8;

const SMALL_ROW: usize = SMALL_N * 2;

const SMALL_MATRIX: usize = SMALL_N * SMALL_ROW;

// How the sweeps ended: their count, and whether the threshold was zero at last.
// Kept: `stopped` stands beside `sweeps`, since `ended` of specs/Sort, and so `jacobi_of`, says beside the sweeps whether the run settled: their meaning may not change.
#[derive(Clone, Copy, Debug, PartialEq, Eq, Hash)]
pub(crate) struct Ended {
    pub sweeps: usize,
    pub stopped: bool,
}

// The first refusal that applies.
fn refuse(n: usize, a: usize, limit: usize, values: usize, vectors: usize) -> Result<(), Refusal>
    ensures { answer_number result ≡ jacobi_refusal 2 n a limit values vectors }
{
    if refusals::LARGEST_N < n {
        return Err(Refusal::TooLarge);
    }
    if n == 0 {
        return Err(Refusal::Empty);
    }
    let full = n * n * 2;
    if a != full || values != n * 2 || vectors != full {
        return Err(Refusal::WrongLength);
    }
    if refusals::LARGEST_LIMIT < limit {
        return Err(Refusal::LimitTooLarge);
    }
    Ok(())
}

// The whole run over the matrix a, with the sums bw. Gives back the sweeps that did not stop at the threshold.
// Kept: the sums go beside `Work`: tried, and of a struct within a struct the check does not tell the lender what is left.
fn run(work: &mut Work, bw: &mut [f64], a: &[f64], limit: usize) -> usize
    requires square { Square 2 work.old.n a.now }
    requires sums { Vector work.old.n bw.old }
    requires within { (0 < work.old.n) × (limit ≤ largest.limit) }
    ensures same_values { work.new.d.ghost_name ≡ work.old.d.ghost_name }
    ensures same_vectors { work.new.v.ghost_name ≡ work.old.v.ghost_name }
    ensures values_after { dual_records work.new.d.now ≡ (jacobi_of dual_algebra work.old.n limit (dual_records a.now)).values }
    ensures vectors_after { dual_records work.new.v.now ≡ (jacobi_of dual_algebra work.old.n limit (dual_records a.now)).vectors }
    ensures sweeps { result ≡ (jacobi_of dual_algebra work.old.n limit (dual_records a.now)).sweeps }
{
    prepare::prepare(work, bw, a);
    let ended = sweeps::sweeps(work, bw, limit);
    sort::sort(work);
    ended.sweeps
}

// The run with a scratch of so many floats for a matrix and for a row.
fn run_within<const MATRIX: usize, const ROW: usize>(
    n: usize,
    a: &[f64],
    limit: usize,
    values: &mut [f64],
    vectors: &mut [f64],
) -> usize
    requires square { Square 2 n a.now }
    requires vectors_square { Square 2 n vectors.old }
    requires values_len { Vector n values.old }
    requires matrix_fits { (n * n * 2 ≤ MATRIX) × (MATRIX ≤ largest.n * largest.n * 2) }
    requires row_fits { (n * 2 ≤ ROW) × (ROW ≤ largest.n * 2) }
    requires within { (0 < n) × (limit ≤ largest.limit) }
    ensures values_after { dual_records values.new ≡ (jacobi_of dual_algebra n limit (dual_records a.now)).values }
    ensures vectors_after { dual_records vectors.new ≡ (jacobi_of dual_algebra n limit (dual_records a.now)).vectors }
    ensures sweeps { result ≡ (jacobi_of dual_algebra n limit (dual_records a.now)).sweeps }
{
    let full = n * n * 2;
    let row = n * 2;
    let mut w = [0.0f64; MATRIX];
    let mut bw = [0.0f64; ROW];
    let mut zw = [0.0f64; ROW];
    let mut work = Work {
        n,
        a: &mut w[..full],
        v: vectors,
        d: values,
        zw: &mut zw[..row],
        rotations: 0,
    };
    run(&mut work, &mut bw[..row], a, limit)
}

// Eigenvalues and eigenvectors (a column each) of the matrix a, of which only the diagonal and the part above it are read; in order of the values' real parts.
// The run makes at most `limit` sweeps, and the answer is how many did not stop at the threshold. A refusal writes nothing.
pub fn jacobi_eigenvalue(
    n: usize,
    a: &[f64],
    limit: usize,
    values: &mut [f64],
    vectors: &mut [f64],
) -> Result<usize, Refusal>
    ensures { jacobi_answered (outcome result) values.new vectors.new ≡ jacobi_left dual_algebra dual_layout n a.now limit values.old vectors.old }
{
    refuse(n, a.len(), limit, values.len(), vectors.len())?;
    let sweeps = if n <= SMALL_N {
        run_within::<SMALL_MATRIX, SMALL_ROW>(n, a, limit, values, vectors)
    } else {
        run_within::<LARGEST_MATRIX, LARGEST_ROW>(n, a, limit, values, vectors)
    };
    Ok(sweeps)
}
