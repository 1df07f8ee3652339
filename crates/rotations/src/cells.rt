// `Dual` records at row r, column c of a matrix of n by n, and two records exchanged. Inner: for the crates above, which show each `requires`.
// Kept: a matrix is n and its floats (here and in turn.rt), and no struct of both: tried, and of a struct within `Work` the check does not tell the lender what is left.
ghost use Rattle.std.specs.Prelude.{◌≡◌, ◌<◌, length};
ghost use Rattle.algebra.specs.Algebra.{zero_of};
ghost use Rattle.matrices.specs.Matrix as rule;
ghost use Rattle.matrices.specs.Matrix.{Square, cell, store};
ghost use Rattle.dual.specs.Rules.{dual_algebra, dual_records};

use dual::Dual;
use records::Record;

// The record at row r, column c.
#[tactic(auto, using(crate::proofs::Held::row_few, crate::proofs::Held::cell_held), unfolding(matrices::specs::Matrix::cell))]
pub fn get(n: usize, a: &[f64], r: usize, c: usize) -> Dual
    requires square { Square 2 n a.now }
    requires in_matrix { (r < n) × (c < n) }
    ensures { result ≡ cell dual_algebra n (dual_records a.now) r c }
{
    Dual::read(a, r * n + c)
}

// The record at row r, column c is x.
#[tactic(auto, using(crate::proofs::Held::row_few, crate::proofs::Held::cell_held, matrices::proofs::Places::square_kept), unfolding(matrices::specs::Matrix::store))]
pub fn put(n: usize, a: &mut [f64], r: usize, c: usize, x: Dual)
    requires square { Square 2 n a.old }
    requires in_matrix { (r < n) × (c < n) }
    ensures still_square { Square 2 n a.new }
    ensures a_after { dual_records a.new ≡ store dual_algebra n (dual_records a.old) r c x }
{
    Dual::write(a, r * n + c, x);
}

// Records number p and q exchanged.
#[tactic(auto, unfolding(matrices::specs::Matrix::exchange))]
pub fn exchange(a: &mut [f64], p: usize, q: usize)
    requires p_held { p < length (dual_records a.old) }
    requires q_held { q < length (dual_records a.old) }
    ensures { dual_records a.new ≡ rule.exchange (zero_of dual_algebra) p q (dual_records a.old) }
{
    let x = Dual::read(a, p);
    let y = Dual::read(a, q);
    Dual::write(a, p, y);
    Dual::write(a, q, x);
}
