// The values in order of their real parts, their vectors' columns with them.
// Kept: the loops run over the numbers of columns and of rows, by which values and vectors are read and exchanged in flat floats.
// Kept: `Square 2 n v` stands in one contract, of a field of `Work` lent alone; a struct within a struct did not prove, as lib.rt says.
ghost use Rattle.std.specs.Prelude.{◌≡◌, ◌<◌};
ghost use Rattle.dual.specs.Rules.{dual_algebra, dual_records};
ghost use Rattle.matrices.specs.Matrix.{Square};
ghost use Rattle.rotations.specs.Buffers.{SameWork};
ghost use Rattle.jacobi.specs.Sort as rule;
ghost use Rattle.jacobi.specs.Answer.{pairs_of};

use rotations::cells::exchange;
use rotations::work::Work;

// The place of the smaller of two values, m where neither is.
#[tactic(auto, using(crate::proofs::Ordered::smaller_moves, crate::proofs::Ordered::smaller_stays))]
fn smaller(work: &Work, l: usize, m: usize) -> usize
    requires places_in_range { (l < work.now.n) × (m < work.now.n) }
    ensures value { result ≡ rule.smaller dual_algebra work.now.n (dual_records work.now.d.now) l m }
    ensures in_range { result < work.now.n }
{
    if work.value(l).re < work.value(m).re {
        return l;
    }
    m
}

// The place of the least value from k on, the first of equals.
#[tactic(auto, using(algebra::proofs::Loop::upto_turn, algebra::proofs::Loop::upto_end), unfolding(crate::specs::Sort::least))]
fn least(work: &Work, k: usize) -> usize
    requires k_lt_n { k < work.now.n }
    ensures value { result ≡ rule.least dual_algebra work.now.n (dual_records work.now.d.now) k }
    ensures in_range { result < work.now.n }
{
    let mut m = k;
    for l in k + 1..work.n {
        m = smaller(work, l, m);
    }
    m
}

// Columns m and k exchanged.
#[tactic(auto, using(rotations::proofs::Held::row_few))]
fn exchange_columns(n: usize, v: &mut [f64], m: usize, k: usize)
    requires square { Square 2 n v.old }
    requires columns_in_matrix { (m < n) × (k < n) }
    ensures still_square { Square 2 n v.new }
    ensures v_after { dual_records v.new ≡ rule.exchange_columns dual_algebra n m k (dual_records v.old) }
{
    for l in 0..n {
        exchange(v, l * n + m, l * n + k);
    }
}

// The least value from k on brought to k, with its column.
fn select(work: &mut Work, k: usize)
    requires k_lt_n { k < work.old.n }
    ensures same { SameWork work.old work.new }
    ensures pairs_after { pairs_of work.new ≡ rule.select dual_algebra work.old.n k (pairs_of work.old) }
{
    let m = least(work, k);
    if m == k {
        return;
    }
    exchange(work.d, m, k);
    exchange_columns(work.n, work.v, m, k);
}

// Every value in its place.
pub(crate) fn sort(work: &mut Work)
    requires n_nonzero { 0 < work.old.n }
    ensures same { SameWork work.old work.new }
    ensures pairs_after { pairs_of work.new ≡ rule.sort dual_algebra work.old.n (pairs_of work.old) }
{
    for k in 0..work.n - 1 {
        select(work, k);
    }
}
