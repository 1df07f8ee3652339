// What a run starts from.
// Kept: the loops run over the numbers of the diagonal, by which `Record` reads and writes in flat floats.
// Kept: `bw` stands beside `work` for the reason in lib.rt; `Square 2 n v` stands in two contracts, of a matrix that is one field of `Work` lent alone.
ghost use Rattle.std.specs.Prelude.{◌≡◌};
ghost use Rattle.algebra.specs.Loop.{upto};
ghost use Rattle.dual.specs.Rules.{dual_algebra, dual_records};
ghost use Rattle.matrices.specs.Matrix.{Square};
ghost use Rattle.rotations.specs.Buffers.{SameWork};
ghost use Rattle.rotations.specs.Vector.{Vector};
ghost use Rattle.jacobi.specs.Sweeps as rule;
ghost use Rattle.jacobi.specs.Sweeps.{start, put_one, put_diagonal};
ghost use Rattle.jacobi.specs.Answer.{OthersKept, run_of};

use dual::Dual;
use records::Record;
use rotations::cells::put;
use rotations::work::Work;

// One at each place of the diagonal.
fn put_ones(n: usize, v: &mut [f64])
    requires { Square 2 n v.old }
    ensures square { Square 2 n v.new }
    ensures v_after { dual_records v.new ≡ upto 0 n (put_one dual_algebra n) (dual_records v.old) }
{
    for i in 0..n {
        put(n, v, i, i, Dual::one());
    }
}

// The identity matrix.
fn identity(n: usize, v: &mut [f64])
    requires { Square 2 n v.old }
    ensures square { Square 2 n v.new }
    ensures v_after { dual_records v.new ≡ rule.identity dual_algebra n }
{
    v.fill(0.0);
    put_ones(n, v);
}

// The diagonal at the places of d and of bw.
fn put_diagonal(work: &mut Work, bw: &mut [f64])
    requires sums { Vector work.old.n bw.old }
    ensures same { SameWork work.old work.new }
    ensures others { OthersKept work.old work.new }
    ensures d_after { dual_records work.new.d.now ≡ upto 0 work.old.n (put_diagonal dual_algebra work.old.n (dual_records work.old.a.now)) (dual_records work.old.d.now) }
    ensures bw_after { dual_records bw.new ≡ upto 0 work.old.n (put_diagonal dual_algebra work.old.n (dual_records work.old.a.now)) (dual_records bw.old) }
{
    for i in 0..work.n {
        let x = work.entry(i, i);
        Dual::write(work.d, i, x);
        Dual::write(bw, i, x);
    }
}

// Everything that the sweeps start from: d is the diagonal of a, bw is d, and zw is zero.
pub(crate) fn prepare(work: &mut Work, bw: &mut [f64], a: &[f64])
    requires square { Square 2 work.old.n a.now }
    requires sums { Vector work.old.n bw.old }
    ensures same { SameWork work.old work.new }
    ensures fresh { work.new.rotations ≡ 0 }
    ensures run_after { run_of work.new bw.new 0 ≡ start dual_algebra work.old.n (dual_records a.now) }
{
    floats::copy(a, work.a);
    identity(work.n, work.v);
    work.d.fill(0.0);
    work.zw.fill(0.0);
    bw.fill(0.0);
    put_diagonal(work, bw);
    work.rotations = 0;
}
