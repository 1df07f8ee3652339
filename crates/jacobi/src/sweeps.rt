// The sweeps of a run.
// Kept: the loops run over numbers, of rows and columns that call the next loop, and in `add_all` of records in flat floats, which `Record` reads and writes by number.
// Kept: `bw` stands beside `work` for the reason in lib.rt; `add_all` and `close_sweep` take fields of `Work` lent alone.
ghost use Rattle.std.specs.Prelude.{◌≡◌, ◌+◌, ◌*◌, ◌<◌, ◌≤◌, is_some, replicate};
ghost use Rattle.std.specs.ControlFlow.{break_value};
ghost use Rattle.refusals.specs.Largest as largest;
ghost use Rattle.algebra.specs.Algebra.{zero_of};
ghost use Rattle.algebra.specs.Loop.{upto};
ghost use Rattle.dual.specs.Rules.{dual_algebra, dual_records};
ghost use Rattle.rotations.specs.Buffers.{many_rotations, work_of, SameWork};
ghost use Rattle.rotations.specs.Vector.{Vector};
ghost use Rattle.jacobi.specs.Sweeps as rule;
ghost use Rattle.jacobi.specs.Sort.{ended};
ghost use Rattle.jacobi.specs.Answer.{eigen_of, run_of, run_after};

use crate::Ended;
use dual::Dual;
use records::Record;
use rotations::work::Work;
use std::ops::ControlFlow;

// thresh with the squares of column j above the diagonal.
#[tactic(auto, using(crate::proofs::Swept::square_turn, algebra::proofs::Loop::upto_end), unfolding(crate::specs::Sweeps::column_squares))]
fn column_squares(work: &Work, j: usize, thresh: f64) -> f64
    requires j_lt_n { j < work.now.n }
    ensures { result ≡ rule.column_squares dual_algebra work.now.n (dual_records work.now.a.now) j thresh }
{
    let mut sum = thresh;
    for i in 0..j {
        let x = work.entry(i, j);
        sum = sum + x.re * x.re;
    }
    sum
}

// The squares above the diagonal, column by column.
#[tactic(auto, using(algebra::proofs::Loop::upto_turn, algebra::proofs::Loop::upto_end), unfolding(crate::specs::Sweeps::sum_of_squares))]
fn sum_of_squares(work: &Work) -> f64
    ensures { result ≡ rule.sum_of_squares dual_algebra work.now.n (dual_records work.now.a.now) }
{
    let mut sum = 0.0;
    for j in 0..work.n {
        sum = column_squares(work, j, sum);
    }
    sum
}

// The root of the sum of squares over n.
#[tactic(auto, using(crate::proofs::Swept::in_float_lem), unfolding(crate::specs::Sweeps::threshold_of))]
fn threshold(work: &Work) -> f64
    ensures { result ≡ rule.threshold_of dual_algebra work.now.n (dual_records work.now.a.now) }
{
    real::sqrt(sum_of_squares(work)) / work.n as f64
}

// The entries of row p above the diagonal.
fn row(work: &mut Work, thresh: f64, it_num: usize, p: usize)
    requires p_lt_n { p < work.old.n }
    requires countable { work.old.rotations + largest.n < many_rotations }
    ensures same { SameWork work.old work.new }
    ensures work_after { work_of work.new ≡ rule.row dual_algebra work.old.n thresh it_num p (work_of work.old) }
    ensures few { work.new.rotations ≤ work.old.rotations + largest.n }
{
    for q in p + 1..work.n {
        work.pair(thresh, it_num, p, q);
    }
}

// Every entry above the diagonal.
fn sweep(work: &mut Work, thresh: f64, it_num: usize)
    requires countable { work.old.rotations + largest.n * largest.n < many_rotations }
    ensures same { SameWork work.old work.new }
    ensures work_after { work_of work.new ≡ rule.sweep dual_algebra work.old.n thresh it_num (work_of work.old) }
    ensures few { work.new.rotations ≤ work.old.rotations + largest.n * largest.n }
{
    for p in 0..work.n {
        row(work, thresh, it_num, p);
    }
}

// bw += zw
// Kept: the loop by number; tried `chunks_exact_mut(2)` with `zip`, and the proof did not close: what its parts have added to the records.
fn add_all(n: usize, zw: &[f64], bw: &mut [f64])
    requires vectors { Vector n zw.now × Vector n bw.old }
    ensures { dual_records bw.new ≡ rule.add_all dual_algebra n (dual_records zw.now) (dual_records bw.old) }
{
    for i in 0..n {
        let x = Dual::read(bw, i);
        Dual::write(bw, i, x.add(Dual::read(zw, i)));
    }
}

// A sweep's end: bw += zw, d = bw, zw = 0.
fn close_sweep(n: usize, d: &mut [f64], zw: &mut [f64], bw: &mut [f64])
    requires vectors { Vector n d.old × (Vector n zw.old × Vector n bw.old) }
    ensures bw_after { dual_records bw.new ≡ rule.add_all dual_algebra n (dual_records zw.old) (dual_records bw.old) }
    ensures d_after { dual_records d.new ≡ rule.add_all dual_algebra n (dual_records zw.old) (dual_records bw.old) }
    ensures zw_after { dual_records zw.new ≡ replicate n (zero_of dual_algebra) }
{
    add_all(n, zw, bw);
    floats::copy(bw, d);
    zw.fill(0.0);
}

// Sweep it_num, unless the threshold is zero.
fn step(work: &mut Work, bw: &mut [f64], it_num: usize) -> ControlFlow<()>
    requires sums { Vector work.old.n bw.old }
    requires countable { work.old.rotations + largest.n * largest.n < many_rotations }
    ensures same { SameWork work.old work.new }
    ensures run_after { run_after (is_some (break_value result)) work.new bw.new it_num ≡ rule.step dual_algebra work.old.n it_num (run_of work.old bw.old it_num) }
    ensures few { work.new.rotations ≤ work.old.rotations + largest.n * largest.n }
{
    let thresh = threshold(work);
    if thresh == 0.0 {
        return ControlFlow::Break(());
    }
    sweep(work, thresh, it_num);
    close_sweep(work.n, work.d, work.zw, bw);
    ControlFlow::Continue(())
}

// At most `limit` sweeps.
pub(crate) fn sweeps(work: &mut Work, bw: &mut [f64], limit: usize) -> Ended
    requires sums { Vector work.old.n bw.old }
    requires fresh { work.old.rotations ≡ 0 }
    requires limit_allowed { limit ≤ largest.limit }
    ensures same { SameWork work.old work.new }
    ensures eigen_after { eigen_of work.new result ≡ ended (upto 0 limit (rule.step dual_algebra work.old.n) (run_of work.old bw.old 0)) }
{
    for it_num in 0..limit {
        if step(work, bw, it_num).is_break() {
            return Ended {
                sweeps: it_num,
                stopped: true,
            };
        }
    }
    Ended {
        sweeps: limit,
        stopped: false,
    }
}
