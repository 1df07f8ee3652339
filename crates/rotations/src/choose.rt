// What is done with an entry above the diagonal, and the angle that rotates it away: from the entry and the two diagonal entries alone.
ghost use Rattle.std.specs.Prelude.{◌≡◌, ◌&&◌, ltb};
ghost use Rattle.dual.specs.Rules.{dual_algebra};
ghost use Rattle.rotations.specs.Rotation.{gap_of, absorbed, choice_of, hypotenuse_of, tangent_of, rotation_tangent, angle_by, angle_of};
ghost use Rattle.rotations.specs.Buffers.{angle_parts};

use super::{Angle, Block, Choice};
use dual::Dual;
use records::Record;

// gapq: |x| * 10
fn gap(x: Dual) -> Dual
    ensures { result ≡ gap_of dual_algebra x }
{
    x.abs().mul_float(10.0)
}

// gapq + |d| == |d|
#[tactic(auto, unfolding(crate::specs::Rotation::absorbed))]
fn is_absorbed(gapq: Dual, d: Dual) -> bool
    ensures { result ≡ absorbed dual_algebra gapq d }
{
    let size = d.abs();
    gapq.add(size) == size
}

// sqrt(x * x + 1)
#[tactic(auto, unfolding(crate::specs::Rotation::hypotenuse_of))]
fn hypotenuse(x: Dual) -> Dual
    ensures { result ≡ hypotenuse_of dual_algebra x }
{
    x.mul(x).add_float(1.0).sqrt()
}

// The tangent from theta.
#[tactic(auto, using(crate::proofs::Chosen::tangent_negated, crate::proofs::Chosen::tangent_kept))]
fn tangent(theta: Dual) -> Dual
    ensures { result ≡ tangent_of dual_algebra theta }
{
    let t = theta.abs().add(hypotenuse(theta)).recip();
    if theta.is_negative() { t.neg() } else { t }
}

// The tangent for the entry x and the difference h of the diagonal entries.
#[tactic(auto, using(crate::proofs::Chosen::tangent_small, crate::proofs::Chosen::tangent_large))]
fn rotation_tangent(x: Dual, h: Dual) -> Dual
    ensures { result ≡ rotation_tangent dual_algebra x h }
{
    let size = h.abs();
    if size.add(gap(x)) == size {
        return x.div(h);
    }
    tangent(h.mul_float(0.5).div(x))
}

// The angle from the tangent.
#[tactic(auto, unfolding(crate::specs::Rotation::angle_by))]
fn angle_by(x: Dual, t: Dual) -> Angle
    ensures { angle_parts result ≡ angle_by dual_algebra x t }
{
    let c = hypotenuse(t).recip();
    let s = t.mul(c);
    Angle {
        s,
        tau: s.div(c.add_float(1.0)),
        h: t.mul(x),
    }
}

impl Block {
    // The entry is small beside both diagonal entries, and the sweep is late enough to clear it.
    #[tactic(auto, using(crate::proofs::Chosen::cleared_both, crate::proofs::Chosen::cleared_first, crate::proofs::Chosen::cleared_early))]
    fn is_cleared(self, it_num: usize) -> bool
        ensures { result ≡ (ltb 4 it_num && (absorbed dual_algebra (gap_of dual_algebra self.x) self.dp && absorbed dual_algebra (gap_of dual_algebra self.x) self.dq)) }
    {
        let gapq = gap(self.x);
        4 < it_num && is_absorbed(gapq, self.dp) && is_absorbed(gapq, self.dq)
    }

    // What is done with the entry in sweep it_num.
    #[tactic(auto, using(crate::proofs::Chosen::choose_clear, crate::proofs::Chosen::choose_rotate, crate::proofs::Chosen::choose_keep))]
    pub(crate) fn choice(self, thresh: f64, it_num: usize) -> Choice
        ensures { result ≡ choice_of dual_algebra thresh it_num self.x self.dp self.dq }
    {
        if self.is_cleared(it_num) {
            return Choice::Clear;
        }
        if thresh <= real::abs(self.x.re) {
            return Choice::Rotate;
        }
        Choice::Keep
    }

    // The angle that rotates the entry away.
    pub(crate) fn angle(self) -> Angle
        ensures { angle_parts result ≡ angle_of dual_algebra self.x self.dp self.dq }
    {
        angle_by(self.x, rotation_tangent(self.x, self.dq.sub(self.dp)))
    }
}
