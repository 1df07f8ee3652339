// What a record makes of a plan, over any record.
// Kept: a sine and a cosine are the outside floats of one function, in the order of the tables.
ghost use Rattle.std.specs.Prelude.{◌≡◌};
ghost use Rattle.algebra.specs.Outcome.{outcome};
ghost use Rattle.derivatives.specs.Apply.{run_plan, small_j0, small_j2, bessel_j1, bessel_j2, cubic_j1, sph_j1_series_of};

use super::Record;
use derivatives::{Plan, Series};
use refusals::Refusal;

#[tactic(auto)]
pub(crate) fn run<R: Record>(x: R, p: Plan) -> Result<R, Refusal>
    ensures { outcome result ≡ run_plan R.algebra R.NDERIV x p }
{
    match p {
        Plan::Refused(refusal) => Err(refusal),
        Plan::One => Ok(R::one()),
        Plan::Same => Ok(x),
        Plan::Square => Ok(x.mul(x)),
        Plan::Chain(s) => Ok(x.chain(s)),
        Plan::Quotient(s, t) => Ok(x.chain(s).div(x.chain(t))),
        Plan::SmallJ0 => Ok(small_j0(x)),
        Plan::SmallJ1 => Ok(x.div_float(3.0)),
        Plan::SmallJ2 => Ok(small_j2(x)),
        Plan::BesselJ0(s) => Ok(x.chain(s).div(x)),
        Plan::BesselJ1(s, t) => Ok(bessel_j1(x, x.chain(s), x.chain(t))),
        Plan::BesselJ2(s, t) => Ok(bessel_j2(x, x.chain(s), x.chain(t))),
        Plan::CubicJ1 { sin, cos } if R::NDERIV == 3 => Ok(sph_j1_series(x, sin, cos)),
        Plan::CubicJ1 { sin: _, cos: _ } => Err(Refusal::WrongLength),
    }
}

fn small_j0<R: Record>(x: R) -> R
    ensures { result ≡ small_j0 R.algebra x }
{
    R::one().sub(x.mul(x).div_float(6.0))
}

fn small_j2<R: Record>(x: R) -> R
    ensures { result ≡ small_j2 R.algebra x }
{
    x.mul(x).div_float(15.0)
}

fn cubic_j1<R: Record>(x: R) -> R
    ensures { result ≡ cubic_j1 R.algebra x }
{
    let cube = x.mul(x).mul(x);
    x.div_float(3.0).sub(cube.div_float(30.0))
}

fn bessel_j1<R: Record>(x: R, s: R, c: R) -> R
    ensures { result ≡ bessel_j1 R.algebra x s c }
{
    s.sub(x.mul(c)).div(x.mul(x))
}

fn bessel_j2<R: Record>(x: R, s: R, c: R) -> R
    ensures { result ≡ bessel_j2 R.algebra x s c }
{
    let s2 = x.mul(x);
    s.sub(x.mul(c)).mul_float(3.0).sub(s2.mul(s)).div(s2.mul(x))
}

pub(crate) fn sph_j1_series<R: Record>(x: R, sin: f64, cos: f64) -> R
    ensures { result ≡ sph_j1_series_of R.algebra x sin cos }
{
    if derivatives::is_small(x.re()) {
        return cubic_j1(x);
    }
    let s = x.chain(Series::sin(sin, cos));
    let c = x.chain(Series::cos(sin, cos));
    bessel_j1(x, s, c)
}
