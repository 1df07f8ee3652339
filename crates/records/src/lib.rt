// What every record type is and does. `Record` is a trait over the operations of a record (its `Algebra`) and its layout in flat floats; each of the five record
// crates has one impl, the rules of the record's own file. What the Rust writes by macros for every type stands here once: the operators of macros.rs, by
// name, and the functions of impl_derivatives.rs, each by its series or its plan.
// Kept: methods that differ in a constant or an operator (`is_zero` and `is_one`, `add_float` and `sub_float`) are two of the Rust's; a sine and a cosine come together as its tables have them.

#![tactic(auto)]

mod functions;

ghost use Rattle.std.specs.Prelude.{◌≡◌, ◌+◌, ◌*◌, ◌/◌, ◌<◌, ◌≤◌, ℕ, Float, not, length, get_or, set};
ghost use Rattle.std.specs.Float.Ieee.{eq};
ghost use Rattle.std.specs.Ordering.{float_partial_cmp};
ghost use Rattle.real.specs.Operations.{zero, one};
ghost use Rattle.real.specs.Sign.{sign_of};
ghost use Rattle.algebra.specs.Algebra.{Algebra, zero_of, one_of, add_float, sub_float, magnitude};
ghost use Rattle.algebra.specs.Flat.{Layout, decode, sum_of, product_of};
ghost use Rattle.algebra.specs.Outcome.{Outcome, outcome};
ghost use Rattle.algebra.proofs.Laws.{Laws};
ghost use Rattle.derivatives.specs.Apply.{chain_by, apply_of, recip_of, sqrt_of, sin_of, cos_of, atan2_of, mul_add_of, powd_of, abs_sub_of, signum_of, sph_j1_series_of};
ghost use Rattle.records.specs.declared.Derivative.{Derivative};

use derivatives::{Function, Series};
use refusals::Refusal;

// Which derivative part is set to 1: those of `derivative`, `derivative1`, `derivative2`, `derivative3`.
#[derive(Clone, Copy, Debug, PartialEq, Eq, Hash)]
pub enum Derivative {
    Only,
    First,
    Second,
    Third,
}

// A type of records.
pub trait Record: Copy {
    ghost algebra: { Algebra Self };

    ghost layout: { Layout Self };

    ghost derivatives: { Derivative → Self → Outcome Self };

    ghost NDERIV: { ℕ };

    // The highest order of a derivative that a record carries.
    const NDERIV: usize;

    // How many floats a record has.
    fn width() -> usize
        ensures { result ≡ layout.width };

    // The real part.
    fn re(self) -> f64
        ensures { result ≡ algebra.re self };

    // The record of a real part alone.
    fn from_re(re: f64) -> Self
        ensures { result ≡ algebra.from_re re };

    // The record with another real part.
    fn with_re(self, re: f64) -> Self
        ensures { result ≡ algebra.with_re self re };

    // A derivative part set to 1, where the record has that one.
    fn with_derivative(self, which: Derivative) -> Result<Self, Refusal>
        ensures { outcome result ≡ derivatives which self };

    fn add(self, other: Self) -> Self
        ensures { result ≡ algebra.add self other };

    fn sub(self, other: Self) -> Self
        ensures { result ≡ algebra.sub self other };

    fn mul(self, other: Self) -> Self
        ensures { result ≡ algebra.mul self other };

    fn div(self, other: Self) -> Self
        ensures { result ≡ algebra.div self other };

    fn neg(self) -> Self
        ensures { result ≡ algebra.neg self };

    // A plain float multiplies or divides each part.
    fn mul_float(self, other: f64) -> Self
        ensures { result ≡ algebra.mul_float self other };

    fn div_float(self, other: f64) -> Self
        ensures { result ≡ algebra.div_float self other };

    // The chain rule with as many derivatives of a series as the record carries.
    fn chain(self, s: Series) -> Self
        ensures { result ≡ chain_by algebra self s };

    // Record number `at` of flat floats.
    fn read(floats: &[f64], at: usize) -> Self
        requires { at < length (decode layout floats.now) }
        ensures { result ≡ get_or (decode layout floats.now) at (zero_of algebra) };

    // Record number `at` of flat floats is x.
    fn write(floats: &mut [f64], at: usize, x: Self)
        requires { at < length (decode layout floats.old) }
        ensures { decode layout floats.new ≡ set (decode layout floats.old) at x };

    final fn zero() -> Self
        ensures { result ≡ zero_of algebra }
    {
        Self::from_re(0.0)
    }

    final fn is_zero(self) -> bool
        ensures { result ≡ eq (algebra.re self) zero }
    {
        self.re() == 0.0
    }

    final fn one() -> Self
        ensures { result ≡ one_of algebra }
    {
        Self::from_re(1.0)
    }

    final fn is_one(self) -> bool
        ensures { result ≡ eq (algebra.re self) one }
    {
        self.re() == 1.0
    }

    // A plain float is added to re alone.
    final fn add_float(self, other: f64) -> Self
        ensures { result ≡ add_float algebra self other }
    {
        self.with_re(self.re() + other)
    }

    final fn sub_float(self, other: f64) -> Self
        ensures { result ≡ sub_float algebra self other }
    {
        self.with_re(self.re() - other)
    }

    // The sign bit of re: -0 is negative.
    final fn is_negative(self) -> bool
        ensures { result ≡ sign_of (algebra.re self) }
    {
        real::is_negative(self.re())
    }

    final fn is_positive(self) -> bool
        ensures { result ≡ not (sign_of (algebra.re self)) }
    {
        !real::is_negative(self.re())
    }

    // x where the sign bit of re is clear, else -x.
    #[tactic(auto, using(derivatives::proofs::Signs::abs_negative, derivatives::proofs::Signs::abs_positive))]
    final fn abs(self) -> Self
        ensures { result ≡ magnitude algebra self }
    {
        if self.is_negative() { self.neg() } else { self }
    }

    #[tactic(auto, using(derivatives::proofs::Signs::abs_sub_above, derivatives::proofs::Signs::abs_sub_else))]
    final fn abs_sub(self, other: Self) -> Self
        ensures { result ≡ abs_sub_of algebra self other }
    {
        if self.re() > other.re() {
            self.sub(other)
        } else {
            Self::zero()
        }
    }

    #[tactic(auto, using(derivatives::proofs::Signs::signum_zero, derivatives::proofs::Signs::signum_negative, derivatives::proofs::Signs::signum_positive))]
    final fn signum(self) -> Self
        ensures { result ≡ signum_of algebra self }
    {
        if self.is_negative() {
            if self.re() == 0.0 {
                return Self::zero();
            }
            return Self::one().neg();
        }
        Self::one()
    }

    final fn scale(self, factor: f64) -> Self
        ensures { result ≡ algebra.mul_float self factor }
    {
        self.mul_float(factor)
    }

    final fn recip(self) -> Self
        ensures { result ≡ recip_of algebra self }
    {
        self.chain(Series::recip(self.re()))
    }

    final fn inv(self) -> Self
        ensures { result ≡ recip_of algebra self }
    {
        self.recip()
    }

    final fn sqrt(self) -> Self
        ensures { result ≡ sqrt_of algebra self }
    {
        self.chain(Series::sqrt(self.re()))
    }

    // `sin` and `cos` are the sine and the cosine of re.
    final fn sin_cos(self, sin: f64, cos: f64) -> (Self, Self)
        ensures { result ≡ (sin_of algebra self sin cos, cos_of algebra self sin cos) }
    {
        (
            self.chain(Series::sin(sin, cos)),
            self.chain(Series::cos(sin, cos)),
        )
    }

    // `atan` is the arctangent of the quotient's real part, `quadrant` the four-quadrant value.
    final fn atan2(self, other: Self, atan: f64, quadrant: f64) -> Self
        ensures { result ≡ atan2_of algebra self other atan quadrant }
    {
        let q = self.div(other);
        let res = q.chain(Series::atan(q.re(), atan));
        res.with_re(quadrant)
    }

    final fn mul_add(self, a: Self, b: Self) -> Self
        ensures { result ≡ mul_add_of algebra self a b }
    {
        self.mul(a).add(b)
    }

    // Power with dual exponent: `ln` is the logarithm of re, `exp` the exponential of the product's real part.
    final fn powd(self, exponent: Self, ln: f64, exp: f64) -> Self
        ensures { result ≡ powd_of algebra self exponent ln exp }
    {
        self.chain(Series::ln(self.re(), ln))
            .mul(exponent)
            .chain(Series::exp(exp))
    }

    // Any function of impl_derivatives.rs, or sph_j1_series where the record has a third derivative, with the outside floats that it needs.
    final fn apply(self, f: Function) -> Result<Self, Refusal>
        ensures { outcome result ≡ apply_of algebra NDERIV self f }
    {
        functions::run(self, derivatives::choose(self.re(), f))
    }

    // The sum of the records of a run, from zero, left to right. A length that is not whole records is refused.
    final fn sum(floats: &[f64]) -> Result<Self, Refusal>
        ensures { outcome result ≡ sum_of layout algebra floats.now }
    {
        if floats.len() % Self::width() != 0 {
            return Err(Refusal::WrongLength);
        }
        let mut acc = Self::zero();
        for part in floats.chunks_exact(Self::width()) {
            acc = acc.add(Self::read(part, 0));
        }
        Ok(acc)
    }

    // The product of the records of a run, from one, left to right. A length that is not whole records is refused.
    final fn product(floats: &[f64]) -> Result<Self, Refusal>
        ensures { outcome result ≡ product_of layout algebra floats.now }
    {
        if floats.len() % Self::width() != 0 {
            return Err(Refusal::WrongLength);
        }
        let mut acc = Self::one();
        for part in floats.chunks_exact(Self::width()) {
            acc = acc.mul(Self::read(part, 0));
        }
        Ok(acc)
    }

    ghost laws: { Laws algebra layout };
}

// A type of records that carry a third derivative.
pub trait ThirdDerivative: Record {
    // sph_j1 with the cubic of its series for small re, which the source leaves out; `sin` and `cos` are the sine and the cosine of re.
    final fn sph_j1_series(self, sin: f64, cos: f64) -> Self
        ensures { result ≡ sph_j1_series_of Self.algebra self sin cos }
    {
        functions::sph_j1_series(self, sin, cos)
    }
}

// A type of records whose comparisons are those of the real part.
pub trait Compared: Record + PartialOrd {
    ghost equal: { (x y : Self) → Self.PartialEq.eq x y ≡ eq (Self.algebra.re x) (Self.algebra.re y) };

    ghost ordered: { (x y : Self) → Self.PartialOrd.partial_cmp x y ≡ float_partial_cmp (Self.algebra.re x) (Self.algebra.re y) };
}

// The first float of record number `at` of `length` floats, at `width` floats a record: the record's floats all are there.
pub fn place(length: usize, width: usize, at: usize) -> usize
    requires { at < length / width }
    ensures first { result ≡ at * width }
    ensures inside { result + width ≤ length }
{
    at * width
}

pub fn nderiv<R: Record>() -> usize
    ensures { result ≡ R.NDERIV }
{
    R::NDERIV
}
