// Third order dual numbers for third derivatives: datatypes/dual3.rs. The rules of the record, its layout in flat floats
// and its comparisons; what every record type has stands in the trait `Record`.
// Kept: rules that go part by part stand in each record, as in its own source: no macro of a repository may write an `impl`.

#![tactic(auto)]

ghost use Rattle.std.specs.Prelude.{◌≡◌, refl};
ghost use Rattle.std.specs.Float.Ieee.{eq};
ghost use Rattle.std.specs.Ordering.{float_partial_cmp, on};
ghost use Rattle.std.specs.Float.Cmp.{on_floats_per, on_floats_po};
ghost use Rattle.dual3.specs.Rules.{dual3, dual3_derivative, dual3_derivatives, dual3_algebra, dual3_layout, dual3_nderiv};
ghost use Rattle.dual3.specs.Laws.{dual3_laws};

use derivatives::Series;
use records::{Compared, Derivative, Record, ThirdDerivative};
use refusals::Refusal;
use std::cmp::Ordering;

#[derive(Clone, Copy, Debug)]
pub struct Dual3 {
    // Real part of the third order dual number
    pub re: f64,
    // First derivative part of the third order dual number
    pub v1: f64,
    // Second derivative part of the third order dual number
    pub v2: f64,
    // Third derivative part of the third order dual number
    pub v3: f64,
}

impl Dual3 {
    // Create a new third order dual number from its fields.
    pub fn new(re: f64, v1: f64, v2: f64, v3: f64) -> Self
        ensures { result ≡ dual3 re v1 v2 v3 }
    {
        Self { re, v1, v2, v3 }
    }

    // Set the first derivative part to 1.
    pub fn derivative(mut self) -> Self
        ensures { result ≡ dual3_derivative self }
    {
        self.v1 = 1.0;
        self
    }
}

impl Record for Dual3 {
    ghost algebra = { dual3_algebra };

    ghost layout = { dual3_layout };

    ghost derivatives = { dual3_derivatives };

    ghost NDERIV = { dual3_nderiv };

    ghost laws = { dual3_laws };

    const NDERIV: usize = 3;

    fn width() -> usize {
        4
    }

    fn re(self) -> f64 {
        self.re
    }

    fn from_re(re: f64) -> Self {
        Self {
            re,
            v1: 0.0,
            v2: 0.0,
            v3: 0.0,
        }
    }

    fn with_re(self, re: f64) -> Self {
        Self { re, ..self }
    }

    fn with_derivative(self, which: Derivative) -> Result<Self, Refusal> {
        match which {
            Derivative::Only => Ok(self.derivative()),
            _ => Err(Refusal::WrongLength),
        }
    }

    #[tactic(auto, unfolding(crate::specs::Rules::dual3_add))]
    fn add(self, other: Self) -> Self {
        Self {
            re: self.re + other.re,
            v1: self.v1 + other.v1,
            v2: self.v2 + other.v2,
            v3: self.v3 + other.v3,
        }
    }

    #[tactic(auto, unfolding(crate::specs::Rules::dual3_sub))]
    fn sub(self, other: Self) -> Self {
        Self {
            re: self.re - other.re,
            v1: self.v1 - other.v1,
            v2: self.v2 - other.v2,
            v3: self.v3 - other.v3,
        }
    }

    /* product rule */
    #[tactic(auto, unfolding(crate::specs::Rules::dual3_mul))]
    fn mul(self, rhs: Self) -> Self {
        let two = 1.0 + 1.0;
        let three = 1.0 + two;
        Self {
            re: self.re * rhs.re,
            v1: self.v1 * rhs.re + self.re * rhs.v1,
            v2: self.v2 * rhs.re + two * self.v1 * rhs.v1 + self.re * rhs.v2,
            v3: self.v3 * rhs.re + three * (self.v2 * rhs.v1 + self.v1 * rhs.v2) + self.re * rhs.v3,
        }
    }

    /* quotient rule: the product with the chain rule of the reciprocal */
    #[tactic(auto, unfolding(crate::specs::Rules::dual3_div))]
    fn div(self, rhs: Self) -> Self {
        self.mul(rhs.chain(Series::recip(rhs.re)))
    }

    #[tactic(auto, unfolding(crate::specs::Rules::dual3_neg))]
    fn neg(self) -> Self {
        Self {
            re: -self.re,
            v1: -self.v1,
            v2: -self.v2,
            v3: -self.v3,
        }
    }

    #[tactic(auto, unfolding(crate::specs::Rules::dual3_mul_float))]
    fn mul_float(self, other: f64) -> Self {
        Self {
            re: self.re * other,
            v1: self.v1 * other,
            v2: self.v2 * other,
            v3: self.v3 * other,
        }
    }

    #[tactic(auto, unfolding(crate::specs::Rules::dual3_div_float))]
    fn div_float(self, other: f64) -> Self {
        Self {
            re: self.re / other,
            v1: self.v1 / other,
            v2: self.v2 / other,
            v3: self.v3 / other,
        }
    }

    /* chain rule */
    #[tactic(auto, unfolding(crate::specs::Rules::dual3_chain))]
    fn chain(self, s: Series) -> Self {
        let three = 1.0 + 1.0 + 1.0;
        Self {
            re: s.f0,
            v1: s.f1 * self.v1,
            v2: s.f2 * self.v1 * self.v1 + s.f1 * self.v2,
            v3: s.f3 * self.v1 * self.v1 * self.v1
                + three * s.f2 * self.v1 * self.v2
                + s.f1 * self.v3,
        }
    }

    #[tactic(auto, using(crate::proofs::Flat::dual3_held, crate::proofs::Flat::dual3_read))]
    fn read(floats: &[f64], at: usize) -> Self {
        let first = records::place(floats.len(), 4, at);
        Self {
            re: floats[first],
            v1: floats[first + 1],
            v2: floats[first + 2],
            v3: floats[first + 3],
        }
    }

    #[tactic(auto, using(crate::proofs::Flat::dual3_held, crate::proofs::Flat::dual3_written))]
    fn write(floats: &mut [f64], at: usize, x: Self) {
        let first = records::place(floats.len(), 4, at);
        floats[first] = x.re;
        floats[first + 1] = x.v1;
        floats[first + 2] = x.v2;
        floats[first + 3] = x.v3;
    }
}

impl ThirdDerivative for Dual3 {}

// Kept: by hand, since comparisons are only made based on the real part.
impl PartialEq for Dual3 {
    ghost eq = { on (λ x. x.re) eq };

    ghost laws = { on_floats_per (λ x. x.re) };

    fn eq(&self, other: &Dual3) -> bool {
        self.re == other.re
    }
}

impl PartialOrd for Dual3 {
    ghost partial_cmp = { on (λ x. x.re) float_partial_cmp };

    ghost laws = { on_floats_po (λ x. x.re) };

    fn partial_cmp(&self, other: &Dual3) -> Option<Ordering> {
        self.re.partial_cmp(&other.re)
    }
}

impl Compared for Dual3 {
    ghost equal = { λ x y. refl };

    ghost ordered = { λ x y. refl };
}
