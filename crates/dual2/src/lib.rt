// Second order dual numbers for second derivatives: datatypes/dual2.rs. The rules of the record, its layout in flat floats
// and its comparisons; what every record type has stands in the trait `Record`.
// Kept: rules that go part by part stand in each record, as in its own source: no macro of a repository may write an `impl`.

#![tactic(auto)]

ghost use Rattle.std.specs.Prelude.{◌≡◌, refl};
ghost use Rattle.std.specs.Float.Ieee.{eq};
ghost use Rattle.std.specs.Ordering.{float_partial_cmp, on};
ghost use Rattle.std.specs.Float.Cmp.{on_floats_per, on_floats_po};
ghost use Rattle.dual2.specs.Rules.{dual2, dual2_derivative, dual2_derivatives, dual2_algebra, dual2_layout, dual2_nderiv};
ghost use Rattle.dual2.specs.Laws.{dual2_laws};

use derivatives::Series;
use records::{Compared, Derivative, Record};
use refusals::Refusal;
use std::cmp::Ordering;

#[derive(Clone, Copy, Debug)]
pub struct Dual2 {
    // Real part of the second order dual number
    pub re: f64,
    // First derivative part of the second order dual number
    pub v1: f64,
    // Second derivative part of the second order dual number
    pub v2: f64,
}

impl Dual2 {
    // Create a new second order dual number from its fields.
    pub fn new(re: f64, v1: f64, v2: f64) -> Self
        ensures { result ≡ dual2 re v1 v2 }
    {
        Self { re, v1, v2 }
    }

    // Set the derivative part to 1.
    pub fn derivative(mut self) -> Self
        ensures { result ≡ dual2_derivative self }
    {
        self.v1 = 1.0;
        self
    }
}

impl Record for Dual2 {
    ghost algebra = { dual2_algebra };

    ghost layout = { dual2_layout };

    ghost derivatives = { dual2_derivatives };

    ghost NDERIV = { dual2_nderiv };

    ghost laws = { dual2_laws };

    const NDERIV: usize = 2;

    fn width() -> usize {
        3
    }

    fn re(self) -> f64 {
        self.re
    }

    fn from_re(re: f64) -> Self {
        Self {
            re,
            v1: 0.0,
            v2: 0.0,
        }
    }

    fn with_re(self, re: f64) -> Self {
        Self { re, ..self }
    }

    fn with_derivative(self, which: Derivative) -> Result<Self, Refusal> {
        match which {
            Derivative::Only => Ok(self.derivative()),
            _ => Err(Refusal::WrongLength),
        }
    }

    #[tactic(auto, unfolding(crate::specs::Rules::dual2_add))]
    fn add(self, other: Self) -> Self {
        Self {
            re: self.re + other.re,
            v1: self.v1 + other.v1,
            v2: self.v2 + other.v2,
        }
    }

    #[tactic(auto, unfolding(crate::specs::Rules::dual2_sub))]
    fn sub(self, other: Self) -> Self {
        Self {
            re: self.re - other.re,
            v1: self.v1 - other.v1,
            v2: self.v2 - other.v2,
        }
    }

    /* product rule */
    #[tactic(auto, unfolding(crate::specs::Rules::dual2_mul))]
    fn mul(self, other: Self) -> Self {
        Self {
            re: self.re * other.re,
            v1: other.v1 * self.re + self.v1 * other.re,
            v2: other.v2 * self.re + self.v1 * other.v1 + other.v1 * self.v1 + self.v2 * other.re,
        }
    }

    /* quotient rule */
    #[tactic(auto, unfolding(crate::specs::Rules::dual2_div))]
    fn div(self, other: Self) -> Self {
        let inv = 1.0 / other.re;
        let inv2 = inv * inv;
        Self {
            re: self.re * inv,
            v1: (self.v1 * other.re - other.v1 * self.re) * inv2,
            v2: self.v2 * inv
                - (other.v2 * self.re + self.v1 * other.v1 + other.v1 * self.v1) * inv2
                + other.v1 * other.v1 * ((1.0 + 1.0) * self.re * inv2 * inv),
        }
    }

    #[tactic(auto, unfolding(crate::specs::Rules::dual2_neg))]
    fn neg(self) -> Self {
        Self {
            re: -self.re,
            v1: -self.v1,
            v2: -self.v2,
        }
    }

    #[tactic(auto, unfolding(crate::specs::Rules::dual2_mul_float))]
    fn mul_float(self, other: f64) -> Self {
        Self {
            re: self.re * other,
            v1: self.v1 * other,
            v2: self.v2 * other,
        }
    }

    #[tactic(auto, unfolding(crate::specs::Rules::dual2_div_float))]
    fn div_float(self, other: f64) -> Self {
        Self {
            re: self.re / other,
            v1: self.v1 / other,
            v2: self.v2 / other,
        }
    }

    /* chain rule */
    #[tactic(auto, unfolding(crate::specs::Rules::dual2_chain))]
    fn chain(self, s: Series) -> Self {
        Self {
            re: s.f0,
            v1: self.v1 * s.f1,
            v2: self.v2 * s.f1 + self.v1 * self.v1 * s.f2,
        }
    }

    #[tactic(auto, using(crate::proofs::Flat::dual2_held, crate::proofs::Flat::dual2_read))]
    fn read(floats: &[f64], at: usize) -> Self {
        let first = records::place(floats.len(), 3, at);
        Self {
            re: floats[first],
            v1: floats[first + 1],
            v2: floats[first + 2],
        }
    }

    #[tactic(auto, using(crate::proofs::Flat::dual2_held, crate::proofs::Flat::dual2_written))]
    fn write(floats: &mut [f64], at: usize, x: Self) {
        let first = records::place(floats.len(), 3, at);
        floats[first] = x.re;
        floats[first + 1] = x.v1;
        floats[first + 2] = x.v2;
    }
}

// Kept: by hand, since comparisons are only made based on the real part.
impl PartialEq for Dual2 {
    ghost eq = { on (λ x. x.re) eq };

    ghost laws = { on_floats_per (λ x. x.re) };

    fn eq(&self, other: &Dual2) -> bool {
        self.re == other.re
    }
}

impl PartialOrd for Dual2 {
    ghost partial_cmp = { on (λ x. x.re) float_partial_cmp };

    ghost laws = { on_floats_po (λ x. x.re) };

    fn partial_cmp(&self, other: &Dual2) -> Option<Ordering> {
        self.re.partial_cmp(&other.re)
    }
}

impl Compared for Dual2 {
    ghost equal = { λ x y. refl };

    ghost ordered = { λ x y. refl };
}
