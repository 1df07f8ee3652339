// Hyper-dual numbers for second partial derivatives: datatypes/hyperdual.rs. The rules of the record, its layout in flat floats
// and its comparisons; what every record type has stands in the trait `Record`.
// Kept: rules that go part by part stand in each record, as in its own source: no macro of a repository may write an `impl`.

#![tactic(auto)]

ghost use Rattle.std.specs.Prelude.{◌≡◌, refl};
ghost use Rattle.std.specs.Float.Ieee.{eq};
ghost use Rattle.std.specs.Ordering.{float_partial_cmp, on};
ghost use Rattle.std.specs.Float.Cmp.{on_floats_per, on_floats_po};
ghost use Rattle.hyperdual.specs.Rules.{hyper_dual, hyper_dual_derivative1, hyper_dual_derivative2, hyper_dual_derivatives, hyper_dual_algebra, hyper_dual_layout, hyper_dual_nderiv};
ghost use Rattle.hyperdual.specs.Laws.{hyper_dual_laws};

use derivatives::Series;
use records::{Compared, Derivative, Record};
use refusals::Refusal;
use std::cmp::Ordering;

#[derive(Clone, Copy, Debug)]
pub struct HyperDual {
    // Real part of the hyper-dual number
    pub re: f64,
    // Partial derivative part of the hyper-dual number
    pub eps1: f64,
    // Partial derivative part of the hyper-dual number
    pub eps2: f64,
    // Second partial derivative part of the hyper-dual number
    pub eps1eps2: f64,
}

impl HyperDual {
    // Create a new hyper-dual number from its fields.
    pub fn new(re: f64, eps1: f64, eps2: f64, eps1eps2: f64) -> Self
        ensures { result ≡ hyper_dual re eps1 eps2 eps1eps2 }
    {
        Self {
            re,
            eps1,
            eps2,
            eps1eps2,
        }
    }

    // Set the partial derivative part w.r.t. the 1st variable to 1.
    pub fn derivative1(mut self) -> Self
        ensures { result ≡ hyper_dual_derivative1 self }
    {
        self.eps1 = 1.0;
        self
    }

    // Set the partial derivative part w.r.t. the 2nd variable to 1.
    pub fn derivative2(mut self) -> Self
        ensures { result ≡ hyper_dual_derivative2 self }
    {
        self.eps2 = 1.0;
        self
    }
}

impl Record for HyperDual {
    ghost algebra = { hyper_dual_algebra };

    ghost layout = { hyper_dual_layout };

    ghost derivatives = { hyper_dual_derivatives };

    ghost NDERIV = { hyper_dual_nderiv };

    ghost laws = { hyper_dual_laws };

    const NDERIV: usize = 2;

    fn width() -> usize {
        4
    }

    fn re(self) -> f64 {
        self.re
    }

    fn from_re(re: f64) -> Self {
        Self {
            re,
            eps1: 0.0,
            eps2: 0.0,
            eps1eps2: 0.0,
        }
    }

    fn with_re(self, re: f64) -> Self {
        Self { re, ..self }
    }

    fn with_derivative(self, which: Derivative) -> Result<Self, Refusal> {
        match which {
            Derivative::First => Ok(self.derivative1()),
            Derivative::Second => Ok(self.derivative2()),
            _ => Err(Refusal::WrongLength),
        }
    }

    #[tactic(auto, unfolding(crate::specs::Rules::hyper_dual_add))]
    fn add(self, other: Self) -> Self {
        Self {
            re: self.re + other.re,
            eps1: self.eps1 + other.eps1,
            eps2: self.eps2 + other.eps2,
            eps1eps2: self.eps1eps2 + other.eps1eps2,
        }
    }

    #[tactic(auto, unfolding(crate::specs::Rules::hyper_dual_sub))]
    fn sub(self, other: Self) -> Self {
        Self {
            re: self.re - other.re,
            eps1: self.eps1 - other.eps1,
            eps2: self.eps2 - other.eps2,
            eps1eps2: self.eps1eps2 - other.eps1eps2,
        }
    }

    /* product rule */
    #[tactic(auto, unfolding(crate::specs::Rules::hyper_dual_mul))]
    fn mul(self, other: Self) -> Self {
        Self {
            re: self.re * other.re,
            eps1: other.eps1 * self.re + self.eps1 * other.re,
            eps2: other.eps2 * self.re + self.eps2 * other.re,
            eps1eps2: other.eps1eps2 * self.re
                + self.eps1 * other.eps2
                + other.eps1 * self.eps2
                + self.eps1eps2 * other.re,
        }
    }

    /* quotient rule */
    #[tactic(auto, unfolding(crate::specs::Rules::hyper_dual_div))]
    fn div(self, other: Self) -> Self {
        let inv = 1.0 / other.re;
        let inv2 = inv * inv;
        Self {
            re: self.re * inv,
            eps1: (self.eps1 * other.re - other.eps1 * self.re) * inv2,
            eps2: (self.eps2 * other.re - other.eps2 * self.re) * inv2,
            eps1eps2: self.eps1eps2 * inv
                - (other.eps1eps2 * self.re + self.eps1 * other.eps2 + other.eps1 * self.eps2)
                    * inv2
                + other.eps1 * other.eps2 * ((1.0 + 1.0) * self.re * inv2 * inv),
        }
    }

    #[tactic(auto, unfolding(crate::specs::Rules::hyper_dual_neg))]
    fn neg(self) -> Self {
        Self {
            re: -self.re,
            eps1: -self.eps1,
            eps2: -self.eps2,
            eps1eps2: -self.eps1eps2,
        }
    }

    #[tactic(auto, unfolding(crate::specs::Rules::hyper_dual_mul_float))]
    fn mul_float(self, other: f64) -> Self {
        Self {
            re: self.re * other,
            eps1: self.eps1 * other,
            eps2: self.eps2 * other,
            eps1eps2: self.eps1eps2 * other,
        }
    }

    #[tactic(auto, unfolding(crate::specs::Rules::hyper_dual_div_float))]
    fn div_float(self, other: f64) -> Self {
        Self {
            re: self.re / other,
            eps1: self.eps1 / other,
            eps2: self.eps2 / other,
            eps1eps2: self.eps1eps2 / other,
        }
    }

    /* chain rule */
    #[tactic(auto, unfolding(crate::specs::Rules::hyper_dual_chain))]
    fn chain(self, s: Series) -> Self {
        Self {
            re: s.f0,
            eps1: self.eps1 * s.f1,
            eps2: self.eps2 * s.f1,
            eps1eps2: self.eps1eps2 * s.f1 + self.eps1 * self.eps2 * s.f2,
        }
    }

    #[tactic(auto, using(crate::proofs::Flat::hyper_dual_held, crate::proofs::Flat::hyper_dual_read))]
    fn read(floats: &[f64], at: usize) -> Self {
        let first = records::place(floats.len(), 4, at);
        Self {
            re: floats[first],
            eps1: floats[first + 1],
            eps2: floats[first + 2],
            eps1eps2: floats[first + 3],
        }
    }

    #[tactic(auto, using(crate::proofs::Flat::hyper_dual_held, crate::proofs::Flat::hyper_dual_written))]
    fn write(floats: &mut [f64], at: usize, x: Self) {
        let first = records::place(floats.len(), 4, at);
        floats[first] = x.re;
        floats[first + 1] = x.eps1;
        floats[first + 2] = x.eps2;
        floats[first + 3] = x.eps1eps2;
    }
}

// Kept: by hand, since comparisons are only made based on the real part.
impl PartialEq for HyperDual {
    ghost eq = { on (λ x. x.re) eq };

    ghost laws = { on_floats_per (λ x. x.re) };

    fn eq(&self, other: &HyperDual) -> bool {
        self.re == other.re
    }
}

impl PartialOrd for HyperDual {
    ghost partial_cmp = { on (λ x. x.re) float_partial_cmp };

    ghost laws = { on_floats_po (λ x. x.re) };

    fn partial_cmp(&self, other: &HyperDual) -> Option<Ordering> {
        self.re.partial_cmp(&other.re)
    }
}

impl Compared for HyperDual {
    ghost equal = { λ x y. refl };

    ghost ordered = { λ x y. refl };
}
