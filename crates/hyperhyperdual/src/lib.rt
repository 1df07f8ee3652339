// Hyper-hyper-dual numbers for third partial derivatives: datatypes/hyperhyperdual.rs. The rules of the record, its layout in flat floats
// and its comparisons; what every record type has stands in the trait `Record`.
// Kept: rules that go part by part stand in each record, as in its own source: no macro of a repository may write an `impl`.

#![tactic(auto)]

ghost use Rattle.std.specs.Prelude.{◌≡◌, refl};
ghost use Rattle.std.specs.Float.Ieee.{eq};
ghost use Rattle.std.specs.Ordering.{float_partial_cmp, on};
ghost use Rattle.std.specs.Float.Cmp.{on_floats_per, on_floats_po};
ghost use Rattle.hyperhyperdual.specs.Rules.{hyper_hyper_dual, hyper_hyper_dual_derivative1, hyper_hyper_dual_derivative2, hyper_hyper_dual_derivative3, hyper_hyper_dual_derivatives, hyper_hyper_dual_algebra, hyper_hyper_dual_layout, hyper_hyper_dual_nderiv};
ghost use Rattle.hyperhyperdual.specs.Laws.{hyper_hyper_dual_laws};

use derivatives::Series;
use records::{Compared, Derivative, Record, ThirdDerivative};
use refusals::Refusal;
use std::cmp::Ordering;

#[derive(Clone, Copy, Debug)]
pub struct HyperHyperDual {
    // Real part of the hyper-hyper-dual number
    pub re: f64,
    // First partial derivative part of the hyper-hyper-dual number
    pub eps1: f64,
    // First partial derivative part of the hyper-hyper-dual number
    pub eps2: f64,
    // First partial derivative part of the hyper-hyper-dual number
    pub eps3: f64,
    // Second partial derivative part of the hyper-hyper-dual number
    pub eps1eps2: f64,
    // Second partial derivative part of the hyper-hyper-dual number
    pub eps1eps3: f64,
    // Second partial derivative part of the hyper-hyper-dual number
    pub eps2eps3: f64,
    // Third partial derivative part of the hyper-hyper-dual number
    pub eps1eps2eps3: f64,
}

impl HyperHyperDual {
    // Create a new hyper-hyper-dual number from its fields.
    pub fn new(
        re: f64,
        eps1: f64,
        eps2: f64,
        eps3: f64,
        eps1eps2: f64,
        eps1eps3: f64,
        eps2eps3: f64,
        eps1eps2eps3: f64,
    ) -> Self
        ensures { result ≡ hyper_hyper_dual re eps1 eps2 eps3 eps1eps2 eps1eps3 eps2eps3 eps1eps2eps3 }
    {
        Self {
            re,
            eps1,
            eps2,
            eps3,
            eps1eps2,
            eps1eps3,
            eps2eps3,
            eps1eps2eps3,
        }
    }

    // Set the partial derivative part w.r.t. the 1st variable to 1.
    pub fn derivative1(mut self) -> Self
        ensures { result ≡ hyper_hyper_dual_derivative1 self }
    {
        self.eps1 = 1.0;
        self
    }

    // Set the partial derivative part w.r.t. the 2nd variable to 1.
    pub fn derivative2(mut self) -> Self
        ensures { result ≡ hyper_hyper_dual_derivative2 self }
    {
        self.eps2 = 1.0;
        self
    }

    // Set the partial derivative part w.r.t. the 3rd variable to 1.
    pub fn derivative3(mut self) -> Self
        ensures { result ≡ hyper_hyper_dual_derivative3 self }
    {
        self.eps3 = 1.0;
        self
    }
}

impl Record for HyperHyperDual {
    ghost algebra = { hyper_hyper_dual_algebra };

    ghost layout = { hyper_hyper_dual_layout };

    ghost derivatives = { hyper_hyper_dual_derivatives };

    ghost NDERIV = { hyper_hyper_dual_nderiv };

    ghost laws = { hyper_hyper_dual_laws };

    const NDERIV: usize = 3;

    fn width() -> usize {
        8
    }

    fn re(self) -> f64 {
        self.re
    }

    fn from_re(re: f64) -> Self {
        Self {
            re,
            eps1: 0.0,
            eps2: 0.0,
            eps3: 0.0,
            eps1eps2: 0.0,
            eps1eps3: 0.0,
            eps2eps3: 0.0,
            eps1eps2eps3: 0.0,
        }
    }

    fn with_re(self, re: f64) -> Self {
        Self { re, ..self }
    }

    fn with_derivative(self, which: Derivative) -> Result<Self, Refusal> {
        match which {
            Derivative::First => Ok(self.derivative1()),
            Derivative::Second => Ok(self.derivative2()),
            Derivative::Third => Ok(self.derivative3()),
            _ => Err(Refusal::WrongLength),
        }
    }

    #[tactic(auto, unfolding(crate::specs::Rules::hyper_hyper_dual_add))]
    fn add(self, other: Self) -> Self {
        Self {
            re: self.re + other.re,
            eps1: self.eps1 + other.eps1,
            eps2: self.eps2 + other.eps2,
            eps3: self.eps3 + other.eps3,
            eps1eps2: self.eps1eps2 + other.eps1eps2,
            eps1eps3: self.eps1eps3 + other.eps1eps3,
            eps2eps3: self.eps2eps3 + other.eps2eps3,
            eps1eps2eps3: self.eps1eps2eps3 + other.eps1eps2eps3,
        }
    }

    #[tactic(auto, unfolding(crate::specs::Rules::hyper_hyper_dual_sub))]
    fn sub(self, other: Self) -> Self {
        Self {
            re: self.re - other.re,
            eps1: self.eps1 - other.eps1,
            eps2: self.eps2 - other.eps2,
            eps3: self.eps3 - other.eps3,
            eps1eps2: self.eps1eps2 - other.eps1eps2,
            eps1eps3: self.eps1eps3 - other.eps1eps3,
            eps2eps3: self.eps2eps3 - other.eps2eps3,
            eps1eps2eps3: self.eps1eps2eps3 - other.eps1eps2eps3,
        }
    }

    /* product rule */
    #[tactic(auto, unfolding(crate::specs::Rules::hyper_hyper_dual_mul))]
    fn mul(self, rhs: Self) -> Self {
        Self {
            re: self.re * rhs.re,
            eps1: self.eps1 * rhs.re + self.re * rhs.eps1,
            eps2: self.eps2 * rhs.re + self.re * rhs.eps2,
            eps3: self.eps3 * rhs.re + self.re * rhs.eps3,
            eps1eps2: self.eps1eps2 * rhs.re
                + self.eps1 * rhs.eps2
                + self.eps2 * rhs.eps1
                + self.re * rhs.eps1eps2,
            eps1eps3: self.eps1eps3 * rhs.re
                + self.eps1 * rhs.eps3
                + self.eps3 * rhs.eps1
                + self.re * rhs.eps1eps3,
            eps2eps3: self.eps2eps3 * rhs.re
                + self.eps2 * rhs.eps3
                + self.eps3 * rhs.eps2
                + self.re * rhs.eps2eps3,
            eps1eps2eps3: self.eps1eps2eps3 * rhs.re
                + self.eps1 * rhs.eps2eps3
                + self.eps2 * rhs.eps1eps3
                + self.eps3 * rhs.eps1eps2
                + self.eps2eps3 * rhs.eps1
                + self.eps1eps3 * rhs.eps2
                + self.eps1eps2 * rhs.eps3
                + self.re * rhs.eps1eps2eps3,
        }
    }

    // The product with the chain rule of the reciprocal. The source writes the derivatives of `recip` out here once more.
    #[tactic(auto, unfolding(crate::specs::Rules::hyper_hyper_dual_div))]
    fn div(self, rhs: Self) -> Self {
        self.mul(rhs.chain(Series::recip(rhs.re)))
    }

    #[tactic(auto, unfolding(crate::specs::Rules::hyper_hyper_dual_neg))]
    fn neg(self) -> Self {
        Self {
            re: -self.re,
            eps1: -self.eps1,
            eps2: -self.eps2,
            eps3: -self.eps3,
            eps1eps2: -self.eps1eps2,
            eps1eps3: -self.eps1eps3,
            eps2eps3: -self.eps2eps3,
            eps1eps2eps3: -self.eps1eps2eps3,
        }
    }

    #[tactic(auto, unfolding(crate::specs::Rules::hyper_hyper_dual_mul_float))]
    fn mul_float(self, other: f64) -> Self {
        Self {
            re: self.re * other,
            eps1: self.eps1 * other,
            eps2: self.eps2 * other,
            eps3: self.eps3 * other,
            eps1eps2: self.eps1eps2 * other,
            eps1eps3: self.eps1eps3 * other,
            eps2eps3: self.eps2eps3 * other,
            eps1eps2eps3: self.eps1eps2eps3 * other,
        }
    }

    #[tactic(auto, unfolding(crate::specs::Rules::hyper_hyper_dual_div_float))]
    fn div_float(self, other: f64) -> Self {
        Self {
            re: self.re / other,
            eps1: self.eps1 / other,
            eps2: self.eps2 / other,
            eps3: self.eps3 / other,
            eps1eps2: self.eps1eps2 / other,
            eps1eps3: self.eps1eps3 / other,
            eps2eps3: self.eps2eps3 / other,
            eps1eps2eps3: self.eps1eps2eps3 / other,
        }
    }

    /* chain rule */
    #[tactic(auto, unfolding(crate::specs::Rules::hyper_hyper_dual_chain))]
    fn chain(self, s: Series) -> Self {
        Self {
            re: s.f0,
            eps1: s.f1 * self.eps1,
            eps2: s.f1 * self.eps2,
            eps3: s.f1 * self.eps3,
            eps1eps2: s.f1 * self.eps1eps2 + s.f2 * self.eps1 * self.eps2,
            eps1eps3: s.f1 * self.eps1eps3 + s.f2 * self.eps1 * self.eps3,
            eps2eps3: s.f1 * self.eps2eps3 + s.f2 * self.eps2 * self.eps3,
            eps1eps2eps3: s.f1 * self.eps1eps2eps3
                + s.f2
                    * (self.eps1 * self.eps2eps3
                        + self.eps2 * self.eps1eps3
                        + self.eps3 * self.eps1eps2)
                + s.f3 * self.eps1 * self.eps2 * self.eps3,
        }
    }

    #[tactic(auto, using(crate::proofs::Flat::hyper_hyper_dual_held, crate::proofs::Flat::hyper_hyper_dual_read))]
    fn read(floats: &[f64], at: usize) -> Self {
        let first = records::place(floats.len(), 8, at);
        Self {
            re: floats[first],
            eps1: floats[first + 1],
            eps2: floats[first + 2],
            eps3: floats[first + 3],
            eps1eps2: floats[first + 4],
            eps1eps3: floats[first + 5],
            eps2eps3: floats[first + 6],
            eps1eps2eps3: floats[first + 7],
        }
    }

    #[tactic(auto, using(crate::proofs::Flat::hyper_hyper_dual_held, crate::proofs::Flat::hyper_hyper_dual_written))]
    fn write(floats: &mut [f64], at: usize, x: Self) {
        let first = records::place(floats.len(), 8, at);
        floats[first] = x.re;
        floats[first + 1] = x.eps1;
        floats[first + 2] = x.eps2;
        floats[first + 3] = x.eps3;
        floats[first + 4] = x.eps1eps2;
        floats[first + 5] = x.eps1eps3;
        floats[first + 6] = x.eps2eps3;
        floats[first + 7] = x.eps1eps2eps3;
    }
}

impl ThirdDerivative for HyperHyperDual {}

// Kept: by hand, since comparisons are only made based on the real part.
impl PartialEq for HyperHyperDual {
    ghost eq = { on (λ x. x.re) eq };

    ghost laws = { on_floats_per (λ x. x.re) };

    fn eq(&self, other: &HyperHyperDual) -> bool {
        self.re == other.re
    }
}

impl PartialOrd for HyperHyperDual {
    ghost partial_cmp = { on (λ x. x.re) float_partial_cmp };

    ghost laws = { on_floats_po (λ x. x.re) };

    fn partial_cmp(&self, other: &HyperHyperDual) -> Option<Ordering> {
        self.re.partial_cmp(&other.re)
    }
}

impl Compared for HyperHyperDual {
    ghost equal = { λ x y. refl };

    ghost ordered = { λ x y. refl };
}
