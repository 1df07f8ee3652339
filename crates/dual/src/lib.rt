// Dual numbers for first derivatives: datatypes/dual.rs. The rules of the record, its layout in flat floats
// and its comparisons; what every record type has stands in the trait `Record`.
// Kept: rules that go part by part stand in each record, as in its own source: no macro of a repository may write an `impl`.

#![tactic(auto)]

ghost use Rattle.std.specs.Prelude.{◌≡◌, refl};
ghost use Rattle.std.specs.Float.Ieee.{eq};
ghost use Rattle.std.specs.Ordering.{float_partial_cmp, on};
ghost use Rattle.std.specs.Float.Cmp.{on_floats_per, on_floats_po};
ghost use Rattle.dual.specs.Rules.{dual, dual_derivative, dual_derivatives, dual_algebra, dual_layout, dual_nderiv};
ghost use Rattle.dual.specs.Laws.{dual_laws};

use derivatives::Series;
use records::{Compared, Derivative, Record};
use refusals::Refusal;
use std::cmp::Ordering;

#[derive(Clone, Copy, Debug)]
pub struct Dual {
    // Real part of the dual number
    pub re: f64,
    // Derivative part of the dual number
    pub eps: f64,
}

impl Dual {
    // Create a new dual number from its fields.
    pub fn new(re: f64, eps: f64) -> Self
        ensures { result ≡ dual re eps }
    {
        Self { re, eps }
    }

    // Set the derivative part to 1.
    pub fn derivative(mut self) -> Self
        ensures { result ≡ dual_derivative self }
    {
        self.eps = 1.0;
        self
    }
}

impl Record for Dual {
    ghost algebra = { dual_algebra };

    ghost layout = { dual_layout };

    ghost derivatives = { dual_derivatives };

    ghost NDERIV = { dual_nderiv };

    ghost laws = { dual_laws };

    const NDERIV: usize = 1;

    fn width() -> usize {
        2
    }

    fn re(self) -> f64 {
        self.re
    }

    fn from_re(re: f64) -> Self {
        Self { re, eps: 0.0 }
    }

    fn with_re(self, re: f64) -> Self {
        Self { re, ..self }
    }

    fn with_derivative(self, which: Derivative) -> Result<Self, Refusal> {
        match which {
            Derivative::Only => Ok(self.derivative()),
            _ => Err(Refusal::WrongLength),
        }
    }

    #[tactic(auto, unfolding(crate::specs::Rules::dual_add))]
    fn add(self, other: Self) -> Self {
        Self {
            re: self.re + other.re,
            eps: self.eps + other.eps,
        }
    }

    #[tactic(auto, unfolding(crate::specs::Rules::dual_sub))]
    fn sub(self, other: Self) -> Self {
        Self {
            re: self.re - other.re,
            eps: self.eps - other.eps,
        }
    }

    /* product rule */
    #[tactic(auto, unfolding(crate::specs::Rules::dual_mul))]
    fn mul(self, other: Self) -> Self {
        Self {
            re: self.re * other.re,
            eps: self.eps * other.re + other.eps * self.re,
        }
    }

    /* quotient rule */
    #[tactic(auto, unfolding(crate::specs::Rules::dual_div))]
    fn div(self, other: Self) -> Self {
        let inv = 1.0 / other.re;
        Self {
            re: self.re * inv,
            eps: (self.eps * other.re - other.eps * self.re) * inv * inv,
        }
    }

    #[tactic(auto, unfolding(crate::specs::Rules::dual_neg))]
    fn neg(self) -> Self {
        Self {
            re: -self.re,
            eps: -self.eps,
        }
    }

    #[tactic(auto, unfolding(crate::specs::Rules::dual_mul_float))]
    fn mul_float(self, other: f64) -> Self {
        Self {
            re: self.re * other,
            eps: self.eps * other,
        }
    }

    #[tactic(auto, unfolding(crate::specs::Rules::dual_div_float))]
    fn div_float(self, other: f64) -> Self {
        Self {
            re: self.re / other,
            eps: self.eps / other,
        }
    }

    /* chain rule */
    #[tactic(auto, unfolding(crate::specs::Rules::dual_chain))]
    fn chain(self, s: Series) -> Self {
        Self {
            re: s.f0,
            eps: self.eps * s.f1,
        }
    }

    #[tactic(auto, using(crate::proofs::Flat::dual_held, crate::proofs::Flat::dual_read))]
    fn read(floats: &[f64], at: usize) -> Self {
        let first = records::place(floats.len(), 2, at);
        Self {
            re: floats[first],
            eps: floats[first + 1],
        }
    }

    #[tactic(auto, using(crate::proofs::Flat::dual_held, crate::proofs::Flat::dual_written))]
    fn write(floats: &mut [f64], at: usize, x: Self) {
        let first = records::place(floats.len(), 2, at);
        floats[first] = x.re;
        floats[first + 1] = x.eps;
    }
}

// Kept: by hand, since comparisons are only made based on the real part.
impl PartialEq for Dual {
    ghost eq = { on (λ x. x.re) eq };

    ghost laws = { on_floats_per (λ x. x.re) };

    fn eq(&self, other: &Dual) -> bool {
        self.re == other.re
    }
}

impl PartialOrd for Dual {
    ghost partial_cmp = { on (λ x. x.re) float_partial_cmp };

    ghost laws = { on_floats_po (λ x. x.re) };

    fn partial_cmp(&self, other: &Dual) -> Option<Ordering> {
        self.re.partial_cmp(&other.re)
    }
}

impl Compared for Dual {
    ghost equal = { λ x y. refl };

    ghost ordered = { λ x y. refl };
}
