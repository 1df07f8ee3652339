// The five record types by kind: what C asks for by a number, and what a call over each leaves.

#![tactic(auto)]

ghost use Rattle.std.specs.Prelude.{◌≡◌, ◌≤◌, ◌<◌};
ghost use Rattle.refusals.specs.Largest as largest;
ghost use Rattle.refusals.specs.Refused.{answer_number};
ghost use Rattle.kinds.specs.Kinds.{kind_at, over, called_by, operated_by, summed_by, multiplied_by};

use calls::Binary;
use dual::Dual;
use dual2::Dual2;
use dual3::Dual3;
use hyperdual::HyperDual;
use hyperhyperdual::HyperHyperDual;
use records::Record;
use refusals::Refusal;

#[derive(Clone, Copy, Debug, PartialEq, Eq)]
pub enum Kind {
    Dual,
    Dual2,
    Dual3,
    HyperDual,
    HyperHyperDual,
}

// By the numbers of the C interface.
impl TryFrom<u32> for Kind {
    type Error = Refusal;

    ghost try_from_gives = { λ number r. r ≡ kind_at number };

    fn try_from(number: u32) -> Result<Self, Refusal> {
        match number {
            1 => Ok(Kind::Dual),
            2 => Ok(Kind::Dual2),
            3 => Ok(Kind::Dual3),
            4 => Ok(Kind::HyperDual),
            5 => Ok(Kind::HyperHyperDual),
            _ => Err(Refusal::WrongLength),
        }
    }
}

// Kept: a match for each, since one dispatch would need a trait, and for each call a struct of what it lends with an impl of that trait.
impl Kind {
    // How many floats a record has.
    pub fn width(self) -> usize
        ensures is { result ≡ over (λ R K. K.layout.width) self }
        ensures positive { 0 < result }
        ensures narrow { result ≤ largest.width }
    {
        match self {
            Kind::Dual => Dual::width(),
            Kind::Dual2 => Dual2::width(),
            Kind::Dual3 => Dual3::width(),
            Kind::HyperDual => HyperDual::width(),
            Kind::HyperHyperDual => HyperHyperDual::width(),
        }
    }

    // The highest order of a derivative that a record carries.
    pub fn nderiv(self) -> usize
        ensures { result ≡ over (λ R K. K.nderiv) self }
    {
        match self {
            Kind::Dual => Dual::NDERIV,
            Kind::Dual2 => Dual2::NDERIV,
            Kind::Dual3 => Dual3::NDERIV,
            Kind::HyperDual => HyperDual::NDERIV,
            Kind::HyperHyperDual => HyperHyperDual::NDERIV,
        }
    }

    // A call by function number.
    pub fn call(
        self,
        function: u32,
        exponent: i32,
        records: &[u64],
        floats: &[u64],
        out: &mut [u64],
    ) -> Result<(), Refusal>
        ensures { (answer_number result, out.new) ≡ called_by self function exponent records.now floats.now out.old }
    {
        match self {
            Kind::Dual => calls::call::<Dual>(function, exponent, records, floats, out),
            Kind::Dual2 => calls::call::<Dual2>(function, exponent, records, floats, out),
            Kind::Dual3 => calls::call::<Dual3>(function, exponent, records, floats, out),
            Kind::HyperDual => calls::call::<HyperDual>(function, exponent, records, floats, out),
            Kind::HyperHyperDual => {
                calls::call::<HyperHyperDual>(function, exponent, records, floats, out)
            }
        }
    }

    // An operation on two records.
    pub fn operator(self, op: Binary, records: &[u64], out: &mut [u64]) -> Result<(), Refusal>
        ensures { (answer_number result, out.new) ≡ operated_by self op records.now out.old }
    {
        match self {
            Kind::Dual => calls::operator::<Dual>(op, records, out),
            Kind::Dual2 => calls::operator::<Dual2>(op, records, out),
            Kind::Dual3 => calls::operator::<Dual3>(op, records, out),
            Kind::HyperDual => calls::operator::<HyperDual>(op, records, out),
            Kind::HyperHyperDual => calls::operator::<HyperHyperDual>(op, records, out),
        }
    }

    // The sum of the records of a run.
    pub fn sum(self, run: &[f64], out: &mut [f64]) -> Result<(), Refusal>
        ensures { (answer_number result, out.new) ≡ summed_by self run.now out.old }
    {
        match self {
            Kind::Dual => calls::sum::<Dual>(run, out),
            Kind::Dual2 => calls::sum::<Dual2>(run, out),
            Kind::Dual3 => calls::sum::<Dual3>(run, out),
            Kind::HyperDual => calls::sum::<HyperDual>(run, out),
            Kind::HyperHyperDual => calls::sum::<HyperHyperDual>(run, out),
        }
    }

    // The product of the records of a run.
    pub fn product(self, run: &[f64], out: &mut [f64]) -> Result<(), Refusal>
        ensures { (answer_number result, out.new) ≡ multiplied_by self run.now out.old }
    {
        match self {
            Kind::Dual => calls::product::<Dual>(run, out),
            Kind::Dual2 => calls::product::<Dual2>(run, out),
            Kind::Dual3 => calls::product::<Dual3>(run, out),
            Kind::HyperDual => calls::product::<HyperDual>(run, out),
            Kind::HyperHyperDual => calls::product::<HyperHyperDual>(run, out),
        }
    }
}
