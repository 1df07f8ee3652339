// The sum and the product of a lent run of `Dual` records: document 01's two thin functions over `&[Dual]`, beside those over flat floats.

#![tactic(auto)]

ghost use Rattle.std.specs.Prelude.{◌≡◌};
ghost use Rattle.algebra.specs.Algebra.{zero_of, one_of};
ghost use Rattle.dual.specs.Rules.{dual_add, dual_mul, dual_algebra};
ghost use Rattle.dual_runs.specs.Runs.{joined};

use dual::Dual;
use records::Record;

// From zero, left to right.
pub fn sum(records: &[Dual]) -> Dual
    ensures { result ≡ joined dual_add (zero_of dual_algebra) records.now }
{
    records.iter().fold(Dual::zero(), |acc, x| acc.add(*x))
}

// From one, left to right.
pub fn product(records: &[Dual]) -> Dual
    ensures { result ≡ joined dual_mul (one_of dual_algebra) records.now }
{
    records.iter().fold(Dual::one(), |acc, x| acc.mul(*x))
}
