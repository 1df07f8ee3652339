// What an operation gives over any record.
ghost use Rattle.std.specs.Prelude.{◌≡◌};
ghost use Rattle.algebra.specs.Outcome.{outcome};
ghost use Rattle.calls.specs.Called.{kind_of, unary_of, binary_of, by_float_of, operate_of};

use crate::{Binary, ByFloat, Operation, Unary};
use records::Record;
use refusals::Refusal;

fn unary<R: Record>(op: Unary, x: R) -> R
    ensures { result ≡ unary_of (kind_of R.algebra R.layout R.NDERIV R.derivatives) op x }
{
    match op {
        Unary::Neg => x.neg(),
        Unary::Abs => x.abs(),
        Unary::Signum => x.signum(),
    }
}

pub(crate) fn binary<R: Record>(op: Binary, x: R, y: R) -> R
    ensures { result ≡ binary_of (kind_of R.algebra R.layout R.NDERIV R.derivatives) op x y }
{
    match op {
        Binary::Add => x.add(y),
        Binary::Sub => x.sub(y),
        Binary::Mul => x.mul(y),
        Binary::Div => x.div(y),
        Binary::AbsSub => x.abs_sub(y),
    }
}

fn by_float<R: Record>(op: ByFloat, x: R, f: f64) -> R
    ensures { result ≡ by_float_of (kind_of R.algebra R.layout R.NDERIV R.derivatives) op x f }
{
    match op {
        ByFloat::Mul => x.mul_float(f),
        ByFloat::Div => x.div_float(f),
        ByFloat::Add => x.add_float(f),
        ByFloat::Sub => x.sub_float(f),
    }
}

// What gives one record.
pub(crate) fn operate<R: Record>(op: Operation, x: R, y: R, z: R) -> Result<R, Refusal>
    ensures { outcome result ≡ operate_of (kind_of R.algebra R.layout R.NDERIV R.derivatives) op x y z }
{
    match op {
        Operation::FromRe(re) => Ok(R::from_re(re)),
        Operation::Derivative(which) => x.with_derivative(which),
        Operation::Unary(op) => Ok(unary(op, x)),
        Operation::Binary(op) => Ok(binary(op, x, y)),
        Operation::ByFloat(op, f) => Ok(by_float(op, x, f)),
        Operation::Atan2 { atan, quadrant } => Ok(x.atan2(y, atan, quadrant)),
        Operation::MulAdd => Ok(x.mul_add(y, z)),
        Operation::Powd { ln, exp } => Ok(x.powd(y, ln, exp)),
        Operation::Request(f) => x.apply(f),
    }
}
