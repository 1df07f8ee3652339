// Questions of real parts that are true or false, the same for every record.
ghost use Rattle.std.specs.Prelude.{◌≡◌};
ghost use Rattle.calls.specs.Called.{holds, truth};

use crate::Predicate;

fn holds(predicate: Predicate, a: f64, b: f64) -> bool
    ensures { result ≡ holds predicate a b }
{
    match predicate {
        Predicate::Eq => a == b,
        Predicate::Lt => a < b,
        Predicate::Le => a <= b,
        Predicate::Gt => a > b,
        Predicate::Ge => a >= b,
        Predicate::IsNegative => real::is_negative(a),
        Predicate::IsPositive => !real::is_negative(a),
        Predicate::IsZero => a == 0.0,
        Predicate::IsOne => a == 1.0,
    }
}

// 1.0 where the predicate holds of the real parts a and b, else 0.0.
pub fn truth(predicate: Predicate, a: f64, b: f64) -> f64
    ensures { result ≡ truth (holds predicate a b) }
{
    if holds(predicate, a, b) { 1.0 } else { 0.0 }
}
