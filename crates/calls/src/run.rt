// What a call leaves over any record: of a function number, of an operation on two records, of a sum and a product.
ghost use Rattle.std.specs.Prelude.{◌≡◌, length};
ghost use Rattle.refusals.specs.Refused.{answer_number};
ghost use Rattle.algebra.specs.Outcome.{outcome, map_outcome};
ghost use Rattle.floats.specs.Words.{words_of};
ghost use Rattle.calls.specs.Called.{kind_of, Sized, answer_of, leaves, called_of, operated_of, joined_left, summed_of, multiplied_of};

use crate::operations::{binary, operate};
use crate::table::Call;
use crate::{Binary, predicates, table};
use floats::words;
use records::Record;
use refusals::{LARGEST_WIDTH, Refusal};

// The words of a record to out.
fn put<R: Record>(x: R, out: &mut [u64])
    requires { length out.old ≡ R.layout.width }
    ensures { out.new ≡ words_of (R.layout.parts x) }
{
    let mut parts = [0.0; LARGEST_WIDTH];
    let parts = &mut parts[..R::width()];
    R::write(parts, 0, x);
    words::put(parts, out);
}

// What a call leaves, where out has its size.
fn run<R: Record>(call: Call, x: R, y: R, z: R, out: &mut [u64]) -> Result<(), Refusal>
    requires { Sized R.layout.width (length out.old) call }
    ensures { (answer_number result, out.new) ≡ leaves (map_outcome words_of (answer_of (kind_of R.algebra R.layout R.NDERIV R.derivatives) call x y z)) out.old }
{
    match call {
        Call::Truth(predicate) => words::put_one(predicates::truth(predicate, x.re(), y.re()), out),
        Call::SinCos { sin, cos } => {
            let (s, c) = x.sin_cos(sin, cos);
            put(s, &mut out[..R::width()]);
            put(c, &mut out[R::width()..]);
        }
        Call::Record(op) => put(operate(op, x, y, z)?, out),
    }
    Ok(())
}

// A call by function number, or its refusal with nothing written.
pub fn call<R: Record>(
    function: u32,
    exponent: i32,
    records: &[u64],
    floats: &[u64],
    out: &mut [u64],
) -> Result<(), Refusal>
    ensures { (answer_number result, out.new) ≡ called_of (kind_of R.algebra R.layout R.NDERIV R.derivatives) function exponent records.now floats.now out.old }
{
    let call = table::call_of(
        R::width(),
        function,
        exponent,
        records.len(),
        floats,
        out.len(),
    )
    .ok_or(Refusal::WrongLength)?;
    let mut lent = [0.0; 3 * LARGEST_WIDTH];
    let lent = &mut lent[..3 * R::width()];
    words::read(records, lent);
    let x = R::read(lent, 0);
    let y = R::read(lent, 1);
    let z = R::read(lent, 2);
    run(call, x, y, z, out)
}

// An operation on two records, without the table: what `call` leaves for its number and no floats.
pub fn operator<R: Record>(op: Binary, records: &[u64], out: &mut [u64]) -> Result<(), Refusal>
    ensures { (answer_number result, out.new) ≡ operated_of (kind_of R.algebra R.layout R.NDERIV R.derivatives) op records.now out.old }
{
    if records.len() != 2 * R::width() {
        return Err(Refusal::WrongLength);
    }
    if out.len() != R::width() {
        return Err(Refusal::WrongLength);
    }
    let mut lent = [0.0; 2 * LARGEST_WIDTH];
    words::read(records, &mut lent);
    let x = R::read(&lent, 0);
    let y = R::read(&lent, 1);
    put(binary(op, x, y), out);
    Ok(())
}

// A record's parts to out, or its refusal.
fn leave<R: Record>(answer: Result<R, Refusal>, out: &mut [f64]) -> Result<(), Refusal>
    ensures { (answer_number result, out.new) ≡ joined_left (kind_of R.algebra R.layout R.NDERIV R.derivatives) (outcome answer) out.old }
{
    if out.len() != R::width() {
        return Err(Refusal::WrongLength);
    }
    R::write(out, 0, answer?);
    Ok(())
}

// The sum of the records of a run.
#[tactic(auto, unfolding(crate::specs::Called::summed_of))]
pub fn sum<R: Record>(run: &[f64], out: &mut [f64]) -> Result<(), Refusal>
    ensures { (answer_number result, out.new) ≡ summed_of (kind_of R.algebra R.layout R.NDERIV R.derivatives) run.now out.old }
{
    leave(R::sum(run), out)
}

// The product of the records of a run.
#[tactic(auto, unfolding(crate::specs::Called::multiplied_of))]
pub fn product<R: Record>(run: &[f64], out: &mut [f64]) -> Result<(), Refusal>
    ensures { (answer_number result, out.new) ≡ multiplied_of (kind_of R.algebra R.layout R.NDERIV R.derivatives) run.now out.old }
{
    leave(R::product(run), out)
}
