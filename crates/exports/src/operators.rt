// The operators of two records, each by a function of its own: what `evindrast_record` leaves for its number and no floats, without the table.
// Kept: the parameters and the numbers that are answered are those of the C interface.
// Kept: the match is that of record.rt; tried `Kind::try_from(kind).and_then(..)`, and the proof did not close: that contract does not say that `out` stays where the closure is not called.
ghost use Rattle.std.specs.Prelude.{◌≡◌, [], pos};
ghost use Rattle.calls.specs.Called.{binary_number};
ghost use Rattle.calls.specs.declared.Binary.TheVariants.{Add, Sub, Mul, Div};
ghost use Rattle.exports.specs.ByKind.{record_left};

use calls::Binary;
use kinds::Kind;
use refusals::answer_number;

// An operation on two records of that kind, self first. Another kind or length is refused 2.
#[tactic(auto, unfolding(crate::specs::ByKind::record_left, calls::specs::Called::operated_of))]
fn operator(kind: u32, op: Binary, records: &[u64], out: &mut [u64]) -> u32
    ensures { (result, out.new) ≡ record_left kind (binary_number op) (pos 0) records.now [] out.old }
{
    match Kind::try_from(kind) {
        Ok(kind) => answer_number(kind.operator(op, records, out)),
        Err(refusal) => refusal.number(),
    }
}

// The sum of two records: function 09.
pub fn evindrast_add(kind: u32, records: &[u64], out: &mut [u64]) -> u32
    ensures { (result, out.new) ≡ record_left kind (binary_number Add) (pos 0) records.now [] out.old }
{
    operator(kind, Binary::Add, records, out)
}

// The difference of two records: function 0a.
pub fn evindrast_sub(kind: u32, records: &[u64], out: &mut [u64]) -> u32
    ensures { (result, out.new) ≡ record_left kind (binary_number Sub) (pos 0) records.now [] out.old }
{
    operator(kind, Binary::Sub, records, out)
}

// The product of two records: function 0b.
pub fn evindrast_mul(kind: u32, records: &[u64], out: &mut [u64]) -> u32
    ensures { (result, out.new) ≡ record_left kind (binary_number Mul) (pos 0) records.now [] out.old }
{
    operator(kind, Binary::Mul, records, out)
}

// The quotient of two records: function 0c.
pub fn evindrast_div(kind: u32, records: &[u64], out: &mut [u64]) -> u32
    ensures { (result, out.new) ≡ record_left kind (binary_number Div) (pos 0) records.now [] out.old }
{
    operator(kind, Binary::Div, records, out)
}
