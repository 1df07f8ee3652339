// The operations, requests, sums and products of the five record types. A kind is a number: 1 `Dual`, 2 `Dual2`, 3 `Dual3`, 4 `HyperDual`, 5 `HyperHyperDual`.
// Kept: the parameters and the numbers that are answered are those of the C interface.
// Kept: the same match in each; tried `Kind::try_from(kind).and_then(..)`, and the proof did not close: that contract does not say that `out` stays where the closure is not called.
ghost use Rattle.std.specs.Prelude.{◌≡◌};
ghost use Rattle.exports.specs.ByKind.{record_left, sum_left, product_left};

use kinds::Kind;
use refusals::answer_number;

// A function by its number in oracle/README.md ("Functions"), over words. `records` holds the records that it takes, self first, `floats` its plain and outside floats in the
// table's order, `out` as many words as it gives: those of one record, of two for sin_cos, of one float for a truth (1.0 or 0.0). powi alone reads `exponent`. Another kind, function
// or length is refused 2, then powi's exponent 5.
#[tactic(auto, unfolding(crate::specs::ByKind::record_left))]
pub fn evindrast_record(
    kind: u32,
    function: u32,
    exponent: i32,
    records: &[u64],
    floats: &[u64],
    out: &mut [u64],
) -> u32
    ensures { (result, out.new) ≡ record_left kind function exponent records.now floats.now out.old }
{
    match Kind::try_from(kind) {
        Ok(kind) => answer_number(kind.call(function, exponent, records, floats, out)),
        Err(refusal) => refusal.number(),
    }
}

// The sum of the records of a run, from zero, left to right; `out` is one record. Another kind, or a length of no whole records, is refused 2.
#[tactic(auto, unfolding(crate::specs::ByKind::sum_left))]
pub fn evindrast_sum(kind: u32, run: &[f64], out: &mut [f64]) -> u32
    ensures { (result, out.new) ≡ sum_left kind run.now out.old }
{
    match Kind::try_from(kind) {
        Ok(kind) => answer_number(kind.sum(run, out)),
        Err(refusal) => refusal.number(),
    }
}

// The product of the records of a run, from one, left to right; else as the sum.
#[tactic(auto, unfolding(crate::specs::ByKind::product_left))]
pub fn evindrast_product(kind: u32, run: &[f64], out: &mut [f64]) -> u32
    ensures { (result, out.new) ≡ product_left kind run.now out.old }
{
    match Kind::try_from(kind) {
        Ok(kind) => answer_number(kind.product(run, out)),
        Err(refusal) => refusal.number(),
    }
}
