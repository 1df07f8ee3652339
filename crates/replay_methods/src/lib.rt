// The records' own methods, where a call by number reaches what they do by another name: constants, scale, recip, inv, sqrt and the predicates. Each is asked for
// what the file has, over any record.

#![tactic(auto)]

ghost use Rattle.std.specs.Prelude.{◌≡◌, [], ◌∷◌, cond};
ghost use Rattle.algebra.specs.Flat.{record_at};
ghost use Rattle.floats.specs.Words.{floats_of};
ghost use Rattle.replay.specs.Same.{same_numbers};
ghost use Rattle.replay_methods.specs.Methods.{float_at, same_method};

use floats::words;
use records::{Compared, Record};
use refusals::LARGEST_WIDTH;
use replay::same::same_words;
use replay_matrices::same_record;

// Whether the file has 1 for what holds, 0 for what does not.
fn same_truth(wanted: &[u64], holds: bool) -> bool
    ensures { result ≡ same_numbers wanted.now (cond holds 1 0 ∷ []) }
{
    same_words(wanted, &[u64::from(holds)])
}

#[tactic(auto, unfolding(crate::specs::Methods::same_method))]
fn same_method<R: Compared>(function: u64, x: R, y: R, a: f64, wanted: &[u64]) -> bool
    ensures { result ≡ same_method R.algebra R.layout function x y a wanted.now }
{
    match function {
        0x01 => same_record(wanted, R::zero()),
        0x02 => same_record(wanted, R::one()),
        0x12 => same_record(wanted, x.scale(a)),
        0x18 => same_record(wanted, x.recip()),
        0x19 => same_record(wanted, x.inv()),
        0x1a => same_record(wanted, x.sqrt()),
        0x3b => same_truth(wanted, x == y),
        0x3c => same_truth(wanted, x < y),
        0x3d => same_truth(wanted, x <= y),
        0x3e => same_truth(wanted, x > y),
        0x3f => same_truth(wanted, x >= y),
        0x40 => same_truth(wanted, x.is_negative()),
        0x41 => same_truth(wanted, x.is_positive()),
        0x42 => same_truth(wanted, x.is_zero()),
        0x43 => same_truth(wanted, x.is_one()),
        _ => true,
    }
}

// Whether the method of that function, of the records that the words hold, gives the file's answer.
pub fn same<R: Compared>(function: u64, records: &[u64], floats: &[u64], wanted: &[u64]) -> bool
    ensures { result ≡ same_method R.algebra R.layout function (record_at R.layout (floats_of records.now) 0) (record_at R.layout (floats_of records.now) 1) (float_at floats.now 0) wanted.now }
{
    let mut lent = [0.0; 2 * LARGEST_WIDTH];
    words::read(records, &mut lent);
    let x = R::read(&lent, 0);
    let y = R::read(&lent, 1);
    same_method(function, x, y, words::part(floats, 0), wanted)
}
