// What a record type answers to a case, by its function's number (oracle/README.md), and whether it is what the file has.
// Kept: the lent rooms of one case, run, left and out, are each read by other lines; a struct of them would be made and taken apart in each function.
ghost use Rattle.std.specs.Prelude.{◌≡◌, ◌%◌, ◌&&◌, ◌<◌, length};
ghost use Rattle.refusals.specs.Refused.{answer_number};
ghost use Rattle.replay_table.specs.Table.{same_answer, exponent_of};
ghost use Rattle.replay_records.specs.Kinds.{joined_of, answer_of, same_method_of};

use dual::Dual;
use dual2::Dual2;
use dual3::Dual3;
use floats::words;
use hyperdual::HyperDual;
use hyperhyperdual::HyperHyperDual;
use kinds::Kind;
use refusals::Refusal;
use replay_table::read::Case;

// Kept: numbers in place of an enum, since files and C interface name a function by its number in oracle/README.md.
const NDERIV: u32 = 0x03;

const SUM: u32 = 0x39;

const PRODUCT: u32 = 0x3a;

// The predicates are from the first of these to the last.
const PREDICATES: u32 = 0x3b;

const LAST_PREDICATE: u32 = 0x43;

// The sum or the product of a run, in lent floats.
#[tactic(auto, unfolding(crate::specs::Kinds::joined_of))]
fn joined(
    kind: Kind,
    function: u32,
    records: &[u64],
    run: &mut [f64],
    left: &mut [f64],
    out: &mut [u64],
) -> Result<(), Refusal>
    requires { length out.old ≡ length left.old }
    ensures { (answer_number result, out.new) ≡ joined_of kind function records.now (length run.old) left.old }
{
    words::read(records, run);
    let answer = if function == SUM {
        kind.sum(run, left)
    } else {
        kind.product(run, left)
    };
    words::put(left, out);
    answer
}

// What a case's function answers, and its words in out.
#[tactic(auto, unfolding(crate::specs::Kinds::answer_of))]
pub(crate) fn answer(
    kind: Kind,
    case: Case,
    run: &mut [f64],
    left: &mut [f64],
    out: &mut [u64],
) -> Result<(), Refusal>
    requires out_len { length out.old ≡ length left.old }
    requires out_nonzero { 0 < length out.old }
    ensures { (answer_number result, out.new) ≡ answer_of kind (case.entry.function % 0x100) (exponent_of case.entry.exponent) case.entry.records.now case.entry.floats.now (length run.old) left.old out.old }
{
    let function = (case.function % 0x100) as u32;
    let exponent = replay_table::exponent(case.exponent);
    match function {
        NDERIV => {
            out[0] = kind.nderiv() as u64;
            Ok(())
        }
        SUM | PRODUCT => joined(kind, function, case.records, run, left, out),
        PREDICATES..=LAST_PREDICATE => {
            let answer = kind.call(function, exponent, case.records, case.floats, out);
            out[0] = replay_table::truth(out[0]);
            answer
        }
        _ => kind.call(function, exponent, case.records, case.floats, out),
    }
}

// Whether the record's own method, where the function has one beside its call, gives the file's answer.
// Kept: a match, as those of `kinds`, since each arm names a type.
fn same_method(kind: Kind, function: u64, records: &[u64], floats: &[u64], wanted: &[u64]) -> bool
    ensures { result ≡ same_method_of kind function records.now floats.now wanted.now }
{
    match kind {
        Kind::Dual => replay_methods::same::<Dual>(function, records, floats, wanted),
        Kind::Dual2 => replay_methods::same::<Dual2>(function, records, floats, wanted),
        Kind::Dual3 => replay_methods::same::<Dual3>(function, records, floats, wanted),
        Kind::HyperDual => replay_methods::same::<HyperDual>(function, records, floats, wanted),
        Kind::HyperHyperDual => {
            replay_methods::same::<HyperHyperDual>(function, records, floats, wanted)
        }
    }
}

// Whether both the call and the record's own method give the file's answer.
pub(crate) fn same_case(kind: Kind, case: Case, number: u64, out: &[u64]) -> bool
    ensures { result ≡ (same_answer case.entry.number case.entry.answer.now number out.now && same_method_of kind case.entry.function case.entry.records.now case.entry.floats.now case.entry.answer.now) }
{
    replay_table::same_answer(case.number, case.answer, number, out)
        && same_method(kind, case.function, case.records, case.floats, case.answer)
}
