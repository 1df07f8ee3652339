// Replays the recorded answers of the five record types, records-KIND.txt and runs-KIND.txt, through the calls that the exports make and through the records' own methods.
// Kept: the lent rooms of one case, run, left and out, come apart as `answers` takes them.

#![tactic(auto)]

mod answers;
mod print;

ghost use Rattle.std.specs.Prelude.{◌≡◌, ◌<◌, ◌≤◌, length, take, replicate};
ghost use Rattle.real.specs.Operations as float;
ghost use Rattle.replay_table.specs.Table.{most_words, most_answer, exponent_of};
ghost use Rattle.replay_records.specs.Kinds.{same_recorded};

use kinds::Kind;
use refusals::answer_number;
use replay::tally::Tally;
use replay::{Cut, Reader};
use replay_table::read::{Case, read_case};
use std::fs::File;

// Whether a case is the same; one that differs is printed, where it is `told`.
#[tactic(auto, unfolding(crate::specs::Kinds::same_recorded))]
fn case_of(
    kind: Kind,
    case: Case,
    run: &mut [f64],
    left: &mut [f64],
    out: &mut [u64],
    told: bool,
) -> bool
    requires out_len { length out.old ≡ length left.old }
    requires out_nonzero { 0 < length out.old }
    ensures { result ≡ same_recorded kind case.entry.function (exponent_of case.entry.exponent) case.entry.records.now case.entry.floats.now case.entry.number case.entry.answer.now (length run.old) left.old out.old }
{
    let number = answer_number(answers::answer(kind, case, run, left, out)) as u64;
    let same = answers::same_case(kind, case, number, out);
    if !same && told {
        print::case(case, number, out);
    }
    same
}

// The same in buffers of its own: as long as the run that a case has, and as its answer.
fn case_in_buffers(kind: Kind, case: Case, told: bool) -> bool
    requires records_fit { length case.records.now ≤ most_words }
    requires words_fit { (0 < length case.answer.now) × (length case.answer.now ≤ most_answer) }
    ensures { result ≡ same_recorded kind case.entry.function (exponent_of case.entry.exponent) case.entry.records.now case.entry.floats.now case.entry.number case.entry.answer.now (length case.entry.records.now) (take (length case.entry.answer.now) (replicate most_answer float.zero)) (take (length case.entry.answer.now) (replicate most_answer 0)) }
{
    let n = case.records.len();
    let size = case.answer.len();
    let mut run = [0.0f64; replay_table::WORDS];
    let mut left = [0.0f64; replay_table::ANSWER];
    let mut out = [0u64; replay_table::ANSWER];
    case_of(
        kind,
        case,
        &mut run[..n],
        &mut left[..size],
        &mut out[..size],
        told,
    )
}

// One case: its function, and whether it is the same. Of the function `last` so many were compared so far; the first that differs of each is printed.
fn case(
    kind: Kind,
    reader: &mut Reader<File>,
    pool: &[u64; 256],
    last: u64,
    count: Tally,
) -> (u64, Result<bool, Cut>) {
    let mut words = [0u64; replay_table::WORDS];
    let mut floats = [0u64; 2];
    let mut answer = [0u64; replay_table::ANSWER];
    let case = read_case(
        reader,
        pool,
        kind.width(),
        &mut words,
        &mut floats,
        &mut answer,
    );
    let told = case.function != last || count.different == 0;
    let same = case_in_buffers(kind, case, told);
    (case.function, case.whole.and(Ok(same)))
}

// Every case: a line for each function, as they come.
fn cases(kind: Kind, reader: &mut Reader<File>) -> Tally {
    let mut pool = [0u64; 256];
    let mut run = reader.begin();
    run.begin(reader.read_words(16, &mut pool));
    let mut last = 0u64;
    let mut count = Tally::none();
    reader.cases(&mut run, |reader: &mut Reader<File>| -> Result<bool, Cut> {
        let (function, same) = case(kind, reader, &pool, last, count);
        if function != last {
            print::function(last, count);
            count = Tally::none();
        }
        last = function;
        count.count(same == Ok(true));
        same
    });
    print::function(last, count);
    reader.end(run)
}

// Replays a file, and reports it by a name.
fn replay_file(rt: &HostRuntime, kind: Kind, path: &str, name: &str) -> std::io::Result<()> {
    let mut reader = Reader::new(File::open(rt, path)?);
    cases(kind, &mut reader).report(name);
    Ok(())
}

fn main(rt: HostRuntime) -> std::io::Result<()> {
    replay_file(&rt, Kind::Dual, "records-dual.txt", "dual")?;
    replay_file(&rt, Kind::Dual, "runs-dual.txt", "dual runs")?;
    replay_file(&rt, Kind::Dual2, "records-dual2.txt", "dual2")?;
    replay_file(&rt, Kind::Dual2, "runs-dual2.txt", "dual2 runs")?;
    replay_file(&rt, Kind::Dual3, "records-dual3.txt", "dual3")?;
    replay_file(&rt, Kind::Dual3, "runs-dual3.txt", "dual3 runs")?;
    replay_file(&rt, Kind::HyperDual, "records-hyperdual.txt", "hyperdual")?;
    replay_file(&rt, Kind::HyperDual, "runs-hyperdual.txt", "hyperdual runs")?;
    replay_file(
        &rt,
        Kind::HyperHyperDual,
        "records-hyperhyperdual.txt",
        "hyperhyperdual",
    )?;
    replay_file(
        &rt,
        Kind::HyperHyperDual,
        "runs-hyperhyperdual.txt",
        "hyperhyperdual runs",
    )
}
