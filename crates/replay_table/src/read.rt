// A case, read.
// Kept: the number of parts, as in lib.rt; values beside an Err. Of a case that is cut all is read, with 0 for each word that is not there, since what the program prints of it may not change (`print::case` of `replay_records`).
ghost use Rattle.std.specs.Prelude.{◌≡◌, ◌≤◌, ◌<◌, min, length};
ghost use Rattle.refusals.specs.Largest as largest;
ghost use Rattle.replay_table.specs.Table.{most_words, most_answer};

use crate::{ANSWER, Shape, WORDS};
use replay::{Cut, Reader};
use std::io::Read;

// A case: the words of its records, its floats and its answer, and whether the file has all of it.
#[derive(Clone, Copy)]
pub struct Case<'a> {
    pub function: u64,
    pub exponent: u64,
    pub number: u64,
    pub records: &'a [u64],
    pub floats: &'a [u64],
    pub answer: &'a [u64],
    pub whole: Result<(), Cut>,
}

// The next word, which is to have so many digits, and whether it has.
fn read_word<R: Read>(reader: &mut Reader<R>, digits: u32) -> (u64, Result<(), Cut>) {
    let mut words = [0u64; 1];
    let whole = reader.read_words(digits, &mut words);
    (words[0], whole)
}

// The words of so many records of places, one record after the other, to the start of the lent words: how many words they are. They are cut where there are more of
// them than there is room for.
fn read_records<R: Read>(
    reader: &mut Reader<R>,
    pool: &[u64; 256],
    count: u64,
    parts: usize,
    words: &mut [u64; WORDS],
) -> (usize, Result<(), Cut>)
    requires { (0 < parts) × (parts ≤ largest.width) }
    ensures { result.0 ≤ most_words }
{
    let mut whole = Ok(());
    let mut at = 0;
    for _ in 0..count {
        let end = at + parts;
        if end > WORDS {
            return (at, Err(Cut));
        }
        let (places, read) = read_word(reader, 2 * parts as u32);
        crate::record_of(pool, places, &mut words[at..end]);
        whole = whole.and(read);
        at = end;
    }
    (at, whole)
}

// How many floats are lent: two at most.
fn float_count(floats: u64) -> usize
    ensures { (result ≡ min floats 2) × (result ≤ 2) }
{
    floats.min(2) as usize
}

// Reads a case of a record with so many parts, in lent buffers.
pub fn read_case<'a, R: Read>(
    reader: &mut Reader<R>,
    pool: &[u64; 256],
    parts: usize,
    words: &'a mut [u64; WORDS],
    floats: &'a mut [u64; 2],
    answer: &'a mut [u64; ANSWER],
) -> Case<'a>
    requires parts_fit { (0 < parts) × (parts ≤ largest.width) }
    ensures records { length result.records.now ≤ most_words }
    ensures floats { length result.floats.now ≤ 2 }
    ensures answer { (0 < length result.answer.now) × (length result.answer.now ≤ most_answer) }
{
    let (function, named) = read_word(reader, 2);
    let shape = crate::shape_of(function);
    let (count, counted) = match shape.records {
        Some(count) => (count, Ok(())),
        None => read_word(reader, 4),
    };
    let (length, recorded) = read_records(reader, pool, count, parts, words);
    let (exponent, powered) = match shape.exponents {
        0 => (0, Ok(())),
        _ => read_word(reader, 16),
    };
    let outside = float_count(shape.floats);
    let floated = reader.read_words(16, &mut floats[..outside]);
    let (number, numbered) = match shape.records {
        Some(_) => read_word(reader, 2),
        None => (0, Ok(())),
    };
    let size = crate::answer_words(shape.answers, parts);
    let answered = reader.read_words(16, &mut answer[..size]);
    Case {
        function,
        exponent,
        number,
        records: &words[..length],
        floats: &floats[..outside],
        answer: &answer[..size],
        whole: named
            .and(counted)
            .and(recorded)
            .and(powered)
            .and(floated)
            .and(numbered)
            .and(answered),
    }
}
