// The cases of records-KIND.txt and runs-KIND.txt (oracle/README.md): what a case of each function holds, its records through the pool, and its answer compared.
// Kept: here and in read.rt, how many parts a record has is what a kind answers; a type of it would be taken apart at each call.

#![tactic(auto)]

pub mod read;

ghost use Rattle.std.specs.Prelude.{◌≡◌, ◌≤◌, ◌<◌, length};
ghost use Rattle.refusals.specs.Largest as largest;
ghost use Rattle.replay_table.specs.Table.{most_answer, shape_of, answer_words, record_of, exponent_of, truth_of, same_answer};

// The words of the longest run: twelve records of the widest.
pub const WORDS: usize = 96;

// And of the longest answer: two records of the widest.
pub const ANSWER: usize = 16;

// How many fields of each sort a case has, and how many records its answer has: none is a whole number. A run says itself how many records it has.
#[derive(Clone, Copy)]
pub struct Shape {
    pub records: Option<u64>,
    pub exponents: u64,
    pub floats: u64,
    pub answers: u64,
}

// The table of functions in oracle/README.md from 00 on, in four digits each: records, exponents, floats, and the records of the answer.
// Kept: a line here is the line there, and 69 structs of four fields read no plainer.
const TABLE: [u64; 69] = [
    0x0000, 0x0001, 0x0001, 0x0000, 0x0011, 0x1001, 0x1001, 0x1001, 0x1001, 0x2001, 0x2001, 0x2001,
    0x2001, 0x1001, 0x1011, 0x1011, 0x1011, 0x1011, 0x1011, 0x0000, 0x0000, 0x1001, 0x1001, 0x2001,
    0x1001, 0x1001, 0x1001, 0x1111, 0x1021, 0x1011, 0x1011, 0x1011, 0x1021, 0x1011, 0x1021, 0x1011,
    0x1011, 0x1011, 0x1021, 0x1021, 0x1022, 0x1021, 0x1011, 0x1011, 0x1011, 0x2021, 0x1021, 0x1021,
    0x1021, 0x1011, 0x1011, 0x1011, 0x1021, 0x1021, 0x1021, 0x3001, 0x2021, 0xf001, 0xf001, 0x2000,
    0x2000, 0x2000, 0x2000, 0x2000, 0x1000, 0x1000, 0x1000, 0x1000, 0x1021,
];

// The digit of a line that stands for a run.
const RUN: u64 = 15;

// What a case of a function holds; of a number that is no function's nothing.
#[tactic(auto, unfolding(crate::specs::Table::shape_of))]
pub fn shape_of(function: u64) -> Shape
    ensures { result ≡ shape_of function }
{
    let line = TABLE.get(function as usize).copied().unwrap_or(0);
    Shape {
        records: match line / 0x1000 % 16 {
            RUN => None,
            records => Some(records),
        },
        exponents: line / 0x100 % 16,
        floats: line / 0x10 % 16,
        answers: line % 16,
    }
}

// How many words an answer has.
pub fn answer_words(answers: u64, parts: usize) -> usize
    requires { (0 < parts) × (parts ≤ largest.width) }
    ensures { (result ≡ answer_words answers parts) × ((0 < result) × (result ≤ most_answer)) }
{
    match answers {
        0 => 1,
        1 => parts,
        _ => parts + parts,
    }
}

// The words of a record of places, as many as are lent.
pub fn record_of(pool: &[u64; 256], places: u64, out: &mut [u64])
    requires { length out.old ≤ largest.width }
    ensures { out.new ≡ record_of pool.now places (length out.old) }
{
    let parts = out.len();
    for (i, word) in out.iter_mut().enumerate() {
        let place = (places >> ((parts - 1 - i) * 8)) % 256;
        *word = pool[place as usize];
    }
}

// powi's exponent from its 64-bit two's complement; 0 where it is no number of 32 bits.
pub fn exponent(w: u64) -> i32
    ensures { result ≡ exponent_of w }
{
    i32::try_from(w.cast_signed()).unwrap_or(0)
}

// A truth is recorded as 1 or 0; a call gives it as the word of 1.0 or 0.0. 2 for what is neither.
// Kept: a number, since it stands among the words of an answer, where no file has 2; `truth_of` gives it (specs/Table.antt).
pub fn truth(word: u64) -> u64
    ensures { result ≡ truth_of word }
{
    match word {
        0x0000_0000_0000_0000 => 0,
        0x3ff0_0000_0000_0000 => 1,
        _ => 2,
    }
}

// Whether a call is refused by the file's number, or by none, and leaves the file's words.
#[tactic(auto, unfolding(crate::specs::Table::same_answer))]
pub fn same_answer(wanted: u64, words: &[u64], number: u64, left: &[u64]) -> bool
    ensures { result ≡ same_answer wanted words.now number left.now }
{
    wanted == number && words == left
}
