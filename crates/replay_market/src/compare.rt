// What a call answers and leaves, compared with what a file has.
ghost use Rattle.std.specs.Prelude.{◌≡◌};
ghost use Rattle.algebra.specs.Outcome.{outcome};
ghost use Rattle.replay_market.specs.Cases.{recorded_of, same_answer, same_size, same_page, same_read, same_write};

use refusals::Refusal;
use replay::same::{all_have, same_words};

// The word of every lent float before a call, 1.5, and every lent byte: no matrix that is read has the one, no text that is written the other.
pub(crate) const WORD_BEFORE: u64 = 0x3ff8_0000_0000_0000;

pub(crate) const BYTE_BEFORE: u8 = 0xff;

// An answer as a file has it: its number, and n or the length of the text beside it, 0 where the call is refused.
#[derive(Clone, Copy, PartialEq, Eq)]
pub(crate) struct Recorded {
    pub number: u64,
    pub count: u64,
}

impl From<Result<usize, Refusal>> for Recorded {
    ghost from_gives = { λ answer r. r ≡ recorded_of (outcome answer) };

    fn from(answer: Result<usize, Refusal>) -> Recorded {
        match answer {
            Ok(count) => Recorded {
                number: 0,
                count: count as u64,
            },
            Err(refusal) => Recorded {
                number: u64::from(refusal.number()),
                count: 0,
            },
        }
    }
}

// Whether an answer is the recorded one.
#[tactic(auto, unfolding(crate::specs::Cases::same_answer))]
fn same_answer(wanted: Recorded, answer: Result<usize, Refusal>) -> bool
    ensures { result ≡ same_answer wanted (outcome answer) }
{
    wanted == Recorded::from(answer)
}

// Whether the size of a text has the recorded number and, where the reader was done, the recorded n.
#[tactic(auto, unfolding(crate::specs::Cases::same_size))]
fn same_size(wanted: Recorded, wanted_size: u64, size: Result<usize, Refusal>) -> bool
    ensures { result ≡ same_size wanted wanted_size (outcome size) }
{
    let got = Recorded::from(size);
    wanted_size == got.number && (wanted.number != 0 || wanted.count == got.count)
}

// Whether the bytes are the text, and zeros after it.
#[tactic(auto, unfolding(crate::specs::Cases::same_page))]
fn same_page(text: &[u8], bytes: &[u8]) -> bool
    ensures { result ≡ same_page text.now bytes.now }
{
    let Some((start, rest)) = bytes.split_at_checked(text.len()) else {
        return false;
    };
    text == start && all_have(0, rest)
}

// Whether the reader and the size of its text answer what was recorded, and the lent floats are the recorded ones, or as they were where a refusal is recorded.
#[tactic(auto, unfolding(crate::specs::Cases::same_read))]
pub(crate) fn same_read(
    wanted: Recorded,
    wanted_size: u64,
    words: &[u64],
    answer: Result<usize, Refusal>,
    size: Result<usize, Refusal>,
    floats: &[f64],
) -> bool
    ensures { result ≡ same_read wanted wanted_size words.now (outcome answer) (outcome size) floats.now }
{
    if !same_answer(wanted, answer) || !same_size(wanted, wanted_size, size) {
        return false;
    }
    if wanted.number == 0 {
        same_words(words, floats)
    } else {
        all_have(WORD_BEFORE, floats)
    }
}

// Whether the writer answers what was recorded, and the lent bytes are the recorded text with zeros after it, or as they were where a refusal is recorded.
#[tactic(auto, unfolding(crate::specs::Cases::same_write))]
pub(crate) fn same_write(
    wanted: Recorded,
    text: &[u8],
    answer: Result<usize, Refusal>,
    bytes: &[u8],
) -> bool
    ensures { result ≡ same_write wanted text.now (outcome answer) bytes.now }
{
    if !same_answer(wanted, answer) {
        return false;
    }
    if wanted.number == 0 {
        same_page(text, bytes)
    } else {
        all_have(u64::from(BYTE_BEFORE), bytes)
    }
}
