// A case of the reader. Its numbers: the length of the text, the width, how many floats are lent, the number of the answer, n, the number of the size. Then the text
// and, where the answer is 0, the words of the lent floats after the call.
use crate::compare::Recorded;
use crate::over::Width;
use crate::{MOST_FLOATS, WORD_DIGITS, compare, over};
use replay::{Cut, Reader};
use std::fs::File;

// The most bytes that the text of a case has: some more than the reader takes.
const MOST_TEXT: usize = 65544;

// One case, in floats that all hold the same before the call.
pub(crate) fn case(reader: &mut Reader<File>) -> Result<bool, Cut> {
    let [length, width, floats, number, count, size] = crate::read_head(reader)?;
    let width = Width::try_from(width)?;
    if floats > MOST_FLOATS as u64 {
        return Err(Cut);
    }
    let floats = floats as usize;
    let mut bytes = [0u8; MOST_TEXT];
    let mut words = [0u64; MOST_FLOATS];
    let mut out = [real::float_of_word(compare::WORD_BEFORE); MOST_FLOATS];
    let words = &mut words[..floats];
    let out = &mut out[..floats];
    let text = crate::read_text(reader, length, &mut bytes);
    if number == 0 {
        reader.read_words(WORD_DIGITS, words)?;
    }
    let text = text?;
    let answer = over::read(width, text, out);
    let wanted = Recorded { number, count };
    Ok(compare::same_read(wanted, size, words, answer, market_reader::size(text), out))
}
