// A case of the writer. Its numbers: the width, n, how many floats and how many bytes are lent, the number of the answer, the length of the text. Then the words of
// the lent floats and, where the answer is 0, the text.
use crate::compare::Recorded;
use crate::over::Width;
use crate::{MOST_FLOATS, WORD_DIGITS, compare, over};
use replay::{Cut, Reader};
use std::fs::File;

// The most bytes that a case lends: some more than the writer wants.
const MOST_BYTES: usize = 20544;

// The text that the writer left, so long, where it was done.
fn read_left<'a>(
    reader: &mut Reader<File>,
    number: u64,
    length: u64,
    bytes: &'a mut [u8],
) -> Result<&'a [u8], Cut> {
    if number != 0 {
        return Ok(&[]);
    }
    crate::read_text(reader, length, bytes)
}

// One case, in bytes that all hold the same before the call.
pub(crate) fn case(reader: &mut Reader<File>) -> Result<bool, Cut> {
    let [width, n, floats, bytes, number, count] = crate::read_head(reader)?;
    let width = Width::try_from(width)?;
    if floats > MOST_FLOATS as u64 || bytes > MOST_BYTES as u64 {
        return Err(Cut);
    }
    let mut words = [0u64; MOST_FLOATS];
    let mut a = [0.0f64; MOST_FLOATS];
    let mut recorded = [0u8; MOST_BYTES];
    let mut out = [compare::BYTE_BEFORE; MOST_BYTES];
    let words = &mut words[..floats as usize];
    let a = &mut a[..floats as usize];
    let out = &mut out[..bytes as usize];
    let given = reader.read_words(WORD_DIGITS, words);
    floats::words::read(words, a);
    let text = read_left(reader, number, count, &mut recorded)?;
    given?;
    let answer = over::write(width, n as usize, a, out);
    let wanted = Recorded { number, count };
    Ok(compare::same_write(wanted, text, answer, out))
}
