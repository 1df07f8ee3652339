// What the replaying programs share: reading recorded answers (here and in words.rt), counting and reporting (tally.rt). A method of the reader is proved safe and
// ending and no more, since no contract can speak of what is read; every other function has a promise of its answer.
//
// A file of answers holds hex words, each ended by a space or a newline; a line that starts with # is passed over.

#![tactic(auto)]

pub mod same;
pub mod tally;
mod words;

ghost use Rattle.std.specs.Prelude.{◌≡◌, ◌≤◌, length, IfOk};

use std::io::Read;
use words::Seen;
pub use words::Word;

// How many bytes are read of a file at once.
pub const BUFFER: usize = 4096;

// What was asked for is not there: the file ends before it does, or has another word in its place.
#[derive(Clone, Copy, Debug, PartialEq, Eq)]
pub struct Cut;

// Reads a file of answers. The bytes of the buffer from `at` on, up to `end`, are still to be given.
#[derive(Drop)]
pub struct Reader<R> {
    source: R,
    buffer: [u8; BUFFER],
    at: usize,
    end: usize,
}

impl<R: Read> Reader<R> {
    // Nothing read yet.
    pub fn new(source: R) -> Reader<R>
        ensures { (result.at ≡ 0) × (result.end ≡ 0) }
    {
        Reader {
            source,
            buffer: [0; BUFFER],
            at: 0,
            end: 0,
        }
    }

    // None at the end of the file, and where it cannot be read.
    pub(crate) fn next_byte(&mut self) -> Option<u8> {
        if self.at == self.end {
            self.at = 0;
            self.end = self.source.read(&mut self.buffer).unwrap_or(0);
        }
        let byte = *self.buffer.get(..self.end)?.get(self.at)?;
        self.at += 1;
        Some(byte)
    }

    // The next word. None where the file ends before the word does, or has a byte that no file of answers has.
    pub fn next_word(&mut self) -> Option<Word> {
        let mut seen = Seen::Nothing;
        for _ in 0..u64::MAX {
            seen = seen.after(self.next_byte()?);
            if let Seen::Ended(word) = seen {
                return word;
            }
        }
        None
    }

    // Fills the lent words from the file's next ones, each of which is to be as the test says; 0 stands where there is none.
    pub fn read_words_if<F: Fn(Word) -> bool>(
        &mut self,
        words: &mut [u64],
        fits: F,
    ) -> Result<(), Cut>
        requires { F.IsAlwaysCallable fits }
    {
        let mut whole = Ok(());
        for word in words.iter_mut() {
            let read = self.next_word();
            *word = read.map_or(0, |w| w.value);
            if !read.is_some_and(|w| fits(w)) {
                whole = Err(Cut);
            }
        }
        whole
    }

    // The same, each with so many digits.
    pub fn read_words(&mut self, digits: u32, words: &mut [u64]) -> Result<(), Cut> {
        self.read_words_if(words, |w| w.digits == digits)
    }

    // The file's next bytes, so many, in lent ones.
    pub fn read_text<'a>(&mut self, count: u64, bytes: &'a mut [u8]) -> Result<&'a [u8], Cut>
        ensures { IfOk result (λ text. length text.now ≤ length bytes.old) }
    {
        let count = count as usize;
        for byte in bytes.iter_mut().take(count) {
            *byte = self.next_byte().ok_or(Cut)?;
        }
        bytes.get(..count).ok_or(Cut)
    }
}
