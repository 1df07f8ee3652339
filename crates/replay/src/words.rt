// A word of a file of answers, byte by byte.
// Kept: digits are a count that the caller compares, and `Seen` has four states of a reader.
ghost use Rattle.std.specs.Prelude.{◌≡◌, ◌<◌};
ghost use Rattle.replay.specs.Reading.{joined, word_after, seen_after};

// A word, with its number of digits: 17 stands for any number above sixteen.
#[derive(Clone, Copy)]
pub struct Word {
    pub value: u64,
    pub digits: u32,
}

// What a word's reader has seen so far. It ends without a word where a byte stands that no file of answers has there.
#[derive(Clone, Copy)]
pub(crate) enum Seen {
    Nothing,
    Comment,
    Digits(Word),
    Ended(Option<Word>),
}

impl Word {
    // What a word begins with.
    const NO_DIGIT: Word = Word {
        value: 0,
        digits: 0,
    };

    // One digit more.
    fn joined(self, digit: u64) -> Word
        requires { digit < 16 }
        ensures { result ≡ joined self digit }
    {
        Word {
            value: self.value % 0x1000_0000_0000_0000 * 16 + digit,
            digits: if self.digits < 17 {
                self.digits + 1
            } else {
                17
            },
        }
    }

    // A byte more that ends no word: a digit joins it.
    #[tactic(auto, unfolding(crate::specs::Reading::word_after))]
    fn after(self, byte: u8) -> Seen
        ensures { result ≡ word_after self byte }
    {
        match texts::read::digit_value(byte) {
            Some(digit) => Seen::Digits(self.joined(digit)),
            None => Seen::Ended(None),
        }
    }
}

impl Seen {
    // One byte more: a space or a newline ends a word that has begun, # begins a comment where none has, and the comment goes on to the line's end.
    #[tactic(auto, unfolding(crate::specs::Reading::seen_after))]
    pub(crate) fn after(self, byte: u8) -> Seen
        ensures { result ≡ seen_after self byte }
    {
        match (self, byte) {
            (Seen::Nothing, b' ' | b'\n') => Seen::Nothing,
            (Seen::Nothing, b'#') => Seen::Comment,
            (Seen::Nothing, _) => Word::NO_DIGIT.after(byte),
            (Seen::Comment, b'\n') => Seen::Nothing,
            (Seen::Comment, _) => Seen::Comment,
            (Seen::Digits(word), b' ' | b'\n') => Seen::Ended(Some(word)),
            (Seen::Digits(word), _) => word.after(byte),
            (Seen::Ended(word), _) => Seen::Ended(word),
        }
    }
}
