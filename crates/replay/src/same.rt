// What a call leaves, compared with the words of a file.
// Kept: no `==` compares words with what has words.
ghost use Rattle.std.specs.Prelude.{◌≡◌, ℕ, length, replicate};
ghost use Rattle.std.specs.Float.{binary64};
ghost use Rattle.std.specs.Float.Ieee.{to_bits};
ghost use Rattle.replay.specs.Same.{has_words};

// What a file has a word of: a float, a byte, an entry of an order, a word itself.
pub trait HasWord: Copy {
    ghost word: { Self → ℕ };

    fn word(self) -> u64
        ensures { result ≡ word self };
}

impl HasWord for f64 {
    ghost word = { to_bits binary64 };

    fn word(self) -> u64 {
        real::word_of_float(self)
    }
}

impl HasWord for u64 {
    ghost word = { λ x. x };

    fn word(self) -> u64 {
        self
    }
}

impl HasWord for usize {
    ghost word = { λ x. x };

    fn word(self) -> u64 {
        self as u64
    }
}

impl HasWord for u8 {
    ghost word = { λ x. x };

    fn word(self) -> u64 {
        u64::from(self)
    }
}

// Whether the words are those of the items, as many and in order.
pub fn same_words<T: HasWord>(words: &[u64], items: &[T]) -> bool
    ensures { result ≡ has_words T.word words.now items.now }
{
    words.len() == items.len()
        && words
            .iter()
            .zip(items)
            .all(|(word, item)| *word == item.word())
}

// Whether every item has the word.
pub fn all_have<T: HasWord>(word: u64, items: &[T]) -> bool
    ensures { result ≡ has_words T.word (replicate (length items.now) word) items.now }
{
    items.iter().all(|item| word == item.word())
}
