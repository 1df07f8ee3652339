// Floats by their words in lent slices.
ghost use Rattle.std.specs.Prelude.{◌≡◌, [], ◌∷◌, length, get_or};
ghost use Rattle.real.specs.Operations as float;
ghost use Rattle.floats.specs.Words.{floats_of, first_floats, words_of};

// The float of word number i, +0.0 where there is none.
pub fn part(words: &[u64], i: usize) -> f64
    ensures { result ≡ get_or (floats_of words.now) i float.zero }
{
    words.get(i).map_or(0.0, |word| real::float_of_word(*word))
}

// The floats of the first words, as many as are lent; +0.0 where there is no word.
pub fn read(words: &[u64], floats: &mut [f64])
    ensures { floats.new ≡ first_floats words.now (length floats.old) }
{
    for (i, float) in floats.iter_mut().enumerate() {
        *float = part(words, i);
    }
}

// The words of the parts.
pub fn put(parts: &[f64], out: &mut [u64])
    requires { length out.old ≡ length parts.now }
    ensures { out.new ≡ words_of parts.now }
{
    // Kept: tried over `out.iter_mut().zip(parts)`, and the proof did not close: of what is written through it nothing is known at its end.
    for (i, word) in out.iter_mut().enumerate() {
        *word = real::word_of_float(parts[i]);
    }
}

// The word of one float.
pub fn put_one(x: f64, out: &mut [u64])
    requires { length out.old ≡ 1 }
    ensures { out.new ≡ words_of (x ∷ []) }
{
    put(&[x], out);
}
