// The square root.
ghost use Rattle.std.specs.Prelude.{◌≡◌};
ghost use Rattle.std.specs.Float.{binary64};
ghost use Rattle.std.specs.Float.Ieee.{of_bits, to_bits};
ghost use Rattle.real.specs.Root.{sqrt_of};

// The square root of a float.
pub fn evindrast_sqrt(x: f64) -> f64
    ensures { result ≡ sqrt_of x }
{
    real::sqrt(x)
}

// The square root by words: a NaN leaves as 7ff8000000000000.
pub fn evindrast_sqrt_word(w: u64) -> u64
    ensures { result ≡ to_bits binary64 (sqrt_of (of_bits binary64 w)) }
{
    real::word_of_float(real::sqrt(real::float_of_word(w)))
}
