// What the Rust takes from f64 itself: the square root, the magnitude, the sign bit, and floats by their words.

#![tactic(auto)]

pub mod root;

ghost use Rattle.std.specs.Prelude.{◌≡◌};
ghost use Rattle.std.specs.Float.{binary64};
ghost use Rattle.std.specs.Float.Ieee.{of_bits, to_bits};
ghost use Rattle.real.specs.Root.{sqrt_of};
ghost use Rattle.real.specs.Sign.{sign_of, abs_of};

// The float nearest the exact root. -0 gives -0, +0 gives +0, +infinity itself, a negative or a NaN gives NaN.
pub fn sqrt(x: f64) -> f64
    ensures { result ≡ sqrt_of x }
{
    if x > 0.0 {
        let b = f64::to_bits(x);
        if b < root::INFINITY {
            f64::from_bits(root::root_bits(b))
        } else {
            x
        }
    } else if x == 0.0 {
        x
    } else {
        0.0 / 0.0
    }
}

// The sign bit: -0 is negative. A NaN counts as positive.
pub fn is_negative(x: f64) -> bool
    ensures { result ≡ sign_of x }
{
    if x != x {
        return false;
    }
    f64::to_bits(x) >= 0x8000_0000_0000_0000
}

// x with the sign bit clear.
pub fn abs(x: f64) -> f64
    ensures { result ≡ abs_of x }
{
    if is_negative(x) { -x } else { x }
}

// The float that a word stands for: every NaN pattern is the one NaN.
pub fn float_of_word(w: u64) -> f64
    ensures { result ≡ of_bits binary64 w }
{
    if 0x7ff0_0000_0000_0000 < w % 0x8000_0000_0000_0000 {
        return 0.0 / 0.0;
    }
    f64::from_bits(w)
}

// The word of a float: a NaN is written as 7ff8000000000000.
pub fn word_of_float(x: f64) -> u64
    ensures { result ≡ to_bits binary64 x }
{
    if x != x {
        return 0x7ff8_0000_0000_0000;
    }
    f64::to_bits(x)
}
