// Where the steps begin: the number multiplied up to so many digits.
ghost use Rattle.std.specs.Prelude.{◌≡◌};
ghost use Rattle.rootsteps.specs.Request.{Askable};
ghost use Rattle.rootsteps.specs.Start.{significand_of, exponent_of, start_of, Scales};

use super::Steps;
use real::root::Found;

// A number times a power of 2, so that it has so many digits, or one more: the significand. That times the weight of the leading bit is the number times 2 to
// the exponent, which is even.
#[derive(Clone, Copy)]
pub(crate) struct Scaled {
    pub significand: u64,
    pub exponent: u64,
}

// Shifted up by its leading zeros, as `real::root` does with a subnormal float, and once more where the exponent would be odd.
pub(crate) fn scale(asked: Steps) -> Scaled
    requires { Askable asked.number asked.bits }
    ensures { (result.significand ≡ significand_of asked.number asked.bits) × (result.exponent ≡ exponent_of asked.number asked.bits) }
{
    let Steps { number, bits } = asked;
    let digits = 64 - u64::leading_zeros(number) as u64;
    let shift = bits - digits;
    let exponent = shift + (bits - 1);
    let odd = exponent % 2;
    Scaled {
        significand: number << (shift + odd),
        exponent: exponent + odd,
    }
}

// The leading bit of a significand's root, which is known.
pub(crate) fn leading_bit(significand: u64, bits: u64) -> Found
    requires { Scales bits significand }
    ensures { result ≡ start_of significand bits }
{
    let top = 1u64 << (bits - 1);
    Found {
        twice: 2 * top,
        rest: significand - top,
        bit: top / 2,
    }
}
