// The inside of the square root, over whole numbers: one bit of the root at a time, from the top. docs/ROOT.md tells it with an example.
ghost use Rattle.std.specs.Prelude.{◌≡◌, false, not, ◌+◌, ◌*◌, ◌%◌, ◌^◌, ◌≤◌, ◌<◌, T};
ghost use Rattle.std.specs.Float.{binary64};
ghost use Rattle.std.specs.Float.Ieee.{of_bits, nan_bits};
ghost use Rattle.std.specs.Float.Ieee.Exact.{HasValue};
ghost use Rattle.real.specs.Bits.{next_of};
ghost use Rattle.real.specs.Root.{sqrt_of};

// The weight of an f64's leading digit, and of its exponent's field.
const HIDDEN: u64 = 0x10_0000_0000_0000;

// The pattern of +infinity: the patterns of the positive finite floats lie between 0 and it.
pub(crate) const INFINITY: u64 = 0x7ff0_0000_0000_0000;

// How far a root is found: twice the root so far; what its square leaves, counted in the last bit found; the weight of the bit to find next, 0 after the last.
#[derive(Clone, Copy)]
pub struct Found {
    pub twice: u64,
    pub rest: u64,
    pub bit: u64,
}

// One bit more. With it the root's square would grow by trial * bit: where that is more than is left, below zero, the bit is none of the root's.
// The rest is counted in this bit from here on, so it doubles.
pub fn next_bit(found: Found) -> Found
    requires { (found.rest < 2 ^ 62) × (found.twice + 2 * found.bit < 2 ^ 63) }
    ensures { result ≡ next_of found }
{
    let rest = 2 * found.rest;
    let trial = found.twice + found.bit;
    let left = rest as i64 - trial as i64;
    let below = left < 0;
    Found {
        twice: if below {
            found.twice
        } else {
            trial + found.bit
        },
        rest: if below { rest } else { left as u64 },
        bit: found.bit / 2,
    }
}

// A whole root, and what its square leaves.
#[derive(Clone, Copy)]
pub(crate) struct Whole {
    pub root: u64,
    pub rest: u64,
}

// The whole root of a * 2^52. Its leading bit is known, the other 52 are found one at a time, from the top.
pub(crate) fn whole_root(a: u64) -> Whole
    requires { (2 ^ 52 ≤ a) × (a < 2 ^ 54) }
    ensures { (result.root * result.root + result.rest ≡ a * 2 ^ 52) × (result.rest ≤ 2 * result.root) × (result.root < 2 ^ 53) }
{
    let mut found = Found {
        twice: 2 * HIDDEN,
        rest: a - HIDDEN,
        bit: HIDDEN / 2,
    };
    while 0 < found.bit {
        found = next_bit(found);
    }
    Whole {
        root: found.twice / 2,
        rest: found.rest,
    }
}

// The whole number nearest to the root of a * 2^52: the root is at most half a unit from r.
pub(crate) fn rounded_root(a: u64) -> u64
    requires { (2 ^ 52 ≤ a) × (a + 1 < 2 ^ 54) }
    ensures { (result * result < a * 2 ^ 52 + result) × (a * 2 ^ 52 ≤ result * result + result) × (result < 2 ^ 53) }
{
    let w = whole_root(a);
    if w.root < w.rest { w.root + 1 } else { w.root }
}

// A number a * 2^(e - 1126) whose a has 53 digits.
#[derive(Clone, Copy)]
pub(crate) struct Scaled {
    pub a: u64,
    pub e: u64,
}

// What the pattern of a positive finite float stands for. A subnormal one is shifted up by its leading zeros.
pub(crate) fn scale(b: u64) -> Scaled
    requires { (0 < b) × (b < 0x7ff0_0000_0000_0000) }
    ensures { (2 ^ 52 ≤ result.a) × (result.a < 2 ^ 53) × (result.e < 2098) × HasValue (of_bits binary64 b) false (result.a * 2 ^ result.e) (2 ^ 1126) }
{
    let field = b / HIDDEN;
    let digits = b % HIDDEN;
    if field == 0 {
        let shift = u64::leading_zeros(digits) - 11;
        Scaled {
            a: digits << shift,
            e: (52 - shift) as u64,
        }
    } else {
        Scaled {
            a: HIDDEN + digits,
            e: field + 51,
        }
    }
}

// The significand with an even exponent.
pub(crate) fn even(a: u64, e: u64) -> u64
    requires { (2 ^ 52 ≤ a) × (a < 2 ^ 53) }
    ensures { (2 ^ 52 ≤ result) × (result + 1 < 2 ^ 54) × (result ≡ a * 2 ^ (e % 2)) }
{
    if e % 2 == 0 { a } else { 2 * a }
}

// The pattern of the root of a positive finite float, from the float's.
pub(crate) fn root_bits(b: u64) -> u64
    requires { (0 < b) × (b < 0x7ff0_0000_0000_0000) }
    ensures { T (not (nan_bits binary64 result)) × (of_bits binary64 result ≡ sqrt_of (of_bits binary64 b)) }
{
    let s = scale(b);
    let r = rounded_root(even(s.a, s.e));
    (485 + s.e / 2) * HIDDEN + r
}
