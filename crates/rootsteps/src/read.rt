// Reading: the number, the space and the bits.
// Kept: a text with a place, since a number ends at a place, and what stands there is tested.
ghost use Rattle.std.specs.Prelude.{◌≡◌, ◌+◌, ◌^◌, ◌≤◌, ◌<◌};
ghost use Rattle.rootsteps.specs.Request.{number_digits, ends_at, bits_from, request_of};
ghost use Rattle.rootsteps.specs.Request.{asked as Request·asked};

use super::Steps;
use texts::read;

// The most digits of a number.
const NUMBER_DIGITS: usize = 9;

// The fewest bits of a root, and the most.
const FEWEST_BITS: u64 = 2;

const MOST_BITS: u64 = 26;

// The steps, where the two numbers can ask for them.
fn asked(number: u64, bits: u64) -> Option<Steps>
    ensures { result ≡ Request·asked number bits }
{
    if bits < FEWEST_BITS {
        return None;
    }
    if MOST_BITS < bits {
        return None;
    }
    if number == 0 {
        return None;
    }
    if 1 << bits <= number {
        return None;
    }
    Some(Steps { number, bits })
}

// Nothing stands from p on, or a newline and nothing after it.
fn ends(text: &[u8], p: usize) -> bool
    requires { p < 2 ^ 63 }
    ensures { result ≡ ends_at text.now p }
{
    if text.len() == p {
        return true;
    }
    if text.len() != p + 1 {
        return false;
    }
    text[p] == b'\n'
}

// The bits from p on, after the number.
fn bits_from(text: &[u8], number: usize, p: usize) -> Option<Steps>
    requires { p ≤ number_digits + 1 }
    ensures { result ≡ bits_from text.now number p }
{
    let bits = read::number(text, p, NUMBER_DIGITS)?;
    if !ends(text, bits.end) {
        return None;
    }
    asked(number as u64, bits.value as u64)
}

// What a text asks.
pub(crate) fn request(text: &[u8]) -> Option<Steps>
    ensures { result ≡ request_of text.now }
{
    let number = read::number(text, 0, NUMBER_DIGITS)?;
    if read::byte_at(text, number.end) != b' ' {
        return None;
    }
    bits_from(text, number.value, number.end + 1)
}
