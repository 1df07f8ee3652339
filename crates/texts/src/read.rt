// Reading: bytes and digits at a place.
// Kept: a text with a place, since past its end a text has the byte 0, which no slice has.
ghost use Rattle.std.specs.Prelude.{◌≡◌, ◌≤◌, ◌<◌, ◌^◌};
ghost use Rattle.texts.specs.Digits.{byte_at, starts_with, digit_of, scan_of};
ghost use Rattle.texts.specs.Numbers.{number_from};

use super::{Number, Scan};

// The byte at p; 0 past the end.
pub fn byte_at(text: &[u8], p: usize) -> u8
    ensures { result ≡ byte_at text.now p }
{
    text.get(p).copied().unwrap_or(0)
}

// The value of a digit, 0 to 9 or a to f.
pub fn digit_value(b: u8) -> Option<u64>
    ensures { result ≡ digit_of 16 b }
{
    match b {
        b'0'..=b'9' => Some((b - b'0') as u64),
        b'a'..=b'f' => Some((b - b'a' + 10) as u64),
        _ => None,
    }
}

// The digits of the base from p on, at most so many.
pub fn scan(text: &[u8], p: usize, base: u64, most: usize) -> Scan
    requires { (p < 2 ^ 63) × (base ≤ 16) × (most ≤ 16) }
    ensures { result ≡ scan_of base most text.now p }
{
    let mut value = 0;
    // Kept: over places and not over items, since the text may end before so many digits: the byte past its end is no digit.
    for k in 0..most {
        // Kept: one test for a byte that is no digit and for a digit of a larger base; an Option of a digit of the base would be tested twice.
        let digit = digit_value(byte_at(text, p + k)).unwrap_or(base);
        if base <= digit {
            return Scan { value, digits: k };
        }
        value = value * base + digit;
    }
    Scan {
        value,
        digits: most,
    }
}

// The text begins with the word.
pub fn starts_with(word: &[u8], text: &[u8]) -> bool
    ensures { result ≡ starts_with word.now text.now }
{
    word.iter().enumerate().all(|(i, b)| byte_at(text, i) == *b)
}

// One to so many decimal digits from p on, and no digit after them.
pub fn number(text: &[u8], p: usize, most: usize) -> Option<Number>
    requires { (p < 2 ^ 63) × (most < 16) }
    ensures { result ≡ number_from most text.now p }
{
    let s = scan(text, p, 10, most + 1);
    let digits = s.digits;
    if digits == 0 {
        return None;
    }
    if most < digits {
        return None;
    }
    Some(Number {
        value: s.value as usize,
        end: p + digits,
    })
}
