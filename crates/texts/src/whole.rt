// Whole numbers however long, by their value: up to a limit as it is, above it no more than that it is above.
ghost use Rattle.std.specs.Prelude.{◌≡◌, ◌+◌, ◌*◌, ◌^◌, ◌≤◌, ◌<◌, not, ◌&&◌, true, false, eqb, length, drop, MatchOption};
ghost use Rattle.texts.specs.Digits.{byte_at};
ghost use Rattle.texts.specs.Whole as Whole·specs;
ghost use Rattle.texts.specs.Whole.{worth, Grown, Found, AllDigits};

// The digits that a text begins with, the text after them, and what stands for their number.
#[derive(Clone, Copy)]
pub struct Whole<'a> {
    pub value: u64,
    pub digits: &'a [u8],
    pub rest: &'a [u8],
}

impl<'a> Whole<'a> {
    // The text after the byte `end`, where that stands after one digit or more.
    pub fn ended_by(self, end: u8) -> Option<&'a [u8]>
        requires { 0 < end }
        ensures { let ended = not (eqb (length self.entry.digits.now) 0) && eqb (byte_at self.entry.rest.now 0) end in MatchOption result (ended ≡ false) (λ rest. (ended ≡ true) × (rest.now ≡ drop 1 self.entry.rest.now)) }
    {
        match self.rest.split_first() {
            Some((b, rest)) if *b == end && !self.digits.is_empty() => Some(rest),
            _ => None,
        }
    }
}

// One digit more, unless v is above the limit already.
fn grown(v: u64, digit: u64, most: u64) -> u64
    requires { (v ≤ most * 10 + 9) × (digit < 10) × (most < 2 ^ 60) }
    ensures { Grown most v digit result }
{
    if v <= most {
        return v * 10 + digit;
    }
    v
}

// The decimal digits that a text begins with, all of them. By one test for each byte: most of the time that a file takes goes here.
pub fn scan(text: &[u8], most: u64) -> Whole<'_>
    requires { most < 2 ^ 60 }
    ensures { Found most text.now result }
{
    let mut value = 0;
    for (k, b) in text.iter().enumerate() {
        if !b.is_ascii_digit() {
            return Whole {
                value,
                digits: &text[..k],
                rest: &text[k..],
            };
        }
        value = grown(value, (*b - b'0') as u64, most);
    }
    Whole {
        value,
        digits: text,
        rest: &[],
    }
}

// The digit that stands i places before the last; a zero in front of the first.
#[tactic(auto, unfolding(crate::specs::Whole::from_end))]
fn from_end(digits: &[u8], i: usize) -> u8
    ensures { result ≡ Whole·specs.from_end digits.now i }
{
    if i < digits.len() {
        return digits[digits.len() - 1 - i];
    }
    b'0'
}

// The digits of a and those of b spell one number: compared from their ends, zeros in front where one is shorter.
pub fn same(a: &[u8], b: &[u8]) -> bool
    requires { AllDigits a.now × AllDigits b.now }
    ensures { result ≡ eqb (worth 0 a.now) (worth 0 b.now) }
{
    (0..a.len().max(b.len())).all(|i| from_end(a, i) == from_end(b, i))
}
