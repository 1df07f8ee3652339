// What is lent holds before a call, and one word of what it holds after.
ghost use Rattle.std.specs.Prelude.{◌≡◌};
ghost use Rattle.replay_outcomes.specs.Outcome.{joined, joined_all};

use replay::same::HasWord;

// The numbers of an input, one after another.
fn next(x: u64) -> u64 {
    x % 65537 * 75 + 74
}

// A float of an input: 1.0, or a whole number from -15 to 15.
// Kept: the style is the file's number, and is tested here alone.
fn value(style: u64, x: u64) -> f64 {
    if style == 0 {
        return 1.0;
    }
    ((x % 31) as u32) as f64 - 15.0
}

// The input of a style that begins after a number: what each float of it is made into.
fn fill<T: Copy, F: Fn(f64) -> T>(style: u64, start: u64, out: &mut [T], of: F)
    requires { F.IsAlwaysCallable of }
{
    let mut x = start;
    for item in out.iter_mut() {
        x = next(x);
        *item = of(value(style, x));
    }
}

// The input as floats, and by their words.
pub fn floats(style: u64, start: u64, out: &mut [f64]) {
    fill(style, start, out, |x| x);
}

pub fn words(style: u64, start: u64, out: &mut [u64]) {
    fill(style, start, out, real::word_of_float);
}

// How an order differs from that in which entry i is i: two entries that are exchanged, and then one that is set. Places that are not there change nothing.
#[derive(Clone, Copy)]
pub struct Order {
    pub one: u64,
    pub other: u64,
    pub place: u64,
    pub value: u64,
}

impl Order {
    // Entry i of so many.
    fn entry(self, i: u64, length: u64) -> u64 {
        if i == self.place {
            self.value
        } else if i == self.one && self.other < length {
            self.other
        } else if i == self.other && self.one < length {
            self.one
        } else {
            i
        }
    }

    pub fn fill(self, out: &mut [usize]) {
        let length = out.len() as u64;
        for (i, entry) in out.iter_mut().enumerate() {
            *entry = self.entry(i as u64, length) as usize;
        }
    }
}

// A word joins what came before it, which is turned by 33 places.
#[tactic(auto, unfolding(crate::specs::Outcome::joined))]
fn joined(so_far: u64, word: u64) -> u64
    ensures { result ≡ joined so_far word }
{
    so_far % 0x8000_0000 * 0x2_0000_0000 ^ so_far / 0x8000_0000 ^ word
}

// One word of all that is lent, after what came before it.
pub fn join<T: HasWord>(start: u64, items: &[T]) -> u64
    ensures { result ≡ joined_all T.word start items.now }
{
    items
        .iter()
        .fold(start, |so_far, item| joined(so_far, item.word()))
}
