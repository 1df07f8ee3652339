// Whether a lent order is a permutation of 0, 1, .., n - 1, and its parity: one walk over it, which marks in a word what has come.
// Inner: for the crates that test an order. Its functions have a `requires`, which those crates show.
// Kept: the limit of n stands in the `requires`: n is tested where it is lent, and a type of it would be taken apart at once.

#![tactic(auto)]

ghost use Rattle.std.specs.Prelude.{◌≡◌, ◌<◌, ◌≤◌, length};
ghost use Rattle.refusals.specs.Largest as largest;
ghost use Rattle.orders.specs.Order.{is_order};
ghost use Rattle.orders.specs.Walk.{marks_none, marks_with, is_full};

// What has come of an order of numbers below 32, on a walk over it. Bit x of `word`: whether an odd number of what has come is above x; bit 32 + x: whether x
// has come an odd number of times. Bit 0 of `inversions`: whether they are odd in number (an inversion: an entry with a lesser one after it); its other bits mean nothing.
#[derive(Clone, Copy)]
pub struct Marks {
    pub word: u64,
    pub inversions: u64,
}

impl Marks {
    // Nothing has come.
    pub fn none() -> Marks
        ensures { result ≡ marks_none }
    {
        Marks {
            word: 0,
            inversions: 0,
        }
    }

    // x has come: with it as many more inversions as numbers above it have come. In the word, it changes its own bit 32 + x and those of the numbers below it.
    pub fn mark(&mut self, x: usize)
        requires { x < largest.n }
        ensures { self.new ≡ marks_with self.old x }
    {
        self.inversions ^= self.word >> x;
        self.word ^= (0x1_0000_0001 << x) - 1;
    }

    // The numbers below n have come, each an odd number of times, and no others.
    pub fn is_full(self, n: usize) -> bool
        requires { n ≤ largest.n }
        ensures { result ≡ is_full n self.word }
    {
        self.word >> 32 == (1 << n) - 1
    }
}

// Every number is below the order's length, and no two are equal.
pub fn is_order(order: &[usize]) -> bool
    requires { length order.now ≤ largest.n }
    ensures { result ≡ is_order (length order.now) order.now }
{
    let mut marks = Marks::none();
    for &x in order {
        if x >= order.len() {
            return false;
        }
        marks.mark(x);
    }
    marks.is_full(order.len())
}
