// Texts as lent bytes: the byte, the digits and the number at a place, and a page that is filled as far as it fits. An inner crate: what reads or writes a
// format stands above it. Past its end a text has the byte 0, which is no digit and ends no line.

#![tactic(auto)]

pub mod read;
pub mod whole;
pub mod write;

// Digits read from a place on: what they spell, and how many there are.
// Kept: digits is how many there are, by which the callers find the place after them, and no flag.
#[derive(Clone, Copy)]
pub struct Scan {
    pub value: u64,
    pub digits: usize,
}

// A decimal number, and the place after it.
#[derive(Clone, Copy)]
pub struct Number {
    pub value: usize,
    pub end: usize,
}
