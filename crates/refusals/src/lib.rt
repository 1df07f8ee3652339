// The refusals of the documents, by name and by number, and the limits that they are given at. specs/ has the same by name for contracts and definitions: a
// proof that meets both holds them to each other.
// Kept: `number` and `answer_number` give the numbers that leave the library.

#![tactic(auto)]

ghost use Rattle.std.specs.Prelude.{◌≡◌};
ghost use Rattle.refusals.specs.Refused.{number, answer_number};

// What a call is refused for. LU's refusal of a singular matrix, which has a column beside it, is `matrices::LuRefusal`'s.
#[derive(Clone, Copy, Debug, PartialEq, Eq, Hash)]
pub enum Refusal {
    // n above `LARGEST_N`
    TooLarge,
    // a lent length is not the one wanted
    WrongLength,
    // Jacobi with n = 0
    Empty,
    // a sweep limit above `LARGEST_LIMIT`
    LimitTooLarge,
    // a powi exponent outside `LEAST_EXPONENT`..`LARGEST_EXPONENT`
    ExponentTooLarge,
    // a lent order is not a permutation
    NotAnOrder,
    // a determinant's swap count is above `LARGEST_SWAPS` or does not fit the order
    WrongSwaps,
    // a text that `dualrun` cannot read
    Unreadable,
    // a Matrix Market text above `LARGEST_MARKET` bytes, or whose header, size line or number cannot be read, or a magnitude above `LARGEST_WHOLE`
    UnreadableMarket,
    // a Matrix Market text of a matrix that is not square
    NotSquare,
    // a Matrix Market text with too few entries, or any byte after the last
    WrongEntries,
    // a matrix that Matrix Market cannot hold here: a real part that is no whole number up to `LARGEST_WHOLE`, or a derivative part that is not zero
    Unwritable,
}

impl Refusal {
    // The documents' number.
    pub fn number(self) -> u32
        ensures { result ≡ number self }
    {
        match self {
            Refusal::TooLarge => 1,
            Refusal::WrongLength => 2,
            Refusal::Empty => 3,
            Refusal::LimitTooLarge => 4,
            Refusal::ExponentTooLarge => 5,
            Refusal::NotAnOrder => 7,
            Refusal::WrongSwaps => 8,
            Refusal::Unreadable => 9,
            Refusal::UnreadableMarket => 10,
            Refusal::NotSquare => 11,
            Refusal::WrongEntries => 12,
            Refusal::Unwritable => 20,
        }
    }
}

// The documents' number of an answer, 0 where the call is done.
pub fn answer_number<T: Copy>(answer: Result<T, Refusal>) -> u32
    ensures { result ≡ answer_number answer }
{
    match answer {
        Ok(_) => 0,
        Err(refusal) => refusal.number(),
    }
}

// The number of LU's refusal of a matrix in which no pivot exceeds zero.
pub const SINGULAR: u32 = 6;

// The largest n of a matrix.
pub const LARGEST_N: usize = 32;

// The most floats of a record.
pub const LARGEST_WIDTH: usize = 8;

// The largest limit of sweeps.
pub const LARGEST_LIMIT: usize = 1000;

// The exponents of powi.
pub const LEAST_EXPONENT: i32 = -1024;

pub const LARGEST_EXPONENT: i32 = 1024;

// The largest swap count of a determinant.
pub const LARGEST_SWAPS: usize = 32;

// The most bytes of a Matrix Market text that is read.
pub const LARGEST_MARKET: usize = 65536;

// The largest magnitude of a whole number in a text: 2^53, up to which each is a float.
pub const LARGEST_WHOLE: u64 = 9007199254740992;
