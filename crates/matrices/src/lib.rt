// What LU, solve, determinant and inverse share whatever the record: code that knows only a record's width in floats and the real parts.
// Inner: for the crates that hold the entries. Its functions have a `requires`, which those crates show.
// Kept: `number` and `lu_number` give the numbers that leave the library.

#![tactic(auto)]

pub mod order;
pub mod refusal;
pub mod rows;

ghost use Rattle.std.specs.Prelude.{◌≡◌, Err};
ghost use Rattle.algebra.specs.Outcome.{number_of};
ghost use Rattle.matrices.specs.Answers.{lu_outcome, lu_column};
ghost use Rattle.matrices.specs.declared.LuRefusal.TheVariants as lu;

use refusals::Refusal;

// The best row so far for a column, with the magnitude of its real part.
#[derive(Clone, Copy, Debug)]
pub struct Pivot {
    pub magnitude: f64,
    pub row: usize,
}

// No pivot of the column exceeds zero.
#[derive(Clone, Copy, Debug, PartialEq, Eq, Hash)]
pub struct NoPivot {
    pub column: usize,
}

// What LU is refused for; where it is done it answers the number of swaps.
// Kept: an error enum, the one of LU's Result.
#[derive(Clone, Copy, Debug, PartialEq, Eq, Hash)]
pub enum LuRefusal {
    Refused(Refusal),
    Singular { column: usize },
}

impl From<Refusal> for LuRefusal {
    ghost from_gives = { λ refusal made. made ≡ lu.Refused refusal };

    fn from(refusal: Refusal) -> LuRefusal {
        LuRefusal::Refused(refusal)
    }
}

impl LuRefusal {
    // Document 01's number.
    pub fn number(self) -> u32
        ensures { result ≡ number_of (lu_outcome (Err self)) }
    {
        match self {
            LuRefusal::Refused(refusal) => refusal.number(),
            LuRefusal::Singular { column: _ } => refusals::SINGULAR,
        }
    }

    // The column beside the number, 0 unless the number is 6.
    pub fn column(self) -> usize
        ensures { result ≡ lu_column (Err self) }
    {
        match self {
            LuRefusal::Refused(_) => 0,
            LuRefusal::Singular { column } => column,
        }
    }
}

// Document 01's number of what LU answers, 0 where it is done.
pub fn lu_number(answer: Result<usize, LuRefusal>) -> u32
    ensures { result ≡ number_of (lu_outcome answer) }
{
    answer.map_or_else(LuRefusal::number, |_| 0)
}

// The column beside that number, 0 unless the number is 6.
pub fn lu_column(answer: Result<usize, LuRefusal>) -> usize
    ensures { result ≡ lu_column answer }
{
    answer.map_or_else(LuRefusal::column, |_| 0)
}
