// The writer of Matrix Market texts: `array integer general`, without comments or leading zeros, into lent bytes.

#![tactic(auto)]

mod lines;
mod matrix;
mod numbers;

ghost use Rattle.std.specs.Prelude.{◌≡◌, ◌-◌, ◌≤◌, ◌++◌, length, take, replicate};
ghost use Rattle.algebra.specs.Outcome.{outcome};
ghost use Rattle.market.specs.Answers.{answered};
ghost use Rattle.market.specs.Write.{write_left};

use matrix::Matrix;
use records::Record;
use refusals::Refusal;

// A matrix of records as a `general` text at the start of 20,480 bytes, zeros after it; its length. A refusal writes nothing.
pub fn write<R: Record>(n: usize, a: &[f64], text: &mut [u8]) -> Result<usize, Refusal>
    ensures { answered (outcome result) text.new ≡ write_left R.layout.width n a.now text.old }
{
    let width = R::width();
    if refusals::LARGEST_N < n {
        return Err(Refusal::TooLarge);
    }
    if a.len() != n * n * width || text.len() != market::PAGE {
        return Err(Refusal::WrongLength);
    }
    let matrix = Matrix {
        n,
        width,
        floats: a,
    };
    if !matrix.is_writable() {
        return Err(Refusal::Unwritable);
    }
    let end = lines::text(matrix, text);
    text[end..].fill(0);
    Ok(end)
}
