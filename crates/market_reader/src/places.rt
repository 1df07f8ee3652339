// From entries column by column to records row by row.
ghost use Rattle.std.specs.Prelude.{◌≡◌, ◌+◌, ◌*◌, ◌≤◌, ◌<◌, length, get_or};
ghost use Rattle.real.specs.Operations.{zero};
ghost use Rattle.refusals.specs.Largest as largest;
ghost use Rattle.algebra.specs.Outcome.{value, outcome};
ghost use Rattle.matrices.specs.Matrix.{Square};
ghost use Rattle.market.specs.Answers.{answered};
ghost use Rattle.market.specs.Format.{count_of};
ghost use Rattle.market.specs.Entries.{matrix_of};
ghost use Rattle.market.specs.Read.{read_opened};
ghost use Rattle.market_reader.specs.Kinds.{is_symmetric};
ghost use Rattle.market_reader.specs.Told.{opened_in};

use super::shape::Shape;
use super::{Opening, entries};
use refusals::Refusal;

// Entry number i; zero past the last.
fn number_at(numbers: &[f64], i: usize) -> f64
    ensures { result ≡ get_or numbers.now i zero }
{
    numbers.get(i).copied().unwrap_or(0.0)
}

// The matrix row by row, from its entries column by column.
// Kept: counted by row and column, which say where the entry stands: chunks of a row want a row's length above 0, and n may be 0.
fn fill(shape: Shape, numbers: &[f64], width: usize, out: &mut [f64])
    requires { Square width shape.n out.old }
    ensures { out.new ≡ matrix_of width (is_symmetric shape.symmetry) shape.n numbers.now }
{
    out.fill(0.0);
    for r in 0..shape.n {
        for c in 0..shape.n {
            out[(r * shape.n + c) * width] = number_at(numbers, shape.place(r, c));
        }
    }
}

// The entries into `numbers`, which they fill, and from there into the matrix.
fn placed(
    opening: Opening,
    width: usize,
    numbers: &mut [f64],
    out: &mut [f64],
) -> Result<usize, Refusal>
    requires numbers_len { length numbers.old ≡ count_of (is_symmetric opening.shape.symmetry) opening.shape.n }
    requires square { Square width opening.shape.n out.old }
    ensures { answered (outcome result) out.new ≡ read_opened width out.old (value (opened_in opening.entry)) }
{
    entries::all(opening.entries, numbers)?;
    fill(opening.shape, numbers, width, out);
    Ok(opening.shape.n)
}

// The entries into the matrix; nothing is written unless all of them are good.
pub(crate) fn body(opening: Opening, width: usize, out: &mut [f64]) -> Result<usize, Refusal>
    requires { (0 < width) × (width ≤ largest.width) }
    ensures { answered (outcome result) out.new ≡ read_opened width out.old (value (opened_in opening.entry)) }
{
    let n = opening.shape.n;
    if out.len() != n * n * width {
        return Err(Refusal::WrongLength);
    }
    let mut scratch = [0.0f64; refusals::LARGEST_N * refusals::LARGEST_N];
    placed(opening, width, &mut scratch[..opening.shape.count()], out)
}
