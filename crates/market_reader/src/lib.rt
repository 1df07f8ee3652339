// The reader of Matrix Market texts: `array integer`, `general` or `symmetric`, into lent floats.

#![tactic(auto)]

mod entries;
mod head;
mod places;
mod shape;

ghost use Rattle.std.specs.Prelude.{◌≡◌};
ghost use Rattle.algebra.specs.Outcome.{outcome};
ghost use Rattle.market.specs.Answers.{answered};
ghost use Rattle.market.specs.Head.{size_of};
ghost use Rattle.market.specs.Read.{read_left};

use records::Record;
use refusals::Refusal;
use shape::Shape;

// What stands before the entries, and they themselves, which are still to be read.
#[derive(Clone, Copy)]
pub(crate) struct Opening<'a> {
    pub shape: Shape,
    pub entries: &'a [u8],
}

// An entry and the text after its line.
#[derive(Clone, Copy)]
pub(crate) struct Entry<'a> {
    pub number: f64,
    pub rest: &'a [u8],
}

// The size of the matrix in a text.
pub fn size(text: &[u8]) -> Result<usize, Refusal>
    ensures { outcome result ≡ size_of text.now }
{
    let opening = head::head(text)?;
    Ok(opening.shape.n)
}

// The matrix in a text as records, row by row: n² of them, the derivative parts zero. A refusal writes nothing.
pub fn read<R: Record>(text: &[u8], out: &mut [f64]) -> Result<usize, Refusal>
    ensures { answered (outcome result) out.new ≡ read_left R.layout.width text.now out.old }
{
    places::body(head::head(text)?, R::width(), out)
}
