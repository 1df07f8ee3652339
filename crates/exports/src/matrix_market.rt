// Matrix Market texts: matrices of `Dual` and of `HyperDual` from bytes and back.
// Kept: the parameters and the numbers that are answered are those of the C interface.
ghost use Rattle.std.specs.Prelude.{◌≡◌};
ghost use Rattle.market.specs.Head.{size_of};
ghost use Rattle.market.specs.Read.{read_left};
ghost use Rattle.market.specs.Write.{write_left};
ghost use Rattle.exports.specs.Numbered.{size_numbered, left_numbered};

use super::linalg::count_number;
use dual::Dual;
use hyperdual::HyperDual;

// The size of the matrix in a text.
pub fn evindrast_market_size(text: &[u8], n: &mut usize) -> u32
    ensures { (result, n.new) ≡ size_numbered n.old (size_of text.now) }
{
    count_number(market_reader::size(text), n)
}

// The matrix in a text, row by row, and its size.
pub fn evindrast_market_read(text: &[u8], out: &mut [f64], n: &mut usize) -> u32
    ensures { (result, (n.new, out.new)) ≡ left_numbered n.old (read_left 2 text.now out.old) }
{
    count_number(market_reader::read::<Dual>(text, out), n)
}

// The text of a matrix, zeros after it, and its length.
pub fn evindrast_market_write(n: usize, a: &[f64], text: &mut [u8], length: &mut usize) -> u32
    ensures { (result, (length.new, text.new)) ≡ left_numbered length.old (write_left 2 n a.now text.old) }
{
    count_number(market_writer::write::<Dual>(n, a, text), length)
}

// The same two of matrices of `HyperDual`: four floats a record.
pub fn evindrast_hyperdual_market_read(text: &[u8], out: &mut [f64], n: &mut usize) -> u32
    ensures { (result, (n.new, out.new)) ≡ left_numbered n.old (read_left 4 text.now out.old) }
{
    count_number(market_reader::read::<HyperDual>(text, out), n)
}

pub fn evindrast_hyperdual_market_write(
    n: usize,
    a: &[f64],
    text: &mut [u8],
    length: &mut usize,
) -> u32
    ensures { (result, (length.new, text.new)) ≡ left_numbered length.old (write_left 4 n a.now text.old) }
{
    count_number(market_writer::write::<HyperDual>(n, a, text), length)
}
