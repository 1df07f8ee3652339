// Matrix Market texts: matrices of `Dual` and of `HyperDual` from bytes and back.
// Kept: the parameters and the numbers that are answered are those of the C interface.
ghost use Rattle.std.specs.Prelude.{◌≡◌};
ghost use Rattle.market.specs.Head.{size_of};
ghost use Rattle.market.specs.Read.{read_left};
ghost use Rattle.market.specs.Write.{write_left};
ghost use Rattle.exports.specs.Numbered.{size_numbered, left_numbered};

// The size of the matrix in a text.
#[unsafe(no_mangle)]
pub extern "C" fn evindrast_market_size(text: &[u8], n: &mut usize) -> u32
    ensures { (result, n.new) ≡ size_numbered n.old (size_of text.now) }
{
    exports::matrix_market::evindrast_market_size(text, n)
}

// The matrix in a text, row by row, and its size.
#[unsafe(no_mangle)]
pub extern "C" fn evindrast_market_read(text: &[u8], out: &mut [f64], n: &mut usize) -> u32
    ensures { (result, (n.new, out.new)) ≡ left_numbered n.old (read_left 2 text.now out.old) }
{
    exports::matrix_market::evindrast_market_read(text, out, n)
}

// The text of a matrix, zeros after it, and its length.
#[unsafe(no_mangle)]
pub extern "C" fn evindrast_market_write(
    n: usize,
    a: &[f64],
    text: &mut [u8],
    length: &mut usize,
) -> u32
    ensures { (result, (length.new, text.new)) ≡ left_numbered length.old (write_left 2 n a.now text.old) }
{
    exports::matrix_market::evindrast_market_write(n, a, text, length)
}

// The same two of matrices of `HyperDual`: four floats a record.
#[unsafe(no_mangle)]
pub extern "C" fn evindrast_hyperdual_market_read(
    text: &[u8],
    out: &mut [f64],
    n: &mut usize,
) -> u32
    ensures { (result, (n.new, out.new)) ≡ left_numbered n.old (read_left 4 text.now out.old) }
{
    exports::matrix_market::evindrast_hyperdual_market_read(text, out, n)
}

#[unsafe(no_mangle)]
pub extern "C" fn evindrast_hyperdual_market_write(
    n: usize,
    a: &[f64],
    text: &mut [u8],
    length: &mut usize,
) -> u32
    ensures { (result, (length.new, text.new)) ≡ left_numbered length.old (write_left 4 n a.now text.old) }
{
    exports::matrix_market::evindrast_hyperdual_market_write(n, a, text, length)
}
