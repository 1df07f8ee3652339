// Writing, line by line.
// Kept: by a Writer and not Display, since its promise is the bytes that are put, as far as they fit; the loops run over columns and rows, which the format
// counts so, and `entry` reads the record there.
ghost use Rattle.std.specs.Prelude.{◌≡◌, ◌*◌};
ghost use Rattle.std.specs.Float.Ieee.{lt};
ghost use Rattle.real.specs.Operations.{zero};
ghost use Rattle.texts.specs.Page.{page, written, Puts};
ghost use Rattle.market.specs.Format.{sign};
ghost use Rattle.market.specs.Text.{line_of, lines_of, size_text, text_of};

use super::matrix::Matrix;
use super::numbers;
use texts::write::Writer;

// The minus of a negative number.
fn minus(page: &mut Writer, x: f64)
    ensures { Puts page.old page.new (sign (lt x zero)) }
{
    if x < 0.0 {
        page.byte(b'-');
    }
}

// The line of a whole number.
fn line(page: &mut Writer, x: f64)
    ensures { Puts page.old page.new (line_of x) }
{
    let Some(magnitude) = numbers::whole(x) else {
        return;
    };
    minus(page, x);
    page.number(magnitude);
    page.byte(b'\n');
}

// The lines of the entries, column by column.
fn entries(page: &mut Writer, matrix: Matrix)
    ensures { Puts page.old page.new (lines_of matrix.entry.width matrix.entry.n matrix.entry.floats.now (matrix.entry.n * matrix.entry.n)) }
{
    for c in 0..matrix.n {
        for r in 0..matrix.n {
            line(page, matrix.entry(r, c));
        }
    }
}

// The size line.
fn size_line(page: &mut Writer, n: usize)
    ensures { Puts page.old page.new (size_text n) }
{
    page.number(n as u64);
    page.byte(b' ');
    page.number(n as u64);
    page.byte(b'\n');
}

// The whole text at the start of lent bytes, as far as it fits; how many bytes it takes.
pub(crate) fn text(matrix: Matrix, out: &mut [u8]) -> usize
    ensures { page out.new result ≡ written (page out.old 0) (text_of matrix.entry.width matrix.entry.n matrix.entry.floats.now) }
{
    let mut page = Writer::new(out);
    page.bytes(b"%%MatrixMarket matrix array integer general\n");
    size_line(&mut page, matrix.n);
    entries(&mut page, matrix);
    page.used
}
