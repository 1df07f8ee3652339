// The matrix that is written: its entries, and whether all of it can be written.
ghost use Rattle.std.specs.Prelude.{◌≡◌, ◌+◌, ◌*◌, ◌<◌};
ghost use Rattle.matrices.specs.Matrix.{Square};
ghost use Rattle.market.specs.Text.{entry_at, is_writable};

use super::numbers;

// n by n records of `width` floats, row by row.
#[derive(Clone, Copy)]
pub(crate) struct Matrix<'a> {
    pub n: usize,
    pub width: usize,
    pub floats: &'a [f64],
    ghost square: { Square width n floats.now },
}

impl<'a> Matrix<'a> {
    // The real part at row r, column c.
    pub fn entry(self, r: usize, c: usize) -> f64
        requires { (r < self.n) × (c < self.n) }
        ensures { result ≡ entry_at self.entry.width self.entry.n self.entry.floats.now (c * self.entry.n + r) }
    {
        self.floats[(r * self.n + c) * self.width]
    }

    // All its records can be written.
    pub fn is_writable(self) -> bool
        ensures { result ≡ is_writable self.entry.width self.entry.floats.now }
    {
        self.floats
            .chunks_exact(self.width)
            .all(|record| numbers::is_writable(record))
    }
}
