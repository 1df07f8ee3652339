// The order of the rows: 0, 1, .., and two entries exchanged.
ghost use Rattle.std.specs.Prelude.{◌≡◌, ◌<◌, length};
ghost use Rattle.matrices.specs.Matrix.{exchange};
ghost use Rattle.matrices.specs.Lu.{count_up};

// 0, 1, .., one an entry.
pub fn count_up(order: &mut [usize])
    ensures { order.new ≡ count_up (length order.old) }
{
    for (i, entry) in order.iter_mut().enumerate() {
        *entry = i;
    }
}

// The entries p and q exchanged.
pub(crate) fn exchange(order: &mut [usize], p: usize, q: usize)
    requires { (p < length order.old) × (q < length order.old) }
    ensures { order.new ≡ Rattle.matrices.specs.Matrix.exchange 0 p q order.old }
{
    order.swap(p, q);
}
