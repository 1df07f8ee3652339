// The refusals of the four entries, in document 01's order. A record has w floats.
// Kept: the limits of n and w stand in each `requires`: a type of a number within a limit would be made for one call, and hide the test of n that comes first.
ghost use Rattle.std.specs.Prelude.{◌≡◌, ◌≤◌, length};
ghost use Rattle.refusals.specs.Largest as largest;
ghost use Rattle.refusals.specs.Refused.{answer_number};
ghost use Rattle.matrices.specs.Entries.{lu_refusal, order_refusal, count_refusal, solve_refusal, inverse_refusal};
ghost use Rattle.matrices.specs.Walk.{lengths_refusal, walked_refusal};

use orders::Marks;
use refusals::Refusal;

// Of LU, by the lengths that are lent.
pub fn lu(w: usize, n: usize, a: usize, factors: usize, order: usize) -> Result<(), Refusal>
    requires { w ≤ largest.width }
    ensures { answer_number result ≡ lu_refusal w n a factors order }
{
    if n > refusals::LARGEST_N {
        return Err(Refusal::TooLarge);
    }
    let full = n * n * w;
    if a != full || factors != full || order != n {
        return Err(Refusal::WrongLength);
    }
    Ok(())
}

// Of an order as long as it must be.
fn not_an_order(n: usize, order: &[usize]) -> Result<(), Refusal>
    requires n_le_n { n ≤ largest.n }
    requires order_len { length order.now ≡ n }
    ensures { answer_number result ≡ order_refusal n order.now }
{
    if orders::is_order(order) {
        Ok(())
    } else {
        Err(Refusal::NotAnOrder)
    }
}

// Of solve.
pub fn solve(
    w: usize,
    n: usize,
    factors: usize,
    order: &[usize],
    b: usize,
    x: usize,
) -> Result<(), Refusal>
    requires { w ≤ largest.width }
    ensures { answer_number result ≡ solve_refusal w n factors order.now b x }
{
    if n > refusals::LARGEST_N {
        return Err(Refusal::TooLarge);
    }
    let row = n * w;
    if factors != n * row || order.len() != n || b != row || x != row {
        return Err(Refusal::WrongLength);
    }
    not_an_order(n, order)
}

// Of inverse.
pub fn inverse(
    w: usize,
    n: usize,
    factors: usize,
    order: &[usize],
    out: usize,
) -> Result<(), Refusal>
    requires { w ≤ largest.width }
    ensures { answer_number result ≡ inverse_refusal w n factors order.now out }
{
    if n > refusals::LARGEST_N {
        return Err(Refusal::TooLarge);
    }
    let full = n * n * w;
    if factors != full || order.len() != n || out != full {
        return Err(Refusal::WrongLength);
    }
    not_an_order(n, order)
}

// Of determinant, by the lengths that are lent; 7 and 8 are found on its walk over the order.
pub fn determinant(w: usize, n: usize, factors: usize, order: usize) -> Result<(), Refusal>
    requires { w ≤ largest.width }
    ensures { answer_number result ≡ lengths_refusal w n factors order }
{
    if n > refusals::LARGEST_N {
        return Err(Refusal::TooLarge);
    }
    if factors != n * n * w || order != n {
        return Err(Refusal::WrongLength);
    }
    Ok(())
}

// Of a swap count beside an order whose parity is `odd`.
fn swap_count(odd: bool, swaps: usize) -> Result<(), Refusal>
    ensures { answer_number result ≡ count_refusal odd swaps }
{
    if swaps > refusals::LARGEST_SWAPS || (swaps % 2 == 1) != odd {
        return Err(Refusal::WrongSwaps);
    }
    Ok(())
}

// Of an order that was walked over to its end, and of the swap count beside it.
pub fn walked(n: usize, marks: Marks, swaps: usize) -> Result<(), Refusal>
    requires { n ≤ largest.n }
    ensures { answer_number result ≡ walked_refusal n marks swaps }
{
    if !marks.is_full(n) {
        return Err(Refusal::NotAnOrder);
    }
    swap_count(marks.inversions % 2 == 1, swaps)
}
