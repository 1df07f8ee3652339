// `lu N`: the matrix read, factored and printed.
ghost use Rattle.std.specs.Prelude.{◌≡◌, ◌*◌, ◌≤◌, length};
ghost use Rattle.refusals.specs.Refused.{answer_number};
ghost use Rattle.matrices.specs.Answers.{lu_outcome, lu_column};
ghost use Rattle.dualrun_text.specs.Request.{lu_line_refusal};
ghost use Rattle.dualrun_text.specs.Body.{Fits};
ghost use Rattle.texts.specs.Page.{Puts};
ghost use Rattle.dualrun_text.specs.Output.{lu_lines, lu_of_lines, lu_in_room, lu_output};

use super::{read, write};
use dual::Dual;
use lu::LuRefusal;
use refusals::Refusal;
use texts::write::Writer;

// What is printed of an answer: the swaps, the order and the factors, or the number of a refusal and its column.
fn lines(
    page: &mut Writer,
    n: usize,
    answer: Result<usize, LuRefusal>,
    factors: &[f64],
    order: &[usize],
)
    requires { Fits n × (length factors.now ≡ n * n * 2) × (length order.now ≡ n) }
    ensures { Puts page.old page.new (lu_lines n (lu_outcome answer) (lu_column answer) factors.now order.now) }
{
    match answer {
        Ok(swaps) => {
            write::pair(page, 0, swaps);
            write::order(page, order);
            write::records(page, factors);
        }
        Err(_) => write::pair(
            page,
            matrices::lu_number(answer) as usize,
            matrices::lu_column(answer),
        ),
    }
}

// The matrix read from its lines, the text after the first one, factored and printed.
// Kept: with `in_room` a near twin of eig_command's; they share two calls, and a closure for the rest would have to promise the same buffers and lines again.
fn of_lines(
    page: &mut Writer,
    rest: &[u8],
    n: usize,
    matrix: &mut [f64],
    factors: &mut [f64],
    order: &mut [usize],
)
    requires { Fits n × (length matrix.old ≡ n * n * 2) × (length factors.old ≡ n * n * 2) × (length order.old ≡ n) }
    ensures { Puts page.old page.new (lu_of_lines rest.now n 0 factors.old order.old) }
{
    if let Err(refusal) = read::body(rest, matrix) {
        return write::refusal(page, refusal);
    }
    let answer = lu::lu::<Dual>(n, matrix, factors, order);
    lines(page, n, answer, factors, order);
}

// The same in buffers of its own.
fn in_room(page: &mut Writer, rest: &[u8], n: usize)
    requires { Fits n }
    ensures { Puts page.old page.new (lu_in_room rest.now n 0) }
{
    let full = n * n * 2;
    let mut matrix = [0.0f64; super::MOST_FLOATS];
    let mut factors = [0.0f64; super::MOST_FLOATS];
    let mut order = [0usize; refusals::LARGEST_N];
    of_lines(
        page,
        rest,
        n,
        &mut matrix[..full],
        &mut factors[..full],
        &mut order[..n],
    );
}

// What the first line is refused for.
pub(crate) fn line_refusal(n: usize) -> Result<(), Refusal>
    ensures { answer_number result ≡ lu_line_refusal n }
{
    if refusals::LARGEST_N < n {
        return Err(Refusal::TooLarge);
    }
    Ok(())
}

// The command: 1 is decided from the first line.
pub(crate) fn run(page: &mut Writer, rest: &[u8], n: usize)
    ensures { Puts page.old page.new (lu_output rest.now n 0) }
{
    if let Err(refusal) = line_refusal(n) {
        return write::pair(page, refusal.number() as usize, 0);
    }
    in_room(page, rest, n);
}
