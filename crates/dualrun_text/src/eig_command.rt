// `eig N S`: the matrix read, its eigenvalues and vectors printed.
ghost use Rattle.std.specs.Prelude.{◌≡◌, ◌*◌, ◌≤◌, length};
ghost use Rattle.refusals.specs.Refused.{answer_number};
ghost use Rattle.algebra.specs.Outcome.{outcome};
ghost use Rattle.dualrun_text.specs.Request.{eig_line_refusal};
ghost use Rattle.dualrun_text.specs.Body.{Fits};
ghost use Rattle.texts.specs.Page.{Puts};
ghost use Rattle.dualrun_text.specs.Output.{eig_lines, eig_of_lines, eig_in_room, eig_output};

use super::{read, write};
use refusals::Refusal;
use texts::write::Writer;

// What is printed of an answer: the sweeps, the eigenvalues and the vectors, or the number of a refusal and 0.
fn lines(
    page: &mut Writer,
    n: usize,
    answer: Result<usize, Refusal>,
    values: &[f64],
    vectors: &[f64],
)
    requires { Fits n × (length values.now ≡ n * 2) × (length vectors.now ≡ n * n * 2) }
    ensures { Puts page.old page.new (eig_lines n (outcome answer) values.now vectors.now) }
{
    match answer {
        Ok(sweeps) => {
            write::pair(page, 0, sweeps);
            write::records(page, values);
            write::records(page, vectors);
        }
        Err(refusal) => write::pair(page, refusal.number() as usize, 0),
    }
}

// The matrix read from its lines, the text after the first one, its eigenvalues and vectors found and printed.
// Kept: with `in_room` a near twin of lu_command's; they share two calls, and a closure for the rest would have to promise the same buffers and lines again.
fn of_lines(
    page: &mut Writer,
    rest: &[u8],
    n: usize,
    limit: usize,
    matrix: &mut [f64],
    values: &mut [f64],
    vectors: &mut [f64],
)
    requires { Fits n × (length matrix.old ≡ n * n * 2) × (length values.old ≡ n * 2) × (length vectors.old ≡ n * n * 2) }
    ensures { Puts page.old page.new (eig_of_lines rest.now n limit 0 values.old vectors.old) }
{
    if let Err(refusal) = read::body(rest, matrix) {
        return write::refusal(page, refusal);
    }
    let answer = jacobi::jacobi_eigenvalue(n, matrix, limit, values, vectors);
    lines(page, n, answer, values, vectors);
}

// The same in buffers of its own.
fn in_room(page: &mut Writer, rest: &[u8], n: usize, limit: usize)
    requires { Fits n }
    ensures { Puts page.old page.new (eig_in_room rest.now n limit 0) }
{
    let full = n * n * 2;
    let row = n * 2;
    let mut matrix = [0.0f64; super::MOST_FLOATS];
    let mut values = [0.0f64; super::MOST_VALUES];
    let mut vectors = [0.0f64; super::MOST_FLOATS];
    of_lines(
        page,
        rest,
        n,
        limit,
        &mut matrix[..full],
        &mut values[..row],
        &mut vectors[..full],
    );
}

// What the first line is refused for.
pub(crate) fn line_refusal(n: usize, limit: usize) -> Result<(), Refusal>
    ensures { answer_number result ≡ eig_line_refusal n limit }
{
    if refusals::LARGEST_N < n {
        return Err(Refusal::TooLarge);
    }
    if n == 0 {
        return Err(Refusal::Empty);
    }
    if refusals::LARGEST_LIMIT < limit {
        return Err(Refusal::LimitTooLarge);
    }
    Ok(())
}

// The command: 1, 3 and 4 are decided from the first line.
pub(crate) fn run(page: &mut Writer, rest: &[u8], n: usize, limit: usize)
    ensures { Puts page.old page.new (eig_output rest.now n limit 0) }
{
    if let Err(refusal) = line_refusal(n, limit) {
        return write::pair(page, refusal.number() as usize, 0);
    }
    in_room(page, rest, n, limit);
}
