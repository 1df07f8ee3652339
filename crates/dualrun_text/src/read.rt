// Reading: the first line, and the words of the matrix.
// Kept: the first line is read from a place on, so that a request can hold where its next number begins.
ghost use Rattle.std.specs.Prelude.{◌≡◌, ◌≤◌, ◌<◌, true, false, length, MatchResult};
ghost use Rattle.refusals.specs.declared.Refusal.TheVariants.{Unreadable};
ghost use Rattle.dualrun_text.specs.Request.{longest_line, lu_line, eig_line, limit_line, request_of};
ghost use Rattle.dualrun_text.specs.Decided.{has_line};
ghost use Rattle.dualrun_text.specs.Body.{most_floats, separator_of, word_at, is_body, floats_from};

use super::Request;
use refusals::Refusal;
use texts::read;

// N and the newline, after `lu `.
fn lu_line(text: &[u8]) -> Option<Request>
    ensures { result ≡ lu_line text.now }
{
    let n = read::number(text, 3, super::NUMBER_DIGITS)?;
    if read::byte_at(text, n.end) != b'\n' {
        return None;
    }
    Some(Request::Lu {
        n: n.value,
        start: n.end + 1,
    })
}

// S and the newline, after N.
fn limit_line(text: &[u8], n: usize, p: usize) -> Option<Request>
    requires { p ≤ longest_line }
    ensures { result ≡ limit_line text.now n p }
{
    let limit = read::number(text, p, super::NUMBER_DIGITS)?;
    if read::byte_at(text, limit.end) != b'\n' {
        return None;
    }
    Some(Request::Eig {
        n,
        limit: limit.value,
        start: limit.end + 1,
    })
}

// N and a space, after `eig `, then S.
fn eig_line(text: &[u8]) -> Option<Request>
    ensures { result ≡ eig_line text.now }
{
    let n = read::number(text, 4, super::NUMBER_DIGITS)?;
    if read::byte_at(text, n.end) != b' ' {
        return None;
    }
    limit_line(text, n.value, n.end + 1)
}

// What the first line asks.
pub(crate) fn request(text: &[u8]) -> Option<Request>
    ensures { result ≡ request_of text.now }
{
    if read::starts_with(b"lu ", text) {
        return lu_line(text);
    }
    if read::starts_with(b"eig ", text) {
        return eig_line(text);
    }
    None
}

// The first line has come: a newline, or as many bytes as the longest line has that can be read.
pub(crate) fn has_line(text: &[u8]) -> bool
    ensures { result ≡ has_line text.now }
{
    super::LONGEST_LINE <= text.len() || text.contains(&b'\n')
}

// The byte after word number i.
fn separator(i: usize) -> u8
    ensures { result ≡ separator_of i }
{
    if i % 2 == 0 { b' ' } else { b'\n' }
}

// Word number i of the text after the first line.
fn word(rest: &[u8], i: usize) -> Option<u64>
    requires { i < most_floats }
    ensures { result ≡ word_at rest.now 0 i }
{
    let p = super::WORD_BYTES * i;
    let s = read::scan(rest, p, 16, super::WORD_DIGITS);
    let digits = s.digits;
    if digits != super::WORD_DIGITS {
        return None;
    }
    if read::byte_at(rest, p + super::WORD_DIGITS) != separator(i) {
        return None;
    }
    Some(s.value)
}

// The text after the first line into the matrix, which its words fill; refused where they are not as they should be.
pub(crate) fn body(rest: &[u8], matrix: &mut [f64]) -> Result<(), Refusal>
    requires { length matrix.old ≤ most_floats }
    ensures { MatchResult result
        (λ _. (is_body rest.now 0 (length matrix.old) ≡ true) × (matrix.new ≡ floats_from rest.now 0 (length matrix.old)))
        (λ refusal. (is_body rest.now 0 (length matrix.old) ≡ false) × (refusal ≡ Unreadable)) }
{
    if rest.len() != super::WORD_BYTES * matrix.len() {
        return Err(Refusal::Unreadable);
    }
    for (i, x) in matrix.iter_mut().enumerate() {
        let word = word(rest, i).ok_or(Refusal::Unreadable)?;
        *x = real::float_of_word(word);
    }
    Ok(())
}
