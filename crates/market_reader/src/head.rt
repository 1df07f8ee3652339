// What stands before the entries: the header, comment lines, the size line.
ghost use Rattle.std.specs.Prelude.{◌≡◌, false};
ghost use Rattle.algebra.specs.Outcome.{outcome, map_outcome};
ghost use Rattle.market.specs.Head as Head;
ghost use Rattle.market.specs.Head.{head_of};
ghost use Rattle.market_reader.specs.Told.{opened_in};
ghost use Rattle.market_reader.specs.Kinds.{is_symmetric};

use super::Opening;
use super::shape::{Shape, Symmetry};
use refusals::Refusal;
use texts::whole;

// The text after its comment lines.
fn after_comments(text: &[u8]) -> &[u8]
    ensures { result.now ≡ Head.comments false text.now }
{
    let mut inside = false;
    for (i, b) in text.iter().enumerate() {
        if !inside && *b != b'%' {
            return &text[i..];
        }
        inside = *b != b'\n';
    }
    &text[text.len()..]
}

// The size line, and the entries after it.
fn size_line(symmetry: Symmetry, text: &[u8]) -> Result<Opening<'_>, Refusal>
    ensures { map_outcome opened_in (outcome result) ≡ Head.size_line (is_symmetric symmetry) text.now }
{
    let rows = whole::scan(text, refusals::LARGEST_WHOLE);
    let rest = rows.ended_by(b' ').ok_or(Refusal::UnreadableMarket)?;
    let columns = whole::scan(rest, refusals::LARGEST_WHOLE);
    let entries = columns.ended_by(b'\n').ok_or(Refusal::UnreadableMarket)?;
    if !whole::same(rows.digits, columns.digits) {
        return Err(Refusal::NotSquare);
    }
    if (refusals::LARGEST_N as u64) < rows.value {
        return Err(Refusal::TooLarge);
    }
    let shape = Shape {
        n: rows.value as usize,
        symmetry,
    };
    Ok(Opening { shape, entries })
}

// What the text opens with.
pub(crate) fn head(text: &[u8]) -> Result<Opening<'_>, Refusal>
    ensures { map_outcome opened_in (outcome result) ≡ head_of text.now }
{
    if refusals::LARGEST_MARKET < text.len() {
        return Err(Refusal::UnreadableMarket);
    }
    if let Some(rest) = text.strip_prefix(b"%%MatrixMarket matrix array integer general\n") {
        return size_line(Symmetry::General, after_comments(rest));
    }
    if let Some(rest) = text.strip_prefix(b"%%MatrixMarket matrix array integer symmetric\n") {
        return size_line(Symmetry::Symmetric, after_comments(rest));
    }
    Err(Refusal::UnreadableMarket)
}
