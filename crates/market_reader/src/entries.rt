// The entries: one whole number a line.
ghost use Rattle.std.specs.Prelude.{◌≡◌, ◌≤◌, length};
ghost use Rattle.refusals.specs.Largest as largest;
ghost use Rattle.algebra.specs.Outcome.{outcome, map_outcome};
ghost use Rattle.market.specs.Format as Format;
ghost use Rattle.market.specs.Entries.{magnitude_line, entry_of, numbers_of};
ghost use Rattle.market_reader.specs.Told.{line_in};

use super::Entry;
use refusals::Refusal;
use texts::whole;

// The float of a magnitude with a minus or without: -0 is +0.
#[tactic(auto, unfolding(market::specs::Format::signed))]
fn signed(minus: bool, v: u64) -> f64
    requires { v ≤ largest.whole }
    ensures { result ≡ Format.signed minus v }
{
    if minus && 0 < v {
        return -(v as f64);
    }
    v as f64
}

// The digits and the newline of an entry.
fn magnitude_line(minus: bool, text: &[u8]) -> Result<Entry<'_>, Refusal>
    ensures { map_outcome line_in (outcome result) ≡ magnitude_line minus text.now }
{
    let magnitude = whole::scan(text, refusals::LARGEST_WHOLE);
    if refusals::LARGEST_WHOLE < magnitude.value {
        return Err(Refusal::UnreadableMarket);
    }
    if magnitude.rest.is_empty() {
        return Err(Refusal::WrongEntries);
    }
    let rest = magnitude.ended_by(b'\n').ok_or(Refusal::UnreadableMarket)?;
    Ok(Entry {
        number: signed(minus, magnitude.value),
        rest,
    })
}

// The entry that a text begins with.
fn entry(text: &[u8]) -> Result<Entry<'_>, Refusal>
    ensures { map_outcome line_in (outcome result) ≡ entry_of text.now }
{
    match text.strip_prefix(b"-") {
        Some(rest) => magnitude_line(true, rest),
        None => magnitude_line(false, text),
    }
}

// As many entries as `numbers` takes, to the end of the text.
pub(crate) fn all(text: &[u8], numbers: &mut [f64]) -> Result<(), Refusal>
    ensures { map_outcome (λ _. numbers.new) (outcome result) ≡ numbers_of (length numbers.old) text.now }
{
    let mut rest = text;
    for x in numbers.iter_mut() {
        let e = entry(rest)?;
        *x = e.number;
        rest = e.rest;
    }
    if !rest.is_empty() {
        return Err(Refusal::WrongEntries);
    }
    Ok(())
}
