// The lines that are printed.
// Kept: by a Writer and not Display, since its promise is the bytes that are put, as far as they fit.
ghost use Rattle.std.specs.Prelude.{◌≡◌, ◌/◌, length};
ghost use Rattle.refusals.specs.Refused.{number};
ghost use Rattle.texts.specs.Page.{Puts};
ghost use Rattle.dualrun_text.specs.Lines.{word_text, refusal_line, pair_line, record_line, record_lines, entry_text, order_line};
ghost use Rattle.dualrun_text.specs.Lines.{entries as Lines·entries};

use refusals::Refusal;
use texts::write::Writer;

// The word of a float.
fn word(page: &mut Writer, x: f64)
    ensures { Puts page.old page.new (word_text x) }
{
    page.word(real::word_of_float(x));
}

// The number of a refusal, alone on a line.
pub(crate) fn refusal(page: &mut Writer, refusal: Refusal)
    ensures { Puts page.old page.new (refusal_line (number refusal)) }
{
    page.number(refusal.number() as u64);
    page.byte(b'\n');
}

// Two numbers on a line.
pub(crate) fn pair(page: &mut Writer, a: usize, b: usize)
    ensures { Puts page.old page.new (pair_line a b) }
{
    page.number(a as u64);
    page.byte(b' ');
    page.number(b as u64);
    page.byte(b'\n');
}

// A record on a line.
fn record(page: &mut Writer, re: f64, eps: f64)
    ensures { Puts page.old page.new (record_line re eps) }
{
    word(page, re);
    page.byte(b' ');
    word(page, eps);
    page.byte(b'\n');
}

// The records of flat floats, one a line.
pub(crate) fn records(page: &mut Writer, floats: &[f64])
    ensures { Puts page.old page.new (record_lines floats.now (length floats.now / 2)) }
{
    for parts in floats.chunks_exact(2) {
        record(page, parts[0], parts[1]);
    }
}

// Entry number i of an order, a space before it unless it is the first.
fn entry(page: &mut Writer, i: usize, x: usize)
    ensures { Puts page.old page.new (entry_text i x) }
{
    if i == 0 {
        return page.number(x as u64);
    }
    page.byte(b' ');
    page.number(x as u64);
}

// The entries of an order.
fn entries(page: &mut Writer, order: &[usize])
    ensures { Puts page.old page.new (Lines·entries order.now (length order.now)) }
{
    for (i, x) in order.iter().enumerate() {
        entry(page, i, *x);
    }
}

// An order on a line.
pub(crate) fn order(page: &mut Writer, order: &[usize])
    ensures { Puts page.old page.new (order_line order.now (length order.now)) }
{
    entries(page, order);
    page.byte(b'\n');
}
