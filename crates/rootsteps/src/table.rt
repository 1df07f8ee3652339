// Writing the table, line by line.
// Kept: by a Writer and not Display, since its promise is the bytes that are put, as far as they fit.
ghost use Rattle.std.specs.Prelude.{◌≡◌, ◌+◌, ◌-◌, ◌*◌, ◌/◌, ◌^◌, ◌<◌, leb};
ghost use Rattle.real.specs.Bits.{next_of};
ghost use Rattle.texts.specs.Page.{Puts};
ghost use Rattle.rootsteps.specs.Request.{Askable};
ghost use Rattle.rootsteps.specs.Start.{Scales, start_of, last_of};
ghost use Rattle.rootsteps.specs.Table.{row_end, leading_row, verdict, row_of, rows_of, sum_line, nearest_line, table_of};
ghost use Rattle.rootsteps.specs.Table.{labelled as Table·labelled};

use super::{Steps, start};
use real::root;
use real::root::Found;
use texts::write::Writer;

// A word, and a number after it.
fn labelled(page: &mut Writer, label: &[u8], n: u64)
    ensures { Puts page.old page.new (Table·labelled label.now n) }
{
    page.bytes(label);
    page.number(n);
}

// The last two cells of a row: the root so far, and what its square leaves.
fn row_end(page: &mut Writer, found: Found)
    ensures { Puts page.old page.new (row_end (found.twice / 2) found.rest) }
{
    labelled(page, b" | ", found.twice / 2);
    labelled(page, b" | ", found.rest);
    page.bytes(b" |\n");
}

// The heading and the row of the leading bit.
fn leading_row(page: &mut Writer, found: Found)
    ensures { Puts page.old page.new (leading_row (found.twice / 2) found.rest) }
{
    page.bytes(b"| bit | trial | rest | fits | root | left |\n|---:|---:|---:|---|---:|---:|\n");
    labelled(page, b"| ", found.twice / 2);
    page.bytes(b" | | | yes");
    row_end(page, found);
}

// Whether a bit fits.
fn fits(page: &mut Writer, trial: u64, rest: u64)
    ensures { Puts page.old page.new (verdict (leb trial rest)) }
{
    if trial <= rest {
        page.bytes(b" | yes")
    } else {
        page.bytes(b" | no")
    }
}

// The row of the next bit: `next` is what the library's step makes of what is found.
fn row(page: &mut Writer, found: Found, next: Found)
    requires rest_bound { (found.rest < 2 ^ 62) × (found.twice + 2 * found.bit < 2 ^ 63) }
    requires next_value { next ≡ next_of found }
    ensures { Puts page.old page.new (row_of found) }
{
    let Found { twice, rest, bit } = found;
    let trial = twice + bit;
    let doubled = 2 * rest;
    labelled(page, b"| ", bit);
    labelled(page, b" | ", trial);
    labelled(page, b" | ", doubled);
    fits(page, trial, doubled);
    row_end(page, next);
}

// The rows of the bits after the leading one, each by one call of the library's step: what is found after the last.
fn rows(page: &mut Writer, significand: u64, bits: u64) -> Found
    requires { Scales bits significand }
    ensures put { Puts page.old page.new (rows_of (bits - 1) (start_of significand bits)) }
    ensures last { result ≡ last_of (bits - 1) (start_of significand bits) }
{
    let mut found = start::leading_bit(significand, bits);
    for _bit in 1..bits {
        let next = root::next_bit(found);
        row(page, found, next);
        found = next;
    }
    found
}

// The whole root, and what its square leaves.
fn sum_line(page: &mut Writer, last: Found, number: u64, exponent: u64)
    ensures { Puts page.old page.new (sum_line (last.twice / 2) last.rest number exponent) }
{
    let root = last.twice / 2;
    labelled(page, b"\n", root);
    labelled(page, b" * ", root);
    labelled(page, b" + ", last.rest);
    labelled(page, b" = ", number);
    labelled(page, b" * 2^", exponent);
    page.byte(b'\n');
}

// The nearest, over a power of 2.
fn nearest_line(page: &mut Writer, last: Found, power: u64)
    ensures { Puts page.old page.new (nearest_line (last.twice / 2) last.rest power) }
{
    let root = last.twice / 2;
    let nearest = if root < last.rest { root + 1 } else { root };
    labelled(page, b"\nnearest: ", nearest);
    labelled(page, b" / 2^", power);
    page.byte(b'\n');
}

// The whole table of a number, in so many bits.
pub(crate) fn steps(page: &mut Writer, asked: Steps)
    requires { Askable asked.number asked.bits }
    ensures { Puts page.old page.new (table_of asked.number asked.bits) }
{
    let scaled = start::scale(asked);
    let significand = scaled.significand;
    let exponent = scaled.exponent;
    leading_row(page, start::leading_bit(significand, asked.bits));
    let last = rows(page, significand, asked.bits);
    sum_line(page, last, asked.number, exponent);
    nearest_line(page, last, exponent / 2);
}
