// Prints how the square root finds its bits, one a row, by the function that the library uses: `2 8` on standard input gives the table of docs/ROOT.md.

#![tactic(auto)]

mod read;
mod start;
mod table;

ghost use Rattle.std.specs.Prelude.{◌≡◌};
ghost use Rattle.io.specs.Counts.{IsPrefixLen};
ghost use Rattle.texts.specs.Page.{page, written, Puts};
ghost use Rattle.rootsteps.specs.Output.{output_of};

use texts::write::Writer;

// What a text can ask: the steps to the root of a number, in so many bits.
#[derive(Clone, Copy)]
struct Steps {
    number: u64,
    bits: u64,
}

// The steps that a text asks, or what it should have asked.
fn answer(page: &mut Writer, text: &[u8])
    ensures { Puts page.old page.new (output_of text.now) }
{
    match read::request(text) {
        Some(asked) => table::steps(page, asked),
        None => page.bytes(
            b"two whole numbers, as in 2 8: the number, and how many bits of its root (2 to 26); the number is from 1 up and has at most so many bits\n",
        ),
    }
}

// What the program writes for a text, put at the start of a lent buffer as far as it fits: the number of bytes put there. The rest of the buffer stays as it was.
fn run(text: &[u8], out: &mut [u8]) -> usize
    ensures result_after { page out.new result ≡ written (page out.old 0) (output_of text.now) }
    ensures prefix_len { IsPrefixLen result out.new }
{
    let mut page = Writer::new(out);
    answer(&mut page, text);
    page.used
}

// Reads standard input and writes what `run` makes of it. 4,096 bytes are enough for both (proofs/Whole.antt): a longer text asks nothing, as its first 4,096
// bytes do.
fn main() {
    let mut text = io::buffer();
    let read = io::read_full(0, &mut text);
    let mut out = io::buffer();
    let written = run(&text[..read], &mut out);
    io::write_all(1, &out[..written]);
}
