// Reads standard input and writes what `dualrun_text::run` makes of it. 65,536 bytes are enough for both (crates/dualrun_text/proofs/Whole.antt): a longer text
// gives what its first 65,536 bytes give. A text that its first line decides is read no further (crates/dualrun_text/proofs/LineDecides.antt).
// Kept: a byte is read into its place, and the text so far tested, so the place is a number.

#![tactic(auto)]

ghost use Rattle.std.specs.Prelude.{◌≤◌, length};
ghost use Rattle.io.specs.Counts.{IsPrefixLen};
ghost use Rattle.dualrun_text.specs.Request.{longest_line};

// Reads byte by byte until the text is decided or longer than any first line, then the rest: how many bytes of the buffer were read.
fn read_text(text: &mut [u8]) -> usize
    requires { longest_line ≤ length text.old }
    ensures { IsPrefixLen result text.new }
{
    for read in 0..dualrun_text::LONGEST_LINE {
        let end = read + 1;
        if io::read_full(0, &mut text[read..end]) == 0 {
            return read;
        }
        if dualrun_text::decided(&text[..end]) {
            return end;
        }
    }
    dualrun_text::LONGEST_LINE + io::read_full(0, &mut text[dualrun_text::LONGEST_LINE..])
}

fn main() {
    let mut text = io::large_buffer();
    let read = read_text(&mut text);
    let mut out = io::large_buffer();
    let written = dualrun_text::run(&text[..read], &mut out);
    io::write_all(1, &out[..written]);
}
