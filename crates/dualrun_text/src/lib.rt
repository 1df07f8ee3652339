// The runner as a function of texts: what `dualrun` reads in, what it writes out (document 01, the section on the runner).

#![tactic(auto)]

mod eig_command;
mod lu_command;
mod read;
mod write;

ghost use Rattle.std.specs.Prelude.{◌≡◌, ◌≤◌, Some, length, take};
ghost use Rattle.refusals.specs.Refused.{answer_number};
ghost use Rattle.texts.specs.Page.{page, written, Puts};
ghost use Rattle.dualrun_text.specs.Request.{line_refusal};
ghost use Rattle.dualrun_text.specs.Output.{output_of};
ghost use Rattle.dualrun_text.specs.Decided.{decided_of};

use refusals::Refusal;
use texts::write::Writer;

// The bytes of the longest first line that can be read: `eig `, nine digits, a space, nine digits and a newline.
pub const LONGEST_LINE: usize = 24;

// The most digits of N and of S.
const NUMBER_DIGITS: usize = 9;

// The digits of a word, and its bytes with the one after it.
const WORD_DIGITS: usize = 16;

const WORD_BYTES: usize = 17;

// The floats of the largest matrix, and of its eigenvalues.
const MOST_FLOATS: usize = refusals::LARGEST_N * MOST_VALUES;

const MOST_VALUES: usize = refusals::LARGEST_N * 2;

// What the first line asks, and where the matrix starts.
// Kept: a place, and not the text from there on, since `line_request` holds the requests of two texts to be equal.
#[derive(Clone, Copy)]
enum Request {
    Lu {
        n: usize,
        start: usize,
    },
    Eig {
        n: usize,
        limit: usize,
        start: usize,
    },
}

impl Request {
    // What the first line is refused for.
    fn line_refusal(self) -> Result<(), Refusal>
        ensures { answer_number result ≡ line_refusal (Some self) }
    {
        match self {
            Request::Lu { n, start: _ } => lu_command::line_refusal(n),
            Request::Eig { n, limit, start: _ } => eig_command::line_refusal(n, limit),
        }
    }
}

// What the runner writes for a text.
fn answer(page: &mut Writer, text: &[u8])
    ensures { Puts page.old page.new (output_of text.now) }
{
    match read::request(text) {
        Some(Request::Lu { n, start }) => lu_command::run(page, &text[start..], n),
        Some(Request::Eig { n, limit, start }) => eig_command::run(page, &text[start..], n, limit),
        None => write::refusal(page, Refusal::Unreadable),
    }
}

// What the runner writes for a text, put at the start of a lent buffer, as far as it fits: the number of bytes put there. The rest of the buffer stays
// as it was. No text gives more than 65,536 bytes, and none gives another output than its first 65,536 bytes do.
pub fn run(text: &[u8], out: &mut [u8]) -> usize
    ensures output { page out.new result ≡ written (page out.old 0) (output_of text.now) }
    ensures counts { (result ≤ length out.new) × (result ≡ length (take result out.new)) }
{
    let mut page = Writer::new(out);
    answer(&mut page, text);
    page.used
}

// Whether the text decides the output, whatever follows it: its first line has come, and is refused 1, 3 or 4 or cannot be read.
pub fn decided(text: &[u8]) -> bool
    ensures { result ≡ decided_of text.now }
{
    if !read::has_line(text) {
        return false;
    }
    let Some(request) = read::request(text) else {
        return true;
    };
    request.line_refusal().is_err()
}
