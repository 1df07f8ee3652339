// Writing: a lent buffer takes one text after the other, as far as they fit.
ghost use Rattle.std.specs.Prelude.{◌≡◌, [], ◌∷◌, length};
ghost use Rattle.texts.specs.Page.{page, page_of, Puts, Fitting};
ghost use Rattle.texts.specs.Numbers.{decimal_text, hex_text, Spelled};

// A lent buffer, and how many of its bytes are written: its page (specs/Page.antt). A full buffer takes no more.
#[derive(Drop)]
pub struct Writer<'a> {
    out: &'a mut [u8],
    pub used: usize,
}

// How many of count bytes fit after the first `at` of a buffer of so many.
fn fitting(size: usize, at: usize, count: usize) -> usize
    ensures { Fitting size at count result }
{
    size.saturating_sub(at).min(count)
}

// The decimal digits of n at the end of the array, the last first, and where they begin.
// A lent array does not tell a proof its length, so that is required.
fn spell(n: u64, digits: &mut [u8; 20]) -> usize
    requires { length digits.old ≡ 20 }
    ensures { Spelled n digits.new result }
{
    let mut start = 19usize;
    let mut rest = n;
    // Kept: a loop, and no io::decimal: tried, and a written market text of n = 8 takes 1.51 of plain Rust's time, where the bar is 1.5 (docs/SPEED.md).
    while 9 < rest {
        digits[start] = b'0' + (rest % 10) as u8;
        rest /= 10;
        start -= 1;
    }
    digits[start] = b'0' + rest as u8;
    start
}

impl<'a> Writer<'a> {
    // Nothing is written yet.
    pub fn new(out: &'a mut [u8]) -> Writer<'a>
        ensures lent { result.out.ghost_name ≡ out.entry.ghost_name }
        ensures none { page_of result ≡ page out.old 0 }
    {
        Writer { out, used: 0 }
    }

    pub fn byte(&mut self, b: u8)
        ensures { Puts self.old self.new (b ∷ []) }
    {
        if self.used < self.out.len() {
            self.out[self.used] = b;
            self.used += 1;
        }
    }

    // One test for all of the text, and none for each byte.
    pub fn bytes(&mut self, text: &[u8])
        ensures { Puts self.old self.new text.now }
    {
        let count = fitting(self.out.len(), self.used, text.len());
        let end = self.used + count;
        if self.used < end {
            self.out[self.used..end].copy_from_slice(&text[..count]);
            self.used = end;
        }
    }

    // In decimal, with no zero in front.
    pub fn number(&mut self, n: u64)
        ensures { Puts self.old self.new (decimal_text n) }
    {
        let mut digits = [0u8; 20];
        let start = spell(n, &mut digits);
        self.bytes(&digits[start..]);
    }

    // A word in 16 hex digits.
    pub fn word(&mut self, w: u64)
        ensures { Puts self.old self.new (hex_text w) }
    {
        let mut digits = [0u8; 16];
        let count = io::hex(w, 16, &mut digits);
        self.bytes(&digits[..count]);
    }
}
