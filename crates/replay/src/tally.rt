// Counting the cases of a file, and reporting the count.
// Kept: that a closure may be called is asked beside each that is taken: a clause of the closure, which no type holds.
ghost use Rattle.std.specs.Prelude.{◌≡◌, ◌<◌, false, Result};
ghost use Rattle.replay.specs.Tally.{tally, counted_of, begun_of, after_of};

use super::{Cut, Reader};
use std::fs::File;
use std::io::Read;

// The descriptor of standard output.
const STDOUT: i32 = 1;

// How many cases were compared, and how many differ. A count that reaches the greatest number of 64 bits stays there.
#[derive(Clone, Copy)]
pub struct Tally {
    pub compared: u64,
    pub different: u64,
}

// The cases of a file so far: their count, and how many are left.
#[derive(Clone, Copy)]
pub struct Run {
    pub tally: Tally,
    pub left: u64,
}

impl Tally {
    // Nothing counted yet.
    pub fn none() -> Tally
        ensures { result ≡ tally 0 0 }
    {
        Tally {
            compared: 0,
            different: 0,
        }
    }

    // One case more: the same or not.
    #[tactic(auto, unfolding(crate::specs::Tally::counted_of, crate::specs::Tally::one_more))]
    pub fn count(&mut self, same: bool)
        ensures { self.new ≡ counted_of self.old same }
    {
        self.compared = self.compared.saturating_add(1);
        if !same {
            self.different = self.different.saturating_add(1);
        }
    }

    // Prints NAME: N compared, M different.
    // Kept: `println!` answers an error where nothing can be written, and the programs go on there as they did.
    pub fn report(self, name: &str) {
        io::write_all(STDOUT, name.as_bytes());
        io::write_all(STDOUT, b": ");
        io::print_decimal(STDOUT, self.compared);
        io::write_all(STDOUT, b" compared, ");
        io::print_decimal(STDOUT, self.different);
        io::write_all(STDOUT, b" different\n");
    }
}

impl Run {
    // What comes before the cases: where it is not whole, it counts as a case that differs and no case is left.
    #[tactic(auto, unfolding(crate::specs::Tally::begun_of))]
    pub fn begin(&mut self, read: Result<(), Cut>)
        ensures { self.new ≡ begun_of self.old read }
    {
        if read.is_err() {
            self.tally.count(false);
            self.left = 0;
        }
    }

    // One case more: the same or not. One that was not read whole differs, and none is left after it.
    #[tactic(auto, unfolding(crate::specs::Tally::after_of))]
    pub fn add(&mut self, case: Result<bool, Cut>)
        ensures { self.new ≡ after_of self.old case }
    {
        match case {
            Ok(same) => {
                self.tally.count(same);
                self.left = self.left.saturating_sub(1);
            }
            Err(Cut) => {
                self.tally.count(false);
                self.left = 0;
            }
        }
    }
}

impl<R: Read> Reader<R> {
    // The number of cases, in eight digits: what a file begins with.
    pub fn begin(&mut self) -> Run {
        let mut count = [0u64; 1];
        let read = self.read_words(8, &mut count);
        let mut run = Run {
            tally: Tally::none(),
            left: count[0],
        };
        run.begin(read);
        run
    }

    // The cases that are left, each read and compared by what is passed.
    pub fn cases<F: FnMut(&mut Reader<R>) -> Result<bool, Cut>>(
        &mut self,
        run: &mut Run,
        mut case: F,
    )
        requires { F.IsAlwaysCallable case }
    {
        while run.left > 0 {
            run.add(case(self));
        }
    }

    // The count of a file whose cases have been read: what comes after the last of them, but for newlines, is one more that differs.
    pub fn end(&mut self, run: Run) -> Tally {
        let mut tally = run.tally;
        for _ in 0..u64::MAX {
            match self.next_byte() {
                Some(b'\n') => {}
                Some(_) => break,
                None => return tally,
            }
        }
        tally.count(false);
        tally
    }
}

// The cases of a file that is open, each read and compared by what is passed, reported by a name.
// Kept: not inlined, so that the buffer of one file at a time lies on the stack, and none while a file is opened.
#[inline(never)]
fn replay_opened<F: FnMut(&mut Reader<File>) -> Result<bool, Cut>>(file: File, name: &str, case: F)
    requires { F.IsAlwaysCallable case }
{
    let mut reader = Reader::new(file);
    let mut run = reader.begin();
    reader.cases(&mut run, case);
    reader.end(run).report(name);
}

// Replays a file whose cases are each read and compared by what is passed, and reports it by a name.
pub fn replay_file<F: FnMut(&mut Reader<File>) -> Result<bool, Cut>>(
    rt: &HostRuntime,
    path: &str,
    name: &str,
    case: F,
) -> std::io::Result<()>
    requires { F.IsAlwaysCallable case }
{
    let file = File::open(rt, path)?;
    replay_opened(file, name, case);
    Ok(())
}
