// What is printed of a function and of a case that differs.
// Kept: by hand, as `Tally::report`: `println!` answers an error where nothing can be written, and the program goes on there as it did.
use replay::tally::Tally;
use replay_table::read::Case;

// The descriptor of standard output.
const STDOUT: i32 = 1;

// Prints a function by its number in the table.
fn name(function: u64) {
    io::write_all(STDOUT, b"  function ");
    io::print_hex(STDOUT, function, 2);
}

// The count of a function that was compared.
pub(crate) fn function(function: u64, count: Tally) {
    if count.compared != 0 {
        name(function);
        count.report("");
    }
}

// An answer: its number and its words.
fn answer(number: u64, words: &[u64]) {
    io::print_hex(STDOUT, number, 2);
    for word in words {
        io::write_all(STDOUT, b" ");
        io::print_hex(STDOUT, *word, 16);
    }
}

// FUNCTION: got ANSWER, wanted ANSWER.
pub(crate) fn case(case: Case, number: u64, words: &[u64]) {
    name(case.function);
    io::write_all(STDOUT, b": got ");
    answer(number, words);
    io::write_all(STDOUT, b", wanted ");
    answer(case.number, case.answer);
    io::write_all(STDOUT, b"\n");
}
