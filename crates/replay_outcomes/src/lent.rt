// What the program has room for, cut at a case's lengths, and a case's numbers in the exports' types.
// Kept: `number` is a number of the C interface, as the file has it.

ghost use Rattle.std.specs.Prelude.{◌≤◌, length};

// The floats of a matrix of 34 by 34 records of four, and one more.
pub const MOST_FLOATS: usize = 4625;

// More than the entries of an order, or the words of records, that a call takes.
pub const FEW: usize = 64;

// So many of the room's first places, at most all.
pub fn part<T>(room: &mut [T], count: u64) -> &mut [T]
    ensures { length result.now ≤ length room.old }
{
    let end = room.len().min(count as usize);
    &mut room[..end]
}

// A kind or a function.
pub fn number(x: u64) -> u32 {
    (x % 0x1_0000_0000) as u32
}
