// The operators of two records, each by a function of its own: what `evindrast_record` leaves for its number and no floats, without the table.
// Kept: the parameters and the numbers that are answered are those of the C interface.
ghost use Rattle.std.specs.Prelude.{◌≡◌, [], pos};
ghost use Rattle.calls.specs.Called.{binary_number};
ghost use Rattle.calls.specs.declared.Binary.TheVariants.{Add, Sub, Mul, Div};
ghost use Rattle.exports.specs.ByKind.{record_left};

// The sum of two records: function 09.
#[unsafe(no_mangle)]
pub extern "C" fn evindrast_add(kind: u32, records: &[u64], out: &mut [u64]) -> u32
    ensures { (result, out.new) ≡ record_left kind (binary_number Add) (pos 0) records.now [] out.old }
{
    exports::operators::evindrast_add(kind, records, out)
}

// The difference of two records: function 0a.
#[unsafe(no_mangle)]
pub extern "C" fn evindrast_sub(kind: u32, records: &[u64], out: &mut [u64]) -> u32
    ensures { (result, out.new) ≡ record_left kind (binary_number Sub) (pos 0) records.now [] out.old }
{
    exports::operators::evindrast_sub(kind, records, out)
}

// The product of two records: function 0b.
#[unsafe(no_mangle)]
pub extern "C" fn evindrast_mul(kind: u32, records: &[u64], out: &mut [u64]) -> u32
    ensures { (result, out.new) ≡ record_left kind (binary_number Mul) (pos 0) records.now [] out.old }
{
    exports::operators::evindrast_mul(kind, records, out)
}

// The quotient of two records: function 0c.
#[unsafe(no_mangle)]
pub extern "C" fn evindrast_div(kind: u32, records: &[u64], out: &mut [u64]) -> u32
    ensures { (result, out.new) ≡ record_left kind (binary_number Div) (pos 0) records.now [] out.old }
{
    exports::operators::evindrast_div(kind, records, out)
}
