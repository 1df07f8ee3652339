// Lent floats: copied here, by their words in words.rt.

#![tactic(auto)]

pub mod words;

ghost use Rattle.std.specs.Prelude.{◌≡◌, length};

// The floats of one buffer into another.
// Kept: not `copy_from_slice`, which has the archive for C need `memmove` from outside, as it did not before.
pub fn copy(from: &[f64], to: &mut [f64])
    requires { length to.old ≡ length from.now }
    ensures { to.new ≡ from.now }
{
    for (i, float) in to.iter_mut().enumerate() {
        *float = from[i];
    }
}
