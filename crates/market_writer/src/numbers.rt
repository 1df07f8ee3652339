// Which floats can be written: whole numbers up to 2^53 as real parts, zeros as all others.
ghost use Rattle.std.specs.Prelude.{◌≡◌, ◌<◌, length};
ghost use Rattle.market.specs.Text as Text;
ghost use Rattle.market_writer.specs.Told.{whole_of};

// x without its minus: -0 stays.
#[tactic(auto, unfolding(market::specs::Text::magnitude))]
fn magnitude(x: f64) -> f64
    ensures { result ≡ Text.magnitude x }
{
    if x < 0.0 {
        return -x;
    }
    x
}

// Where 64 bits hold the whole part of m.
fn in_range(m: f64) -> bool
    ensures { result ≡ Text.in_range m }
{
    m > -1.0 && m < 18446744073709551616.0
}

// The magnitude of x, where x is a whole number up to 2^53.
pub(crate) fn whole(x: f64) -> Option<u64>
    ensures { result ≡ whole_of x }
{
    let m = magnitude(x);
    if !in_range(m) {
        return None;
    }
    let v = std::num::truncating_f64_to_u64(m);
    if refusals::LARGEST_WHOLE < v || v as f64 != m {
        return None;
    }
    Some(v)
}

// The first part of a record is a whole number, and its other parts are zero.
pub(crate) fn is_writable(parts: &[f64]) -> bool
    requires { 0 < length parts.now }
    ensures { result ≡ Text.is_writable (length parts.now) parts.now }
{
    whole(parts[0]).is_some() && parts[1..].iter().all(|x| *x == 0.0)
}
