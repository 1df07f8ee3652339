// The entries over the record of a width.
// Kept: a match in each, since a generic function is chosen where it is called: no closure is passed that is one over any record.
ghost use Rattle.std.specs.Prelude.{◌≡◌};
ghost use Rattle.algebra.specs.Outcome.{outcome};
ghost use Rattle.market.specs.Answers.{answered};
ghost use Rattle.market.specs.Read.{read_left};
ghost use Rattle.market.specs.Write.{write_left};
ghost use Rattle.replay_market.specs.Cases.{width_at, width_of};

use dual::Dual;
use hyperdual::HyperDual;
use refusals::Refusal;
use replay::Cut;

// The records that a case says by the number of their floats.
#[derive(Clone, Copy)]
pub(crate) enum Width {
    Dual,
    HyperDual,
}

impl TryFrom<u64> for Width {
    type Error = Cut;

    ghost try_from_gives = { λ floats r. r ≡ width_at floats };

    fn try_from(floats: u64) -> Result<Width, Cut> {
        match floats {
            2 => Ok(Width::Dual),
            4 => Ok(Width::HyperDual),
            _ => Err(Cut),
        }
    }
}

pub(crate) fn read(width: Width, text: &[u8], out: &mut [f64]) -> Result<usize, Refusal>
    ensures { answered (outcome result) out.new ≡ read_left (width_of width) text.now out.old }
{
    match width {
        Width::Dual => market_reader::read::<Dual>(text, out),
        Width::HyperDual => market_reader::read::<HyperDual>(text, out),
    }
}

pub(crate) fn write(width: Width, n: usize, a: &[f64], text: &mut [u8]) -> Result<usize, Refusal>
    ensures { answered (outcome result) text.new ≡ write_left (width_of width) n a.now text.old }
{
    match width {
        Width::Dual => market_writer::write::<Dual>(n, a, text),
        Width::HyperDual => market_writer::write::<HyperDual>(n, a, text),
    }
}
