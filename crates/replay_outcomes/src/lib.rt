// What comes of a call of the refusals' replay, as a case of the file has it (oracle/README.md): what is lent is filled by rule (filling.rt), as far as the program
// has room (lent.rt), and what comes back is compared.

#![tactic(auto)]

pub mod filling;
pub mod lent;

ghost use Rattle.std.specs.Prelude.{◌≡◌};
ghost use Rattle.replay_outcomes.specs.Outcome.{same_outcome};

// What comes of a call: its number, what stands beside it, and one word of all that was lent to be written.
#[derive(Clone, Copy, PartialEq, Eq)]
pub struct Outcome {
    pub number: u64,
    pub beside: u64,
    pub digest: u64,
}

// Whether what came of a call is what was recorded.
#[tactic(auto, unfolding(crate::specs::Outcome::same_outcome))]
pub fn same(wanted: Outcome, got: Outcome) -> bool
    ensures { result ≡ same_outcome wanted got }
{
    wanted == got
}
