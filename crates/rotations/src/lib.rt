// One entry above the diagonal in Jacobi's run over `Dual`: what is done with it, by which angle, and the rotation.
// Inner: for the crate that holds the entry. Its functions have a `requires`, which that crate shows.

#![tactic(auto)]

pub mod cells;
mod choose;
mod pair;
mod turn;
pub mod work;

use dual::Dual;

// What is done with an entry: it is left, set to zero, or rotated away.
#[derive(Clone, Copy, Debug, PartialEq, Eq, Hash)]
pub enum Choice {
    Keep,
    Clear,
    Rotate,
}

// What a rotation is made with: s and tau turn, h moves between the diagonal entries.
#[derive(Clone, Copy, Debug)]
pub struct Angle {
    pub s: Dual,
    pub tau: Dual,
    pub h: Dual,
}

// An entry x above the diagonal, between the diagonal entries dp of its row and dq of its column.
#[derive(Clone, Copy, Debug)]
pub(crate) struct Block {
    pub x: Dual,
    pub dp: Dual,
    pub dq: Dual,
}
