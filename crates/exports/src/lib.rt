// What C and Rust link: each function here is one of the crates' own under its promise. The crate `exports_c` exports each of them to C under its name: slices
// cross as a pointer and a length, and a lent buffer overlaps no other. An answer leaves as the documents' number, 0 where the call is done; a call that is
// refused writes nothing, but for 6 (see `evindrast_lu`).

#![tactic(auto)]

pub mod hyperdual_linalg;
pub mod linalg;
pub mod matrix_market;
pub mod operators;
pub mod record;
pub mod root;
