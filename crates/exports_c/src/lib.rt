// The static library for C and Rust to link: each function is that of the crate `exports` under the same name and promise. C callers find what crosses, and
// how, in include/evindrast.h.

#![tactic(auto)]

mod hyperdual_linalg;
mod linalg;
mod matrix_market;
mod operators;
mod record;
mod root;
