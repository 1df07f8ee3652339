// The call of a case, and what came of it.
// Kept: `IsAlwaysCallable` is said of a closure's own type, so at each function that takes one; the numbers that closures answer are those of the C interface.
use replay_outcomes::filling::Order;
use replay_outcomes::lent::{FEW, MOST_FLOATS};
use replay_outcomes::{Outcome, filling, lent};

// What is lent to be written holds before the call.
const BEFORE: f64 = -7.25;

const BEFORE_WORD: u64 = 0xc01d_0000_0000_0000;

const BESIDE: usize = 77;

const NO_ENTRY: usize = 99;

// What is called, and what it is lent (oracle/README.md).
#[derive(Clone, Copy)]
pub(crate) struct Case {
    pub entry: u64,
    // n or the kind, or the word that has a root
    pub size: u64,
    // of the inputs
    pub style: u64,
    // how long the two inputs, the order, the result and the values are
    pub first: u64,
    pub second: u64,
    pub rows: u64,
    pub result: u64,
    pub values: u64,
    pub order: Order,
    // the swap count, the limit or the function
    pub count: u64,
}

fn outcome(number: u32, beside: usize, digest: u64) -> Outcome {
    Outcome {
        number: u64::from(number),
        beside: beside as u64,
        digest,
    }
}

// A number with nothing beside it.
fn unaccompanied(number: u32, digest: u64) -> Outcome {
    outcome(number, BESIDE, digest)
}

// LU, over either record.
fn lu<F: FnOnce(usize, &[f64], &mut [f64], &mut [usize], &mut usize) -> u32>(
    case: &Case,
    entry: F,
) -> Outcome
    requires { F.IsAlwaysCallable entry }
{
    let mut a = [0.0; MOST_FLOATS];
    let mut factors = [BEFORE; MOST_FLOATS];
    let mut order = [NO_ENTRY; FEW];
    let mut beside = BESIDE;
    let a = lent::part(&mut a, case.first);
    let factors = lent::part(&mut factors, case.result);
    let order = lent::part(&mut order, case.rows);
    filling::floats(case.style, 1, a);
    let number = entry(case.size as usize, a, factors, order, &mut beside);
    let so_far = filling::join(0, factors);
    outcome(number, beside, filling::join(so_far, order))
}

fn solve<F: FnOnce(usize, &[f64], &[usize], &[f64], &mut [f64]) -> u32>(
    case: &Case,
    entry: F,
) -> Outcome
    requires { F.IsAlwaysCallable entry }
{
    let mut factors = [0.0; MOST_FLOATS];
    let mut b = [0.0; MOST_FLOATS];
    let mut order = [NO_ENTRY; FEW];
    let mut x = [BEFORE; MOST_FLOATS];
    let factors = lent::part(&mut factors, case.first);
    let b = lent::part(&mut b, case.second);
    let order = lent::part(&mut order, case.rows);
    let x = lent::part(&mut x, case.result);
    filling::floats(case.style, 1, factors);
    filling::floats(case.style, 2, b);
    case.order.fill(order);
    let number = entry(case.size as usize, factors, order, b, x);
    unaccompanied(number, filling::join(0, x))
}

// The determinant, of the factors, the order and the swap count.
fn determinant<F: FnOnce(usize, &[f64], &[usize], usize) -> Outcome>(
    case: &Case,
    entry: F,
) -> Outcome
    requires { F.IsAlwaysCallable entry }
{
    let mut factors = [0.0; MOST_FLOATS];
    let mut order = [NO_ENTRY; FEW];
    let factors = lent::part(&mut factors, case.first);
    let order = lent::part(&mut order, case.rows);
    filling::floats(case.style, 1, factors);
    case.order.fill(order);
    entry(case.size as usize, factors, order, case.count as usize)
}

fn dual_determinant(n: usize, factors: &[f64], order: &[usize], swaps: usize) -> Outcome {
    let mut re = BEFORE;
    let mut eps = BEFORE;
    let number = exports::linalg::evindrast_determinant(
        n, factors, order, swaps, &mut re, &mut eps,
    );
    unaccompanied(number, filling::join(0, &[re, eps]))
}

fn hyperdual_determinant(n: usize, factors: &[f64], order: &[usize], swaps: usize) -> Outcome {
    let mut re = BEFORE;
    let mut eps1 = BEFORE;
    let mut eps2 = BEFORE;
    let mut eps1eps2 = BEFORE;
    let number = exports::hyperdual_linalg::evindrast_hyperdual_determinant(
        n,
        factors,
        order,
        swaps,
        &mut re,
        &mut eps1,
        &mut eps2,
        &mut eps1eps2,
    );
    unaccompanied(number, filling::join(0, &[re, eps1, eps2, eps1eps2]))
}

fn inverse<F: FnOnce(usize, &[f64], &[usize], &mut [f64]) -> u32>(case: &Case, entry: F) -> Outcome
    requires { F.IsAlwaysCallable entry }
{
    let mut factors = [0.0; MOST_FLOATS];
    let mut order = [NO_ENTRY; FEW];
    let mut out = [BEFORE; MOST_FLOATS];
    let factors = lent::part(&mut factors, case.first);
    let order = lent::part(&mut order, case.rows);
    let out = lent::part(&mut out, case.result);
    filling::floats(case.style, 1, factors);
    case.order.fill(order);
    let number = entry(case.size as usize, factors, order, out);
    unaccompanied(number, filling::join(0, out))
}

fn eigenvalues(case: &Case) -> Outcome {
    let mut a = [0.0; MOST_FLOATS];
    let mut values = [BEFORE; MOST_FLOATS];
    let mut vectors = [BEFORE; MOST_FLOATS];
    let mut sweeps = BESIDE;
    let a = lent::part(&mut a, case.first);
    let values = lent::part(&mut values, case.values);
    let vectors = lent::part(&mut vectors, case.result);
    filling::floats(case.style, 1, a);
    let number = exports::linalg::evindrast_jacobi_eigenvalue(
        case.size as usize,
        a,
        case.count as usize,
        values,
        vectors,
        &mut sweeps,
    );
    let so_far = filling::join(0, vectors);
    outcome(number, sweeps, filling::join(so_far, values))
}

// The sum or the product of a run.
fn over_run<F: FnOnce(u32, &[f64], &mut [f64]) -> u32>(case: &Case, entry: F) -> Outcome
    requires { F.IsAlwaysCallable entry }
{
    let mut run = [0.0; MOST_FLOATS];
    let mut out = [BEFORE; MOST_FLOATS];
    let run = lent::part(&mut run, case.first);
    let out = lent::part(&mut out, case.result);
    filling::floats(case.style, 1, run);
    let number = entry(lent::number(case.size), run, out);
    unaccompanied(number, filling::join(0, out))
}

// A function of a record, by its number.
fn function(case: &Case) -> Outcome {
    let mut records = [0u64; FEW];
    let mut floats = [0u64; FEW];
    let mut out = [BEFORE_WORD; FEW];
    let records = lent::part(&mut records, case.first);
    let floats = lent::part(&mut floats, case.second);
    let out = lent::part(&mut out, case.result);
    filling::words(case.style, 1, records);
    filling::words(case.style, 2, floats);
    let number = exports::record::evindrast_record(
        lent::number(case.size),
        lent::number(case.count),
        replay_table::exponent(case.order.value),
        records,
        floats,
        out,
    );
    unaccompanied(number, filling::join(0, out))
}

// An operator of two records.
fn operator<F: FnOnce(u32, &[u64], &mut [u64]) -> u32>(case: &Case, entry: F) -> Outcome
    requires { F.IsAlwaysCallable entry }
{
    let mut records = [0u64; FEW];
    let mut out = [BEFORE_WORD; FEW];
    let records = lent::part(&mut records, case.first);
    let out = lent::part(&mut out, case.result);
    filling::words(case.style, 1, records);
    let number = entry(lent::number(case.size), records, out);
    unaccompanied(number, filling::join(0, out))
}

// By the function's number.
fn operate(case: &Case) -> Outcome {
    match case.count {
        0x09 => operator(case, exports::operators::evindrast_add),
        0x0a => operator(case, exports::operators::evindrast_sub),
        0x0b => operator(case, exports::operators::evindrast_mul),
        _ => operator(case, exports::operators::evindrast_div),
    }
}

// The root, by words and by floats.
fn root_by_word(case: &Case) -> Outcome {
    unaccompanied(0, exports::root::evindrast_sqrt_word(case.size))
}

fn root(case: &Case) -> Outcome {
    let root = exports::root::evindrast_sqrt(real::float_of_word(case.size));
    unaccompanied(0, real::word_of_float(root))
}

// By the entry's number. Another number is no entry, and no case wants what it gives.
// Kept: the numbers of the file's entries stand here alone, so an enum of them would only be made of them and taken apart.
pub(crate) fn call(case: &Case) -> Outcome {
    match case.entry {
        0x01 => lu(case, exports::linalg::evindrast_lu),
        0x02 => solve(case, exports::linalg::evindrast_solve),
        0x03 => determinant(case, dual_determinant),
        0x04 => inverse(case, exports::linalg::evindrast_inverse),
        0x05 => eigenvalues(case),
        0x06 => function(case),
        0x07 => operate(case),
        0x08 => over_run(case, exports::record::evindrast_sum),
        0x09 => over_run(case, exports::record::evindrast_product),
        0x0a => root_by_word(case),
        0x0b => root(case),
        0x11 => lu(case, exports::hyperdual_linalg::evindrast_hyperdual_lu),
        0x12 => solve(case, exports::hyperdual_linalg::evindrast_hyperdual_solve),
        0x13 => determinant(case, hyperdual_determinant),
        0x14 => inverse(case, exports::hyperdual_linalg::evindrast_hyperdual_inverse),
        _ => unaccompanied(u32::MAX, 0),
    }
}
