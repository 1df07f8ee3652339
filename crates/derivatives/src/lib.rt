// The elementary functions of impl_derivatives.rs and sph_j1_series, once for the five record types: the series f0 to f3 of each function at a real
// part, the requests, and the plan that a record follows for a request.

#![tactic(auto)]

ghost use Rattle.std.specs.Prelude.{◌≡◌, ◌≤◌, nat_abs};
ghost use Rattle.refusals.specs.Largest as largest;
ghost use Rattle.derivatives.specs.Plan.{plan_of, plan_powi, plan_powf, is_small, small};
ghost use Rattle.derivatives.specs.Series.{recip_series, powi_series, powf_series, sqrt_series, cbrt_series, exp_series, exp2_series, exp_m1_series, logarithm_series, ln_series, log_series, log2_series, log10_series, ln1p_series, sin_series, cos_series, asin_series, acos_series, atan_series, sinh_series, cosh_series, asinh_series, acosh_series, atanh_series};

use refusals::Refusal;

const THIRD: f64 = 1.0 / 3.0;

const LN_2: f64 = 0.6931471805599453;

const LN_10: f64 = 2.302585092994046;

const EPSILON: f64 = 2.220446049250313e-16;

// The value of an elementary function and its first three derivatives at a real part.
#[derive(Clone, Copy)]
pub struct Series {
    pub f0: f64,
    pub f1: f64,
    pub f2: f64,
    pub f3: f64,
}

// A request: one of the named functions, each with the outside floats that it needs, taken at the real part re. `pow3` is re^(exp-3) for powi,
// and re^(((n-1)-1)-1) for powf.
#[derive(Clone, Copy)]
pub enum Function {
    Recip,
    Powi { exp: i32, pow3: f64 },
    Powf { n: f64, pow3: f64 },
    Sqrt,
    Cbrt { cbrt: f64 },
    Exp { exp: f64 },
    Exp2 { exp2: f64 },
    ExpM1 { exp_m1: f64, exp: f64 },
    Ln { ln: f64 },
    Log { log: f64, ln_base: f64 },
    Log2 { log2: f64 },
    Log10 { log10: f64 },
    Ln1p { ln_1p: f64 },
    Sin { sin: f64, cos: f64 },
    Cos { sin: f64, cos: f64 },
    Tan { sin: f64, cos: f64 },
    Asin { asin: f64 },
    Acos { acos: f64 },
    Atan { atan: f64 },
    Sinh { sinh: f64, cosh: f64 },
    Cosh { sinh: f64, cosh: f64 },
    Tanh { sinh: f64, cosh: f64 },
    Asinh { asinh: f64 },
    Acosh { acosh: f64 },
    Atanh { atanh: f64 },
    SphJ0 { sin: f64, cos: f64 },
    SphJ1 { sin: f64, cos: f64 },
    SphJ2 { sin: f64, cos: f64 },
    // for records with third derivatives alone
    SphJ1Series { sin: f64, cos: f64 },
}

// What a record x does for a request.
// Kept: plan_of and run_plan, which PROMISES names, have the refusal as one plan.
#[derive(Clone, Copy)]
pub enum Plan {
    // what it is refused for
    Refused(Refusal),
    // one, x itself, or x * x
    One,
    Same,
    Square,
    // the chain rule
    Chain(Series),
    // the first chain rule over the second
    Quotient(Series, Series),
    // sph_j0, sph_j1 and sph_j2 for small x
    SmallJ0,
    SmallJ1,
    SmallJ2,
    // sph_j0, sph_j1 and sph_j2 elsewhere, from the sine and the cosine
    BesselJ0(Series),
    BesselJ1(Series, Series),
    BesselJ2(Series, Series),
    // sph_j1_series, with its sine and cosine: for records with third derivatives alone
    CubicJ1 { sin: f64, cos: f64 },
}

impl Series {
    #[tactic(auto, unfolding(crate::specs::Series::recip_series))]
    pub fn recip(re: f64) -> Series
        ensures { result ≡ recip_series re }
    {
        let rec = 1.0 / re;
        let f0 = rec;
        let f1 = -f0 * rec;
        let f2 = -f1 * rec * 2.0;
        let f3 = -f2 * rec * 3.0;
        Series { f0, f1, f2, f3 }
    }

    // Behind the plan, which refuses exponents whose products would not fit.
    fn powi(re: f64, exp: i32, pow3: f64) -> Series
        requires { nat_abs exp ≤ nat_abs largest.exponent }
        ensures { result ≡ powi_series re exp pow3 }
    {
        let f0 = pow3 * re * re * re;
        let f1 = pow3 * re * re * (exp as f64);
        let f2 = pow3 * re * ((exp * (exp - 1)) as f64);
        let f3 = pow3 * ((exp * (exp - 1) * (exp - 2)) as f64);
        Series { f0, f1, f2, f3 }
    }

    #[tactic(auto, unfolding(crate::specs::Series::powf_series))]
    pub fn powf(re: f64, n: f64, pow3: f64) -> Series
        ensures { result ≡ powf_series re n pow3 }
    {
        let n1 = n - 1.0;
        let n2 = n1 - 1.0;
        let f0 = pow3 * re * re * re;
        let f1 = pow3 * re * re * n;
        let f2 = pow3 * re * n * n1;
        let f3 = pow3 * n * n1 * n2;
        Series { f0, f1, f2, f3 }
    }

    #[tactic(auto, unfolding(crate::specs::Series::sqrt_series))]
    pub fn sqrt(re: f64) -> Series
        ensures { result ≡ sqrt_series re }
    {
        let rec = 1.0 / re;
        let half = 0.5;
        let f0 = real::sqrt(re);
        let f1 = f0 * rec * half;
        let f2 = -f1 * rec * half;
        let f3 = f2 * rec * (-1.0 - half);
        Series { f0, f1, f2, f3 }
    }

    #[tactic(auto, unfolding(crate::specs::Series::cbrt_series))]
    pub fn cbrt(re: f64, cbrt: f64) -> Series
        ensures { result ≡ cbrt_series re cbrt }
    {
        let rec = 1.0 / re;
        let f0 = cbrt;
        let f1 = f0 * rec * THIRD;
        let f2 = f1 * rec * (THIRD - 1.0);
        let f3 = f2 * rec * (THIRD - 1.0 - 1.0);
        Series { f0, f1, f2, f3 }
    }

    #[tactic(auto, unfolding(crate::specs::Series::exp_series))]
    pub fn exp(exp: f64) -> Series
        ensures { result ≡ exp_series exp }
    {
        Series {
            f0: exp,
            f1: exp,
            f2: exp,
            f3: exp,
        }
    }

    #[tactic(auto, unfolding(crate::specs::Series::exp2_series))]
    pub fn exp2(exp2: f64) -> Series
        ensures { result ≡ exp2_series exp2 }
    {
        let f0 = exp2;
        let f1 = f0 * LN_2;
        let f2 = f1 * LN_2;
        let f3 = f2 * LN_2;
        Series { f0, f1, f2, f3 }
    }

    #[tactic(auto, unfolding(crate::specs::Series::exp_m1_series))]
    pub fn exp_m1(exp_m1: f64, exp: f64) -> Series
        ensures { result ≡ exp_m1_series exp_m1 exp }
    {
        Series {
            f0: exp_m1,
            f1: exp,
            f2: exp,
            f3: exp,
        }
    }

    // What the five logarithms share, from the reciprocal, the value and the first derivative.
    fn logarithm(rec: f64, f0: f64, f1: f64) -> Series
        ensures { result ≡ logarithm_series rec f0 f1 }
    {
        let f2 = -f1 * rec;
        let f3 = -f2 * rec * 2.0;
        Series { f0, f1, f2, f3 }
    }

    #[tactic(auto, unfolding(crate::specs::Series::ln_series))]
    pub fn ln(re: f64, ln: f64) -> Series
        ensures { result ≡ ln_series re ln }
    {
        let rec = 1.0 / re;
        Series::logarithm(rec, ln, rec)
    }

    #[tactic(auto, unfolding(crate::specs::Series::log_series))]
    pub fn log(re: f64, log: f64, ln_base: f64) -> Series
        ensures { result ≡ log_series re log ln_base }
    {
        let rec = 1.0 / re;
        Series::logarithm(rec, log, rec / ln_base)
    }

    #[tactic(auto, unfolding(crate::specs::Series::log2_series))]
    pub fn log2(re: f64, log2: f64) -> Series
        ensures { result ≡ log2_series re log2 }
    {
        let rec = 1.0 / re;
        Series::logarithm(rec, log2, rec / LN_2)
    }

    #[tactic(auto, unfolding(crate::specs::Series::log10_series))]
    pub fn log10(re: f64, log10: f64) -> Series
        ensures { result ≡ log10_series re log10 }
    {
        let rec = 1.0 / re;
        Series::logarithm(rec, log10, rec / LN_10)
    }

    #[tactic(auto, unfolding(crate::specs::Series::ln1p_series))]
    pub fn ln_1p(re: f64, ln_1p: f64) -> Series
        ensures { result ≡ ln1p_series re ln_1p }
    {
        let rec = 1.0 / (re + 1.0);
        Series::logarithm(rec, ln_1p, rec)
    }

    #[tactic(auto, unfolding(crate::specs::Series::sin_series))]
    pub fn sin(sin: f64, cos: f64) -> Series
        ensures { result ≡ sin_series sin cos }
    {
        Series {
            f0: sin,
            f1: cos,
            f2: -sin,
            f3: -cos,
        }
    }

    #[tactic(auto, unfolding(crate::specs::Series::cos_series))]
    pub fn cos(sin: f64, cos: f64) -> Series
        ensures { result ≡ cos_series sin cos }
    {
        Series {
            f0: cos,
            f1: -sin,
            f2: -cos,
            f3: sin,
        }
    }

    #[tactic(auto, unfolding(crate::specs::Series::asin_series))]
    pub fn asin(re: f64, asin: f64) -> Series
        ensures { result ≡ asin_series re asin }
    {
        let rec = 1.0 / (1.0 - re * re);
        let f0 = asin;
        let f1 = real::sqrt(rec);
        let f2 = re * f1 * rec;
        let f3 = (re * re * (1.0 + 1.0) + 1.0) * f1 * rec * rec;
        Series { f0, f1, f2, f3 }
    }

    #[tactic(auto, unfolding(crate::specs::Series::acos_series))]
    pub fn acos(re: f64, acos: f64) -> Series
        ensures { result ≡ acos_series re acos }
    {
        let rec = 1.0 / (1.0 - re * re);
        let f0 = acos;
        let f1 = -real::sqrt(rec);
        let f2 = re * f1 * rec;
        let f3 = (re * re * (1.0 + 1.0) + 1.0) * f1 * rec * rec;
        Series { f0, f1, f2, f3 }
    }

    #[tactic(auto, unfolding(crate::specs::Series::atan_series))]
    pub fn atan(re: f64, atan: f64) -> Series
        ensures { result ≡ atan_series re atan }
    {
        let rec = 1.0 / (1.0 + re * re);
        let f0 = atan;
        let f1 = rec;
        let two = 1.0 + 1.0;
        let f2 = -re * f1 * rec * two;
        let f3 = (re * re * 6.0 - two) * f1 * rec * rec;
        Series { f0, f1, f2, f3 }
    }

    #[tactic(auto, unfolding(crate::specs::Series::sinh_series))]
    pub fn sinh(sinh: f64, cosh: f64) -> Series
        ensures { result ≡ sinh_series sinh cosh }
    {
        Series {
            f0: sinh,
            f1: cosh,
            f2: sinh,
            f3: cosh,
        }
    }

    #[tactic(auto, unfolding(crate::specs::Series::cosh_series))]
    pub fn cosh(sinh: f64, cosh: f64) -> Series
        ensures { result ≡ cosh_series sinh cosh }
    {
        Series {
            f0: cosh,
            f1: sinh,
            f2: cosh,
            f3: sinh,
        }
    }

    #[tactic(auto, unfolding(crate::specs::Series::asinh_series))]
    pub fn asinh(re: f64, asinh: f64) -> Series
        ensures { result ≡ asinh_series re asinh }
    {
        let rec = 1.0 / (1.0 + re * re);
        let f0 = asinh;
        let f1 = real::sqrt(rec);
        let f2 = -re * f1 * rec;
        let f3 = (re * re * (1.0 + 1.0) - 1.0) * f1 * rec * rec;
        Series { f0, f1, f2, f3 }
    }

    #[tactic(auto, unfolding(crate::specs::Series::acosh_series))]
    pub fn acosh(re: f64, acosh: f64) -> Series
        ensures { result ≡ acosh_series re acosh }
    {
        let rec = 1.0 / (re * re - 1.0);
        let f0 = acosh;
        let f1 = real::sqrt(rec);
        let f2 = -re * f1 * rec;
        let f3 = (re * re * (1.0 + 1.0) + 1.0) * f1 * rec * rec;
        Series { f0, f1, f2, f3 }
    }

    #[tactic(auto, unfolding(crate::specs::Series::atanh_series))]
    pub fn atanh(re: f64, atanh: f64) -> Series
        ensures { result ≡ atanh_series re atanh }
    {
        let rec = 1.0 / (1.0 - re * re);
        let f0 = atanh;
        let f1 = rec;
        let two = 1.0 + 1.0;
        let f2 = re * f1 * rec * two;
        let f3 = (re * re * 6.0 + two) * f1 * rec * rec;
        Series { f0, f1, f2, f3 }
    }
}

// The plan of a request, from the real part and the request alone.
#[tactic(auto, using(crate::proofs::Requests::planned, crate::proofs::Requests::planned_powi, crate::proofs::Requests::planned_j0, crate::proofs::Requests::planned_j1, crate::proofs::Requests::planned_j2))]
pub fn choose(re: f64, f: Function) -> Plan
    ensures { result ≡ plan_of re f }
{
    match f {
        Function::Recip => Plan::Chain(Series::recip(re)),
        Function::Powi { exp, pow3 } => plan_powi(re, exp, pow3),
        Function::Powf { n, pow3 } => plan_powf(re, n, pow3),
        Function::Sqrt => Plan::Chain(Series::sqrt(re)),
        Function::Cbrt { cbrt } => Plan::Chain(Series::cbrt(re, cbrt)),
        Function::Exp { exp } => Plan::Chain(Series::exp(exp)),
        Function::Exp2 { exp2 } => Plan::Chain(Series::exp2(exp2)),
        Function::ExpM1 { exp_m1, exp } => Plan::Chain(Series::exp_m1(exp_m1, exp)),
        Function::Ln { ln } => Plan::Chain(Series::ln(re, ln)),
        Function::Log { log, ln_base } => Plan::Chain(Series::log(re, log, ln_base)),
        Function::Log2 { log2 } => Plan::Chain(Series::log2(re, log2)),
        Function::Log10 { log10 } => Plan::Chain(Series::log10(re, log10)),
        Function::Ln1p { ln_1p } => Plan::Chain(Series::ln_1p(re, ln_1p)),
        Function::Sin { sin, cos } => Plan::Chain(Series::sin(sin, cos)),
        Function::Cos { sin, cos } => Plan::Chain(Series::cos(sin, cos)),
        Function::Tan { sin: s, cos: c } => Plan::Quotient(Series::sin(s, c), Series::cos(s, c)),
        Function::Asin { asin } => Plan::Chain(Series::asin(re, asin)),
        Function::Acos { acos } => Plan::Chain(Series::acos(re, acos)),
        Function::Atan { atan } => Plan::Chain(Series::atan(re, atan)),
        Function::Sinh { sinh, cosh } => Plan::Chain(Series::sinh(sinh, cosh)),
        Function::Cosh { sinh, cosh } => Plan::Chain(Series::cosh(sinh, cosh)),
        Function::Tanh { sinh: s, cosh: c } => Plan::Quotient(
            Series::sinh(s, c),
            Series::cosh(s, c),
        ),
        Function::Asinh { asinh } => Plan::Chain(Series::asinh(re, asinh)),
        Function::Acosh { acosh } => Plan::Chain(Series::acosh(re, acosh)),
        Function::Atanh { atanh } => Plan::Chain(Series::atanh(re, atanh)),
        Function::SphJ0 { sin: s, cos: c } => small(
            re,
            Plan::SmallJ0,
            Plan::BesselJ0(Series::sin(s, c)),
        ),
        Function::SphJ1 { sin: s, cos: c } => small(
            re,
            Plan::SmallJ1,
            Plan::BesselJ1(Series::sin(s, c), Series::cos(s, c)),
        ),
        Function::SphJ2 { sin: s, cos: c } => small(
            re,
            Plan::SmallJ2,
            Plan::BesselJ2(Series::sin(s, c), Series::cos(s, c)),
        ),
        Function::SphJ1Series { sin: s, cos: c } => Plan::CubicJ1 { sin: s, cos: c },
    }
}

fn plan_powi(re: f64, exp: i32, pow3: f64) -> Plan
    ensures { result ≡ plan_powi re exp pow3 }
{
    if exp < refusals::LEAST_EXPONENT {
        return Plan::Refused(Refusal::ExponentTooLarge);
    }
    if exp > refusals::LARGEST_EXPONENT {
        return Plan::Refused(Refusal::ExponentTooLarge);
    }
    match exp {
        0 => Plan::One,
        1 => Plan::Same,
        2 => Plan::Square,
        _ => Plan::Chain(Series::powi(re, exp, pow3)),
    }
}

fn plan_powf(re: f64, n: f64, pow3: f64) -> Plan
    ensures { result ≡ plan_powf re n pow3 }
{
    if n == 0.0 {
        return Plan::One;
    }
    if n == 1.0 {
        return Plan::Same;
    }
    if real::abs(n - 1.0 - 1.0) < EPSILON {
        return Plan::Square;
    }
    Plan::Chain(Series::powf(re, n, pow3))
}

// Whether |re| is below 2^-52, where the three sph_j are the beginnings of their series.
pub fn is_small(re: f64) -> bool
    ensures { result ≡ is_small re }
{
    real::abs(re) < EPSILON
}

// `plan` where re is small, else `other`.
fn small(re: f64, plan: Plan, other: Plan) -> Plan
    ensures { result ≡ small re plan other }
{
    if is_small(re) { plan } else { other }
}
