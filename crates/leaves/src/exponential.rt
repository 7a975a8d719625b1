// Document 01's stand-ins for exp and exp_m1.
ghost use Rattle.std.specs.Prelude.{◌≡◌, ◌+◌, ◌^◌, ◌<◌};
ghost use Rattle.leaves.specs.Numbers as Numbers;
ghost use Rattle.leaves.specs.Exp as Exp;
ghost use Rattle.leaves.specs.Inner as Inner;

use crate::scaling::pow2_scaled;

// ln 2; and in two parts, of which H has so few digits that its products with whole numbers are exact.
pub const LN_2: f64 = std::f64::consts::LN_2;

pub(crate) const H: f64 = 6.93147180369123816490e-01;

pub(crate) const L: f64 = 1.90821492927058770002e-10;

// p = 1 + (r * p) / m, for m from n + d down to 1 + d, from p = 1.
fn horner(r: f64, n: u32, d: u32) -> f64
    requires { n + d < 2 ^ 32 }
    ensures { result ≡ Exp.horner r d n Numbers.one }
{
    let mut p = 1.0;
    for k in (1..=n).rev() {
        p = 1.0 + r * p / ((k + d) as f64);
    }
    p
}

// The largest whole number not above x, for an x of size up to 2^12. std's floor gives a float, which would be cast after it all the same.
fn floor(x: f64) -> i32
    requires { Inner.Small x }
    ensures { result ≡ Exp.floor x }
{
    let n = std::num::truncating_f64_to_i64(x) as i32;
    if x < n as f64 { n - 1 } else { n }
}

// e^y for y not above 0, NaN above it.
pub fn exp(y: f64) -> f64
    ensures { result ≡ Exp.exp y }
{
    if y < -746.0 {
        return 0.0;
    }
    if y <= 0.0 {
        let k = floor(y / LN_2 + 0.5);
        let f = k as f64;
        let r = (y - f * H) - f * L;
        return pow2_scaled(horner(r, 13, 0), k);
    }
    f64::NAN
}

// e^y - 1 for y not above 0.
pub fn exp_m1(y: f64) -> f64
    ensures { result ≡ Exp.exp_m1 y }
{
    if y < -0.5 {
        exp(y) - 1.0
    } else {
        y * horner(y, 13, 1)
    }
}
