// Document 02's stand-in for the natural log.
ghost use Rattle.std.specs.Prelude.{◌≡◌, ◌^◌, ◌<◌};
ghost use Rattle.leaves.specs.Log as Log;

use crate::exponential::{H, L};
use crate::scaling::{binary_exponent, pow2_scaled};

// q = 1/j + z * q, for odd j from 2n - 1 down to 1.
fn series(z: f64, n: u32, first: f64) -> f64
    requires { n < 2 ^ 31 }
    ensures { result ≡ Log.series z n first }
{
    let mut q = first;
    for k in (0..n).rev() {
        q = 1.0 / ((2 * k + 1) as f64) + z * q;
    }
    q
}

// The log of m * 2^e.
fn ln_of(m: f64, e: i32) -> f64
    ensures { result ≡ Log.ln_of m e }
{
    let s = (m - 1.0) / (m + 1.0);
    let q = series(s * s, 12, 1.0 / 25.0);
    let k = e as f64;
    (k * L + (2.0 * s) * q) + k * H
}

pub fn between01(x: f64) -> bool
    ensures { result ≡ Log.between01 x }
{
    0.0 < x && x < 1.0
}

// The log of x for x above 0 and below 1, NaN elsewhere.
pub fn ln(x: f64) -> f64
    ensures { result ≡ Log.ln x }
{
    if between01(x) {
        let e = binary_exponent(x);
        let m = pow2_scaled(x, -e);
        if m > 1.5 {
            return ln_of(m / 2.0, e + 1);
        }
        return ln_of(m, e);
    }
    f64::NAN
}
