// Powers of two as two factors: multiplied by both, one after the other, a number is scaled as by `pow2_scaled`.
ghost use Rattle.std.specs.Prelude.{◌≡◌, ◌+◌, ◌≤◌, length, unsigned_abs};
ghost use Rattle.tables.specs.Exponents.{max_exponent, Exponents};
ghost use Rattle.tables.specs.Powers.{Factored, Units};

use leaves::scaling::{cut, pow2_scaled};

#[derive(Clone, Copy)]
pub struct Power {
    pub near: f64,
    pub far: f64,
}

// 2^k. The near factor is 2^k itself where that is a normal number.
pub fn factors(k: i32) -> Power
    requires { unsigned_abs k ≤ max_exponent }
    ensures { Factored result.near result.far k }
{
    let step = cut(k);
    Power {
        near: pow2_scaled(1.0, step),
        far: pow2_scaled(1.0, k - step),
    }
}

// 2^-e for each of n exponents e: first all near factors, then all far ones. No list of pairs: a row's loop reads each half in order.
pub fn put_units(exponents: &[i32], n: usize, out: &mut [f64])
    requires { (length exponents.now ≡ n) × Exponents exponents.now × (length out.old ≡ n + n) }
    ensures { (length out.new ≡ n + n) × Units n exponents.now out.new }
{
    for i in 0..n {
        let f = factors(-exponents[i]);
        out[i] = f.near;
        out[n + i] = f.far;
    }
}
