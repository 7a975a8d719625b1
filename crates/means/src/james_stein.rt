// The James-Stein mean (expected_returns.rs, `james_stein_mean`).
ghost use Rattle.std.specs.Prelude.{◌≡◌, ℕ, ◌*◌, ◌<◌, ◌≤◌, false, length, unsigned_abs};
ghost use Rattle.std.specs.Float.Ieee.{eq};
ghost use Rattle.leaves.specs.Numbers.{zero⁺};
ghost use Rattle.leaves.specs.Loops.{tab, nth};
ghost use Rattle.leaves.specs.Scaling.{pow2_scaled};
ghost use Rattle.matrix.specs.Limits.{max_side, max_sweeps};
ghost use Rattle.matrix.specs.Jacobi.{Decomposition};
ghost use Rattle.rules.specs.Moments.{moments_of};
ghost use Rattle.rules.specs.JamesStein as JamesStein;
ghost use Rattle.rules.specs.Calls.{answered};
ghost use Rattle.tables.specs.Exponents.{max_exponent};
ghost use Rattle.means.specs.Held.{held};
ghost use Rattle.means.specs.Stein.{JamesSteinShrinks, james_stein_of};

use crate::moments::Moments;
use leaves::scaling::pow2_scaled;
use matrix::jacobi::decompose;
use rules::{Answer, Refusal};
use tables::scales::exponent;

// The average of the means.
#[tactic(auto, using(matrix::proofs::Lent::lent))]
fn grand_mean(m: Moments) -> f64
    ensures { result ≡ JamesStein.grand_mean m.n (nth (held m).mean) }
{
    let n = m.n;
    let mean = m.mean;
    leaves::sums::sum(&mean[..n]) / std::num::nearest_u64_to_f64(n as u64)
}

// The largest distance of a mean from the target.
fn largest_deviation(means: &[f64], target: f64) -> f64
    ensures { result ≡ JamesStein.largest_deviation (length means.now) (nth means.now) target }
{
    let mut m = 0.0;
    for x in means {
        m = leaves::numbers::larger(m, leaves::numbers::abs(*x - target));
    }
    m
}

// The squared distances from the target, over 4^shift, summed up.
fn spread(means: &[f64], target: f64, shift: i32) -> f64
    requires { unsigned_abs shift ≤ max_exponent }
    ensures { result ≡ JamesStein.spread (length means.now) (nth means.now) target shift }
{
    let down = -shift;
    let mut s = 0.0;
    for x in means {
        let d = pow2_scaled(*x - target, down);
        s = s + d * d;
    }
    s
}

// The intensity, where the largest distance from the target is not 0 and the covariance has these eigenvalues.
fn intensity(
    means: &[f64],
    covariance: &[f64],
    n: usize,
    periods: f64,
    target: f64,
    largest: f64,
    values: &[f64],
) -> f64
    requires { (0 < n) × (length means.now ≡ n) × (length covariance.now ≡ n * n) × (length values.now ≡ n) × (largest ≡ JamesStein.largest_deviation n (nth means.now) target) × (eq largest zero⁺ ≡ false) }
    ensures { (d : Decomposition) → d.values ≡ values.now → result ≡ JamesStein.james_stein_intensity n (moments_of means.now covariance.now periods) target d }
{
    let shift = exponent(largest);
    let excess = matrix::sums::trace(covariance, n) - 2.0 * matrix::entries::largest(values);
    let denominator = periods * spread(means, target, shift);
    leaves::numbers::clamp01(pow2_scaled(excess / denominator, -(shift + shift)))
}

// The intensity, and the sweeps and rotations of the decomposition.
#[derive(Clone, Copy)]
struct Found {
    intensity: f64,
    sweeps: usize,
    rotations: usize,
}

// Nothing is decomposed where all means are equal. `values` and `vectors` are to reckon in.
fn shrinkage(
    means: &[f64],
    covariance: &[f64],
    n: usize,
    periods: f64,
    target: f64,
    limit: usize,
    values: &mut [f64],
    vectors: &mut [f64],
) -> Result<Found, Refusal>
    requires { (0 < n) × (n ≤ max_side) × (limit ≤ max_sweeps) × (length means.now ≡ n) × (length covariance.now ≡ n * n) × (length values.old ≡ n) × (length vectors.old ≡ n * n) }
    ensures { JamesSteinShrinks n limit (moments_of means.now covariance.now periods) target result }
{
    let largest = largest_deviation(means, target);
    if largest == 0.0 {
        return Ok(Found {
            intensity: 0.0,
            sweeps: 0,
            rotations: 0,
        });
    }
    let d = decompose(covariance, n, limit, values, vectors);
    if !d.found {
        return Err(Refusal::Singular);
    }
    Ok(Found {
        intensity: intensity(means, covariance, n, periods, target, largest, values),
        sweeps: d.sweeps,
        rotations: d.rotations,
    })
}

// `shrinkage` of the moments, in arrays of the largest size.
#[tactic(auto, using(matrix::proofs::Lent::lent))]
fn shrinkage_held(m: Moments, target: f64, limit: usize) -> Result<Found, Refusal>
    requires { (0 < m.n) × (limit ≤ max_sweeps) }
    ensures { JamesSteinShrinks m.n limit (held m) target result }
{
    let n = m.n;
    let size = n * n;
    let mean = m.mean;
    let covariance = m.covariance;
    let mut values = [0.0; matrix::MAX_SIDE];
    let mut vectors = [0.0; matrix::MAX_SIDE * matrix::MAX_SIDE];
    shrinkage(
        &mean[..n],
        &covariance[..size],
        n,
        m.periods,
        target,
        limit,
        &mut values[..n],
        &mut vectors[..size],
    )
}

// The means moved towards the target, out of the unit 2^exponent. Apart from Bayes-Stein's: its operations differ in order, and so in the last bit.
fn put_shrunk(means: &[f64], intensity: f64, target: f64, exponent: i32, out: &mut [f64])
    requires { length means.now ≡ length out.old }
    ensures { out.new ≡ tab (length out.old) (λ (i : ℕ). pow2_scaled (JamesStein.towards intensity target (nth means.now i)) exponent) }
{
    for (i, y) in out.iter_mut().enumerate() {
        let m = means[i];
        *y = pow2_scaled(m + intensity * (target - m), exponent);
    }
}

// The answer from the moments in units of 2^exponent.
#[tactic(auto, using(matrix::proofs::Lent::lent))]
pub fn shrink(m: Moments, exponent: i32, limit: usize, out: &mut [f64]) -> Result<Answer, Refusal>
    requires { (0 < m.n) × (limit ≤ max_sweeps) × (length out.old ≡ m.n) }
    ensures { answered result out.new ≡ james_stein_of m.n limit (held m) exponent out.old }
{
    let target = grand_mean(m);
    let p = shrinkage_held(m, target, limit)?;
    let mean = m.mean;
    put_shrunk(&mean[..m.n], p.intensity, target, exponent, out);
    Ok(Answer::Shrunk(
        p.intensity,
        pow2_scaled(target, exponent),
        p.sweeps,
        p.rotations,
    ))
}
