// The Bayes-Stein mean of Jorion (expected_returns.rs, `bayes_stein_mean`; methods/mod.rs, `correlation`).
ghost use Rattle.std.specs.Prelude.{◌≡◌, ℕ, ◌*◌, ◌<◌, ◌≤◌, List, length, unsigned_abs, Float};
ghost use Rattle.leaves.specs.Loops.{tab, nth};
ghost use Rattle.matrix.specs.Limits.{max_side, max_sweeps};
ghost use Rattle.matrix.specs.Matrix.{at, rows};
ghost use Rattle.matrix.specs.Jacobi.{Decomposition};
ghost use Rattle.matrix.specs.Inner.{decomposed};
ghost use Rattle.rules.specs.Sample.{volatility};
ghost use Rattle.rules.specs.Refusals as Refusals;
ghost use Rattle.rules.specs.Sample as Sample;
ghost use Rattle.rules.specs.BayesStein as BayesStein;
ghost use Rattle.rules.specs.Moments.{moments_of};
ghost use Rattle.rules.specs.Calls.{answered};
ghost use Rattle.rules.specs.Order.{by_correlations, by_decomposition};
ghost use Rattle.rules.specs.BayesStein.{shrinkage_by, exponent_at};
ghost use Rattle.inputs.specs.Checks.{checked};
ghost use Rattle.tables.specs.Exponents.{Exponents, two_exponents};
ghost use Rattle.means.specs.Held.{held};
ghost use Rattle.means.specs.Stein.{mean_shrinkage, BayesSteinShrinks, bayes_stein_of};

use crate::forms::Decomposed;
use crate::gather::{gather_means, gather_ones};
use crate::moments::Moments;
use covariances::sample::{constant_returns, put_volatilities};
use inputs::checks::when;
use leaves::scaling::pow2_scaled;
use matrix::jacobi::{Outcome, decompose};
use rules::{Answer, Refusal};

// The covariances over both assets' volatilities, one after the other.
fn put_correlations(covariance: &[f64], volatilities: &[f64], n: usize, out: &mut [f64])
    requires { (length covariance.now ≡ n * n) × (length volatilities.now ≡ n) × (length out.old ≡ n * n) }
    ensures { out.new ≡ rows n n (Sample.correlation_by (nth volatilities.now) (at covariance.now n)) }
{
    for (k, y) in out.iter_mut().enumerate() {
        *y = covariance[k] / volatilities[k / n] / volatilities[k % n];
    }
}

// The smallest eigenvalue is at most n ε of the largest.
fn is_singular(values: &[f64]) -> bool
    requires { 0 < length values.now }
    ensures { (d : Decomposition) → d.values ≡ values.now → result ≡ BayesStein.singular (length values.now) d }
{
    let n = std::num::nearest_u64_to_f64(values.len() as u64);
    matrix::entries::smallest(values)
        <= n * leaves::numbers::EPSILON * matrix::entries::largest(values)
}

#[derive(Drop)]
struct MeanShrinkage {
    intensity: f64,
    target: f64,
}

// From the ratio, μ₀ over 2^(b - a), and the squared distance over 4^b.
fn shrinkage_by(n: usize, periods: f64, ratio: f64, squared: f64, a: i32, b: i32) -> MeanShrinkage
    requires { (unsigned_abs a ≤ two_exponents) × (unsigned_abs b ≤ two_exponents) }
    ensures { mean_shrinkage result.intensity result.target ≡ shrinkage_by n periods ratio squared a b }
{
    let numerator = std::num::nearest_u64_to_f64(n as u64) + 2.0;
    let weighted = periods * pow2_scaled(leaves::numbers::max0(squared), b + b);
    MeanShrinkage {
        intensity: numerator / (numerator + weighted),
        target: pow2_scaled(ratio, b - a),
    }
}

// The intensity and the target, from the means and volatilities in the units 2^exponents and the decomposed correlations. `ones`, `scaled`, `p`
// and `q` are to reckon in.
fn shrinkage_in(
    means: &[f64],
    volatilities: &[f64],
    exponents: &[i32],
    periods: f64,
    d: &Decomposed<'_>,
    ones: &mut [f64],
    scaled: &mut [f64],
    p: &mut [f64],
    q: &mut [f64],
) -> MeanShrinkage
    requires { (d.now.n ≤ max_side) × (length means.now ≡ d.now.n) × (length volatilities.now ≡ d.now.n) × (length exponents.now ≡ d.now.n) × Exponents exponents.now × (length ones.old ≡ d.now.n) × (length scaled.old ≡ d.now.n) × (length p.old ≡ d.now.n) × (length q.old ≡ d.now.n) }
    ensures { BayesSteinShrinks d.now.n means.now volatilities.now exponents.now periods d.now.values.now d.now.vectors.now result.intensity result.target }
{
    let a = gather_ones(volatilities, exponents, d.n, ones);
    let b = gather_means(means, volatilities, d.n, scaled);
    let ratio = d.ratio(ones, scaled, p, q);
    let squared = d.squared_distance(ones, scaled, ratio, p, q);
    shrinkage_by(d.n, periods, ratio, squared, a, b)
}

// The same, in four arrays of the largest size.
#[tactic(auto, using(matrix::proofs::Lent::lent))]
fn shrinkage(
    means: &[f64],
    volatilities: &[f64],
    exponents: &[i32],
    periods: f64,
    d: &Decomposed<'_>,
) -> MeanShrinkage
    requires { (d.now.n ≤ max_side) × (length means.now ≡ d.now.n) × (length volatilities.now ≡ d.now.n) × (length exponents.now ≡ d.now.n) × Exponents exponents.now }
    ensures { BayesSteinShrinks d.now.n means.now volatilities.now exponents.now periods d.now.values.now d.now.vectors.now result.intensity result.target }
{
    let n = d.n;
    let mut ones = [0.0; matrix::MAX_SIDE];
    let mut scaled = [0.0; matrix::MAX_SIDE];
    let mut p = [0.0; matrix::MAX_SIDE];
    let mut q = [0.0; matrix::MAX_SIDE];
    shrinkage_in(
        means,
        volatilities,
        exponents,
        periods,
        d,
        &mut ones[..n],
        &mut scaled[..n],
        &mut p[..n],
        &mut q[..n],
    )
}

// The volatilities and the correlations, with refusal 9 by the one and 14 by the other.
fn correlate(
    covariance: &[f64],
    n: usize,
    sizes: &[f64],
    volatilities: &mut [f64],
    out: &mut [f64],
) -> Result<(), Refusal>
    requires { (length covariance.now ≡ n * n) × (length sizes.now ≡ n) × (length volatilities.old ≡ n) × (length out.old ≡ n * n) }
    ensures { (volatilities.new ≡ tab n (volatility (at covariance.now n))) × (out.new ≡ rows n n (Sample.correlation (at covariance.now n))) × (checked result ≡ Refusals.first (by_correlations n (nth sizes.now) (at covariance.now n) (at out.new n))) }
{
    put_volatilities(covariance, n, volatilities);
    put_correlations(covariance, volatilities, n, out);
    constant_returns(volatilities, n, sizes)?;
    when(!matrix::places::all_finite(out, n, n), Refusal::Singular)
}

// Refusal 14 by the decomposition `d`, with these values.
fn judge(d: Outcome, values: &[f64], n: usize) -> Result<(), Refusal>
    requires { (0 < n) × (length values.now ≡ n) }
    ensures { (vectors : List Float) → checked result ≡ Refusals.first (by_decomposition n (decomposed d.found values.now vectors d.sweeps d.rotations)) }
{
    when(!d.found, Refusal::Singular)?;
    when(is_singular(values), Refusal::Singular)
}

// The means moved towards the target, each out of its unit.
fn put_shrunk(means: &[f64], exponents: &[i32], intensity: f64, target: f64, out: &mut [f64])
    requires { (length means.now ≡ length out.old) × (length exponents.now ≡ length out.old) × Exponents exponents.now }
    ensures { out.new ≡ tab (length out.old) (λ (i : ℕ). BayesStein.shrunk_mean (mean_shrinkage intensity target) (nth means.now i) (exponent_at exponents.now i)) }
{
    for (i, y) in out.iter_mut().enumerate() {
        *y = pow2_scaled((1.0 - intensity) * means[i], exponents[i]) + intensity * target;
    }
}

// `shrink`, with four slices to reckon in.
fn shrink_in(
    means: &[f64],
    covariance: &[f64],
    n: usize,
    periods: f64,
    exponents: &[i32],
    sizes: &[f64],
    limit: usize,
    volatilities: &mut [f64],
    correlations: &mut [f64],
    values: &mut [f64],
    vectors: &mut [f64],
    out: &mut [f64],
) -> Result<Answer, Refusal>
    requires { (0 < n) × (n ≤ max_side) × (limit ≤ max_sweeps) × (length means.now ≡ n) × (length covariance.now ≡ n * n) × (length exponents.now ≡ n) × Exponents exponents.now × (length sizes.now ≡ n) × (length volatilities.old ≡ n) × (length correlations.old ≡ n * n) × (length values.old ≡ n) × (length vectors.old ≡ n * n) × (length out.old ≡ n) }
    ensures { answered result out.new ≡ bayes_stein_of n limit (moments_of means.now covariance.now periods) (exponent_at exponents.now) (nth sizes.now) out.old }
{
    correlate(covariance, n, sizes, volatilities, correlations)?;
    let d = decompose(correlations, n, limit, values, vectors);
    judge(d, values, n)?;
    let w = shrinkage(
        means,
        volatilities,
        exponents,
        periods,
        &Decomposed { values, vectors, n },
    );
    put_shrunk(means, exponents, w.intensity, w.target, out);
    Ok(Answer::Shrunk(w.intensity, w.target, d.sweeps, d.rotations))
}

// The answer from the moments in the units 2^exponents, and the sizes of the largest returns in them.
#[tactic(auto, using(matrix::proofs::Lent::lent))]
pub fn shrink(
    m: Moments,
    exponents: &[i32],
    sizes: &[f64],
    limit: usize,
    out: &mut [f64],
) -> Result<Answer, Refusal>
    requires { (0 < m.n) × (limit ≤ max_sweeps) × (length exponents.now ≡ m.n) × Exponents exponents.now × (length sizes.now ≡ m.n) × (length out.old ≡ m.n) }
    ensures { answered result out.new ≡ bayes_stein_of m.n limit (held m) (exponent_at exponents.now) (nth sizes.now) out.old }
{
    let n = m.n;
    let size = n * n;
    let mean = m.mean;
    let covariance = m.covariance;
    let mut volatilities = [0.0; matrix::MAX_SIDE];
    let mut correlations = [0.0; matrix::MAX_SIDE * matrix::MAX_SIDE];
    let mut values = [0.0; matrix::MAX_SIDE];
    let mut vectors = [0.0; matrix::MAX_SIDE * matrix::MAX_SIDE];
    shrink_in(
        &mean[..n],
        &covariance[..size],
        n,
        m.periods,
        exponents,
        sizes,
        limit,
        &mut volatilities[..n],
        &mut correlations[..size],
        &mut values[..n],
        &mut vectors[..size],
        out,
    )
}
