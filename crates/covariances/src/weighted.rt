// The exponentially weighted mean and covariance (expected_returns.rs, covariance.rs). Below the settings everything takes l = ln λ.
ghost use Rattle.std.specs.Prelude.{◌≡◌, ℕ, ◌*◌, ◌≤◌, length};
ghost use Rattle.leaves.specs.Numbers.{◌⊘◌};
ghost use Rattle.leaves.specs.Loops.{tab, nth};
ghost use Rattle.leaves.specs.Root.{sqrt};
ghost use Rattle.matrix.specs.Matrix.{rows};
ghost use Rattle.rules.specs.Weighted as Weighted;
ghost use Rattle.rules.specs.BayesStein.{exponent_at};
ghost use Rattle.tables.specs.Exponents.{Exponents};
ghost use Rattle.tables.specs.Rows.{return_at};

use crate::sample;
use tables::gram::gram;
use tables::powers::put_units;
use tables::returns::{Returns, Rows};
use tables::rows::Row;
use tables::{columns, scales, vectors};

// λ ^ (T - 1 - t), the last period's 1.
fn put_weights(l: f64, out: &mut [f64])
    ensures { out.new ≡ Weighted.weights (length out.old) l }
{
    let periods = out.len();
    for (t, w) in out.iter_mut().enumerate() {
        let back = std::num::nearest_u64_to_f64((periods - 1 - t) as u64);
        *w = leaves::exponential::exp(back * l);
    }
}

// Σ wₜ - Σ wₜ² / Σ wₜ.
fn denominator(l: f64, periods: usize) -> f64
    requires { 1 ≤ periods }
    ensures { result ≡ Weighted.denominator periods l }
{
    let last = std::num::nearest_u64_to_f64((periods - 1) as u64);
    let above = -leaves::exponential::exp_m1(last * l);
    let below = -leaves::exponential::exp_m1(2.0 * l);
    2.0 * leaves::exponential::exp(l) * above / below
}

// The square root of each weight over the denominator: what a period's deviations are multiplied by.
fn put_roots(weights: &[f64], denominator: f64, out: &mut [f64])
    requires { length weights.now ≡ length out.old }
    ensures { out.new ≡ tab (length out.old) (λ (t : ℕ). sqrt (nth weights.now t ⊘ denominator)) }
{
    for t in 0..out.len() {
        out[t] = leaves::root::sqrt(weights[t] / denominator);
    }
}

// The weighted means in units of the powers of two.
#[tactic(auto, using(matrix::proofs::Lent::lent))]
fn put_means(r: &Returns, exponents: &[i32], weights: &[f64], out: &mut [f64])
    requires { (length exponents.now ≡ r.now.assets) × Exponents exponents.now × (length weights.now ≡ r.now.periods) × (length out.old ≡ r.now.assets) }
    ensures { out.new ≡ tab r.now.assets (λ (i : ℕ). Weighted.scaled_mean r.now.periods weights.now (return_at r.now) i (exponent_at exponents.now i)) }
{
    let n = r.assets;
    let zeros = [0.0; matrix::MAX_SIDE];
    let mut buffer = [0.0; 2 * matrix::MAX_SIDE];
    let twice = n + n;
    let units = &mut buffer[..twice];
    put_units(exponents, n, units);
    let z = Rows {
        row: Row::Weighted,
        returns: *r,
        units,
        centers: &zeros[..n],
        weights,
    };
    columns::sum(&z, out);
    vectors::divide(leaves::sums::sum(weights), out);
}

// Σ wₜ xₜ / Σ wₜ of each asset, by way of a power of two near its largest return.
#[tactic(auto, using(matrix::proofs::Lent::lent))]
fn means(r: &Returns, weights: &[f64], out: &mut [f64])
    requires { (length weights.now ≡ r.now.periods) × (length out.old ≡ r.now.assets) }
    ensures { out.new ≡ tab r.now.assets (Weighted.weighted_mean r.now.periods weights.now (return_at r.now)) }
{
    let mut buffer = [0; matrix::MAX_SIDE];
    let exponents = &mut buffer[..r.assets];
    sample::amax(r, out);
    scales::put_exponents(out, exponents);
    put_means(r, exponents, weights, out);
    scales::scale_back(exponents, out);
}

// `covariance`, with three slices to reckon in.
fn covariance_in(
    l: f64,
    r: &Returns,
    weights: &mut [f64],
    roots: &mut [f64],
    centers: &mut [f64],
    out: &mut [f64],
)
    requires { (length weights.old ≡ r.now.periods) × (length roots.old ≡ r.now.periods) × (length centers.old ≡ r.now.assets) × (length out.old ≡ r.now.assets * r.now.assets) }
    ensures { out.new ≡ rows r.now.assets r.now.assets (Weighted.weighted_covariance r.now.periods l (return_at r.now)) }
{
    put_weights(l, weights);
    means(r, weights, centers);
    put_roots(weights, denominator(l, r.periods), roots);
    let z = Rows {
        row: Row::WeightedDeviation,
        returns: *r,
        units: &[],
        centers,
        weights: roots,
    };
    gram(&z, out);
}

#[tactic(auto, using(matrix::proofs::Lent::lent))]
pub(crate) fn covariance(l: f64, r: &Returns, out: &mut [f64])
    requires { length out.old ≡ r.now.assets * r.now.assets }
    ensures { out.new ≡ rows r.now.assets r.now.assets (Weighted.weighted_covariance r.now.periods l (return_at r.now)) }
{
    let mut weights = [0.0; rules::MAX_PERIODS];
    let mut roots = [0.0; rules::MAX_PERIODS];
    let mut centers = [0.0; matrix::MAX_SIDE];
    covariance_in(
        l,
        r,
        &mut weights[..r.periods],
        &mut roots[..r.periods],
        &mut centers[..r.assets],
        out,
    );
}

// The means with the weights of l.
#[tactic(auto, using(matrix::proofs::Lent::lent))]
pub fn mean_of(l: f64, r: &Returns, out: &mut [f64])
    requires { length out.old ≡ r.now.assets }
    ensures { out.new ≡ tab r.now.assets (Weighted.weighted_mean r.now.periods (Weighted.weights r.now.periods l) (return_at r.now)) }
{
    let mut buffer = [0.0; rules::MAX_PERIODS];
    let weights = &mut buffer[..r.periods];
    put_weights(l, weights);
    means(r, weights, out);
}
