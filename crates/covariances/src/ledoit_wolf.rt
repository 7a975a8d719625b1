// The shrinkage intensity of Ledoit and Wolf: from the second moments s of the centered returns and the tables of π and θ, all n × n, and
// from the returns (covariance.rs, `ledoit_wolf`).
ghost use Rattle.std.specs.Prelude.{◌≡◌, ℕ, ◌*◌, ◌<◌, ◌≤◌, length, unsigned_abs};
ghost use Rattle.leaves.specs.Numbers.{◌⊖◌};
ghost use Rattle.leaves.specs.Loops.{tab, nth};
ghost use Rattle.leaves.specs.Scaling.{binary_exponent};
ghost use Rattle.matrix.specs.Limits.{max_side};
ghost use Rattle.matrix.specs.Matrix.{Matrix, at, rows, trace, amax, sum_over, squares};
ghost use Rattle.matrix.specs.Inner.{Symmetric};
ghost use Rattle.rules.specs.Sample as Sample;
ghost use Rattle.rules.specs.LedoitWolf as LedoitWolf;
ghost use Rattle.rules.specs.LedoitWolf.{apart, variation, covariation, cross_covariation, intensity_of, intensity_from, second_moments};
ghost use Rattle.tables.specs.Exponents.{max_exponent};
ghost use Rattle.tables.specs.Rows.{return_at, matrix_of};

use crate::{sample, targets};
use rules::Target;
use tables::returns::{Returns, Rows};
use tables::rows::Row;
use tables::scales::exponent;
use tables::{columns, gram, powers, vectors};

// γ: the squared distance of s from the target in `work`, which is overwritten.
fn squared_distance(s: &[f64], n: usize, work: &mut [f64]) -> f64
    requires { (length s.now ≡ n * n) × (length work.old ≡ n * n) }
    ensures { (f : Matrix) → work.old ≡ rows n n f → result ≡ squares n (λ (i j : ℕ). at s.now n i j ⊖ f i j) }
{
    vectors::subtract_from(s, work);
    matrix::sums::squares(work, n)
}

// ρ, from the average correlation r and the volatilities.
fn target_covariation(r: f64, volatilities: &[f64], pi: &[f64], theta: &[f64], n: usize) -> f64
    requires { (length volatilities.now ≡ n) × (length pi.now ≡ n * n) × (length theta.now ≡ n * n) }
    ensures { result ≡ sum_over n apart (cross_covariation r (nth volatilities.now) (at theta.now n)) (trace n (at pi.now n)) }
{
    let covariation = |i: usize, j: usize| r * volatilities[j] / volatilities[i] * theta[i * n + j];
    targets::sum_apart(n, matrix::sums::trace(pi, n), covariation)
}

// δ, in [0, 1], from the estimation error and γ.
fn intensity(error: f64, periods: usize, gamma: f64) -> f64
    ensures { result ≡ LedoitWolf.intensity_by error periods gamma }
{
    if 0.0 < gamma {
        let t = std::num::nearest_u64_to_f64(periods as u64);
        leaves::numbers::clamp01(error / t / gamma)
    } else {
        0.0
    }
}

// δ towards the average variance.
fn to_variance(s: &[f64], pi: &[f64], n: usize, periods: usize, work: &mut [f64]) -> f64
    requires { (length s.now ≡ n * n) × (length pi.now ≡ n * n) × (length work.old ≡ n * n) }
    ensures { (z : Matrix) → pi.now ≡ rows n n (variation periods z (at s.now n)) → result ≡ intensity_of Target.ConstantVariance periods n z (at s.now n) }
{
    matrix::tables::put_identity(work, n);
    vectors::times(targets::average_variance(s, n), work);
    let gamma = squared_distance(s, n, work);
    intensity(matrix::sums::total(pi, n), periods, gamma)
}

// δ towards the average correlation.
fn to_correlation(
    s: &[f64],
    pi: &[f64],
    theta: &[f64],
    n: usize,
    periods: usize,
    volatilities: &mut [f64],
    work: &mut [f64],
) -> f64
    requires { (0 < n) × (n ≤ max_side) × (length s.now ≡ n * n) × (length pi.now ≡ n * n) × (length theta.now ≡ n * n) × (length volatilities.old ≡ n) × (length work.old ≡ n * n) }
    ensures { (z : Matrix) → pi.now ≡ rows n n (variation periods z (at s.now n)) → theta.now ≡ rows n n (covariation periods z (at s.now n)) → result ≡ intensity_of Target.ConstantCorrelation periods n z (at s.now n) }
{
    sample::put_volatilities(s, n, volatilities);
    let r = targets::average_correlation(s, volatilities, n);
    targets::put_constant_correlation(s, r, volatilities, n, work);
    let gamma = squared_distance(s, n, work);
    let error = matrix::sums::total(pi, n) - target_covariation(r, volatilities, pi, theta, n);
    intensity(error, periods, gamma)
}

// s, the second moments of the rows.
fn put_second_moments(z: &Rows, out: &mut [f64])
    requires { length out.old ≡ z.now.returns.assets * z.now.returns.assets }
    ensures { (out.new ≡ second_moments z.now.returns.periods z.now.returns.assets (matrix_of z.now)) × Symmetric z.now.returns.assets out.new }
{
    let periods = z.returns.periods;
    gram::gram(z, out);
    vectors::divide(std::num::nearest_u64_to_f64(periods as u64), out);
}

// δ of the rows. The tables are to reckon in.
fn of_rows_in(
    target: Target,
    z: &Rows,
    s: &mut [f64],
    pi: &mut [f64],
    theta: &mut [f64],
    volatilities: &mut [f64],
    work: &mut [f64],
) -> f64
    requires { (length s.old ≡ z.now.returns.assets * z.now.returns.assets) × (length pi.old ≡ z.now.returns.assets * z.now.returns.assets) × (length theta.old ≡ z.now.returns.assets * z.now.returns.assets) × (length volatilities.old ≡ z.now.returns.assets) × (length work.old ≡ z.now.returns.assets * z.now.returns.assets) }
    ensures { result ≡ intensity_from target z.now.returns.periods z.now.returns.assets (matrix_of z.now) }
{
    let n = z.returns.assets;
    let periods = z.returns.periods;
    put_second_moments(z, s);
    gram::variation(z, s, pi);
    match target {
        Target::ConstantVariance => to_variance(s, pi, n, periods, work),
        Target::ConstantCorrelation => {
            gram::covariation(z, s, theta);
            to_correlation(s, pi, theta, n, periods, volatilities, work)
        }
    }
}

#[tactic(auto, using(matrix::proofs::Lent::lent))]
fn of_rows(target: Target, z: &Rows) -> f64
    ensures { result ≡ intensity_from target z.now.returns.periods z.now.returns.assets (matrix_of z.now) }
{
    let n = z.returns.assets;
    let mut s = [0.0; matrix::MAX_SIDE * matrix::MAX_SIDE];
    let mut pi = [0.0; matrix::MAX_SIDE * matrix::MAX_SIDE];
    let mut theta = [0.0; matrix::MAX_SIDE * matrix::MAX_SIDE];
    let mut volatilities = [0.0; matrix::MAX_SIDE];
    let mut work = [0.0; matrix::MAX_SIDE * matrix::MAX_SIDE];
    let size = n * n;
    of_rows_in(
        target,
        z,
        &mut s[..size],
        &mut pi[..size],
        &mut theta[..size],
        &mut volatilities[..n],
        &mut work[..size],
    )
}

// The exponent of the largest distance from the mean. `sizes` is to reckon in.
fn largest_exponent(r: &Returns, means: &[f64], sizes: &mut [f64]) -> i32
    requires { (length means.now ≡ r.now.assets) × (length sizes.old ≡ r.now.assets) }
    ensures { (unsigned_abs result ≤ max_exponent) × (means.now ≡ tab r.now.assets (Sample.mean r.now.periods (return_at r.now)) → result ≡ binary_exponent (amax r.now.periods r.now.assets (Sample.deviation r.now.periods (return_at r.now)))) }
{
    let z = Rows {
        row: Row::Deviation,
        returns: *r,
        units: &[],
        centers: means,
        weights: &[],
    };
    columns::amax(&z, sizes);
    exponent(leaves::sums::amax(sizes))
}

// δ of the returns: the second moments, π and θ of the deviations over a power of two near the largest.
#[tactic(auto, using(matrix::proofs::Lent::lent))]
pub fn ledoit_wolf(target: Target, r: &Returns) -> f64
    ensures { result ≡ LedoitWolf.ledoit_wolf target r.now.periods r.now.assets (return_at r.now) }
{
    let mut means = [0.0; matrix::MAX_SIDE];
    let mut sizes = [0.0; matrix::MAX_SIDE];
    let centers = &mut means[..r.assets];
    sample::means(r, centers);
    let e = largest_exponent(r, centers, &mut sizes[..r.assets]);
    let power = powers::factors(-e);
    let z = Rows {
        row: Row::Scaled(power.near, power.far),
        returns: *r,
        units: &[],
        centers,
        weights: &[],
    };
    of_rows(target, &z)
}
