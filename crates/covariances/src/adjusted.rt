// The estimate b, an n × n table, shrunk and regularized (covariance.rs, `adjusted_covariance`).
ghost use Rattle.std.specs.Prelude.{◌≡◌, ℕ, ◌*◌, ◌<◌, ◌≤◌, length};
ghost use Rattle.leaves.specs.Numbers.{◌⊕◌, ◌⊖◌, ◌⊗◌, one};
ghost use Rattle.matrix.specs.Limits.{max_side};
ghost use Rattle.matrix.specs.Matrix.{Matrix, at, rows};
ghost use Rattle.rules.specs.Adjusted as Adjusted;

use crate::{sample, targets};
use rules::{Regularization, Settings, Shrinkage, Target};
use tables::vectors;

// x F + (1 - δ) B, for the F in `out`.
fn mix(x: f64, intensity: f64, b: &[f64], n: usize, out: &mut [f64])
    requires { (length b.now ≡ n * n) × (length out.old ≡ n * n) }
    ensures { (f : Matrix) → out.old ≡ rows n n f → out.new ≡ rows n n (λ (i j : ℕ). x ⊗ f i j ⊕ (one ⊖ intensity) ⊗ at b.now n i j) }
{
    vectors::times(x, out);
    vectors::add_times(1.0 - intensity, b, out);
}

// Towards constant variance: F is the average variance m times I, and δ F is taken as (δ m) I.
fn mix_variance(intensity: f64, b: &[f64], n: usize, out: &mut [f64])
    requires { (length b.now ≡ n * n) × (length out.old ≡ n * n) }
    ensures { out.new ≡ rows n n (Adjusted.mixed Target.ConstantVariance intensity n (at b.now n)) }
{
    matrix::tables::put_identity(out, n);
    mix(
        intensity * targets::average_variance(b, n),
        intensity,
        b,
        n,
        out,
    );
}

// Towards constant correlation, with `volatilities` to reckon in.
fn mix_correlation(intensity: f64, b: &[f64], n: usize, volatilities: &mut [f64], out: &mut [f64])
    requires { (0 < n) × (n ≤ max_side) × (length b.now ≡ n * n) × (length volatilities.old ≡ n) × (length out.old ≡ n * n) }
    ensures { out.new ≡ rows n n (Adjusted.mixed Target.ConstantCorrelation intensity n (at b.now n)) }
{
    sample::put_volatilities(b, n, volatilities);
    let r = targets::average_correlation(b, volatilities, n);
    targets::put_constant_correlation(b, r, volatilities, n, out);
    mix(intensity, intensity, b, n, out);
}

// Shrunk towards the target of the shrinkage, a fixed one towards constant variance. `volatilities` is to reckon in.
// Two arms have one body: joined by `|`, a proof no longer sees which of them it is in.
fn shrink(
    shrinkage: Shrinkage<f64>,
    intensity: f64,
    b: &[f64],
    n: usize,
    volatilities: &mut [f64],
    out: &mut [f64],
)
    requires { (0 < n) × (n ≤ max_side) × (length b.now ≡ n * n) × (length volatilities.old ≡ n) × (length out.old ≡ n * n) }
    ensures { out.new ≡ rows n n (Adjusted.shrunk shrinkage intensity n (at b.now n)) }
{
    match shrinkage {
        Shrinkage::Unshrunk => {
            matrix::tables::copy(b, out);
        }
        Shrinkage::Fixed(_) => {
            mix_variance(intensity, b, n, out);
        }
        Shrinkage::LedoitWolf(target) => match target {
            Target::ConstantVariance => {
                mix_variance(intensity, b, n, out);
            }
            Target::ConstantCorrelation => {
                mix_correlation(intensity, b, n, volatilities, out);
            }
        },
    }
}

// A + ε I for the A in `out`, with `unit` to reckon in.
fn regularize(regularization: Regularization<f64>, n: usize, unit: &mut [f64], out: &mut [f64])
    requires { (length unit.old ≡ n * n) × (length out.old ≡ n * n) }
    ensures { (f : Matrix) → out.old ≡ rows n n f → out.new ≡ rows n n (Adjusted.regularized regularization f) }
{
    match regularization {
        Regularization::Unregularized => {}
        Regularization::Ridge(ridge) => {
            matrix::tables::put_identity(unit, n);
            vectors::add_times(ridge, unit, out);
        }
    }
}

// Shrunk, then regularized.
#[tactic(auto, using(matrix::proofs::Lent::lent))]
pub fn adjust(settings: Settings, intensity: f64, b: &[f64], n: usize, out: &mut [f64])
    requires { (0 < n) × (n ≤ max_side) × (length b.now ≡ n * n) × (length out.old ≡ n * n) }
    ensures { out.new ≡ Adjusted.adjusted_of settings intensity n b.now }
{
    let mut volatilities = [0.0; matrix::MAX_SIDE];
    let mut unit = [0.0; matrix::MAX_SIDE * matrix::MAX_SIDE];
    let size = n * n;
    let shrinkage = settings.shrinkage;
    let regularization = settings.regularization;
    shrink(shrinkage, intensity, b, n, &mut volatilities[..n], out);
    regularize(regularization, n, &mut unit[..size], out);
}

// Whether the intensity or the regularization is above 0.
pub fn is_adjusted(intensity: f64, regularization: Regularization<f64>) -> bool
    ensures { result ≡ Adjusted.is_adjusted intensity regularization }
{
    match regularization {
        Regularization::Unregularized => 0.0 < intensity,
        Regularization::Ridge(ridge) => 0.0 < intensity || 0.0 < ridge,
    }
}
