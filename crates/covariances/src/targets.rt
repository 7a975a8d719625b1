// What a covariance s, an n × n table, is shrunk to: its average variance, or its volatilities with their average correlation
// (covariance.rs, `average_correlation`, `constant_correlation`).
ghost use Rattle.std.specs.Prelude.{◌≡◌, ℕ, ◌*◌, ◌<◌, ◌≤◌, length, if◌then◌else◌, nat_eq, Float};
ghost use Rattle.leaves.specs.Numbers.{◌⊗◌};
ghost use Rattle.leaves.specs.Loops.{tab, nth};
ghost use Rattle.matrix.specs.Limits.{max_side};
ghost use Rattle.matrix.specs.Matrix.{Matrix, at, rows, sum_over};
ghost use Rattle.rules.specs.Sample.{volatility};
ghost use Rattle.rules.specs.LedoitWolf as LedoitWolf;
ghost use Rattle.rules.specs.LedoitWolf.{apart};

// The trace over n.
pub(crate) fn average_variance(s: &[f64], n: usize) -> f64
    requires { length s.now ≡ n * n }
    ensures { result ≡ LedoitWolf.average_variance n (at s.now n) }
{
    matrix::sums::trace(s, n) / std::num::nearest_u64_to_f64(n as u64)
}

// The numbers f(i, j) over i and j other than i, added to `first`.
pub(crate) fn sum_apart<F: Fn(usize, usize) -> f64>(n: usize, first: f64, f: F) -> f64
    requires { (i j : ℕ) → i < n → j < n → F.pre f i j }
    ensures { (x : Matrix) → ((i j : ℕ) (y : Float) → i < n → j < n → F.post f i j y → y ≡ x i j) → result ≡ sum_over n apart x first }
{
    let mut t = first;
    for i in 0..n {
        for j in 0..n {
            if i != j {
                t = t + f(i, j);
            }
        }
    }
    t
}

// The average of the correlations off the diagonal.
pub(crate) fn average_correlation(s: &[f64], volatilities: &[f64], n: usize) -> f64
    requires { (0 < n) × (n ≤ max_side) × (length s.now ≡ n * n) × (volatilities.now ≡ tab n (volatility (at s.now n))) }
    ensures { result ≡ LedoitWolf.average_correlation n (at s.now n) }
{
    let correlation = |i: usize, j: usize| s[i * n + j] / volatilities[i] / volatilities[j];
    let t = sum_apart(n, 0.0, correlation);
    t / std::num::nearest_u64_to_f64((n * (n - 1)) as u64)
}

// Row i of the target with the correlation r.
fn put_row(r: f64, volatilities: &[f64], i: usize, variance: f64, out: &mut [f64])
    requires { (i < length out.old) × (length volatilities.now ≡ length out.old) }
    ensures { out.new ≡ tab (length out.old) (λ (j : ℕ). (if nat_eq i j then variance else (r ⊗ nth volatilities.now i ⊗ nth volatilities.now j))) }
{
    let scale = r * volatilities[i];
    for j in 0..out.len() {
        out[j] = scale * volatilities[j];
    }
    out[i] = variance;
}

// The variances of s, and the average correlation r times two volatilities off the diagonal.
pub(crate) fn put_constant_correlation(
    s: &[f64],
    r: f64,
    volatilities: &[f64],
    n: usize,
    out: &mut [f64],
)
    requires { (length s.now ≡ n * n) × (r ≡ LedoitWolf.average_correlation n (at s.now n)) × (volatilities.now ≡ tab n (volatility (at s.now n))) × (length out.old ≡ n * n) }
    ensures { out.new ≡ rows n n (LedoitWolf.constant_correlation n (at s.now n)) }
{
    for i in 0..n {
        let base = i * n;
        let end = base + n;
        let variance = s[base + i];
        put_row(r, volatilities, i, variance, &mut out[base..end]);
    }
}
