// Numbers xᵢ · 2^-eᵢ, gathered: a vector whose largest number is near 1, and one power of two (expected_returns.rs, `gather`).
ghost use Rattle.std.specs.Prelude.{◌≡◌, ℕ, ◌≤◌, length, pos, neg_ℤ, unsigned_abs};
ghost use Rattle.leaves.specs.Numbers.{◌⊘◌, one};
ghost use Rattle.leaves.specs.Loops.{tab, nth};
ghost use Rattle.matrix.specs.Limits.{max_side};
ghost use Rattle.rules.specs.BayesStein as BayesStein;
ghost use Rattle.rules.specs.BayesStein.{with_exponent, exponent_at};
ghost use Rattle.tables.specs.Exponents.{max_exponent, Exponents, two_exponents};
ghost use Rattle.means.specs.Gather.{largest_of, WithinTwoExponents, Gathered};

use tables::scales::exponent;

// The largest exponent so far, if there is one.
fn larger(largest: Option<i32>, k: i32) -> Option<i32>
    ensures { largest_of result ≡ BayesStein.larger_z (largest_of largest) k }
{
    Some(k.max(largest.unwrap_or(k)))
}

// With the exponent of x · 2^-e, unless x is 0.
fn with_exponent(largest: Option<i32>, x: f64, e: i32) -> Option<i32>
    requires { (unsigned_abs e ≤ max_exponent) × WithinTwoExponents (largest_of largest) }
    ensures { (largest_of result ≡ with_exponent (largest_of largest) x (neg_ℤ e)) × WithinTwoExponents (largest_of result) }
{
    if x == 0.0 {
        return largest;
    }
    larger(largest, exponent(x) - e)
}

// The largest exponent of the numbers that are not 0; 0 if all are. By index: two slices at i.
fn common_exponent(xs: &[f64], exponents: &[i32]) -> i32
    requires { (length xs.now ≡ length exponents.now) × Exponents exponents.now }
    ensures { (result ≡ BayesStein.common_exponent (length xs.now) (nth xs.now) (λ (i : ℕ). neg_ℤ (exponent_at exponents.now i))) × (unsigned_abs result ≤ two_exponents) }
{
    let mut largest = None;
    for i in 0..xs.len() {
        largest = with_exponent(largest, xs[i], exponents[i]);
    }
    largest.unwrap_or(0)
}

// Each number over its volatility.
fn divide(xs: &[f64], volatilities: &[f64], out: &mut [f64])
    requires { (length xs.now ≡ length out.old) × (length volatilities.now ≡ length out.old) }
    ensures { out.new ≡ tab (length out.old) (λ (i : ℕ). nth xs.now i ⊘ nth volatilities.now i) }
{
    for (i, y) in out.iter_mut().enumerate() {
        *y = xs[i] / volatilities[i];
    }
}

// Each number xᵢ becomes xᵢ · 2^-eᵢ · 2^-e: into its unit and over the common power.
pub fn scale_down(exponents: &[i32], e: i32, out: &mut [f64])
    requires { (length exponents.now ≡ length out.old) × Exponents exponents.now × (unsigned_abs e ≤ two_exponents) }
    ensures { out.new ≡ BayesStein.gathered (length out.old) (nth out.old) (λ (i : ℕ). neg_ℤ (exponent_at exponents.now i)) e }
{
    for (i, x) in out.iter_mut().enumerate() {
        *x = leaves::scaling::pow2_scaled(*x, -exponents[i] - e);
    }
}

// The numbers xᵢ / vᵢ · 2^-eᵢ, gathered in `out`. Their power of two is 2 to what is returned.
fn gather(xs: &[f64], volatilities: &[f64], exponents: &[i32], out: &mut [f64]) -> i32
    requires { (length xs.now ≡ length out.old) × (length volatilities.now ≡ length out.old) × (length exponents.now ≡ length out.old) × Exponents exponents.now }
    ensures { Gathered (length out.old) (λ (i : ℕ). nth xs.now i ⊘ nth volatilities.now i) (λ (i : ℕ). neg_ℤ (exponent_at exponents.now i)) result out.new }
{
    divide(xs, volatilities, out);
    let e = common_exponent(out, exponents);
    scale_down(exponents, e, out);
    e
}

// The numbers 1 / vᵢ · 2^-eᵢ.
#[tactic(auto, using(matrix::proofs::Lent::lent))]
pub(crate) fn gather_ones(volatilities: &[f64], exponents: &[i32], n: usize, out: &mut [f64]) -> i32
    requires { (n ≤ max_side) × (length volatilities.now ≡ n) × (length exponents.now ≡ n) × Exponents exponents.now × (length out.old ≡ n) }
    ensures { Gathered n (λ (i : ℕ). one ⊘ nth volatilities.now i) (λ (i : ℕ). neg_ℤ (exponent_at exponents.now i)) result out.new }
{
    let ones = [1.0; matrix::MAX_SIDE];
    gather(&ones[..n], volatilities, exponents, out)
}

// The numbers μᵢ / vᵢ.
#[tactic(auto, using(matrix::proofs::Lent::lent))]
pub(crate) fn gather_means(means: &[f64], volatilities: &[f64], n: usize, out: &mut [f64]) -> i32
    requires { (n ≤ max_side) × (length means.now ≡ n) × (length volatilities.now ≡ n) × (length out.old ≡ n) }
    ensures { Gathered n (λ (i : ℕ). nth means.now i ⊘ nth volatilities.now i) (λ (i : ℕ). pos 0) result out.new }
{
    let zeros = [0; matrix::MAX_SIDE];
    gather(means, volatilities, &zeros[..n], out)
}
