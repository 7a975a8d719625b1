// The powers of two near numbers, and numbers in units of them.
ghost use Rattle.std.specs.Prelude.{◌≡◌, ℕ, ◌≤◌, length, unsigned_abs};
ghost use Rattle.leaves.specs.Loops.{tab, nth};
ghost use Rattle.leaves.specs.Scaling.{binary_exponent, pow2_scaled};
ghost use Rattle.rules.specs.BayesStein.{exponent_at};
ghost use Rattle.tables.specs.Exponents.{max_exponent, Exponents};

// b(x), which is at most `max_exponent` in size.
pub fn exponent(x: f64) -> i32
    ensures { (result ≡ binary_exponent x) × (unsigned_abs result ≤ max_exponent) }
{
    leaves::scaling::binary_exponent(x)
}

// b(x) of each number.
pub fn put_exponents(xs: &[f64], out: &mut [i32])
    requires { length xs.now ≡ length out.old }
    ensures { (out.new ≡ tab (length out.old) (λ (k : ℕ). binary_exponent (nth xs.now k))) × Exponents out.new }
{
    for k in 0..out.len() {
        out[k] = exponent(xs[k]);
    }
}

// Each number xₖ becomes xₖ · 2^eₖ: out of its unit.
pub fn scale_back(exponents: &[i32], out: &mut [f64])
    requires { (length exponents.now ≡ length out.old) × Exponents exponents.now }
    ensures { out.new ≡ tab (length out.old) (λ (k : ℕ). pow2_scaled (nth out.old k) (exponent_at exponents.now k)) }
{
    for k in 0..out.len() {
        out[k] = leaves::scaling::pow2_scaled(out[k], exponents[k]);
    }
}
