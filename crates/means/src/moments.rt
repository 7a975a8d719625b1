// The moments record, of returns over powers of two (expected_returns.rs, `Moments`).
ghost use Rattle.std.specs.Prelude.{◌≡◌, ℕ, ◌+◌, ◌*◌, ◌≤◌, length, unsigned_abs};
ghost use Rattle.leaves.specs.Loops.{tab};
ghost use Rattle.matrix.specs.Limits.{max_side};
ghost use Rattle.matrix.specs.Matrix.{rows};
ghost use Rattle.rules.specs.Sample as Sample;
ghost use Rattle.rules.specs.Moments.{moments};
ghost use Rattle.rules.specs.BayesStein.{exponent_at};
ghost use Rattle.tables.specs.Exponents.{max_exponent, Exponents};
ghost use Rattle.tables.specs.Rows.{return_at};

use covariances::sample::{covariance_in_units, means_in_units};
use tables::powers::put_units;
use tables::returns::Returns;

// Of n assets, the first n numbers of the mean vector and the first n * n of the covariance, row by row.
#[derive(Clone, Copy)]
pub struct Moments {
    pub n: usize,
    pub mean: [f64; matrix::MAX_SIDE],
    pub covariance: [f64; matrix::MAX_SIDE * matrix::MAX_SIDE],
    pub periods: f64,
    pub ghost few: { n ≤ max_side },
}

// The means and the covariance, of the returns over their powers of two. `units` is to reckon in.
fn put_moments(
    r: &Returns,
    exponents: &[i32],
    units: &mut [f64],
    mean: &mut [f64],
    covariance: &mut [f64],
)
    requires { (length exponents.now ≡ r.now.assets) × Exponents exponents.now × (length units.old ≡ r.now.assets + r.now.assets) × (length mean.old ≡ r.now.assets) × (length covariance.old ≡ r.now.assets * r.now.assets) }
    ensures { (mean.new ≡ tab r.now.assets (Sample.mean r.now.periods (Sample.scaled (exponent_at exponents.now) (return_at r.now)))) × (covariance.new ≡ rows r.now.assets r.now.assets (Sample.covariance r.now.periods (Sample.scaled (exponent_at exponents.now) (return_at r.now)))) }
{
    put_units(exponents, r.assets, units);
    means_in_units(r, units, mean);
    covariance_in_units(r, units, mean, covariance);
}

impl Moments {
    ghost use Rattle.means.specs.Held.{held};

    // The moments of the returns, each asset's over its power of two.
    #[tactic(auto, using(matrix::proofs::Lent::lent))]
    pub fn of_returns(r: &Returns, exponents: &[i32]) -> Moments
        requires { (length exponents.now ≡ r.now.assets) × Exponents exponents.now }
        ensures { (result.n ≡ r.now.assets) × (held result ≡ moments r.now.periods r.now.assets (Sample.scaled (exponent_at exponents.now) (return_at r.now))) }
    {
        let mut units = [0.0; 2 * matrix::MAX_SIDE];
        let mut mean = [0.0; matrix::MAX_SIDE];
        let mut covariance = [0.0; matrix::MAX_SIDE * matrix::MAX_SIDE];
        let n = r.assets;
        let twice = n + n;
        let size = n * n;
        put_moments(
            r,
            exponents,
            &mut units[..twice],
            &mut mean[..n],
            &mut covariance[..size],
        );
        Moments {
            n,
            mean,
            covariance,
            periods: std::num::nearest_u64_to_f64(r.periods as u64),
        }
    }

    // All assets' over one power of two.
    #[tactic(auto, using(matrix::proofs::Lent::lent))]
    pub fn over(r: &Returns, exponent: i32) -> Moments
        requires { unsigned_abs exponent ≤ max_exponent }
        ensures { (result.n ≡ r.now.assets) × (held result ≡ moments r.now.periods r.now.assets (Sample.scaled (λ (i : ℕ). exponent) (return_at r.now))) }
    {
        let exponents = [exponent; matrix::MAX_SIDE];
        Moments::of_returns(r, &exponents[..r.assets])
    }
}
