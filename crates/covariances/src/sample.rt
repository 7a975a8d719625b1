// The sample means and covariance, the largest returns, volatilities, and the rule for a constant asset (returns.rs; methods/mod.rs, `correlation`).
ghost use Rattle.std.specs.Prelude.{◌≡◌, ◌*◌, length};
ghost use Rattle.leaves.specs.Loops.{tab, nth};
ghost use Rattle.matrix.specs.Matrix.{Matrix, at, rows};
ghost use Rattle.rules.specs.Sample as Sample;
ghost use Rattle.rules.specs.Sample.{volatility};
ghost use Rattle.rules.specs.Order.{constant_returns};
ghost use Rattle.inputs.specs.Checks.{checked};
ghost use Rattle.tables.specs.Rows.{return_at, in_units};

use rules::Refusal;
use tables::gram::gram;
use tables::returns::{Returns, Rows};
use tables::rows::Row;
use tables::{columns, vectors};

// Each asset's mean return, in its unit where there are units.
#[tactic(auto, using(matrix::proofs::Lent::lent))]
pub fn means_in_units(r: &Returns, units: &[f64], out: &mut [f64])
    requires { length out.old ≡ r.now.assets }
    ensures { out.new ≡ tab r.now.assets (Sample.mean r.now.periods (in_units r.now.assets units.now (return_at r.now))) }
{
    let zeros = [0.0; matrix::MAX_SIDE];
    let z = Rows {
        row: Row::Plain,
        returns: *r,
        units,
        centers: &zeros[..r.assets],
        weights: &[],
    };
    columns::sum(&z, out);
    vectors::divide(std::num::nearest_u64_to_f64(r.periods as u64), out);
}

// The sample covariance, from these means.
pub fn covariance_in_units(r: &Returns, units: &[f64], means: &[f64], out: &mut [f64])
    requires { (length means.now ≡ r.now.assets) × (length out.old ≡ r.now.assets * r.now.assets) }
    ensures { means.now ≡ tab r.now.assets (Sample.mean r.now.periods (in_units r.now.assets units.now (return_at r.now))) → out.new ≡ rows r.now.assets r.now.assets (Sample.covariance r.now.periods (in_units r.now.assets units.now (return_at r.now))) }
{
    let z = Rows {
        row: Row::Deviation,
        returns: *r,
        units,
        centers: means,
        weights: &[],
    };
    gram(&z, out);
    vectors::divide(std::num::nearest_u64_to_f64((r.periods - 1) as u64), out);
}

pub(crate) fn means(r: &Returns, out: &mut [f64])
    requires { length out.old ≡ r.now.assets }
    ensures { out.new ≡ tab r.now.assets (Sample.mean r.now.periods (return_at r.now)) }
{
    means_in_units(r, &[], out);
}

#[tactic(auto, using(matrix::proofs::Lent::lent))]
pub fn covariance(r: &Returns, out: &mut [f64])
    requires { length out.old ≡ r.now.assets * r.now.assets }
    ensures { out.new ≡ rows r.now.assets r.now.assets (Sample.covariance r.now.periods (return_at r.now)) }
{
    let mut buffer = [0.0; matrix::MAX_SIDE];
    let mean = &mut buffer[..r.assets];
    means_in_units(r, &[], mean);
    covariance_in_units(r, &[], mean, out);
}

// Each asset's largest return in size.
#[tactic(auto, using(matrix::proofs::Lent::lent))]
pub fn amax(r: &Returns, out: &mut [f64])
    requires { length out.old ≡ r.now.assets }
    ensures { out.new ≡ tab r.now.assets (Sample.largest r.now.periods (return_at r.now)) }
{
    let zeros = [0.0; matrix::MAX_SIDE];
    let z = Rows {
        row: Row::Plain,
        returns: *r,
        units: &[],
        centers: &zeros[..r.assets],
        weights: &[],
    };
    columns::amax(&z, out);
}

// The square root of each variance.
pub fn put_volatilities(s: &[f64], n: usize, out: &mut [f64])
    requires { (length s.now ≡ n * n) × (length out.old ≡ n) }
    ensures { out.new ≡ tab n (volatility (at s.now n)) }
{
    for i in 0..n {
        out[i] = leaves::root::sqrt(s[i * n + i]);
    }
}

// The first asset with a volatility of at most 1e-10 of its largest return.
// A loop and not `position`: it reads two slices at i, and the refusal names i.
pub fn constant_returns(volatilities: &[f64], n: usize, sizes: &[f64]) -> Result<(), Refusal>
    requires { (length volatilities.now ≡ n) × (length sizes.now ≡ n) }
    ensures { (s : Matrix) → volatilities.now ≡ tab n (volatility s) → checked result ≡ constant_returns n s (nth sizes.now) }
{
    for i in 0..n {
        if volatilities[i] <= 1e-10 * sizes[i] {
            return Err(Refusal::ZeroVariance(i));
        }
    }
    Ok(())
}
