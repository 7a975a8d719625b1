// The semicovariance below each asset's mean, or below a threshold (covariance.rs).
ghost use Rattle.std.specs.Prelude.{◌≡◌, ℕ, ◌*◌, length, Float};
ghost use Rattle.leaves.specs.Loops.{tab};
ghost use Rattle.matrix.specs.Matrix.{rows};
ghost use Rattle.rules.specs.Semi as Semi;
ghost use Rattle.tables.specs.Rows.{return_at};

use crate::sample;
use tables::gram::gram;
use tables::returns::{Returns, Rows};
use tables::rows::Row;
use tables::vectors;

// The second moments of the shortfalls below the floors, over the degrees of freedom.
fn put_below(floors: &[f64], r: &Returns, degrees: usize, out: &mut [f64])
    requires { (length floors.now ≡ r.now.assets) × (length out.old ≡ r.now.assets * r.now.assets) }
    ensures { (f : ℕ → Float) → floors.now ≡ tab r.now.assets f → out.new ≡ rows r.now.assets r.now.assets (Semi.below f degrees r.now.periods (return_at r.now)) }
{
    let z = Rows {
        row: Row::Shortfall,
        returns: *r,
        units: &[],
        centers: floors,
        weights: &[],
    };
    gram(&z, out);
    vectors::divide(std::num::nearest_u64_to_f64(degrees as u64), out);
}

// The mean takes a degree of freedom.
#[tactic(auto, using(matrix::proofs::Lent::lent))]
pub(crate) fn semicovariance(r: &Returns, out: &mut [f64])
    requires { length out.old ≡ r.now.assets * r.now.assets }
    ensures { out.new ≡ rows r.now.assets r.now.assets (Semi.semicovariance r.now.periods (return_at r.now)) }
{
    let mut buffer = [0.0; matrix::MAX_SIDE];
    let means = &mut buffer[..r.assets];
    sample::means(r, means);
    put_below(means, r, r.periods - 1, out);
}

#[tactic(auto, using(matrix::proofs::Lent::lent))]
pub(crate) fn semicovariance_below(threshold: f64, r: &Returns, out: &mut [f64])
    requires { length out.old ≡ r.now.assets * r.now.assets }
    ensures { out.new ≡ rows r.now.assets r.now.assets (Semi.semicovariance_below threshold r.now.periods (return_at r.now)) }
{
    let mut buffer = [0.0; matrix::MAX_SIDE];
    let floors = &mut buffer[..r.assets];
    vectors::fill(threshold, floors);
    put_below(floors, r, r.periods, out);
}
