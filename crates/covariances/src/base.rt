// What the adjustments apply to (covariance.rs, `Estimate`).
ghost use Rattle.std.specs.Prelude.{◌≡◌, ◌*◌, length};
ghost use Rattle.matrix.specs.Matrix.{at, rows};
ghost use Rattle.rules.specs.Sample as Sample;
ghost use Rattle.rules.specs.Adjusted as Adjusted;
ghost use Rattle.tables.specs.Rows.{return_at};

use crate::decay::log_decay;
use crate::{semi, weighted};
use rules::Estimate;
use tables::returns::Returns;

// The estimate. `sample` is the sample covariance, `given` the averaged given matrix, any table where there is none.
pub fn put_base(
    estimate: Estimate<f64>,
    r: &Returns,
    sample: &[f64],
    given: &[f64],
    out: &mut [f64],
)
    requires { (sample.now ≡ rows r.now.assets r.now.assets (Sample.covariance r.now.periods (return_at r.now))) × (length given.now ≡ r.now.assets * r.now.assets) × (length out.old ≡ r.now.assets * r.now.assets) }
    ensures { out.new ≡ rows r.now.assets r.now.assets (Adjusted.base estimate r.now.periods (return_at r.now) (at given.now r.now.assets)) }
{
    match estimate {
        Estimate::Sample => {
            matrix::tables::copy(sample, out);
        }
        Estimate::Given => {
            matrix::tables::copy(given, out);
        }
        Estimate::Weighted(decay) => {
            weighted::covariance(log_decay(decay), r, out);
        }
        Estimate::Semi => {
            semi::semicovariance(r, out);
        }
        Estimate::SemiBelow(threshold) => {
            semi::semicovariance_below(threshold, r, out);
        }
    }
}
