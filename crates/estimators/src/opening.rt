// What every call looks at after its shape: the returns, refusal 5, and the sample covariance, 6.
ghost use Rattle.std.specs.Prelude.{◌≡◌, ◌*◌, ◌≤◌, [], ◌∷◌, ◌++◌, length, OnOk};
ghost use Rattle.matrix.specs.Limits.{max_sweeps};
ghost use Rattle.matrix.specs.Matrix.{rows};
ghost use Rattle.rules.specs.Refusals as Refusals;
ghost use Rattle.rules.specs.Sample as Sample;
ghost use Rattle.rules.specs.Order as Order;
ghost use Rattle.rules.specs.Order.{by_returns};
ghost use Rattle.inputs.specs.Checks.{checked};
ghost use Rattle.tables.specs.Rows.{return_at};

use covariances::sample::covariance;
use inputs::checks::when;
use inputs::entries::check_finite;
use inputs::limits::bad_sweep_limit;
use rules::Refusal;
use tables::returns::Returns;

// Refusal 5, and 6 of the sample covariance, which is left in `out` where neither refuses.
pub(crate) fn check_returns(r: &Returns, out: &mut [f64]) -> Result<(), Refusal>
    requires { length out.old ≡ r.now.assets * r.now.assets }
    ensures { (out.new ≡ rows r.now.assets r.now.assets (Sample.covariance r.now.periods (return_at r.now))) × (checked result ≡ Refusals.first (by_returns r.now.periods r.now.assets (return_at r.now))) }
{
    covariance(r, out);
    check_finite(r.numbers, r.periods, r.assets)?;
    when(
        !matrix::places::all_finite(out, r.assets, r.assets),
        Refusal::CovarianceNotFinite,
    )
}

// The same, with the sample covariance in an array of the engine.
#[tactic(auto, using(matrix::proofs::Lent::lent))]
pub(crate) fn check_opened(r: &Returns) -> Result<(), Refusal>
    ensures { checked result ≡ Refusals.first (by_returns r.now.periods r.now.assets (return_at r.now)) }
{
    let mut sample = [0.0; matrix::MAX_SIDE * matrix::MAX_SIDE];
    let size = r.assets * r.assets;
    check_returns(r, &mut sample[..size])
}

// And the sweep limit, refusal 7.
pub(crate) fn check_limited(r: &Returns, limit: usize) -> Result<(), Refusal>
    ensures { (checked result ≡ Refusals.first (by_returns r.now.periods r.now.assets (return_at r.now) ++ Order.bad_sweep_limit limit ∷ [])) × OnOk result (limit ≤ max_sweeps) }
{
    check_opened(r)?;
    bad_sweep_limit(limit)
}
