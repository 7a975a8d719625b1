// The adjusted covariance and the Ledoit-Wolf intensity, on inputs of the right shape (covariance.rs, `adjusted_covariance`).
ghost use Rattle.std.specs.Prelude.{◌≡◌, true, ◌*◌, length, take};
ghost use Rattle.matrix.specs.Limits.{max_side};
ghost use Rattle.matrix.specs.Matrix.{Matrix, at, rows};
ghost use Rattle.rules.specs.Refusals as Refusals;
ghost use Rattle.rules.specs.Sample as Sample;
ghost use Rattle.rules.specs.Adjusted as Adjusted;
ghost use Rattle.rules.specs.Order as Order;
ghost use Rattle.rules.specs.Order.{of_given, by_settings, by_answer};
ghost use Rattle.rules.specs.Calls as Calls;
ghost use Rattle.rules.specs.Calls.{answered};
ghost use Rattle.rules.specs.Given.{averaged_of};
ghost use Rattle.inputs.specs.Checks.{checked, examined};
ghost use Rattle.tables.specs.Rows.{return_at};
ghost use Rattle.estimators.specs.Estimated.{finished, estimated};

use crate::opening::check_returns;
use crate::validate::{bad_estimate, bad_regularization, bad_shrinkage, not_the_sample};
use covariances::adjusted::{adjust, is_adjusted};
use covariances::base::put_base;
use covariances::{ledoit_wolf, sample};
use inputs::checks::when;
use inputs::given::{check_sizes, examine};
use inputs::limits::bad_sweep_limit;
use rules::{Answer, Estimate, Refusal, Settings, Shrinkage, Target};
use tables::returns::Returns;

// Refusal 9: the first asset whose volatility under the covariance s is at most 1e-10 of its largest return.
#[tactic(auto, using(matrix::proofs::Lent::lent))]
fn check_constant(s: &[f64], r: &Returns) -> Result<(), Refusal>
    requires { length s.now ≡ r.now.assets * r.now.assets }
    ensures { checked result ≡ Order.constant_returns r.now.assets (at s.now r.now.assets) (Sample.largest r.now.periods (return_at r.now)) }
{
    let mut one = [0.0; matrix::MAX_SIDE];
    let mut other = [0.0; matrix::MAX_SIDE];
    let volatilities = &mut one[..r.assets];
    let sizes = &mut other[..r.assets];
    sample::put_volatilities(s, r.assets, volatilities);
    sample::amax(r, sizes);
    sample::constant_returns(volatilities, r.assets, sizes)
}

// Refusal 9 by constant correlation, from the sample covariance: that target divides by its volatilities.
#[tactic(auto, using(matrix::proofs::Lent::lent))]
fn no_correlation(shrinkage: Shrinkage<f64>, sample: &[f64], r: &Returns) -> Result<(), Refusal>
    requires { sample.now ≡ rows r.now.assets r.now.assets (Sample.covariance r.now.periods (return_at r.now)) }
    ensures { checked result ≡ Order.no_correlation shrinkage r.now.periods r.now.assets (return_at r.now) }
{
    match shrinkage {
        Shrinkage::Unshrunk | Shrinkage::Fixed(_) => Ok(()),
        Shrinkage::LedoitWolf(target) => match target {
            Target::ConstantVariance => Ok(()),
            Target::ConstantCorrelation => check_constant(sample, r),
        },
    }
}

// Refusal 10, for a given matrix whose side is not the number of assets.
fn wrong_side(estimate: Estimate<f64>, side: usize, n: usize) -> Result<(), Refusal>
    ensures { checked result ≡ Order.wrong_side estimate side n }
{
    when(estimate.is_given() && side != n, Refusal::WrongSide(side))
}

// Refusals by the settings, in this order: 7 for fields 1 to 4; 8; 9 by constant correlation; 10 by the side.
fn check_settings(
    settings: Settings,
    sample: &[f64],
    r: &Returns,
    side: usize,
) -> Result<(), Refusal>
    requires { sample.now ≡ rows r.now.assets r.now.assets (Sample.covariance r.now.periods (return_at r.now)) }
    ensures { checked result ≡ Refusals.first (by_settings settings r.now.periods r.now.assets side (return_at r.now)) }
{
    bad_regularization(settings.regularization)?;
    bad_shrinkage(settings.shrinkage)?;
    bad_estimate(settings.estimate)?;
    not_the_sample(settings.shrinkage, settings.estimate)?;
    no_correlation(settings.shrinkage, sample, r)?;
    wrong_side(settings.estimate, side, r.assets)
}

// Refusal 9 of a given covariance: the first variance that is 0. By index: the variances do not stand side by side.
fn zero_variance(b: &[f64], n: usize) -> Result<(), Refusal>
    requires { length b.now ≡ n * n }
    ensures { checked result ≡ Order.zero_variance n (at b.now n) }
{
    for i in 0..n {
        if b[i * n + i] == 0.0 {
            return Err(Refusal::ZeroVariance(i));
        }
    }
    Ok(())
}

// Refusal 9 of an unadjusted estimate b: a given variance may not be 0, one from the returns not 0 to rounding.
fn no_variance(
    adjusted: bool,
    estimate: Estimate<f64>,
    b: &[f64],
    r: &Returns,
) -> Result<(), Refusal>
    requires { length b.now ≡ r.now.assets * r.now.assets }
    ensures { checked result ≡ Order.no_variance adjusted estimate r.now.periods r.now.assets (return_at r.now) (at b.now r.now.assets) }
{
    if adjusted {
        Ok(())
    } else if estimate.is_given() {
        zero_variance(b, r.assets)
    } else {
        check_constant(b, r)
    }
}

// Refusals 6 and 14 of the answer a: an entry that is not finite, a trace of 0.
fn check_answer(a: &[f64], n: usize) -> Result<(), Refusal>
    requires { length a.now ≡ n * n }
    ensures { checked result ≡ Refusals.first (by_answer n (at a.now n)) }
{
    when(
        !matrix::places::all_finite(a, n, n),
        Refusal::CovarianceNotFinite,
    )?;
    let flat = matrix::sums::trace(a, n) == 0.0;
    when(flat, Refusal::Singular)
}

// δ, the intensity of the shrinkage, 0 where there is none.
fn intensity(shrinkage: Shrinkage<f64>, r: &Returns) -> f64
    ensures { result ≡ Adjusted.intensity shrinkage r.now.periods r.now.assets (return_at r.now) }
{
    match shrinkage {
        Shrinkage::Unshrunk => 0.0,
        Shrinkage::Fixed(fixed) => fixed,
        Shrinkage::LedoitWolf(target) => ledoit_wolf::ledoit_wolf(target, r),
    }
}

// The estimate b adjusted in `a`, and left in `out` if nothing refuses it. `made` is the sweeps and rotations of a given matrix's decomposition.
fn finish_in(
    settings: Settings,
    intensity: f64,
    b: &[f64],
    r: &Returns,
    made: (usize, usize),
    a: &mut [f64],
    out: &mut [f64],
) -> Result<Answer, Refusal>
    requires { (length b.now ≡ r.now.assets * r.now.assets) × (length a.old ≡ r.now.assets * r.now.assets) × (length out.old ≡ r.now.assets * r.now.assets) }
    ensures { answered result out.new ≡ finished settings intensity r.now.periods r.now.assets (return_at r.now) made b.now out.old }
{
    let adjusted = is_adjusted(intensity, settings.regularization);
    no_variance(adjusted, settings.estimate, b, r)?;
    adjust(settings, intensity, b, r.assets, a);
    check_answer(a, r.assets)?;
    matrix::tables::copy(a, out);
    let (sweeps, rotations) = made;
    Ok(Answer::Covariance(intensity, sweeps, rotations))
}

// The answer from the settings on: `sample` is the sample covariance, `given` the averaged given matrix, `b` and `a` are to reckon in.
fn estimate_in(
    settings: Settings,
    r: &Returns,
    side: usize,
    sample: &[f64],
    given: &[f64],
    made: (usize, usize),
    b: &mut [f64],
    a: &mut [f64],
    out: &mut [f64],
) -> Result<Answer, Refusal>
    requires { (sample.now ≡ rows r.now.assets r.now.assets (Sample.covariance r.now.periods (return_at r.now))) × (length given.now ≡ r.now.assets * r.now.assets) × (length b.old ≡ r.now.assets * r.now.assets) × (length a.old ≡ r.now.assets * r.now.assets) × (length out.old ≡ r.now.assets * r.now.assets) }
    ensures { (g : Matrix) → (Adjusted.is_given settings.estimate ≡ true → side ≡ r.now.assets → at given.now r.now.assets ≡ g) → answered result out.new ≡ estimated settings r.now.periods r.now.assets side (return_at r.now) made g out.old }
{
    check_settings(settings, sample, r, side)?;
    let delta = intensity(settings.shrinkage, r);
    put_base(settings.estimate, r, sample, given, b);
    finish_in(settings, delta, b, r, made, a, out)
}

// The averaged given matrix at the beginning of `out`, and the sweeps and rotations of its decomposition; none of it for the other estimates.
fn examine_given(
    settings: Settings,
    given: &[f64],
    side: usize,
    out: &mut [f64],
) -> Result<(usize, usize), Refusal>
    requires { length out.old ≡ max_side * max_side }
    ensures { (result ≡ examined (Refusals.first (of_given settings given.now side)) (Adjusted.decomposition_of settings given.now side)) × (Adjusted.is_given settings.estimate ≡ true → Refusals.first (of_given settings given.now side) ≡ Refusals.passes → take (side * side) out.new ≡ averaged_of given.now side) }
{
    if !settings.estimate.is_given() {
        return Ok((0, 0));
    }
    bad_sweep_limit(settings.limit)?;
    check_sizes(given.len(), side)?;
    let size = side * side;
    examine(given, side, settings.limit, &mut out[..size])
}

// `adjusted_covariance`, with four tables to reckon in.
fn adjusted_in(
    settings: Settings,
    r: &Returns,
    given: &[f64],
    side: usize,
    sample: &mut [f64],
    averaged: &mut [f64],
    b: &mut [f64],
    a: &mut [f64],
    out: &mut [f64],
) -> Result<Answer, Refusal>
    requires { (length sample.old ≡ r.now.assets * r.now.assets) × (length averaged.old ≡ max_side * max_side) × (length b.old ≡ r.now.assets * r.now.assets) × (length a.old ≡ r.now.assets * r.now.assets) × (length out.old ≡ r.now.assets * r.now.assets) }
    ensures { answered result out.new ≡ Calls.adjusted_covariance r.now.numbers.now r.now.assets r.now.periods settings given.now side out.old }
{
    check_returns(r, sample)?;
    let made = examine_given(settings, given, side, averaged)?;
    let size = r.assets * r.assets;
    estimate_in(
        settings,
        r,
        side,
        sample,
        &averaged[..size],
        made,
        b,
        a,
        out,
    )
}

// The call after refusals 1 to 4, in arrays of the largest size.
#[tactic(auto, using(matrix::proofs::Lent::lent))]
pub(crate) fn adjusted_covariance(
    settings: Settings,
    r: &Returns,
    given: &[f64],
    side: usize,
    out: &mut [f64],
) -> Result<Answer, Refusal>
    requires { length out.old ≡ r.now.assets * r.now.assets }
    ensures { answered result out.new ≡ Calls.adjusted_covariance r.now.numbers.now r.now.assets r.now.periods settings given.now side out.old }
{
    let mut sample = [0.0; matrix::MAX_SIDE * matrix::MAX_SIDE];
    let mut averaged = [0.0; matrix::MAX_SIDE * matrix::MAX_SIDE];
    let mut b = [0.0; matrix::MAX_SIDE * matrix::MAX_SIDE];
    let mut a = [0.0; matrix::MAX_SIDE * matrix::MAX_SIDE];
    let size = r.assets * r.assets;
    adjusted_in(
        settings,
        r,
        given,
        side,
        &mut sample[..size],
        &mut averaged,
        &mut b[..size],
        &mut a[..size],
        out,
    )
}

// The Ledoit-Wolf intensity, with a table to reckon in.
fn ledoit_wolf_in(target: Target, r: &Returns, table: &mut [f64]) -> Result<Answer, Refusal>
    requires { length table.old ≡ r.now.assets * r.now.assets }
    ensures { result ≡ Calls.ledoit_wolf_intensity r.now.numbers.now r.now.assets r.now.periods target }
{
    check_returns(r, table)?;
    no_correlation(Shrinkage::LedoitWolf(target), table, r)?;
    Ok(Answer::Intensity(ledoit_wolf::ledoit_wolf(target, r)))
}

// The call after refusals 1 to 4, in an array of the largest size.
#[tactic(auto, using(matrix::proofs::Lent::lent))]
pub(crate) fn ledoit_wolf(target: Target, r: &Returns) -> Result<Answer, Refusal>
    ensures { result ≡ Calls.ledoit_wolf_intensity r.now.numbers.now r.now.assets r.now.periods target }
{
    let mut sample = [0.0; matrix::MAX_SIDE * matrix::MAX_SIDE];
    let size = r.assets * r.assets;
    ledoit_wolf_in(target, r, &mut sample[..size])
}
