// The five calls of include/engine.h, the weighted mean by half-life and by decay factor: settings in numbers, the answer as a report and the slice.
ghost use Rattle.std.specs.Prelude.{◌≡◌};
ghost use Rattle.rules.specs.Calls as Estimators;
ghost use Rattle.rules.specs.declared.Decay.TheVariants.{HalfLife, Lambda};
ghost use Rattle.capi.specs.Report as Reports;
ghost use Rattle.capi.specs.Calls as Calls;

use crate::report::{hand_out, report_of, reported};
use crate::settings::{settings_of, target_from};
use estimators::calls;
use rules::Decay;

// A number that stands for no kind, before all other causes: the definitions' `unknown_kind`.
pub(crate) const UNKNOWN_KIND: u32 = 100;

// A value is read where its kind has one.
#[tactic(auto, unfolding(crate::specs::Calls::engine_adjusted_covariance, crate::specs::Calls::when_known))]
pub fn engine_adjusted_covariance(
    returns: &[f64],
    assets: usize,
    periods: usize,
    estimate: u32,
    estimate_value: f64,
    shrinkage: u32,
    shrinkage_value: f64,
    regularization: u32,
    regularization_value: f64,
    limit: usize,
    given: &[f64],
    side: usize,
    answer: &mut [f64],
    numbers: &mut [f64; 2],
    wholes: &mut [usize; 2],
) -> u32
    ensures { Calls.left (Reports.handed result numbers.new wholes.new) answer.new ≡ Calls.engine_adjusted_covariance returns.now assets periods estimate estimate_value shrinkage shrinkage_value regularization regularization_value limit given.now side answer.old }
{
    let Some(settings) = settings_of(
        estimate,
        estimate_value,
        shrinkage,
        shrinkage_value,
        regularization,
        regularization_value,
        limit,
    ) else {
        return hand_out(reported(UNKNOWN_KIND, 0.0, 0.0, 0, 0), numbers, wholes);
    };
    let told = calls::adjusted_covariance(returns, assets, periods, settings, given, side, answer);
    hand_out(report_of(told), numbers, wholes)
}

#[tactic(auto, unfolding(crate::specs::Calls::engine_ledoit_wolf, crate::specs::Calls::when_known))]
pub fn engine_ledoit_wolf(
    returns: &[f64],
    assets: usize,
    periods: usize,
    target: u32,
    numbers: &mut [f64; 2],
    wholes: &mut [usize; 2],
) -> u32
    ensures { Reports.handed result numbers.new wholes.new ≡ Calls.engine_ledoit_wolf returns.now assets periods target }
{
    let Some(target) = target_from(target) else {
        return hand_out(reported(UNKNOWN_KIND, 0.0, 0.0, 0, 0), numbers, wholes);
    };
    let told = calls::ledoit_wolf(returns, assets, periods, target);
    hand_out(report_of(told), numbers, wholes)
}

// The weighted mean, by either kind of decay.
fn weighted_mean(
    returns: &[f64],
    assets: usize,
    periods: usize,
    decay: Decay<f64>,
    answer: &mut [f64],
    numbers: &mut [f64; 2],
    wholes: &mut [usize; 2],
) -> u32
    ensures { Calls.left (Reports.handed result numbers.new wholes.new) answer.new ≡ Calls.told (Estimators.exponentially_weighted_mean returns.now assets periods decay answer.old) }
{
    let told = calls::exponentially_weighted_mean(returns, assets, periods, decay, answer);
    hand_out(report_of(told), numbers, wholes)
}

pub fn engine_weighted_mean(
    returns: &[f64],
    assets: usize,
    periods: usize,
    half_life: f64,
    answer: &mut [f64],
    numbers: &mut [f64; 2],
    wholes: &mut [usize; 2],
) -> u32
    ensures { Calls.left (Reports.handed result numbers.new wholes.new) answer.new ≡ Calls.told (Estimators.exponentially_weighted_mean returns.now assets periods (HalfLife half_life) answer.old) }
{
    let decay = Decay::HalfLife(half_life);
    weighted_mean(returns, assets, periods, decay, answer, numbers, wholes)
}

pub fn engine_weighted_mean_by_factor(
    returns: &[f64],
    assets: usize,
    periods: usize,
    factor: f64,
    answer: &mut [f64],
    numbers: &mut [f64; 2],
    wholes: &mut [usize; 2],
) -> u32
    ensures { Calls.left (Reports.handed result numbers.new wholes.new) answer.new ≡ Calls.told (Estimators.exponentially_weighted_mean returns.now assets periods (Lambda factor) answer.old) }
{
    let decay = Decay::Lambda(factor);
    weighted_mean(returns, assets, periods, decay, answer, numbers, wholes)
}

pub fn engine_james_stein_mean(
    returns: &[f64],
    assets: usize,
    periods: usize,
    limit: usize,
    answer: &mut [f64],
    numbers: &mut [f64; 2],
    wholes: &mut [usize; 2],
) -> u32
    ensures { Calls.left (Reports.handed result numbers.new wholes.new) answer.new ≡ Calls.told (Estimators.james_stein_mean returns.now assets periods limit answer.old) }
{
    let told = calls::james_stein_mean(returns, assets, periods, limit, answer);
    hand_out(report_of(told), numbers, wholes)
}

pub fn engine_bayes_stein_mean(
    returns: &[f64],
    assets: usize,
    periods: usize,
    limit: usize,
    answer: &mut [f64],
    numbers: &mut [f64; 2],
    wholes: &mut [usize; 2],
) -> u32
    ensures { Calls.left (Reports.handed result numbers.new wholes.new) answer.new ≡ Calls.told (Estimators.bayes_stein_mean returns.now assets periods limit answer.old) }
{
    let told = calls::bayes_stein_mean(returns, assets, periods, limit, answer);
    hand_out(report_of(told), numbers, wholes)
}
