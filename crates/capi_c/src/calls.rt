// The five calls with C linkage (include/engine.h), the weighted mean by half-life and by decay factor.
ghost use Rattle.std.specs.Prelude.{◌≡◌};
ghost use Rattle.rules.specs.Calls as Estimators;
ghost use Rattle.rules.specs.declared.Decay.TheVariants.{HalfLife, Lambda};
ghost use Rattle.capi.specs.Report as Reports;
ghost use Rattle.capi.specs.Calls as Calls;

// A value is read where its kind has one.
#[unsafe(no_mangle)]
pub extern "C" fn engine_adjusted_covariance(
    returns: &[f64],
    assets: usize,
    periods: usize,
    estimate: u32,
    estimate_value: f64,
    shrinkage: u32,
    shrinkage_value: f64,
    regularization: u32,
    regularization_value: f64,
    limit: usize,
    given: &[f64],
    side: usize,
    answer: &mut [f64],
    numbers: &mut [f64; 2],
    wholes: &mut [usize; 2],
) -> u32
    ensures { Calls.left (Reports.handed result numbers.new wholes.new) answer.new ≡ Calls.engine_adjusted_covariance returns.now assets periods estimate estimate_value shrinkage shrinkage_value regularization regularization_value limit given.now side answer.old }
{
    capi::calls::engine_adjusted_covariance(
        returns,
        assets,
        periods,
        estimate,
        estimate_value,
        shrinkage,
        shrinkage_value,
        regularization,
        regularization_value,
        limit,
        given,
        side,
        answer,
        numbers,
        wholes,
    )
}

#[unsafe(no_mangle)]
pub extern "C" fn engine_ledoit_wolf(
    returns: &[f64],
    assets: usize,
    periods: usize,
    target: u32,
    numbers: &mut [f64; 2],
    wholes: &mut [usize; 2],
) -> u32
    ensures { Reports.handed result numbers.new wholes.new ≡ Calls.engine_ledoit_wolf returns.now assets periods target }
{
    capi::calls::engine_ledoit_wolf(returns, assets, periods, target, numbers, wholes)
}

#[unsafe(no_mangle)]
pub extern "C" fn engine_weighted_mean(
    returns: &[f64],
    assets: usize,
    periods: usize,
    half_life: f64,
    answer: &mut [f64],
    numbers: &mut [f64; 2],
    wholes: &mut [usize; 2],
) -> u32
    ensures { Calls.left (Reports.handed result numbers.new wholes.new) answer.new ≡ Calls.told (Estimators.exponentially_weighted_mean returns.now assets periods (HalfLife half_life) answer.old) }
{
    capi::calls::engine_weighted_mean(returns, assets, periods, half_life, answer, numbers, wholes)
}

#[unsafe(no_mangle)]
pub extern "C" fn engine_weighted_mean_by_factor(
    returns: &[f64],
    assets: usize,
    periods: usize,
    factor: f64,
    answer: &mut [f64],
    numbers: &mut [f64; 2],
    wholes: &mut [usize; 2],
) -> u32
    ensures { Calls.left (Reports.handed result numbers.new wholes.new) answer.new ≡ Calls.told (Estimators.exponentially_weighted_mean returns.now assets periods (Lambda factor) answer.old) }
{
    capi::calls::engine_weighted_mean_by_factor(
        returns, assets, periods, factor, answer, numbers, wholes,
    )
}

#[unsafe(no_mangle)]
pub extern "C" fn engine_james_stein_mean(
    returns: &[f64],
    assets: usize,
    periods: usize,
    limit: usize,
    answer: &mut [f64],
    numbers: &mut [f64; 2],
    wholes: &mut [usize; 2],
) -> u32
    ensures { Calls.left (Reports.handed result numbers.new wholes.new) answer.new ≡ Calls.told (Estimators.james_stein_mean returns.now assets periods limit answer.old) }
{
    capi::calls::engine_james_stein_mean(returns, assets, periods, limit, answer, numbers, wholes)
}

#[unsafe(no_mangle)]
pub extern "C" fn engine_bayes_stein_mean(
    returns: &[f64],
    assets: usize,
    periods: usize,
    limit: usize,
    answer: &mut [f64],
    numbers: &mut [f64; 2],
    wholes: &mut [usize; 2],
) -> u32
    ensures { Calls.left (Reports.handed result numbers.new wholes.new) answer.new ≡ Calls.told (Estimators.bayes_stein_mean returns.now assets periods limit answer.old) }
{
    capi::calls::engine_bayes_stein_mean(returns, assets, periods, limit, answer, numbers, wholes)
}
