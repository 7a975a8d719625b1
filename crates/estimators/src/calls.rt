// The five calls of document 01. Each looks at shapes and lengths, refusals 1 to 4, then fills as much of the answer slice as its answer needs; a refusal
// leaves the slice as it was.
ghost use Rattle.std.specs.Prelude.{◌≡◌};
ghost use Rattle.rules.specs.Calls as Calls;
ghost use Rattle.rules.specs.Calls.{answered};

use crate::{covariance, expected_returns};
use inputs::shapes::{AnswerShape, check_shape};
use rules::{Answer, Decay, Refusal, Settings, Target};
use tables::returns::Returns;

// The covariance of n assets, estimated, shrunk and regularized as the settings say: n * n numbers, row by row. `given`, `side` rows of as many
// numbers, is looked at for the given estimate alone.
pub fn adjusted_covariance(
    returns: &[f64],
    n: usize,
    periods: usize,
    settings: Settings,
    given: &[f64],
    side: usize,
    answer: &mut [f64],
) -> Result<Answer, Refusal>
    ensures { answered result answer.new ≡ Calls.adjusted_covariance returns.now n periods settings given.now side answer.old }
{
    check_shape(returns.len(), n, periods, AnswerShape::Table, answer.len())?;
    let r = Returns {
        numbers: returns,
        assets: n,
        periods,
    };
    let size = n * n;
    covariance::adjusted_covariance(settings, &r, given, side, &mut answer[..size])
}

// The intensity of Ledoit and Wolf's shrinkage towards the target.
pub fn ledoit_wolf(
    returns: &[f64],
    n: usize,
    periods: usize,
    target: Target,
) -> Result<Answer, Refusal>
    ensures { result ≡ Calls.ledoit_wolf_intensity returns.now n periods target }
{
    check_shape(returns.len(), n, periods, AnswerShape::Nothing, 0)?;
    let r = Returns {
        numbers: returns,
        assets: n,
        periods,
    };
    covariance::ledoit_wolf(target, &r)
}

// Each asset's mean, with weights that fall as the decay says: n numbers.
pub fn exponentially_weighted_mean(
    returns: &[f64],
    n: usize,
    periods: usize,
    decay: Decay<f64>,
    answer: &mut [f64],
) -> Result<Answer, Refusal>
    ensures { answered result answer.new ≡ Calls.exponentially_weighted_mean returns.now n periods decay answer.old }
{
    check_shape(returns.len(), n, periods, AnswerShape::Vector, answer.len())?;
    let r = Returns {
        numbers: returns,
        assets: n,
        periods,
    };
    expected_returns::exponentially_weighted_mean(&r, decay, &mut answer[..n])
}

// Each asset's mean, moved towards their average as by James and Stein: n numbers.
pub fn james_stein_mean(
    returns: &[f64],
    n: usize,
    periods: usize,
    limit: usize,
    answer: &mut [f64],
) -> Result<Answer, Refusal>
    ensures { answered result answer.new ≡ Calls.james_stein_mean returns.now n periods limit answer.old }
{
    check_shape(returns.len(), n, periods, AnswerShape::Vector, answer.len())?;
    let r = Returns {
        numbers: returns,
        assets: n,
        periods,
    };
    expected_returns::james_stein_mean(&r, limit, &mut answer[..n])
}

// Each asset's mean, moved towards the mean of the portfolio of least variance as by Jorion: n numbers.
pub fn bayes_stein_mean(
    returns: &[f64],
    n: usize,
    periods: usize,
    limit: usize,
    answer: &mut [f64],
) -> Result<Answer, Refusal>
    ensures { answered result answer.new ≡ Calls.bayes_stein_mean returns.now n periods limit answer.old }
{
    check_shape(returns.len(), n, periods, AnswerShape::Vector, answer.len())?;
    let r = Returns {
        numbers: returns,
        assets: n,
        periods,
    };
    expected_returns::bayes_stein_mean(&r, limit, &mut answer[..n])
}
