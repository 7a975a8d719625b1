// The three means, on returns and an answer of the right shape (expected_returns.rs).
ghost use Rattle.std.specs.Prelude.{◌≡◌, ◌≤◌, length};
ghost use Rattle.matrix.specs.Limits.{max_sweeps};
ghost use Rattle.rules.specs.Calls as Calls;
ghost use Rattle.rules.specs.Calls.{answered};
ghost use Rattle.tables.specs.Rows.{return_at};
ghost use Rattle.means.specs.Stein.{bayes_stein_from};

use crate::opening::{check_limited, check_opened};
use covariances::decay::{bad_decay, log_decay};
use covariances::sample::amax;
use covariances::weighted;
use means::gather::scale_down;
use means::moments::Moments;
use means::{bayes_stein, james_stein};
use rules::{Answer, Decay, Refusal};
use tables::returns::Returns;
use tables::scales::{exponent, put_exponents};

pub(crate) fn exponentially_weighted_mean(
    r: &Returns,
    decay: Decay<f64>,
    out: &mut [f64],
) -> Result<Answer, Refusal>
    requires { length out.old ≡ r.now.assets }
    ensures { answered result out.new ≡ Calls.exponentially_weighted_mean r.now.numbers.now r.now.assets r.now.periods decay out.old }
{
    check_opened(r)?;
    bad_decay(decay)?;
    let l = log_decay(decay);
    weighted::mean_of(l, r, out);
    Ok(Answer::Mean)
}

// All returns over one power of two near the largest.
pub(crate) fn james_stein_mean(
    r: &Returns,
    limit: usize,
    out: &mut [f64],
) -> Result<Answer, Refusal>
    requires { length out.old ≡ r.now.assets }
    ensures { answered result out.new ≡ Calls.james_stein_mean r.now.numbers.now r.now.assets r.now.periods limit out.old }
{
    check_limited(r, limit)?;
    let e = exponent(matrix::entries::amax(r.numbers, r.periods, r.assets));
    let m = Moments::over(r, e);
    james_stein::shrink(m, e, limit, out)
}

// Each asset's returns over a power of two near its largest. `sizes` and `exponents` are to reckon in.
fn bayes_stein_in(
    r: &Returns,
    limit: usize,
    sizes: &mut [f64],
    exponents: &mut [i32],
    out: &mut [f64],
) -> Result<Answer, Refusal>
    requires { (limit ≤ max_sweeps) × (length sizes.old ≡ r.now.assets) × (length exponents.old ≡ r.now.assets) × (length out.old ≡ r.now.assets) }
    ensures { answered result out.new ≡ bayes_stein_from r.now.assets r.now.periods limit (return_at r.now) out.old }
{
    amax(r, sizes);
    put_exponents(sizes, exponents);
    let m = Moments::of_returns(r, exponents);
    scale_down(exponents, 0, sizes);
    bayes_stein::shrink(m, exponents, sizes, limit, out)
}

#[tactic(auto, using(matrix::proofs::Lent::lent))]
pub(crate) fn bayes_stein_mean(
    r: &Returns,
    limit: usize,
    out: &mut [f64],
) -> Result<Answer, Refusal>
    requires { length out.old ≡ r.now.assets }
    ensures { answered result out.new ≡ Calls.bayes_stein_mean r.now.numbers.now r.now.assets r.now.periods limit out.old }
{
    check_limited(r, limit)?;
    let mut sizes = [0.0; matrix::MAX_SIDE];
    let mut exponents = [0; matrix::MAX_SIDE];
    bayes_stein_in(
        r,
        limit,
        &mut sizes[..r.assets],
        &mut exponents[..r.assets],
        out,
    )
}
