// The decay of the weights, by a half-life or a decay factor: its log, and which are accepted (covariance.rs, `Decay`; document 02, "Paper 1").
ghost use Rattle.std.specs.Prelude.{◌≡◌};
ghost use Rattle.rules.specs.Weighted as Weighted;
ghost use Rattle.rules.specs.Order as Order;
ghost use Rattle.inputs.specs.Checks.{checked};

use inputs::checks::when;
use rules::{Decay, Field, Refusal};

// ln λ.
pub fn log_decay(decay: Decay<f64>) -> f64
    ensures { result ≡ Weighted.log_decay decay }
{
    match decay {
        Decay::HalfLife(h) => -leaves::exponential::LN_2 / h,
        Decay::Lambda(f) => leaves::logarithm::ln(f),
    }
}

// The source's MIN_LOG.
const MIN_LOG_DECAY: f64 = -708.0;

// ln λ in [-708, 0).
fn accepted(l: f64) -> bool
    ensures { result ≡ Weighted.accepted l }
{
    MIN_LOG_DECAY <= l && l < 0.0
}

fn accepted_decay(decay: Decay<f64>) -> bool
    ensures { result ≡ Weighted.accepted_decay decay }
{
    let good = accepted(log_decay(decay));
    match decay {
        Decay::HalfLife(_) => good,
        Decay::Lambda(f) => leaves::logarithm::between01(f) && good,
    }
}

fn field(decay: Decay<f64>) -> Field
    ensures { result ≡ Order.decay_field decay }
{
    match decay {
        Decay::HalfLife(_) => Field::HalfLifeField,
        Decay::Lambda(_) => Field::DecayFactorField,
    }
}

// Refusal 7 for field 3, or for field 6 in its place.
#[tactic(auto, unfolding(rules::specs::Order::bad_decay))]
pub fn bad_decay(decay: Decay<f64>) -> Result<(), Refusal>
    ensures { checked result ≡ Order.bad_decay decay }
{
    when(!accepted_decay(decay), Refusal::BadSetting(field(decay)))
}
