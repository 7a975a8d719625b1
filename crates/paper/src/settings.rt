// The engine's settings, from a question record.
ghost use Rattle.std.specs.Prelude.{◌≡◌};
ghost use Rattle.paper.specs.Marking as Marking;

use crate::question::Question;
use leaves::numbers::float;
use rules::{Decay, Estimate, Regularization, Settings, Shrinkage};

// That of a weighted mean, which has a half-life or a decay factor.
pub(crate) fn decay(estimate: Estimate<u64>) -> Decay<f64>
    ensures { result ≡ Marking.decay_of estimate }
{
    match estimate {
        Estimate::Weighted(Decay::HalfLife(bits)) => Decay::HalfLife(float(bits)),
        Estimate::Weighted(Decay::Lambda(bits)) => Decay::Lambda(float(bits)),
        _ => Decay::Lambda(0.0),
    }
}

fn estimate(estimate: Estimate<u64>) -> Estimate<f64>
    ensures { result ≡ Marking.estimate_of estimate }
{
    match estimate {
        Estimate::Sample => Estimate::Sample,
        Estimate::Given => Estimate::Given,
        Estimate::Weighted(Decay::HalfLife(bits)) => Estimate::Weighted(Decay::HalfLife(float(
            bits,
        ))),
        Estimate::Weighted(Decay::Lambda(bits)) => Estimate::Weighted(Decay::Lambda(float(bits))),
        Estimate::Semi => Estimate::Semi,
        Estimate::SemiBelow(bits) => Estimate::SemiBelow(float(bits)),
    }
}

fn shrinkage(shrinkage: Shrinkage<u64>) -> Shrinkage<f64>
    ensures { result ≡ Marking.shrinkage_of shrinkage }
{
    match shrinkage {
        Shrinkage::Unshrunk => Shrinkage::Unshrunk,
        Shrinkage::Fixed(bits) => Shrinkage::Fixed(float(bits)),
        Shrinkage::LedoitWolf(target) => Shrinkage::LedoitWolf(target),
    }
}

fn regularization(regularization: Regularization<u64>) -> Regularization<f64>
    ensures { result ≡ Marking.regularization_of regularization }
{
    match regularization {
        Regularization::Unregularized => Regularization::Unregularized,
        Regularization::Ridge(bits) => Regularization::Ridge(float(bits)),
    }
}

pub(crate) fn limit(limit: Option<usize>) -> usize
    ensures { result ≡ Marking.limit_of limit }
{
    limit.unwrap_or(matrix::MAX_SWEEPS)
}

#[tactic(auto, unfolding(crate::specs::Marking::settings_of))]
pub(crate) fn settings(q: Question) -> Settings
    ensures { result ≡ Marking.settings_of q }
{
    Settings {
        estimate: estimate(q.estimate),
        shrinkage: shrinkage(q.shrinkage),
        regularization: regularization(q.regularization),
        limit: limit(q.limit),
    }
}
