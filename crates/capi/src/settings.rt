// Settings from numbers: a kind each, with the value that some kinds have (include/engine.h).
ghost use Rattle.std.specs.Prelude.{◌≡◌, ltb, is_some, IfSome};
ghost use Rattle.rules.specs.Settings.{is_target, target_of};
ghost use Rattle.capi.specs.Settings as Kinds;

use rules::{Decay, Estimate, Regularization, Settings, Shrinkage, Target};

// A number that stands for no kind gives none. Kinds are numbers because the C interface has them so.
#[tactic(auto, unfolding(rules::specs::Settings::target_of))]
pub(crate) fn target_from(kind: u32) -> Option<Target>
    ensures known { is_some result ≡ is_target kind }
    ensures value { IfSome result (λ t. t ≡ target_of kind) }
{
    match kind {
        0 => Some(Target::ConstantVariance),
        1 => Some(Target::ConstantCorrelation),
        _ => None,
    }
}

#[tactic(auto, unfolding(crate::specs::Settings::estimate_of))]
pub(crate) fn estimate_of<T: Copy>(kind: u32, value: T) -> Option<Estimate<T>>
    ensures known { is_some result ≡ ltb kind Kinds.estimate_kinds }
    ensures value { IfSome result (λ e. e ≡ Kinds.estimate_of kind value) }
{
    match kind {
        0 => Some(Estimate::Sample),
        1 => Some(Estimate::Given),
        2 => Some(Estimate::Weighted(Decay::HalfLife(value))),
        3 => Some(Estimate::Semi),
        4 => Some(Estimate::SemiBelow(value)),
        5 => Some(Estimate::Weighted(Decay::Lambda(value))),
        _ => None,
    }
}

#[tactic(auto, unfolding(crate::specs::Settings::shrinkage_of, rules::specs::Settings::target_of))]
pub(crate) fn shrinkage_of<T: Copy>(kind: u32, value: T) -> Option<Shrinkage<T>>
    ensures known { is_some result ≡ ltb kind Kinds.shrinkage_kinds }
    ensures value { IfSome result (λ s. s ≡ Kinds.shrinkage_of kind value) }
{
    match kind {
        0 => Some(Shrinkage::Unshrunk),
        1 => Some(Shrinkage::Fixed(value)),
        2 => Some(Shrinkage::LedoitWolf(Target::ConstantVariance)),
        3 => Some(Shrinkage::LedoitWolf(Target::ConstantCorrelation)),
        _ => None,
    }
}

#[tactic(auto, unfolding(crate::specs::Settings::regularization_of))]
pub(crate) fn regularization_of<T: Copy>(kind: u32, value: T) -> Option<Regularization<T>>
    ensures known { is_some result ≡ ltb kind Kinds.regularization_kinds }
    ensures value { IfSome result (λ r. r ≡ Kinds.regularization_of kind value) }
{
    match kind {
        0 => Some(Regularization::Unregularized),
        1 => Some(Regularization::Ridge(value)),
        _ => None,
    }
}

#[tactic(auto, unfolding(crate::specs::Settings::known))]
pub(crate) fn settings_of(
    estimate: u32,
    estimate_value: f64,
    shrinkage: u32,
    shrinkage_value: f64,
    regularization: u32,
    regularization_value: f64,
    limit: usize,
) -> Option<Settings>
    ensures known { is_some result ≡ Kinds.known estimate shrinkage regularization }
    ensures value { IfSome result (λ s. s ≡ Kinds.settings_of estimate estimate_value shrinkage shrinkage_value regularization regularization_value limit) }
{
    Some(Settings {
        estimate: estimate_of(estimate, estimate_value)?,
        shrinkage: shrinkage_of(shrinkage, shrinkage_value)?,
        regularization: regularization_of(regularization, regularization_value)?,
        limit,
    })
}
