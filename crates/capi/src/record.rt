// A question record in numbers: a kind each, with the bits that some kinds have (include/engine.h).
ghost use Rattle.std.specs.Prelude.{◌≡◌, ltb, is_some, IfSome};
ghost use Rattle.capi.specs.Record as Records;
ghost use Rattle.capi.specs.Settings as Kinds;
ghost use Rattle.paper.specs.Question as Questions;

use crate::settings::{estimate_of, regularization_of, shrinkage_of};
use paper::question::{Asked, Question};
use rules::{Decay, Estimate, Regularization, Shrinkage, Target};

// A number that stands for no kind gives none.
#[tactic(auto, unfolding(crate::specs::Record::limit_from))]
fn limit_from(has_limit: u32, limit: usize) -> Option<Option<usize>>
    ensures known { is_some result ≡ ltb has_limit 2 }
    ensures value { IfSome result (λ l. l ≡ Records.limit_from has_limit limit) }
{
    match has_limit {
        0 => Some(None),
        1 => Some(Some(limit)),
        _ => None,
    }
}

#[tactic(auto, unfolding(paper::specs::Question::asked_of))]
fn asked_from(question: u32) -> Option<Asked>
    ensures known { is_some result ≡ ltb question Records.question_kinds }
    ensures value { IfSome result (λ a. a ≡ Questions.asked_of question) }
{
    match question {
        0 => Some(Asked::Covariance),
        1 => Some(Asked::WeightedMean),
        2 => Some(Asked::JamesStein),
        3 => Some(Asked::BayesStein),
        _ => None,
    }
}

#[tactic(auto, unfolding(crate::specs::Record::known_question, crate::specs::Settings::known))]
pub(crate) fn question_from(
    assets: usize,
    periods: usize,
    estimate: u32,
    estimate_bits: u64,
    shrinkage: u32,
    shrinkage_bits: u64,
    regularization: u32,
    regularization_bits: u64,
    has_limit: u32,
    limit: usize,
    question: u32,
) -> Option<Question>
    ensures known { is_some result ≡ Records.known_question estimate shrinkage regularization has_limit question }
    ensures value { IfSome result (λ q. q ≡ Records.question_from assets periods estimate estimate_bits shrinkage shrinkage_bits regularization regularization_bits has_limit limit question) }
{
    Some(Question {
        assets,
        periods,
        estimate: estimate_of(estimate, estimate_bits)?,
        shrinkage: shrinkage_of(shrinkage, shrinkage_bits)?,
        regularization: regularization_of(regularization, regularization_bits)?,
        limit: limit_from(has_limit, limit)?,
        asked: asked_from(question)?,
    })
}

fn estimate_kind(estimate: Estimate<u64>) -> usize
    ensures { result ≡ Records.estimate_kind estimate }
{
    match estimate {
        Estimate::Sample => 0,
        Estimate::Given => 1,
        Estimate::Weighted(Decay::HalfLife(_)) => 2,
        Estimate::Weighted(Decay::Lambda(_)) => 5,
        Estimate::Semi => 3,
        Estimate::SemiBelow(_) => 4,
    }
}

fn estimate_value(estimate: Estimate<u64>) -> u64
    ensures { result ≡ Records.estimate_value estimate }
{
    match estimate {
        Estimate::Weighted(Decay::HalfLife(bits))
        | Estimate::Weighted(Decay::Lambda(bits))
        | Estimate::SemiBelow(bits) => bits,
        _ => 0,
    }
}

fn shrinkage_kind(shrinkage: Shrinkage<u64>) -> usize
    ensures { result ≡ Records.shrinkage_kind shrinkage }
{
    match shrinkage {
        Shrinkage::Unshrunk => 0,
        Shrinkage::Fixed(_) => 1,
        Shrinkage::LedoitWolf(Target::ConstantVariance) => 2,
        Shrinkage::LedoitWolf(Target::ConstantCorrelation) => 3,
    }
}

fn shrinkage_value(shrinkage: Shrinkage<u64>) -> u64
    ensures { result ≡ Records.shrinkage_value shrinkage }
{
    match shrinkage {
        Shrinkage::Fixed(bits) => bits,
        _ => 0,
    }
}

fn regularization_kind(regularization: Regularization<u64>) -> usize
    ensures { result ≡ Records.regularization_kind regularization }
{
    match regularization {
        Regularization::Unregularized => 0,
        Regularization::Ridge(_) => 1,
    }
}

fn regularization_value(regularization: Regularization<u64>) -> u64
    ensures { result ≡ Records.regularization_value regularization }
{
    match regularization {
        Regularization::Unregularized => 0,
        Regularization::Ridge(bits) => bits,
    }
}

fn asked_kind(asked: Asked) -> usize
    ensures { result ≡ Records.asked_kind asked }
{
    match asked {
        Asked::Covariance => 0,
        Asked::WeightedMean => 1,
        Asked::JamesStein => 2,
        Asked::BayesStein => 3,
    }
}

#[tactic(auto, unfolding(crate::specs::Record::bits_of))]
pub(crate) fn bits_of(q: Question) -> [u64; 3]
    ensures { result ≡ Records.bits_of q }
{
    [
        estimate_value(q.estimate),
        shrinkage_value(q.shrinkage),
        regularization_value(q.regularization),
    ]
}

#[tactic(auto, unfolding(crate::specs::Record::wholes_of))]
pub(crate) fn wholes_of(q: Question) -> [usize; 8]
    ensures { result ≡ Records.wholes_of q }
{
    [
        q.assets,
        q.periods,
        estimate_kind(q.estimate),
        shrinkage_kind(q.shrinkage),
        regularization_kind(q.regularization),
        usize::from(q.limit.is_some()),
        q.limit.unwrap_or(0),
        asked_kind(q.asked),
    ]
}
