// The question record, between the reader and the marking, and what a file says in its terms. A number is its 64 bits, so that a NaN keeps its own.
ghost use Rattle.std.specs.Prelude.{◌≡◌, ◌≤◌};
ghost use Rattle.paper.specs.Grammar.{file_assets};
ghost use Rattle.paper.specs.Question as Questions;

use crate::format::{Outline, assets, has, periods, value};
use crate::kinds::KindName;
use rules::targets::target;
use rules::{Decay, Estimate, Regularization, Shrinkage};

// What is asked for.
#[derive(Clone, Copy)]
pub enum Asked {
    Covariance,
    WeightedMean,
    JamesStein,
    BayesStein,
}

// The returns and the given entries stand in slices beside it. A missing limit is marked as the largest one, and is written as missing.
#[derive(Clone, Copy)]
pub struct Question {
    pub assets: usize,
    pub periods: usize,
    pub estimate: Estimate<u64>,
    pub shrinkage: Shrinkage<u64>,
    pub regularization: Regularization<u64>,
    pub limit: Option<usize>,
    pub asked: Asked,
}

#[tactic(auto, unfolding(crate::specs::Question::estimate_in))]
fn estimate_in(o: Outline) -> Estimate<u64>
    ensures { result ≡ Questions.estimate_in o }
{
    if has(o, KindName::HalfLife) {
        return Estimate::Weighted(Decay::HalfLife(value(o, KindName::HalfLife)));
    }
    if has(o, KindName::DecayFactor) {
        return Estimate::Weighted(Decay::Lambda(value(o, KindName::DecayFactor)));
    }
    if has(o, KindName::Semi) {
        return Estimate::Semi;
    }
    if has(o, KindName::SemiThreshold) {
        return Estimate::SemiBelow(value(o, KindName::SemiThreshold));
    }
    if has(o, KindName::GivenEntry) {
        return Estimate::Given;
    }
    Estimate::Sample
}

#[tactic(auto, unfolding(crate::specs::Question::shrinkage_in))]
fn shrinkage_in(o: Outline) -> Shrinkage<u64>
    ensures { result ≡ Questions.shrinkage_in o }
{
    if has(o, KindName::FixedShrinkage) {
        return Shrinkage::Fixed(value(o, KindName::FixedShrinkage));
    }
    if has(o, KindName::Target) {
        return Shrinkage::LedoitWolf(target(value(o, KindName::Target)));
    }
    Shrinkage::Unshrunk
}

#[tactic(auto, unfolding(crate::specs::Question::regularization_in))]
fn regularization_in(o: Outline) -> Regularization<u64>
    ensures { result ≡ Questions.regularization_in o }
{
    if has(o, KindName::Regularization) {
        return Regularization::Ridge(value(o, KindName::Regularization));
    }
    Regularization::Unregularized
}

#[tactic(auto, unfolding(crate::specs::Question::limit_in))]
fn limit_in(o: Outline) -> Option<usize>
    ensures { result ≡ Questions.limit_in o }
{
    if has(o, KindName::SweepLimit) {
        return Some(value(o, KindName::SweepLimit) as usize);
    }
    None
}

// What a question's number stands for. Not a TryFrom: the rules have tested the number.
#[tactic(auto, unfolding(crate::specs::Question::asked_of))]
pub fn asked_of(number: u64) -> Asked
    ensures { result ≡ Questions.asked_of number }
{
    match number {
        0 => Asked::Covariance,
        1 => Asked::WeightedMean,
        2 => Asked::JamesStein,
        _ => Asked::BayesStein,
    }
}

#[tactic(auto, unfolding(crate::specs::Question::question_in))]
pub(crate) fn question_in(o: Outline) -> Question
    ensures { result ≡ Questions.question_in o }
{
    Question {
        assets: assets(o) as usize,
        periods: periods(o) as usize,
        estimate: estimate_in(o),
        shrinkage: shrinkage_in(o),
        regularization: regularization_in(o),
        limit: limit_in(o),
        asked: asked_of(value(o, KindName::Question)),
    }
}

// How many given entries stand beside a record.
#[tactic(auto, unfolding(crate::specs::Question::given_count))]
pub fn given_count(q: Question) -> usize
    requires { q.assets ≤ file_assets }
    ensures { result ≡ Questions.given_count q }
{
    if q.estimate.is_given() {
        q.assets * q.assets
    } else {
        0
    }
}
