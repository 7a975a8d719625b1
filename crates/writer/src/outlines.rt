// The outline of the file that a question would have: of each kind how many records, and the first body.
ghost use Rattle.std.specs.Prelude.{◌≡◌, ◌≤◌, length, option_to_list};
ghost use Rattle.paper.specs.Grammar.{file_assets, file_periods};
ghost use Rattle.paper.specs.Rules as Rules;
ghost use Rattle.paper.specs.Question.{contents};
ghost use Rattle.writer.specs.Bodies as Bodies;

use paper::format::Outline;
use paper::question::{Asked, Question};
use rules::{Decay, Estimate, Regularization, Shrinkage, Target};

fn ridge(regularization: Regularization<u64>) -> Option<u64>
    ensures { option_to_list result ≡ Bodies.ridge regularization }
{
    match regularization {
        Regularization::Ridge(bits) => Some(bits),
        Regularization::Unregularized => None,
    }
}

fn fixed(shrinkage: Shrinkage<u64>) -> Option<u64>
    ensures { option_to_list result ≡ Bodies.fixed shrinkage }
{
    match shrinkage {
        Shrinkage::Fixed(bits) => Some(bits),
        _ => None,
    }
}

fn target(shrinkage: Shrinkage<u64>) -> Option<u64>
    ensures { option_to_list result ≡ Bodies.target shrinkage }
{
    match shrinkage {
        Shrinkage::LedoitWolf(Target::ConstantVariance) => Some(0),
        Shrinkage::LedoitWolf(Target::ConstantCorrelation) => Some(1),
        _ => None,
    }
}

fn half_life(estimate: Estimate<u64>) -> Option<u64>
    ensures { option_to_list result ≡ Bodies.half_life estimate }
{
    match estimate {
        Estimate::Weighted(Decay::HalfLife(bits)) => Some(bits),
        _ => None,
    }
}

fn semi(estimate: Estimate<u64>) -> Option<u64>
    ensures { option_to_list result ≡ Bodies.semi estimate }
{
    match estimate {
        Estimate::Semi => Some(0),
        _ => None,
    }
}

fn threshold(estimate: Estimate<u64>) -> Option<u64>
    ensures { option_to_list result ≡ Bodies.threshold estimate }
{
    match estimate {
        Estimate::SemiBelow(bits) => Some(bits),
        _ => None,
    }
}

fn factor(estimate: Estimate<u64>) -> Option<u64>
    ensures { option_to_list result ≡ Bodies.factor estimate }
{
    match estimate {
        Estimate::Weighted(Decay::Lambda(bits)) => Some(bits),
        _ => None,
    }
}

fn sweeps(limit: Option<usize>) -> Option<u64>
    ensures { option_to_list result ≡ Bodies.sweeps limit }
{
    limit.map(|limit| limit as u64)
}

// How many records a kind has that comes once at most, and the first body, 0 where there is none.
fn count(body: Option<u64>) -> u64
    ensures { result ≡ length (option_to_list body) }
{
    body.is_some() as u64
}

fn body_or_zero(body: Option<u64>) -> u64
    ensures { result ≡ Rules.first_of (option_to_list body) }
{
    body.unwrap_or(0)
}

fn asked_number(asked: Asked) -> u64
    ensures { result ≡ Bodies.asked_number asked }
{
    asked as u64
}

// The first number of a slice, 0 where there is none.
fn first(numbers: &[u64]) -> u64
    ensures { result ≡ Rules.first_of numbers.now }
{
    numbers.first().copied().unwrap_or(0)
}

pub(crate) fn outline_of(q: Question, returns: &[u64], given: &[u64]) -> Outline
    requires { (q.assets ≤ file_assets) × (q.periods ≤ file_periods) }
    ensures { result ≡ Rules.outline (Bodies.bodies (contents q returns.now given.now)) }
{
    let ridge = ridge(q.regularization);
    let fixed = fixed(q.shrinkage);
    let target = target(q.shrinkage);
    let half_life = half_life(q.estimate);
    let semi = semi(q.estimate);
    let threshold = threshold(q.estimate);
    let sweeps = sweeps(q.limit);
    let factor = factor(q.estimate);
    Outline {
        counts: [
            1,
            returns.len() as u64,
            count(ridge),
            count(fixed),
            count(target),
            count(half_life),
            count(semi),
            count(threshold),
            given.len() as u64,
            count(sweeps),
            count(factor),
            1,
        ],
        firsts: [
            q.assets as u64 + 65536 * q.periods as u64,
            first(returns),
            body_or_zero(ridge),
            body_or_zero(fixed),
            body_or_zero(target),
            body_or_zero(half_life),
            body_or_zero(semi),
            body_or_zero(threshold),
            first(given),
            body_or_zero(sweeps),
            body_or_zero(factor),
            asked_number(q.asked),
        ],
    }
}
