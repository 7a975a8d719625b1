// The engine's answer to a question, printed.
ghost use Rattle.std.specs.Prelude.{◌≡◌, ◌*◌, ◌≤◌, length};
ghost use Rattle.rules.specs.Calls as Calls;
ghost use Rattle.paper.specs.Text.{out as into, write};
ghost use Rattle.paper.specs.Answer.{outcome_text};
ghost use Rattle.paper.specs.Grammar.{file_assets, file_periods};
ghost use Rattle.paper.specs.Question.{contents};
ghost use Rattle.paper.specs.Marking as Marking;

use crate::answer::{Entries, put_answer};
use crate::floats::fill_floats;
use crate::kinds::{ENTRIES, RETURNS};
use crate::question::{Asked, Question};
use crate::settings::{decay, limit, settings};
use estimators::calls::{
    adjusted_covariance, bayes_stein_mean, exponentially_weighted_mean, james_stein_mean,
};
use rules::{Answer, Refusal};

// The engine's answer to a question, with the answer slice.
fn ask(q: Question, returns: &[f64], given: &[f64], slice: &mut [f64]) -> Result<Answer, Refusal>
    ensures { Calls.answered result slice.new ≡ Marking.asked q returns.now given.now slice.old }
{
    let n = q.assets;
    let t = q.periods;
    match q.asked {
        Asked::Covariance => adjusted_covariance(returns, n, t, settings(q), given, n, slice),
        Asked::WeightedMean => exponentially_weighted_mean(returns, n, t, decay(q.estimate), slice),
        Asked::JamesStein => james_stein_mean(returns, n, t, limit(q.limit), slice),
        Asked::BayesStein => bayes_stein_mean(returns, n, t, limit(q.limit), slice),
    }
}

fn columns(asked: Asked, n: usize) -> usize
    ensures { result ≡ Marking.columns asked n }
{
    match asked {
        Asked::Covariance => n,
        _ => 1,
    }
}

fn answer(q: Question, returns: &[f64], given: &[f64], out: &mut [u8]) -> usize
    requires { q.assets ≤ file_assets }
    ensures { into out.new result ≡ write (into out.old 0) (outcome_text (Marking.answer_to q returns.now given.now)) }
{
    let n = q.assets;
    let c = columns(q.asked, n);
    let size = n * c;
    let mut entries = [0.0f64; ENTRIES];
    let slice = &mut entries[..size];
    let a = ask(q, returns, given, slice);
    let e = Entries {
        rows: n,
        columns: c,
        numbers: slice,
    };
    put_answer(a, &e, out, 0)
}

// A question, read.
pub(crate) fn examine(q: Question, returns: &[u64], given: &[u64], out: &mut [u8]) -> usize
    requires { (q.assets ≤ file_assets) × (length returns.now ≤ file_periods * file_assets) × (length given.now ≤ file_assets * file_assets) }
    ensures { into out.new result ≡ write (into out.old 0) (outcome_text (Marking.answer_of (contents q returns.now given.now))) }
{
    let mut numbers = [0.0f64; RETURNS];
    fill_floats(returns, &mut numbers);
    let mut entries = [0.0f64; ENTRIES];
    fill_floats(given, &mut entries);
    answer(q, &numbers[..returns.len()], &entries[..given.len()], out)
}
