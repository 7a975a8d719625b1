// The shapes and lengths of a call, refusals 1 to 4.
ghost use Rattle.std.specs.Prelude.{◌≡◌, ◌^◌, ◌<◌, ◌≤◌};
ghost use Rattle.matrix.specs.Limits.{max_side};
ghost use Rattle.rules.specs.Refusals as Refusals;
ghost use Rattle.rules.specs.Order.{by_shape};
ghost use Rattle.inputs.specs.Checks.{checked};
ghost use Rattle.inputs.specs.Opening as Opening;

use crate::checks::when;
use rules::Refusal;

// What a call's answer fills: an n × n table, n numbers, or nothing.
#[derive(Clone, Copy)]
pub enum AnswerShape {
    Table,
    Vector,
    Nothing,
}

// The numbers that the answer slice needs.
fn needed(filled: AnswerShape, n: usize) -> usize
    requires { n ≤ max_side }
    ensures { result ≡ Opening.needed filled n }
{
    match filled {
        AnswerShape::Table => n * n,
        AnswerShape::Vector => n,
        AnswerShape::Nothing => 0,
    }
}

// Refusals 1 to 4 of a table of `rows` rows with n numbers, of which there are at least `least` and at most `most`.
#[tactic(auto, unfolding(rules::specs::Refusals::first))]
pub fn check_table(
    length: usize,
    n: usize,
    rows: usize,
    least: usize,
    most: usize,
) -> Result<(), Refusal>
    requires { most < 2 ^ 32 }
    ensures { checked result ≡ Refusals.first (Opening.by_table length n rows least most) }
{
    if n == 0 {
        return Err(Refusal::NoAssets);
    }
    if n > matrix::MAX_SIDE {
        return Err(Refusal::TooLarge);
    }
    if rows > most {
        return Err(Refusal::TooLarge);
    }
    if rows < least {
        return Err(Refusal::TooFewPeriods(rows));
    }
    when(length != rows * n, Refusal::WrongLength)
}

// Refusals 1 to 4, for a return slice of `length` numbers and an answer slice of `room`.
pub fn check_shape(
    length: usize,
    n: usize,
    periods: usize,
    filled: AnswerShape,
    room: usize,
) -> Result<(), Refusal>
    ensures { checked result ≡ Refusals.first (by_shape length n periods (Opening.needed filled n) room) }
{
    check_table(length, n, periods, rules::MIN_PERIODS, rules::MAX_PERIODS)?;
    when(room < needed(filled, n), Refusal::WrongLength)
}
