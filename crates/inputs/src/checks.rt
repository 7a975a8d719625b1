// The answer of one check: a function that makes several returns the first refusal by `?`.
ghost use Rattle.std.specs.Prelude.{◌≡◌};
ghost use Rattle.rules.specs.Refusals as Refusals;
ghost use Rattle.inputs.specs.Checks.{checked};

use rules::Refusal;

pub fn when(bad: bool, refusal: Refusal) -> Result<(), Refusal>
    ensures { checked result ≡ Refusals.when bad refusal }
{
    if bad { Err(refusal) } else { Ok(()) }
}
