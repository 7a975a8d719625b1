// The target that a number stands for. Not a TryFrom: its caller has tested the number with the others of its record.
ghost use Rattle.std.specs.Prelude.{◌≡◌};
ghost use Rattle.rules.specs.Settings.{target_of};

use crate::Target;

#[tactic(auto, unfolding(crate::specs::Settings::target_of))]
pub fn target(number: u64) -> Target
    ensures { result ≡ target_of number }
{
    if number == 0 {
        Target::ConstantVariance
    } else {
        Target::ConstantCorrelation
    }
}
