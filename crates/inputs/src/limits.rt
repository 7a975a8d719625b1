// The sweep limit, refusal 7 for field 5.
ghost use Rattle.std.specs.Prelude.{◌≡◌};
ghost use Rattle.rules.specs.Order as Order;
ghost use Rattle.inputs.specs.Checks.{checked};

use crate::checks::when;
use rules::{Field, Refusal};

#[tactic(auto, unfolding(rules::specs::Order::bad_sweep_limit))]
pub fn bad_sweep_limit(limit: usize) -> Result<(), Refusal>
    ensures { checked result ≡ Order.bad_sweep_limit limit }
{
    when(
        limit > matrix::MAX_SWEEPS,
        Refusal::BadSetting(Field::SweepLimitField),
    )
}
