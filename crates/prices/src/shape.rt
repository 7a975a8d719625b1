// The shape and the lengths of the call, refusals 1 to 4.
ghost use Rattle.std.specs.Prelude.{◌≡◌};
ghost use Rattle.rules.specs.Refusals as Refusals;
ghost use Rattle.rules.specs.Prices.{by_price_shape};
ghost use Rattle.inputs.specs.Checks.{checked};

use inputs::checks::when;
use inputs::shapes::check_table;
use rules::Refusal;

// For a price slice of `length` numbers and a return slice of `room`.
pub(crate) fn check_shape(length: usize, n: usize, rows: usize, room: usize) -> Result<(), Refusal>
    ensures { checked result ≡ Refusals.first (by_price_shape length n rows room) }
{
    check_table(
        length,
        n,
        rows,
        crate::MIN_PRICE_ROWS,
        crate::MAX_PRICE_ROWS,
    )?;
    when(room < (rows - 1) * n, Refusal::WrongLength)
}
