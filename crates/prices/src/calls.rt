// The call of document 02's Paper 4. Nothing is written to the return slice before the last refusal is decided.
ghost use Rattle.std.specs.Prelude.{◌≡◌, ◌++◌, length};
ghost use Rattle.matrix.specs.Matrix.{at};
ghost use Rattle.rules.specs.Refusals as Refusals;
ghost use Rattle.rules.specs.Prices as Prices;
ghost use Rattle.rules.specs.Prices.{by_price_shape, by_prices, converted};
ghost use Rattle.inputs.specs.Checks.{checked};

use crate::checks::PriceTable;
use crate::returns::write_returns;
use crate::shape::check_shape;
use rules::Refusal;

// All refusals in their order, for a return slice of `room` numbers.
fn check(prices: &[f64], n: usize, rows: usize, room: usize) -> Result<(), Refusal>
    ensures { checked result ≡ Refusals.first (by_price_shape (length prices.now) n rows room ++ by_prices rows n (at prices.now n)) }
{
    check_shape(prices.len(), n, rows, room)?;
    let table = PriceTable {
        numbers: prices,
        rows,
        assets: n,
    };
    table.check()
}

// The returns of n assets, from `rows` rows of prices: (rows - 1) * n numbers, row by row.
pub fn returns_from_prices(
    prices: &[f64],
    n: usize,
    rows: usize,
    returns: &mut [f64],
) -> Result<(), Refusal>
    ensures { converted (checked result) returns.new ≡ Prices.returns_from_prices prices.now n rows returns.old }
{
    check(prices, n, rows, returns.len())?;
    let size = (rows - 1) * n;
    write_returns(prices, n, &mut returns[..size]);
    Ok(())
}
