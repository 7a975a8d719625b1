// Returns from prices, with C linkage (include/engine.h).
ghost use Rattle.std.specs.Prelude.{◌≡◌};
ghost use Rattle.capi.specs.Report as Reports;
ghost use Rattle.capi.specs.Calls as Calls;
ghost use Rattle.capi.specs.Returns as Returns;

#[unsafe(no_mangle)]
pub extern "C" fn engine_returns_from_prices(
    prices: &[f64],
    assets: usize,
    rows: usize,
    returns: &mut [f64],
    numbers: &mut [f64; 2],
    wholes: &mut [usize; 2],
) -> u32
    ensures { Calls.left (Reports.handed result numbers.new wholes.new) returns.new ≡ Returns.engine_returns_from_prices prices.now assets rows returns.old }
{
    capi::returns::engine_returns_from_prices(prices, assets, rows, returns, numbers, wholes)
}
