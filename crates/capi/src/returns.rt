// Returns from prices (include/engine.h).
ghost use Rattle.std.specs.Prelude.{◌≡◌};
ghost use Rattle.inputs.specs.Checks.{checked};
ghost use Rattle.capi.specs.Report as Reports;
ghost use Rattle.capi.specs.Calls as Calls;
ghost use Rattle.capi.specs.Returns as Returns;

use crate::report::{Report, hand_out, refused, reported};
use rules::Refusal;

fn report_of_check(check: Result<(), Refusal>) -> Report
    ensures { result ≡ Returns.report_of_check (checked check) }
{
    match check {
        Ok(()) => reported(0, 0.0, 0.0, 0, 0),
        Err(refusal) => refused(refusal),
    }
}

#[tactic(auto, unfolding(crate::specs::Returns::engine_returns_from_prices))]
pub fn engine_returns_from_prices(
    prices: &[f64],
    assets: usize,
    rows: usize,
    returns: &mut [f64],
    numbers: &mut [f64; 2],
    wholes: &mut [usize; 2],
) -> u32
    ensures { Calls.left (Reports.handed result numbers.new wholes.new) returns.new ≡ Returns.engine_returns_from_prices prices.now assets rows returns.old }
{
    let told = prices::calls::returns_from_prices(prices, assets, rows, returns);
    hand_out(report_of_check(told), numbers, wholes)
}
