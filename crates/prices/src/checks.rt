// The prices, refusals 5, 16 and, for the returns, 5 again.
ghost use Rattle.std.specs.Prelude.{◌≡◌, ◌*◌, ◌-◌, ◌<◌, length};
ghost use Rattle.matrix.specs.Matrix.{at};
ghost use Rattle.rules.specs.Refusals as Refusals;
ghost use Rattle.rules.specs.Order.{not_finite};
ghost use Rattle.rules.specs.Prices.{simple_returns, non_positive, by_prices};
ghost use Rattle.inputs.specs.Checks.{checked};

use crate::ordinary::all_ordinary;
use crate::returns::return_at;
use inputs::entries::check_finite;
use rules::Refusal;

// The prices of all assets in the first row, then those in the second, and so on.
#[derive(Clone, Copy)]
pub(crate) struct PriceTable<'a> {
    pub numbers: &'a [f64],
    pub rows: usize,
    pub assets: usize,
    pub ghost whole: { length numbers.now ≡ rows * assets },
    pub ghost some: { 0 < rows },
}

impl<'a> PriceTable<'a> {
    // The first price that is zero or negative.
    fn check_positive(&self) -> Result<(), Refusal>
        ensures { checked result ≡ non_positive self.now.rows self.now.assets (at self.now.numbers.now self.now.assets) }
    {
        match self.numbers.iter().position(|price| *price <= 0.0) {
            Some(k) => Err(Refusal::NonPositivePrice(k / self.assets, k % self.assets)),
            None => Ok(()),
        }
    }

    // The first return that is not finite, at its row and column among the returns.
    // By index: a return is of two prices, one row apart.
    fn check_returns(&self) -> Result<(), Refusal>
        ensures { checked result ≡ not_finite (self.now.rows - 1) self.now.assets (simple_returns (at self.now.numbers.now self.now.assets)) }
    {
        let n = self.assets;
        let size = self.numbers.len() - n;
        for k in 0..size {
            if !leaves::numbers::is_finite(return_at(self.numbers, n, k)) {
                return Err(Refusal::NotFinite(k / n, k % n));
            }
        }
        Ok(())
    }

    // Where all prices are ordinary, one look at them is enough, and no return is computed for it.
    pub(crate) fn check(&self) -> Result<(), Refusal>
        ensures { checked result ≡ Refusals.first (by_prices self.now.rows self.now.assets (at self.now.numbers.now self.now.assets)) }
    {
        if all_ordinary(self.numbers) {
            return Ok(());
        }
        check_finite(self.numbers, self.rows, self.assets)?;
        self.check_positive()?;
        self.check_returns()
    }
}
