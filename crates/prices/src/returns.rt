// The returns of prices that stand row by row, n in a row: number k of them is of the prices k + n and k.
ghost use Rattle.std.specs.Prelude.{◌≡◌, ◌+◌, ◌<◌, length};
ghost use Rattle.leaves.specs.Loops.{tab};
ghost use Rattle.prices.specs.Stored.{return_at};

#[tactic(auto, unfolding(crate::specs::Stored::return_at))]
pub(crate) fn return_at(prices: &[f64], n: usize, k: usize) -> f64
    requires { k + n < length prices.now }
    ensures { result ≡ return_at prices.now n k }
{
    prices[k + n] / prices[k] - 1.0
}

pub(crate) fn write_returns(prices: &[f64], n: usize, out: &mut [f64])
    requires { length prices.now ≡ length out.old + n }
    ensures { out.new ≡ tab (length out.old) (return_at prices.now n) }
{
    for k in 0..out.len() {
        out[k] = return_at(prices, n, k);
    }
}
