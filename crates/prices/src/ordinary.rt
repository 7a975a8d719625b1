// Ordinary prices, from 1e-150 to 1e150: of those none is refused, and no quotient of two is infinite.
ghost use Rattle.std.specs.Prelude.{◌≡◌};
ghost use Rattle.prices.specs.Ordinary as Ordinary;

#[tactic(auto, unfolding(crate::specs::Ordinary::ordinary))]
fn is_ordinary(x: f64) -> bool
    ensures { result ≡ Ordinary.ordinary x }
{
    1e-150 <= x && x <= 1e150
}

pub(crate) fn all_ordinary(prices: &[f64]) -> bool
    ensures { result ≡ Ordinary.all_ordinary prices.now }
{
    prices.iter().all(|price| is_ordinary(*price))
}
