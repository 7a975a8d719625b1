// The square root, correctly rounded.
ghost use Rattle.std.specs.Prelude.{◌≡◌};
ghost use Rattle.leaves.specs.Root as Root;

pub fn sqrt(x: f64) -> f64
    ensures { result ≡ Root.sqrt x }
{
    x.sqrt()
}
