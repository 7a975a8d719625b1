// The sum and the largest size of a slice's numbers.
ghost use Rattle.std.specs.Prelude.{◌≡◌, length};
ghost use Rattle.leaves.specs.Loops as Loops;

use crate::numbers::{abs, larger};

// The sum in rising index, from +0.
pub fn sum(xs: &[f64]) -> f64
    ensures { result ≡ Loops.sum_to (length xs.now) (Loops.nth xs.now) }
{
    let mut t = 0.0;
    for x in xs {
        t = t + *x;
    }
    t
}

// The largest size, NaN passed over, from +0.
pub fn amax(xs: &[f64]) -> f64
    ensures { result ≡ Loops.amax_to (length xs.now) (Loops.nth xs.now) }
{
    let mut t = 0.0;
    for x in xs {
        t = larger(t, abs(*x));
    }
    t
}
