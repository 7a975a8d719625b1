// Sums and largest sizes of the columns of a matrix's rows, with the period outermost.
ghost use Rattle.std.specs.Prelude.{◌≡◌, ℕ, length, Float};
ghost use Rattle.leaves.specs.Numbers.{zero⁺};
ghost use Rattle.leaves.specs.Loops.{loop, sum_to, amax_to, tab};
ghost use Rattle.tables.specs.Rows.{matrix_of};

use crate::returns::Rows;
use crate::vectors;
use leaves::numbers::{abs, larger};

// Each column folded by f from +0 on, the first period first.
fn fold<F: Fn(f64, f64) -> f64>(z: &Rows, f: F, out: &mut [f64])
    requires { F.IsAlwaysCallable f × (length out.old ≡ z.now.returns.assets) }
    ensures { (g : Float → Float → Float) → ((v x y : Float) → F.post f v x y → y ≡ g v x) → out.new ≡ tab z.now.returns.assets (λ (i : ℕ). loop z.now.returns.periods (λ (t : ℕ) (v : Float). g v (matrix_of z.now t i)) zero⁺) }
{
    let mut d = [0.0; matrix::MAX_SIDE];
    vectors::fill(0.0, out);
    for t in 0..z.returns.periods {
        z.form(t, &mut d);
        for k in 0..out.len() {
            out[k] = f(out[k], d[k]);
        }
    }
}

// Each column's sum.
pub fn sum(z: &Rows, out: &mut [f64])
    requires { length out.old ≡ z.now.returns.assets }
    ensures { out.new ≡ tab z.now.returns.assets (λ (i : ℕ). sum_to z.now.returns.periods (λ (t : ℕ). matrix_of z.now t i)) }
{
    fold(z, |s, x| s + x, out);
}

// Each column's largest number in size.
pub fn amax(z: &Rows, out: &mut [f64])
    requires { length out.old ≡ z.now.returns.assets }
    ensures { out.new ≡ tab z.now.returns.assets (λ (i : ℕ). amax_to z.now.returns.periods (λ (t : ℕ). matrix_of z.now t i)) }
{
    fold(z, |m, x| larger(m, abs(x)), out);
}
