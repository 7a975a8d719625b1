// One Jacobi rotation (eigen.rs, `rotate`) of a symmetric A where V is stored column by column: its two columns lie along memory.
ghost use Rattle.std.specs.Prelude.{◌≡◌, ℕ, ◌*◌, ◌<◌, length};
ghost use Rattle.matrix.specs.Rotation as Rotation;
ghost use Rattle.matrix.specs.Inner.{state, counted, by_columns, Symmetric};

use crate::rotation::{angle_at, turn_rows};
use crate::symmetric::turn_symmetric;

// As `rotation::rotate`, with V's columns in v.
pub(crate) fn rotate(a: &mut [f64], v: &mut [f64], n: usize, p: usize, q: usize) -> bool
    requires { (p < q) × (q < n) × (length a.old ≡ n * n) × (length v.old ≡ n * n) × Symmetric n a.old }
    ensures { (k : ℕ) → state a.new (by_columns n v.new) (counted result k) ≡ Rotation.rotate n p q (state a.old (by_columns n v.old) k) }
{
    match angle_at(a, n, p, q) {
        None => false,
        Some((c, s)) => {
            turn_symmetric(a, n, p, q, c, s);
            turn_rows(v, n, p, q, c, s);
            true
        }
    }
}
