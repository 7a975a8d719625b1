// The first place in a matrix, row by row, where something holds.
ghost use Rattle.std.specs.Prelude.{◌≡◌, ◌*◌, length};
ghost use Rattle.matrix.specs.Matrix as Matrix;
ghost use Rattle.matrix.specs.Matrix.{at};
ghost use Rattle.matrix.specs.Places.{placed};

use crate::entries::get;

// The first entry of an m × n matrix that is NaN or infinite, as a row and a column.
pub fn first_not_finite(a: &[f64], m: usize, n: usize) -> Option<(usize, usize)>
    requires { length a.now ≡ m * n }
    ensures { placed result ≡ Matrix.first_not_finite m n (at a.now n) }
{
    let k = a.iter().position(|x| !leaves::numbers::is_finite(*x))?;
    Some((k / n, k % n))
}

pub fn all_finite(a: &[f64], m: usize, n: usize) -> bool
    requires { length a.now ≡ m * n }
    ensures { result ≡ Matrix.all_finite m n (at a.now n) }
{
    first_not_finite(a, m, n).is_none()
}

// The first entry that differs from its transpose by more than the tolerance.
// By index: an entry is compared with one that stands elsewhere.
pub fn first_asymmetric(a: &[f64], n: usize, tolerance: f64) -> Option<(usize, usize)>
    requires { length a.now ≡ n * n }
    ensures { placed result ≡ Matrix.first_asymmetric n tolerance (at a.now n) }
{
    for k in 0..a.len() {
        let i = k / n;
        let j = k % n;
        if tolerance < leaves::numbers::abs(get(a, n, i, j) - get(a, n, j, i)) {
            return Some((i, j));
        }
    }
    None
}
