// One Jacobi rotation's turn of a matrix that is symmetric to the last bit: rows p and q are turned along memory and copied to the columns.
ghost use Rattle.std.specs.Prelude.{◌≡◌, ◌*◌, ◌<◌, length};
ghost use Rattle.matrix.specs.Matrix.{at, rows};
ghost use Rattle.matrix.specs.Inner.{turned_block, mirrored, Symmetric};
ghost use Rattle.matrix.specs.Rotation.{turned_both};

use crate::entries::{get, put};
use crate::rotation::turn_rows;

// Where the rows, already turned, meet the columns: the columns are turned, with 0 off the diagonal.
fn turn_block(a: &mut [f64], n: usize, p: usize, q: usize, c: f64, s: f64)
    requires { (p < n) × (q < n) × (length a.old ≡ n * n) }
    ensures { a.new ≡ turned_block n p q c s a.old }
{
    let x = c * get(a, n, p, p) - s * get(a, n, p, q);
    let z = s * get(a, n, q, p) + c * get(a, n, q, q);
    put(a, n, p, p, x);
    put(a, n, q, q, z);
    put(a, n, p, q, 0.0);
    put(a, n, q, p, 0.0);
}

// Rows p and q copied to the columns.
fn mirror(a: &mut [f64], n: usize, p: usize, q: usize)
    requires { (p < q) × (q < n) × (length a.old ≡ n * n) × (at a.old n p q ≡ at a.old n q p) }
    ensures { a.new ≡ rows n n (mirrored n p q a.old) }
{
    let pn = p * n;
    let qn = q * n;
    for k in 0..n {
        let base = k * n;
        let x = a[pn + k];
        let y = a[qn + k];
        a[base + p] = x;
        a[base + q] = y;
    }
}

// As `rotation::turn_both`, which takes any matrix and so turns the columns too.
pub(crate) fn turn_symmetric(a: &mut [f64], n: usize, p: usize, q: usize, c: f64, s: f64)
    requires { (p < q) × (q < n) × (length a.old ≡ n * n) × Symmetric n a.old }
    ensures { a.new ≡ turned_both n p q c s a.old }
{
    turn_rows(a, n, p, q, c, s);
    turn_block(a, n, p, q, c, s);
    mirror(a, n, p, q);
}
