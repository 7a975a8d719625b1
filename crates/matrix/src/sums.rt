// Sums over a square matrix, from +0, row by row.
ghost use Rattle.std.specs.Prelude.{◌≡◌, ◌*◌, ◌<◌, ltb, length};
ghost use Rattle.matrix.specs.Matrix as Matrix;
ghost use Rattle.matrix.specs.Matrix.{at, squared, sum_row};
ghost use Rattle.matrix.specs.Jacobi as Jacobi;

use crate::entries::get;

// The sum of the diagonal.
pub fn trace(a: &[f64], n: usize) -> f64
    requires { length a.now ≡ n * n }
    ensures { result ≡ Matrix.trace n (at a.now n) }
{
    let mut s = 0.0;
    for i in 0..n {
        s = s + get(a, n, i, i);
    }
    s
}

// The sum of all entries.
pub fn total(a: &[f64], n: usize) -> f64
    requires { length a.now ≡ n * n }
    ensures { result ≡ Matrix.total n (at a.now n) }
{
    leaves::sums::sum(a)
}

// The sum of their squares.
pub fn squares(a: &[f64], n: usize) -> f64
    requires { length a.now ≡ n * n }
    ensures { result ≡ Matrix.squares n (at a.now n) }
{
    let mut s = 0.0;
    for x in a {
        s = s + *x * *x;
    }
    s
}

// The squares of row p right of the diagonal, added to `sum`.
fn off_row(a: &[f64], n: usize, p: usize, sum: f64) -> f64
    requires { (p < n) × (length a.now ≡ n * n) }
    ensures { result ≡ sum_row n ltb (squared (at a.now n)) p sum }
{
    let mut s = sum;
    for q in p + 1..n {
        let x = get(a, n, p, q);
        s = s + x * x;
    }
    s
}

// The sum of squares above the diagonal.
pub fn off_diagonal(a: &[f64], n: usize) -> f64
    requires { length a.now ≡ n * n }
    ensures { result ≡ Jacobi.off_diagonal n (at a.now n) }
{
    let mut s = 0.0;
    for p in 0..n {
        s = off_row(a, n, p, s);
    }
    s
}
