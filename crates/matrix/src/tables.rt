// Matrices stored whole: copied, averaged, divided, made and transposed.
ghost use Rattle.std.specs.Prelude.{◌≡◌, ℕ, ◌*◌, length};
ghost use Rattle.leaves.specs.Numbers.{◌⊗◌, zero⁺};
ghost use Rattle.leaves.specs.Loops.{tab};
ghost use Rattle.matrix.specs.Matrix.{at, rows, identity, averaged, divided};
ghost use Rattle.matrix.specs.Inner.{by_columns};

use crate::entries::get;

pub fn copy(xs: &[f64], out: &mut [f64])
    requires { length xs.now ≡ length out.old }
    ensures { out.new ≡ xs.now }
{
    out.copy_from_slice(xs);
}

// The average with the transpose.
pub fn average(a: &[f64], n: usize, out: &mut [f64])
    requires { (length a.now ≡ n * n) × (length out.old ≡ n * n) }
    ensures { out.new ≡ rows n n (averaged (at a.now n)) }
{
    for (k, y) in out.iter_mut().enumerate() {
        let i = k / n;
        let j = k % n;
        *y = (get(a, n, i, j) + get(a, n, j, i)) / 2.0;
    }
}

// Every entry over a number.
pub fn divide(a: &[f64], n: usize, scale: f64, out: &mut [f64])
    requires { (length a.now ≡ n * n) × (length out.old ≡ n * n) }
    ensures { out.new ≡ rows n n (divided (at a.now n) scale) }
{
    for (k, y) in out.iter_mut().enumerate() {
        *y = a[k] / scale;
    }
}

fn identity_entry(i: usize, j: usize) -> f64
    ensures { result ≡ identity i j }
{
    if i == j { 1.0 } else { 0.0 }
}

pub fn put_identity(out: &mut [f64], n: usize)
    requires { length out.old ≡ n * n }
    ensures { out.new ≡ rows n n identity }
{
    for (k, y) in out.iter_mut().enumerate() {
        *y = identity_entry(k / n, k % n);
    }
}

// The diagonal, times a number.
pub(crate) fn put_diagonal(a: &[f64], n: usize, scale: f64, out: &mut [f64])
    requires { (length a.now ≡ n * n) × (length out.old ≡ n) }
    ensures { out.new ≡ tab n (λ (i : ℕ). at a.now n i i ⊗ scale) }
{
    for (i, y) in out.iter_mut().enumerate() {
        *y = get(a, n, i, i) * scale;
    }
}

fn put_transpose(a: &[f64], n: usize, out: &mut [f64])
    requires { (length a.now ≡ n * n) × (length out.old ≡ n * n) }
    ensures { out.new ≡ by_columns n a.now }
{
    for (k, y) in out.iter_mut().enumerate() {
        *y = get(a, n, k % n, k / n);
    }
}

// The transpose in place of the matrix, with `work` to reckon in.
pub(crate) fn flip(a: &mut [f64], n: usize, work: &mut [f64])
    requires { (length a.old ≡ n * n) × (length work.old ≡ n * n) }
    ensures { a.new ≡ by_columns n a.old }
{
    put_transpose(a, n, work);
    copy(work, a);
}
