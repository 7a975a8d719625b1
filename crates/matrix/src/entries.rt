// One entry of a square matrix, and the largest and the smallest of many.
ghost use Rattle.std.specs.Prelude.{◌≡◌, ◌+◌, ◌*◌, ◌<◌, length, set};
ghost use Rattle.leaves.specs.Loops as Loops;
ghost use Rattle.matrix.specs.Matrix as Matrix;
ghost use Rattle.matrix.specs.Matrix.{at};

use leaves::numbers::{larger, smaller};

pub(crate) fn get(a: &[f64], n: usize, i: usize, j: usize) -> f64
    requires { (i < n) × (j < n) × (length a.now ≡ n * n) }
    ensures { result ≡ at a.now n i j }
{
    a[i * n + j]
}

pub(crate) fn put(a: &mut [f64], n: usize, i: usize, j: usize, x: f64)
    requires { (i < n) × (j < n) × (length a.old ≡ n * n) }
    ensures { a.new ≡ set a.old (i * n + j) x }
{
    a[i * n + j] = x;
}

// The largest size of the entries of an m × n matrix, NaN passed over.
pub fn amax(a: &[f64], m: usize, n: usize) -> f64
    requires { length a.now ≡ m * n }
    ensures { result ≡ Matrix.amax m n (at a.now n) }
{
    leaves::sums::amax(a)
}

// The largest and the smallest number: the first, replaced by a strictly larger or smaller one.
pub fn largest(values: &[f64]) -> f64
    requires { 0 < length values.now }
    ensures { result ≡ Loops.max_to (length values.now) (Loops.nth values.now) }
{
    values.iter().copied().fold(values[0], larger)
}

pub fn smallest(values: &[f64]) -> f64
    requires { 0 < length values.now }
    ensures { result ≡ Loops.min_to (length values.now) (Loops.nth values.now) }
{
    values.iter().copied().fold(values[0], smaller)
}
