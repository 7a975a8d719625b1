// The decomposition of a symmetric matrix by sweeps of Jacobi rotations (eigen.rs, `SymmetricEigen::new` from V = I).
ghost use Rattle.std.specs.Prelude.{◌≡◌, true, false, ℕ, ◌+◌, ◌*◌, ◌<◌, ◌≤◌, T, length};
ghost use Rattle.std.specs.Float.Ieee.{eq};
ghost use Rattle.leaves.specs.Numbers.{◌⊘◌, zero⁺, is_finite};
ghost use Rattle.matrix.specs.Limits.{max_side, max_sweeps};
ghost use Rattle.matrix.specs.Matrix as Matrix;
ghost use Rattle.matrix.specs.Matrix.{at, all_finite};
ghost use Rattle.matrix.specs.Jacobi as Jacobi;
ghost use Rattle.matrix.specs.Inner.{state, counted, swept_to, decomposed, by_columns, Symmetric};

use crate::by_columns::rotate;
use crate::entries::{amax, get};
use crate::places::all_finite;
use crate::sums::{off_diagonal, squares};
use crate::tables;

// ---- sweeps, with V stored column by column in v

// Row p of a sweep. The number of rotations made.
fn sweep_row(a: &mut [f64], v: &mut [f64], n: usize, p: usize) -> usize
    requires { (p < n) × (n ≤ max_side) × (length a.old ≡ n * n) × (length v.old ≡ n * n) × Symmetric n a.old }
    ensures { (k : ℕ) → state a.new (by_columns n v.new) (k + result) ≡ Jacobi.sweep_row n p (state a.old (by_columns n v.old) k) }
{
    let mut rotations = 0;
    for q in p + 1..n {
        rotations += usize::from(rotate(a, v, n, p, q));
    }
    rotations
}

// Every p and q > p, row by row. The number of rotations made.
fn sweep(a: &mut [f64], v: &mut [f64], n: usize) -> usize
    requires { (n ≤ max_side) × (length a.old ≡ n * n) × (length v.old ≡ n * n) × Symmetric n a.old }
    ensures { (k : ℕ) → state a.new (by_columns n v.new) (k + result) ≡ Jacobi.sweep n (state a.old (by_columns n v.old) k) }
{
    let mut rotations = 0;
    for p in 0..n {
        rotations += sweep_row(a, v, n, p);
    }
    rotations
}

// No Option: the rules give the sweeps and rotations also where nothing is found.
#[derive(Clone, Copy)]
pub struct Outcome {
    pub found: bool,
    pub sweeps: usize,
    pub rotations: usize,
}

// Sweeps until the numbers off the diagonal are small, at most `limit` times.
fn sweeping(a: &mut [f64], v: &mut [f64], n: usize, limit: usize, tolerance: f64) -> Outcome
    requires { (n ≤ max_side) × (limit ≤ max_sweeps) × (length a.old ≡ n * n) × (length v.old ≡ n * n) × Symmetric n a.old }
    ensures { swept_to result.found result.sweeps (state a.new (by_columns n v.new) result.rotations) ≡ Jacobi.sweeping limit n tolerance (state a.old (by_columns n v.old) 0) }
{
    let mut rotations = 0;
    for k in 0..limit {
        let s = off_diagonal(a, n);
        if s.is_nan() {
            return Outcome {
                found: false,
                sweeps: k,
                rotations,
            };
        }
        if leaves::root::sqrt(2.0 * s) <= tolerance {
            return Outcome {
                found: true,
                sweeps: k,
                rotations,
            };
        }
        rotations += sweep(a, v, n);
    }
    Outcome {
        found: false,
        sweeps: limit,
        rotations,
    }
}

// ---- the decomposition

// What the sweeps begin with: VᵀAV at V = I, for A over its largest size, averaged with its
// transpose. The products with I only turn -0 into +0, as adding +0 does.
fn start(a: &[f64], n: usize, scale: f64, out: &mut [f64])
    requires { (length a.now ≡ n * n) × (length out.old ≡ n * n) × ((i j : ℕ) → i < n → j < n → T (is_finite (at a.now n i j ⊘ scale))) }
    ensures { out.new ≡ Jacobi.start n scale (at a.now n) }
{
    for (k, z) in out.iter_mut().enumerate() {
        let i = k / n;
        let j = k % n;
        let x = 0.0 + get(a, n, i, j) / scale;
        let y = 0.0 + get(a, n, j, i) / scale;
        *z = (x + y) * 0.5;
    }
}

// The decomposition of a finite matrix whose largest size, `scale`, is not 0.
fn turned(
    a: &[f64],
    n: usize,
    limit: usize,
    scale: f64,
    work: &mut [f64],
    values: &mut [f64],
    vectors: &mut [f64],
) -> Outcome
    requires { (n ≤ max_side) × (limit ≤ max_sweeps) × (length a.now ≡ n * n) × (length work.old ≡ n * n) × (length values.old ≡ n) × (length vectors.old ≡ n * n) × (all_finite n n (at a.now n) ≡ true) × (scale ≡ Matrix.amax n n (at a.now n)) × (eq scale zero⁺ ≡ false) }
    ensures { decomposed result.found values.new vectors.new result.sweeps result.rotations ≡ Jacobi.scaled_back n scale (Jacobi.swept limit n (Jacobi.start n scale (at a.now n))) }
{
    start(a, n, scale, work);
    tables::put_identity(vectors, n);
    let tolerance = leaves::numbers::EPSILON * leaves::root::sqrt(squares(work, n));
    let w = sweeping(work, vectors, n, limit, tolerance);
    tables::put_diagonal(work, n, scale, values);
    tables::flip(vectors, n, work);
    w
}

// Nothing turned: zeros and the identity.
pub fn unturned(n: usize, found: bool, values: &mut [f64], vectors: &mut [f64]) -> Outcome
    requires { (length values.old ≡ n) × (length vectors.old ≡ n * n) }
    ensures { decomposed result.found values.new vectors.new result.sweeps result.rotations ≡ Jacobi.unturned n found }
{
    values.fill(0.0);
    tables::put_identity(vectors, n);
    Outcome {
        found,
        sweeps: 0,
        rotations: 0,
    }
}

// `decompose`, with `work` to reckon in.
fn decompose_in(
    a: &[f64],
    n: usize,
    limit: usize,
    work: &mut [f64],
    values: &mut [f64],
    vectors: &mut [f64],
) -> Outcome
    requires { (n ≤ max_side) × (limit ≤ max_sweeps) × (length a.now ≡ n * n) × (length work.old ≡ n * n) × (length values.old ≡ n) × (length vectors.old ≡ n * n) }
    ensures { decomposed result.found values.new vectors.new result.sweeps result.rotations ≡ Jacobi.decompose limit n (at a.now n) }
{
    let scale = amax(a, n, n);
    if all_finite(a, n, n) {
        if scale == 0.0 {
            return unturned(n, true, values, vectors);
        }
        return turned(a, n, limit, scale, work, values, vectors);
    }
    unturned(n, false, values, vectors)
}

// A = V diag(values) Vᵀ for a symmetric A: the values and V, if they are found, and the sweeps and rotations made.
pub fn decompose(
    a: &[f64],
    n: usize,
    limit: usize,
    values: &mut [f64],
    vectors: &mut [f64],
) -> Outcome
    requires { (n ≤ max_side) × (limit ≤ max_sweeps) × (length a.now ≡ n * n) × (length values.old ≡ n) × (length vectors.old ≡ n * n) }
    ensures { decomposed result.found values.new vectors.new result.sweeps result.rotations ≡ Jacobi.decompose limit n (at a.now n) }
{
    let mut work = [0.0; crate::MAX_SIDE * crate::MAX_SIDE];
    let size = n * n;
    decompose_in(a, n, limit, &mut work[..size], values, vectors)
}
