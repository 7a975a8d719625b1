// One Jacobi rotation (eigen.rs, `rotate`).
ghost use Rattle.std.specs.Prelude.{◌≡◌, ℕ, ◌*◌, ◌<◌, length};
ghost use Rattle.matrix.specs.Rotation as Rotation;
ghost use Rattle.matrix.specs.Inner as Inner;
ghost use Rattle.matrix.specs.Inner.{state, counted};
ghost use Rattle.matrix.specs.Rotation.{turned_both};

use crate::entries::{get, put};

// Numbers i and j turned by the angle whose cosine is c and whose sine is s.
fn turn(a: &mut [f64], i: usize, j: usize, c: f64, s: f64)
    requires { (i < length a.old) × (j < length a.old) }
    ensures { a.new ≡ Rotation.turn c s i j a.old }
{
    let x = a[i];
    let y = a[j];
    a[i] = c * x - s * y;
    a[j] = s * x + c * y;
}

// Columns and rows stay two functions: one for both would be no plainer, with two bases and a stride in place of p and q.
fn turn_columns(a: &mut [f64], n: usize, p: usize, q: usize, c: f64, s: f64)
    requires { (p < n) × (q < n) × (length a.old ≡ n * n) }
    ensures { a.new ≡ Rotation.turn_columns n p q c s a.old }
{
    for k in 0..n {
        let base = k * n;
        turn(a, base + p, base + q, c, s);
    }
}

pub(crate) fn turn_rows(a: &mut [f64], n: usize, p: usize, q: usize, c: f64, s: f64)
    requires { (p < n) × (q < n) × (length a.old ≡ n * n) }
    ensures { a.new ≡ Rotation.turn_rows n p q c s a.old }
{
    let pn = p * n;
    let qn = q * n;
    for k in 0..n {
        turn(a, pn + k, qn + k, c, s);
    }
}

// Columns and rows p and q turned, and 0 at (p, q) and (q, p).
fn turn_both(a: &mut [f64], n: usize, p: usize, q: usize, c: f64, s: f64)
    requires { (p < n) × (q < n) × (length a.old ≡ n * n) }
    ensures { a.new ≡ turned_both n p q c s a.old }
{
    turn_columns(a, n, p, q, c, s);
    turn_rows(a, n, p, q, c, s);
    put(a, n, p, q, 0.0);
    put(a, n, q, p, 0.0);
}

fn tangent(tau: f64) -> f64
    ensures { result ≡ Rotation.tangent tau }
{
    let size = leaves::numbers::abs(tau);
    if size > 1e150 {
        0.5 / tau
    } else {
        leaves::numbers::signum(tau) / (size + leaves::root::sqrt(tau * tau + 1.0))
    }
}

// The tangent of the rotation at p and q.
fn tangent_at(a: &[f64], n: usize, p: usize, q: usize) -> f64
    requires { (p < n) × (q < n) × (length a.now ≡ n * n) }
    ensures { result ≡ Rotation.tangent_at n p q a.now }
{
    let x = get(a, n, p, p);
    let y = get(a, n, p, q);
    let z = get(a, n, q, q);
    tangent((z - x) / (2.0 * y))
}

// The cosine and the sine of the rotation at p and q; None at an entry 0.
pub(crate) fn angle_at(a: &[f64], n: usize, p: usize, q: usize) -> Option<(f64, f64)>
    requires { (p < n) × (q < n) × (length a.now ≡ n * n) }
    ensures { result ≡ Inner.angle_at n p q a.now }
{
    if get(a, n, p, q) == 0.0 {
        return None;
    }
    let t = tangent_at(a, n, p, q);
    let c = 1.0 / leaves::root::sqrt(t * t + 1.0);
    Some((c, t * c))
}

// A ← JᵀAJ and V ← VJ for the rotation J that zeroes entry p, q of A. Nothing is done at an entry 0. Whether it turned.
pub fn rotate(a: &mut [f64], v: &mut [f64], n: usize, p: usize, q: usize) -> bool
    requires { (p < n) × (q < n) × (length a.old ≡ n * n) × (length v.old ≡ n * n) }
    ensures { (k : ℕ) → state a.new v.new (counted result k) ≡ Rotation.rotate n p q (state a.old v.old k) }
{
    match angle_at(a, n, p, q) {
        None => false,
        Some((c, s)) => {
            turn_both(a, n, p, q, c, s);
            turn_columns(v, n, p, q, c, s);
            true
        }
    }
}
