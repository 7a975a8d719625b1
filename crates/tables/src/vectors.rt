// Loops over the numbers of slices of one length. Those over several slices count an index: it is what their invariants speak of.
ghost use Rattle.std.specs.Prelude.{◌≡◌, ℕ, ◌+◌, ◌≤◌, length, Float};
ghost use Rattle.leaves.specs.Numbers.{◌⊕◌, ◌⊖◌, ◌⊗◌, ◌⊘◌};
ghost use Rattle.leaves.specs.Loops.{loop, tab, nth};
ghost use Rattle.matrix.specs.Limits.{max_side};
ghost use Rattle.rules.specs.LedoitWolf.{distance²};
ghost use Rattle.tables.specs.Rows.{stored};

// std's `fill`, said by `tab`.
pub fn fill(x: f64, out: &mut [f64])
    ensures { out.new ≡ tab (length out.old) (λ (k : ℕ). x) }
{
    out.fill(x);
}

pub fn divide(x: f64, out: &mut [f64])
    ensures { out.new ≡ tab (length out.old) (λ (k : ℕ). nth out.old k ⊘ x) }
{
    for y in out.iter_mut() {
        *y = *y / x;
    }
}

pub fn times(a: f64, out: &mut [f64])
    ensures { out.new ≡ tab (length out.old) (λ (k : ℕ). a ⊗ nth out.old k) }
{
    for y in out.iter_mut() {
        *y = a * *y;
    }
}

pub fn subtract_from(xs: &[f64], out: &mut [f64])
    requires { length xs.now ≡ length out.old }
    ensures { out.new ≡ tab (length out.old) (λ (k : ℕ). nth xs.now k ⊖ nth out.old k) }
{
    for k in 0..out.len() {
        out[k] = xs[k] - out[k];
    }
}

pub fn add_times(a: f64, xs: &[f64], out: &mut [f64])
    requires { length xs.now ≡ length out.old }
    ensures { out.new ≡ tab (length out.old) (λ (k : ℕ). nth out.old k ⊕ a ⊗ nth xs.now k) }
{
    for k in 0..out.len() {
        out[k] = out[k] + a * xs[k];
    }
}

// The products of K numbers with K rows, from column `from` on, added, the first row's first.
pub(crate) fn add_products<const K: usize>(
    a: &[f64; K],
    d: &[[f64; matrix::MAX_SIDE]; K],
    from: usize,
    out: &mut [f64],
)
    requires { from + length out.old ≤ max_side }
    ensures { out.new ≡ tab (length out.old) (λ (k : ℕ). loop K (λ (j : ℕ) (v : Float). v ⊕ nth a.now j ⊗ stored d.now j (from + k)) (nth out.old k)) }
{
    for k in 0..out.len() {
        let mut v = out[k];
        for j in 0..K {
            v = v + a[j] * d[j][from + k];
        }
        out[k] = v;
    }
}

// The squared distances of the products from the numbers of s that begin at `begin`, added.
pub(crate) fn add_squares<const K: usize>(
    a: &[f64; K],
    d: &[[f64; matrix::MAX_SIDE]; K],
    from: usize,
    s: &[f64],
    begin: usize,
    out: &mut [f64],
)
    requires { (from + length out.old ≤ max_side) × (begin + length out.old ≤ length s.now) }
    ensures { out.new ≡ tab (length out.old) (λ (k : ℕ). loop K (λ (j : ℕ) (v : Float). v ⊕ distance² (nth a.now j ⊗ stored d.now j (from + k)) (nth s.now (begin + k))) (nth out.old k)) }
{
    for k in 0..out.len() {
        let m = s[begin + k];
        let mut v = out[k];
        for j in 0..K {
            let e = a[j] * d[j][from + k] - m;
            v = v + e * e;
        }
        out[k] = v;
    }
}
