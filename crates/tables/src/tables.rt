// Tables of sums over periods, added up with the period outermost, four periods at a time: each entry's sum still runs from the first period to
// the last, and the inner loops run along rows. Of a symmetric table half is added up, and mirrored.
ghost use Rattle.std.specs.Prelude.{◌≡◌, ℕ, ◌+◌, ◌*◌, ◌<◌, ◌≤◌, length, if◌then◌else◌, nat_eq, Float};
ghost use Rattle.leaves.specs.Numbers.{◌⊕◌};
ghost use Rattle.leaves.specs.Loops.{loop, tab, nth};
ghost use Rattle.matrix.specs.Limits.{max_side};
ghost use Rattle.matrix.specs.Matrix.{at, rows};
ghost use Rattle.tables.specs.Rows as Spec;
ghost use Rattle.tables.specs.Rows.{matrix_of, stored, joined, plus, plus_all, summed, mirrored, mirrored_to, Sized};

use crate::returns::Rows;
use crate::vectors;

// What a period adds to an entry: a product of two numbers of its row, the square of that product's distance from s, or a summand of θ.
// An enum and not a closure: the definitions of the sums are by its cases, and the inner loops are chosen outside of them.
#[derive(Clone, Copy)]
pub(crate) enum Term {
    Product,
    Variation,
    Covariation,
}

// The last multiple of 4 up to i.
fn aligned(i: usize) -> usize
    ensures { result ≡ Spec.aligned i }
{
    i - i % 4
}

// The first column of row i that is added up.
fn first_column(term: Term, i: usize) -> usize
    ensures { result ≡ Spec.first_column term i }
{
    match term {
        Term::Product => aligned(i),
        Term::Variation => aligned(i),
        Term::Covariation => 0,
    }
}

// The factor that the summands of row i share.
fn factor(term: Term, i: usize, n: usize, d: &[f64], s: &[f64]) -> f64
    requires { (i < n) × (n ≤ length d.now) × Sized term (n * n) s.now }
    ensures { result ≡ Spec.factor term (at s.now n) (nth d.now) i }
{
    let x = d[i];
    match term {
        Term::Product => x,
        Term::Variation => x,
        Term::Covariation => (x * x - s[i * n + i]) * x,
    }
}

// The factors of K rows.
fn factors<const K: usize>(
    term: Term,
    i: usize,
    n: usize,
    d: &[[f64; matrix::MAX_SIDE]; K],
    s: &[f64],
) -> [f64; K]
    requires { (i < n) × (n ≤ max_side) × Sized term (n * n) s.now }
    ensures { result ≡ tab K (λ (j : ℕ). Spec.factor term (at s.now n) (stored d.now j) i) }
{
    let mut a = [0.0; K];
    for j in 0..K {
        a[j] = factor(term, i, n, &d[j], s);
    }
    a
}

// The summands of K rows from column `from` on, where the numbers of s begin at `begin`, added, the first row's first.
fn add_terms<const K: usize>(
    term: Term,
    a: &[f64; K],
    d: &[[f64; matrix::MAX_SIDE]; K],
    from: usize,
    s: &[f64],
    begin: usize,
    out: &mut [f64],
)
    requires { (from + length out.old ≤ max_side) × Sized term (begin + length out.old) s.now }
    ensures { out.new ≡ tab (length out.old) (λ (k : ℕ). loop K (λ (j : ℕ) (v : Float). v ⊕ joined term (nth a.now j) (stored d.now j (from + k)) (nth s.now (begin + k))) (nth out.old k)) }
{
    match term {
        Term::Product => {
            vectors::add_products(a, d, from, out);
        }
        Term::Variation => {
            vectors::add_squares(a, d, from, s, begin, out);
        }
        Term::Covariation => {
            vectors::add_products(a, d, from, out);
        }
    }
}

// Row i of the table, with K rows added.
#[tactic(auto, using(crate::proofs::Sums::row_room))]
fn add_row<const K: usize>(
    term: Term,
    i: usize,
    n: usize,
    d: &[[f64; matrix::MAX_SIDE]; K],
    s: &[f64],
    out: &mut [f64],
)
    requires { (i < n) × (n ≤ max_side) × Sized term (n * n) s.now × (length out.old ≡ n * n) }
    ensures { out.new ≡ rows n n (λ (p q : ℕ). (if nat_eq p i then plus_all K term (at s.now n) (stored d.now) p q (at out.old n p q) else at out.old n p q)) }
{
    let a = factors(term, i, n, d, s);
    let from = first_column(term, i);
    let base = i * n;
    let begin = base + from;
    let end = base + n;
    add_terms(term, &a, d, from, s, begin, &mut out[begin..end]);
}

// The table, with K rows added.
fn add_rows<const K: usize>(
    term: Term,
    n: usize,
    d: &[[f64; matrix::MAX_SIDE]; K],
    s: &[f64],
    out: &mut [f64],
)
    requires { (n ≤ max_side) × Sized term (n * n) s.now × (length out.old ≡ n * n) }
    ensures { out.new ≡ rows n n (λ (p q : ℕ). plus_all K term (at s.now n) (stored d.now) p q (at out.old n p q)) }
{
    for i in 0..n {
        add_row(term, i, n, d, s, out);
    }
}

// The table, with the rows of K periods from t on added. `d` is to form them in.
fn add_periods<const K: usize>(
    term: Term,
    z: &Rows,
    t: usize,
    d: &mut [[f64; matrix::MAX_SIDE]; K],
    s: &[f64],
    out: &mut [f64],
)
    requires { (t + K ≤ z.now.returns.periods) × Sized term (z.now.returns.assets * z.now.returns.assets) s.now × (length out.old ≡ z.now.returns.assets * z.now.returns.assets) }
    ensures { out.new ≡ rows z.now.returns.assets z.now.returns.assets (λ (p q : ℕ). plus_all K term (at s.now z.now.returns.assets) (λ (j : ℕ). matrix_of z.now (t + j)) p q (at out.old z.now.returns.assets p q)) }
{
    let n = z.returns.assets;
    for j in 0..K {
        z.form(t + j, &mut d[j]);
    }
    add_rows(term, n, d, s, out);
}

// The sums of all periods, of the columns that are added up; the others stay +0.
pub(crate) fn sum(term: Term, z: &Rows, s: &[f64], out: &mut [f64])
    requires { Sized term (z.now.returns.assets * z.now.returns.assets) s.now × (length out.old ≡ z.now.returns.assets * z.now.returns.assets) }
    ensures { out.new ≡ summed z.now.returns.assets (λ (t : ℕ). plus term (at s.now z.now.returns.assets) (matrix_of z.now t)) z.now.returns.periods }
{
    let periods = z.returns.periods;
    let mut four = [[0.0; matrix::MAX_SIDE]; 4];
    let mut one = [[0.0; matrix::MAX_SIDE]; 1];
    vectors::fill(0.0, out);
    for group in 0..periods / 4 {
        add_periods(term, z, 4 * group, &mut four, s, out);
    }
    for t in periods / 4 * 4..periods {
        add_periods(term, z, t, &mut one, s, out);
    }
}

// Row i left of the diagonal becomes column i above it.
fn mirror_row(n: usize, i: usize, out: &mut [f64])
    requires { (i < n) × (length out.old ≡ n * n) }
    ensures { out.new ≡ rows n n (mirrored_to n i i out.old) }
{
    let base = i * n;
    for j in 0..i {
        out[base + j] = out[j * n + i];
    }
}

// Each entry below the diagonal becomes the one above it.
pub(crate) fn mirror(n: usize, out: &mut [f64])
    requires { length out.old ≡ n * n }
    ensures { out.new ≡ rows n n (mirrored n out.old) }
{
    for i in 0..n {
        mirror_row(n, i, out);
    }
}
